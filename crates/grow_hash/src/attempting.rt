// One command on a growing hash set as one section of a store.
ghost use Rattle.std.specs.Prelude.{◌≡◌, ◌≤◌};
ghost use Rattle.mv_history.specs.Calls.{Continues};
ghost use Rattle.section_work.specs.Sections.{TriesOne};
ghost use Rattle.section_work.specs.Causes.{causes};
ghost use Rattle.section_work.specs.Steps.{IsStepped};
ghost use Rattle.grow_hash.specs.GrowPlans.{IsOfGrown, grow_locks};
ghost use Rattle.grow_hash.specs.GrowAttempts.{GrowAttempted, as_work};

use crate::attempt::GrowStep;
use crate::grow_work::GrowWork;
use crate::rules::GrowingRules;
use mv_history::Store;
use section_work::{Attempt, attempt_work};
use set_model::{Command, Reply};
use std::marker::PhantomData;

/// Attempts a command of a growing hash set in one section of the store, and gives the store back.
///
/// It needs an add, a del, a has, a size or a next of `h0`, and a `write_max` of at least 2. It never waits or tries again
/// by itself, and takes no memory. It walks along the bucket of the key once; a `next` searches each bucket, a `size` reads
/// each object at most once, and an add looks for a vacant node. It enters one section, and a second one only where its
/// commit found no time left; a command that changes nothing locks nothing.
///
/// - `Done` at a `Place::Commit`: the command changed the set, by one commit of that printed time, and the reply is that of
///   the set just before it.
/// - `Done` at a `Place::Read`: the command changes nothing at that printed time, which is that of a section that this call
///   entered, and the reply is that of the set there: `No` or what was asked for, `Full` where no node is vacant, and `Worn`
///   where no time is left for the change.
/// - `Again`: the command would change something at the time of the section that this call entered, which isn't the last
///   one. A lock of an object that it locks or the commit was refused, for an entry or a seat that was met in this call; or
///   this call's `prepare` found no room for a write set in the seat's log. No commit was made, nothing is held, and the seat
///   is outside a section; rests may have been made for room.
///
/// A split of the key's bucket by another seat is such an entry: it writes each object of the bucket, so an add or a del
/// there that was planned before it is refused.
pub fn attempt_grow<const LEVELS: u32, R: GrowingRules<LEVELS>, S: Store<Rules = R>>(
    store: S,
    command: &Command,
) -> (S, GrowStep)
    requires command { IsOfGrown command.now }
    requires most { grow_locks ≤ (S.seat_of store).write_max }
    ensures attempted { let shows = causes S.Open.may_refuse S.Open.has_trail S.took S.holds_back S.Open.found_held S.Open.loaded in
        GrowAttempted LEVELS shows (S.seat_of store) (S.seat_of result.0) command.now result.1 }
    ensures steps { let shows = causes S.Open.may_refuse S.Open.has_trail S.took S.holds_back S.Open.found_held S.Open.loaded in
        IsStepped S.Open.section S.Open.as_before shows (S.seat_of store) (S.seat_of result.0) (as_work result.1) }
    ensures continues { Continues (S.seat_of store) (S.seat_of result.0) }
    ensures at_most_one { TriesOne (S.seat_of store) (S.seat_of result.0) }
{
    let work: GrowWork<LEVELS, R> = GrowWork {
        command: *command,
        rules: PhantomData,
    };
    let mut nothing = ();
    let (store, attempt) = attempt_work(store, &work, &mut nothing);
    let step = step_of(attempt);
    (store, step)
}

// The answer of the command's work.
fn step_of(attempt: Attempt<Reply>) -> GrowStep
    ensures { as_work result ≡ attempt }
{
    match attempt {
        Attempt::Done { reply, place } => GrowStep::Done { reply, place },
        Attempt::Again(cause) => GrowStep::Again(cause),
    }
}
