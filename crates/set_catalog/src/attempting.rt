// One command as one section of a store.
ghost use Rattle.std.specs.Prelude.{◌≡◌, ◌≤◌};
ghost use Rattle.section_work.specs.Causes.{causes};
ghost use Rattle.section_work.specs.Sections.{TriesOne};
ghost use Rattle.section_work.specs.Steps.{IsStepped};
ghost use Rattle.set_catalog.specs.Shortages.{IsKnown};
ghost use Rattle.set_catalog.specs.Steps.{most_locks, most_beside};
ghost use Rattle.set_catalog.specs.Attempts.{Attempted, HintsAfter, as_work};

use crate::answer::CommandAttempt;
use crate::command_work::CommandWork;
use crate::hints::Hints;
use crate::memo::Memo;
use crate::shortage::Shortage;
use hash_set::list_set::Fingers;
use mv_history::Store;
use section_work::{Attempt, attempt_work};
use set_model::{Command, SetRules};
use std::mem::replace;
use tree_balance::WritePlan;

/// Attempts a command, as [`attempt_with`] does with no hints.
pub fn attempt<S: Store<Rules = SetRules>>(store: S, command: &Command) -> (S, CommandAttempt)
    requires most { most_locks ≤ (S.seat_of store).write_max }
    ensures attempted { let shows = causes S.Open.may_refuse S.Open.has_trail S.took S.holds_back S.Open.found_held S.Open.loaded in
        Attempted shows (S.seat_of store) (S.seat_of result.0) command.now result.1 }
    ensures steps { let shows = causes S.Open.may_refuse S.Open.has_trail S.took S.holds_back S.Open.found_held S.Open.loaded in
        IsStepped S.Open.section S.Open.as_before shows (S.seat_of store) (S.seat_of result.0) (as_work result.1) }
    ensures at_most_one { TriesOne (S.seat_of store) (S.seat_of result.0) }
{
    attempt_with(store, &mut Hints::none(), command)
}

/// Attempts a command in one section of the store, and gives the store back.
///
/// It needs a `write_max` of at least 5: a command locks 5 objects at most. Only an add of a new key to a tree
/// in which the search for it passes more than 8 inner nodes, or a put of one, locks its own 4 and those of the
/// steps after it by which the tree stays short: `write_max` at most, and 16.
///
/// Vacant objects are looked for among the hints first; the objects that a del left vacant are noted once it
/// is done, and no hint is added that wasn't vacant in this call. It never waits or tries again by itself, and
/// takes no memory. It searches each set of the command once for its key; beside these walks it reads objects to
/// find vacant ones, and of an add to a tree the way of its search again, with what stands beside it. It enters
/// one section, and a second one only where its commit found no time left; a command that changes nothing
/// locks nothing.
///
/// - `Done` at a `Place::Commit`: the command changed the catalogue, by one commit of that printed
///   time, and the reply is that of the catalogue just before it.
/// - `Done` at a `Place::Read`: the command changes nothing at that printed time, which is that of a
///   section that this call entered, and the reply is that of the catalogue there: `No` or what was
///   asked for, `Full` where there are too few vacant nodes, and `Worn` where no time is left for
///   the change.
/// - `Again`: the command would change something at the time of the section that this call entered,
///   which isn't the last one. A lock of an object that it locks or the commit was refused, for an
///   entry or a seat that was met in this call; or this call's `prepare` found no room for a write
///   set in the seat's log. No commit was made, nothing is held, and the seat is outside a section;
///   rests may have been made for room.
///
/// At the last time `try_commit` can't commit any more; the attempt then answers in a new section
/// what the command comes to there.
pub fn attempt_with<S: Store<Rules = SetRules>>(
    store: S,
    hints: &mut Hints,
    command: &Command,
) -> (S, CommandAttempt)
    requires most { most_locks ≤ (S.seat_of store).write_max }
    ensures attempted { let shows = causes S.Open.may_refuse S.Open.has_trail S.took S.holds_back S.Open.found_held S.Open.loaded in
        Attempted shows (S.seat_of store) (S.seat_of result.0) command.now result.1 }
    ensures steps { let shows = causes S.Open.may_refuse S.Open.has_trail S.took S.holds_back S.Open.found_held S.Open.loaded in
        IsStepped S.Open.section S.Open.as_before shows (S.seat_of store) (S.seat_of result.0) (as_work result.1) }
    ensures noted { HintsAfter command.now hints.old hints.new (S.seat_of store) (S.seat_of result.0) result.1 }
    ensures at_most_one { TriesOne (S.seat_of store) (S.seat_of result.0) }
{
    let mut memo = Memo {
        hints: replace(hints, Hints::none()),
        fingers: Fingers::none(),
        known: Shortage::unknown(),
        plan: WritePlan::nothing(),
    };
    let (store, answer) = attempt_knowing(store, &mut memo, command);
    *hints = memo.hints;
    (store, answer)
}

// Attempts a command, as `attempt_with` does, with what is remembered of earlier sections of this store.
pub(crate) fn attempt_knowing<S: Store<Rules = SetRules>>(
    store: S,
    memo: &mut Memo,
    command: &Command,
) -> (S, CommandAttempt)
    requires most { most_locks ≤ (S.seat_of store).write_max }
    requires known { IsKnown (S.seat_of store) memo.old.known }
    ensures attempted { let shows = causes S.Open.may_refuse S.Open.has_trail S.took S.holds_back S.Open.found_held S.Open.loaded in
        Attempted shows (S.seat_of store) (S.seat_of result.0) command.now result.1 }
    ensures steps { let shows = causes S.Open.may_refuse S.Open.has_trail S.took S.holds_back S.Open.found_held S.Open.loaded in
        IsStepped S.Open.section S.Open.as_before shows (S.seat_of store) (S.seat_of result.0) (as_work result.1) }
    ensures noted { HintsAfter command.now memo.old.hints memo.new.hints (S.seat_of store) (S.seat_of result.0) result.1 }
    ensures at_most_one { TriesOne (S.seat_of store) (S.seat_of result.0) }
    ensures known { IsKnown (S.seat_of result.0) memo.new.known }
{
    let most = most_beside(store.write_max());
    let work = CommandWork {
        command: *command,
        most,
    };
    let (store, tried) = attempt_work(store, &work, memo);
    match tried {
        Attempt::Done {
            reply: answer,
            place,
        } => {
            memo.note(command, answer.gone, place);
            let reply = answer.reply;
            (store, CommandAttempt::Done { reply, place })
        }
        Attempt::Again(cause) => (store, CommandAttempt::Again(cause)),
    }
}

// How many objects an add to a tree may lock beside its own four, where a section may hold so many.
fn most_beside(write_max: u32) -> u32
    ensures { result ≡ most_beside write_max }
{
    let all = if write_max < 16 { write_max } else { 16 };
    all.saturating_sub(4)
}
