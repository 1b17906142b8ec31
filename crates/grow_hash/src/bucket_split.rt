// The split of one bucket as one section of a store.
ghost use Rattle.std.specs.Prelude.{◌≡◌, ◌≤◌};
ghost use Rattle.mv_history.specs.Calls.{Continues};
ghost use Rattle.section_work.specs.Sections.{TriesOne};
ghost use Rattle.section_work.specs.Causes.{causes};
ghost use Rattle.grow_hash.specs.SplitCalls.{most_writes};
ghost use Rattle.grow_hash.specs.SplitMeaning.{split_of};
ghost use Rattle.grow_hash.specs.SplitAttempts.{SplitTried, SplitStepped};

use crate::answer::Split;
use crate::rules::GrowingRules;
use crate::split_work::{Looked, SplitWork};
use mv_history::Store;
use section_work::{Attempt, Place, attempt_work};
use std::marker::PhantomData;

/// Splits the bucket at the split place in one section of the store, and gives the store back.
///
/// It needs a `write_max` of at least 64: a split locks and writes the table, the heads of both halves and each node of the
/// bucket. It reads the bucket once, into an array on the stack, and takes no memory. It never waits or tries again by itself.
/// It enters one section, and a second one only where its commit found no time left.
///
/// Its tests are on the state of a section that this call entered, which began with all that the seat had seen, in this order.
///
/// - `Whole` exactly where the level is `LEVELS - 4`, the greatest one.
/// - `Long` exactly where the bucket has more than 61 keys, with their number.
/// - `Worn` exactly where the section's time is the store's last one.
/// - `Again` where this call's `prepare` found no room for a write set in the seat's log, which `LogFull` says with what holds
///   it, or the lock of an object of the split or the commit was refused, for an entry or a seat that was met in this call.
/// - `Done`: the seat made one commit, of that printed time, with the tag `[7, p, 0, 0]` for the bucket p that was next to be
///   split just before it. The catalogue is as before, and there is one bucket more: 16, and one for each split up to then.
///
/// After every answer but `Done` the seat made no commit; rests may have been made for room. The seat is outside a section. A
/// commit that found no time left is answered by a second look, by the same tests.
///
/// The split of one bucket at a time is linear hashing (Litwin, VLDB 1980).
pub fn try_split<const LEVELS: u32, R: GrowingRules<LEVELS>, S: Store<Rules = R>>(
    store: S,
) -> (S, Split)
    requires most { most_writes ≤ (S.seat_of store).write_max }
    ensures tried { let shows = causes S.Open.may_refuse S.Open.has_trail S.took S.holds_back S.Open.found_held S.Open.loaded in
        SplitTried LEVELS shows (S.seat_of store) (S.seat_of result.0) result.1 }
    ensures steps { let shows = causes S.Open.may_refuse S.Open.has_trail S.took S.holds_back S.Open.found_held S.Open.loaded in
        SplitStepped S.Open.section S.Open.as_before shows (S.seat_of store) (S.seat_of result.0) result.1 }
    ensures continues { Continues (S.seat_of store) (S.seat_of result.0) }
    ensures at_most_one { TriesOne (S.seat_of store) (S.seat_of result.0) }
{
    let mut nothing = ();
    let work: SplitWork<LEVELS, R> = SplitWork { rules: PhantomData };
    let (store, attempt) = attempt_work(store, &work, &mut nothing);
    let split = answer(attempt);
    (store, split)
}

// The answer of the split's work.
fn answer(attempt: Attempt<Looked>) -> Split
    ensures { result ≡ split_of attempt }
{
    match attempt {
        Attempt::Done { reply, place } => match place {
            Place::Commit(time) => Split::Done { time },
            Place::Read(_) => match reply {
                Looked::Whole => Split::Whole,
                Looked::Long { keys } => Split::Long { keys },
                Looked::Splits | Looked::Worn => Split::Worn,
            },
        },
        Attempt::Again(cause) => Split::Again(cause),
    }
}
