// One block as one section of a store.
ghost use Rattle.std.specs.Prelude.{◌*◌, ◌≤◌, length};
ghost use Rattle.mv_history.specs.Calls.{Continues};
ghost use Rattle.section_work.specs.Sections.{TriesOne};
ghost use Rattle.section_work.specs.Causes.{causes};
ghost use Rattle.section_work.specs.Steps.{IsStepped};
ghost use Rattle.set_blocks.specs.BlockAttempts.{BlockAttempted, as_work};

use crate::attempt::BlockAttempt;
use crate::block::Block;
use crate::rules::BlockRules;
use mv_history::Store;
use section_work::{Attempt, attempt_work};

/// Attempts a block in one section of the store, and gives the store back.
///
/// It needs a `write_max` of at least 5 for each of the block's commands, and tests `prepare` first, so that
/// no lock is refused for want of room. It never waits or tries again by itself, and takes no memory. It
/// enters one section, and a second one only where its commit found no time left; a block that changes
/// nothing locks nothing.
///
/// - `Done` at a `Place::Commit`: the block changed the catalogue, by one commit of that printed time, and the replies and
///   the change are those of the block on the catalogue just before it, whatever that is.
/// - `Done` at a `Place::Read`: the block changes nothing at that printed time, which is that of a section that this call
///   entered, and the replies are those of the block on the catalogue there: all `Full` where one of its commands is full at
///   its turn, and all `Worn` where no time is left for the change.
/// - `Again`: the block would change something at the time of the section that this call entered, which isn't the last
///   one. A lock of an object that it locks or holds, or the commit, was refused, for an entry or a seat that was met in
///   this call; or this call's `prepare` found no room for a write set in the seat's log. No commit was made, nothing is held,
///   and the seat is outside a section; rests may have been made for room.
pub fn attempt_block<S: Store<Rules = BlockRules>>(store: S, block: &Block) -> (S, BlockAttempt)
    requires most { 5 * length block.now ≤ (S.seat_of store).write_max }
    ensures attempted { let shows = causes S.Open.may_refuse S.Open.has_trail S.took S.holds_back S.Open.found_held S.Open.loaded in
        BlockAttempted shows (S.seat_of store) (S.seat_of result.0) block.now result.1 }
    ensures steps { let shows = causes S.Open.may_refuse S.Open.has_trail S.took S.holds_back S.Open.found_held S.Open.loaded in
        IsStepped S.Open.section S.Open.as_before shows (S.seat_of store) (S.seat_of result.0) (as_work result.1) }
    ensures continues { Continues (S.seat_of store) (S.seat_of result.0) }
    ensures at_most_one { TriesOne (S.seat_of store) (S.seat_of result.0) }
{
    let mut nothing = ();
    let (store, attempt) = attempt_work(store, block, &mut nothing);
    match attempt {
        Attempt::Done {
            reply: replies,
            place,
        } => (store, BlockAttempt::Done { replies, place }),
        Attempt::Again(cause) => (store, BlockAttempt::Again(cause)),
    }
}
