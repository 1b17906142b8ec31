// One section of a seat of the domain.
ghost use Rattle.std.specs.Prelude.{◌≡◌, ◌≤◌, ◌*◌, length};
ghost use Rattle.mv_history.specs.Calls.{Continues};
ghost use Rattle.mvrlu.specs.Meant.{seat_of, IsSeatOf};
ghost use Rattle.section_work.specs.Sections.{TriesOne};
ghost use Rattle.set_catalog.specs.Shortages.{IsKnown};
ghost use Rattle.set_seats.specs.Calls.{Attempted, AttemptedBlock, Tidies, Counts, WalksOver};

use crate::single::{Remembered, Single};
use crate::walk::{KeyValue, Walked, walk_in};
use log_reclaim::Tidy;
use mv_history::LogTable;
use mvrlu::{Domain, Seat};
use section_work::{Attempt, attempt_work};
use set_blocks::{Block, BlockAttempt, BlockRules, attempt_block};
use set_catalog::CommandAttempt;
use set_model::{Command, Name};

// Attempts a command on a seat of the domain.
#[inline(always)]
pub(crate) fn attempt_in(
    domain: &Domain<BlockRules>,
    seat: Seat<BlockRules>,
    remembered: &mut Remembered,
    command: &Command,
) -> (Seat<BlockRules>, CommandAttempt)
    requires of { IsSeatOf domain.now seat }
    requires room { 40 ≤ (seat_of seat).write_max }
    requires known { IsKnown (seat_of seat) remembered.old.memo.known }
    ensures of { IsSeatOf domain.now result.0 }
    ensures room { 40 ≤ (seat_of result.0).write_max }
    ensures attempted { Attempted (seat_of seat) (seat_of result.0) command.now result.1 }
    ensures continues { Continues (seat_of seat) (seat_of result.0) }
    ensures at_most_one { TriesOne (seat_of seat) (seat_of result.0) }
    ensures known { IsKnown (seat_of result.0) remembered.new.memo.known }
{
    let work = Single { command: *command };
    let (handle, tried) = attempt_work(domain.handle(seat), &work, remembered);
    let seat = handle.into_seat();
    match tried {
        Attempt::Done {
            reply: answer,
            place,
        } => {
            remembered.note(place);
            let reply = answer.get();
            (seat, CommandAttempt::Done { reply, place })
        }
        Attempt::Again(cause) => (seat, CommandAttempt::Again(cause)),
    }
}

// Attempts a block on a seat of the domain.
pub(crate) fn attempt_block_in(
    domain: &Domain<BlockRules>,
    seat: Seat<BlockRules>,
    remembered: &Remembered,
    block: &Block,
) -> (Seat<BlockRules>, BlockAttempt)
    requires of { IsSeatOf domain.now seat }
    requires room { 40 ≤ (seat_of seat).write_max }
    requires known { IsKnown (seat_of seat) remembered.now.memo.known }
    ensures of { IsSeatOf domain.now result.0 }
    ensures room { 40 ≤ (seat_of result.0).write_max }
    ensures known { IsKnown (seat_of result.0) remembered.now.memo.known }
    ensures attempted { AttemptedBlock (seat_of seat) (seat_of result.0) block.now result.1 }
    ensures continues { Continues (seat_of seat) (seat_of result.0) }
    ensures at_most_one { TriesOne (seat_of seat) (seat_of result.0) }
{
    has_few(block);
    let (handle, answer) = attempt_block(domain.handle(seat), block);
    (handle.into_seat(), answer)
}

// Walks over a set on a seat of the domain.
pub(crate) fn walk_on(
    domain: &Domain<BlockRules>,
    seat: Seat<BlockRules>,
    remembered: &mut Remembered,
    name: Name,
    from: u32,
    entries: &mut [KeyValue],
) -> (Seat<BlockRules>, Walked)
    requires of { IsSeatOf domain.now seat }
    requires room { 40 ≤ (seat_of seat).write_max }
    requires known { IsKnown (seat_of seat) remembered.old.memo.known }
    ensures of { IsSeatOf domain.now result.0 }
    ensures room { 40 ≤ (seat_of result.0).write_max }
    ensures walked { WalksOver name from entries.old entries.new (seat_of seat) (seat_of result.0) result.1 }
    ensures continues { Continues (seat_of seat) (seat_of result.0) }
    ensures known { IsKnown (seat_of result.0) remembered.new.memo.known }
{
    let handle = domain.handle(seat);
    let (handle, walked) = walk_in(handle, &mut remembered.memo, name, from, entries);
    (handle.into_seat(), walked)
}

// Reclaims what it can of the log of a seat of the domain.
pub(crate) fn tidy_in(
    domain: &Domain<BlockRules>,
    seat: Seat<BlockRules>,
    remembered: &Remembered,
) -> (Seat<BlockRules>, Tidy)
    requires of { IsSeatOf domain.now seat }
    requires room { 40 ≤ (seat_of seat).write_max }
    requires known { IsKnown (seat_of seat) remembered.now.memo.known }
    ensures of { IsSeatOf domain.now result.0 }
    ensures room { 40 ≤ (seat_of result.0).write_max }
    ensures known { IsKnown (seat_of result.0) remembered.now.memo.known }
    ensures tidies { Tidies seat result.0 result.1 }
    ensures continues { Continues (seat_of seat) (seat_of result.0) }
{
    let mut handle = domain.handle(seat);
    let tidy = handle.tidy();
    (handle.into_seat(), tidy)
}

// The counts of the log of a seat of the domain.
pub(crate) fn count_in(
    domain: &Domain<BlockRules>,
    seat: Seat<BlockRules>,
) -> (Seat<BlockRules>, LogTable)
    requires of { IsSeatOf domain.now seat }
    ensures same { seat_of result.0 ≡ seat_of seat }
    ensures counts { Counts seat result.1 }
{
    let handle = domain.handle(seat);
    let table = handle.table();
    (handle.into_seat(), table)
}

// What a block's type says of its length, as a fact.
fn has_few(block: &Block)
    ensures { 5 * length block.now ≤ 40 }
{
    block.commands();
}
