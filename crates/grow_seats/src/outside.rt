// One section of a seat of the domain.
ghost use Rattle.std.specs.Prelude.{◌≡◌, ◌≤◌};
ghost use Rattle.mv_history.specs.Calls.{Continues};
ghost use Rattle.mvrlu.specs.Meant.{seat_of, IsSeatOf};
ghost use Rattle.section_work.specs.Sections.{TriesOne};
ghost use Rattle.grow_seats.specs.Calls.{Attempted, Splits, Tidies, Counts};

use crate::command::GrowCommand;
use crate::opening::TABLE_LEVELS;
use grow_hash::{GrowRules, GrowStep, Split, attempt_grow, try_split};
use log_reclaim::Tidy;
use mv_history::LogTable;
use mvrlu::{Domain, Seat};

// Attempts a command on a seat of the domain.
pub(crate) fn attempt_in(
    domain: &Domain<GrowRules<TABLE_LEVELS>>,
    seat: Seat<GrowRules<TABLE_LEVELS>>,
    command: GrowCommand,
) -> (Seat<GrowRules<TABLE_LEVELS>>, GrowStep)
    requires of { IsSeatOf domain.now seat }
    requires room { 64 ≤ (seat_of seat).write_max }
    ensures of { IsSeatOf domain.now result.0 }
    ensures room { 64 ≤ (seat_of result.0).write_max }
    ensures attempted { Attempted (seat_of seat) (seat_of result.0) command result.1 }
    ensures continues { Continues (seat_of seat) (seat_of result.0) }
    ensures at_most_one { TriesOne (seat_of seat) (seat_of result.0) }
{
    let told = command.command();
    let (handle, step) = attempt_grow(domain.handle(seat), &told);
    (handle.into_seat(), step)
}

// Tries to split the next bucket on a seat of the domain.
pub(crate) fn split_in(
    domain: &Domain<GrowRules<TABLE_LEVELS>>,
    seat: Seat<GrowRules<TABLE_LEVELS>>,
) -> (Seat<GrowRules<TABLE_LEVELS>>, Split)
    requires of { IsSeatOf domain.now seat }
    requires room { 64 ≤ (seat_of seat).write_max }
    ensures of { IsSeatOf domain.now result.0 }
    ensures room { 64 ≤ (seat_of result.0).write_max }
    ensures tried { Splits (seat_of seat) (seat_of result.0) result.1 }
    ensures continues { Continues (seat_of seat) (seat_of result.0) }
    ensures at_most_one { TriesOne (seat_of seat) (seat_of result.0) }
{
    let (handle, split) = try_split(domain.handle(seat));
    (handle.into_seat(), split)
}

// Reclaims what it can of the log of a seat of the domain.
pub(crate) fn tidy_in(
    domain: &Domain<GrowRules<TABLE_LEVELS>>,
    seat: Seat<GrowRules<TABLE_LEVELS>>,
) -> (Seat<GrowRules<TABLE_LEVELS>>, Tidy)
    requires of { IsSeatOf domain.now seat }
    requires room { 64 ≤ (seat_of seat).write_max }
    ensures of { IsSeatOf domain.now result.0 }
    ensures room { 64 ≤ (seat_of result.0).write_max }
    ensures tidies { Tidies seat result.0 result.1 }
    ensures continues { Continues (seat_of seat) (seat_of result.0) }
{
    let mut handle = domain.handle(seat);
    let tidy = handle.tidy();
    (handle.into_seat(), tidy)
}

// The counts of the log of a seat of the domain.
pub(crate) fn count_in(
    domain: &Domain<GrowRules<TABLE_LEVELS>>,
    seat: Seat<GrowRules<TABLE_LEVELS>>,
) -> (Seat<GrowRules<TABLE_LEVELS>>, LogTable)
    requires of { IsSeatOf domain.now seat }
    ensures same { seat_of result.0 ≡ seat_of seat }
    ensures counts { Counts seat result.1 }
{
    let handle = domain.handle(seat);
    let table = handle.table();
    (handle.into_seat(), table)
}
