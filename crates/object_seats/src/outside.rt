// Calls for a seat outside a section.
ghost use Rattle.object_seats.specs.Positions.{IsOf, aborts_at};
ghost use Rattle.object_seats.specs.Calls.{Enters, MakesRoom, Tidies, TellsGrace, Counts};
ghost use Rattle.mvrlu.specs.Meant.{IsSeatOf};
ghost use Rattle.std.specs.Prelude.{◌≡◌};

use crate::position::{Misuse, Position};
use log_reclaim::Tidy;
use mv_history::{AnyRules, LogTable, Room, Section, Store};
use mvrlu::{Domain, Seat};

// Begins a section.
#[inline(always)]
pub(crate) fn enter_in(
    domain: &Domain<AnyRules>,
    position: Position,
) -> (Position, Result<(), Misuse>)
    requires of { IsOf domain.now position }
    ensures of { IsOf domain.now result.0 }
    ensures enters { Enters position result.0 result.1 }
    ensures aborts { aborts_at result.0 ≡ aborts_at position }
{
    match position {
        Position::Inside(section) => (Position::Inside(section), Err(Misuse::Inside)),
        Position::Outside(seat) => {
            let section = domain.handle(seat).enter();
            (Position::Inside(section.park()), Ok(()))
        }
    }
}

// Makes room in the log for one section.
pub(crate) fn prepare_in(
    domain: &Domain<AnyRules>,
    position: Position,
) -> (Position, Result<Room, Misuse>)
    requires of { IsOf domain.now position }
    ensures of { IsOf domain.now result.0 }
    ensures makes_room { MakesRoom position result.0 result.1 }
    ensures aborts { aborts_at result.0 ≡ aborts_at position }
{
    match position {
        Position::Inside(section) => (Position::Inside(section), Err(Misuse::Inside)),
        Position::Outside(seat) => {
            let mut handle = domain.handle(seat);
            let room = handle.prepare();
            (Position::Outside(handle.into_seat()), Ok(room))
        }
    }
}

// Reclaims what it can of the log.
pub(crate) fn tidy_in(
    domain: &Domain<AnyRules>,
    position: Position,
) -> (Position, Result<Tidy, Misuse>)
    requires of { IsOf domain.now position }
    ensures of { IsOf domain.now result.0 }
    ensures tidies { Tidies position result.0 result.1 }
    ensures aborts { aborts_at result.0 ≡ aborts_at position }
{
    match position {
        Position::Inside(section) => (Position::Inside(section), Err(Misuse::Inside)),
        Position::Outside(seat) => {
            let mut handle = domain.handle(seat);
            let tidy = handle.tidy();
            (Position::Outside(handle.into_seat()), Ok(tidy))
        }
    }
}

// Tells a time that no section of the domain is below any more.
pub(crate) fn grace_in(
    domain: &Domain<AnyRules>,
    position: Position,
) -> (Position, Result<u64, Misuse>)
    requires of { IsOf domain.now position }
    ensures of { IsOf domain.now result.0 }
    ensures tells { TellsGrace position result.0 result.1 }
    ensures aborts { aborts_at result.0 ≡ aborts_at position }
{
    match position {
        Position::Inside(section) => (Position::Inside(section), Err(Misuse::Inside)),
        Position::Outside(seat) => {
            let mut handle = domain.handle(seat);
            let time = handle.grace();
            (Position::Outside(handle.into_seat()), Ok(time))
        }
    }
}

// The counts of the log.
pub(crate) fn count_in(
    domain: &Domain<AnyRules>,
    position: Position,
) -> (Position, Result<LogTable, Misuse>)
    requires of { IsOf domain.now position }
    ensures of { IsOf domain.now result.0 }
    ensures counts { Counts position result.0 result.1 }
    ensures aborts { aborts_at result.0 ≡ aborts_at position }
{
    match position {
        Position::Inside(section) => (Position::Inside(section), Err(Misuse::Inside)),
        Position::Outside(seat) => {
            let handle = domain.handle(seat);
            let table = handle.table();
            (Position::Outside(handle.into_seat()), Ok(table))
        }
    }
}

// The seat outside. What its section holds is given up, if it is in one.
pub(crate) fn brought_out(domain: &Domain<AnyRules>, position: Position) -> Seat<AnyRules>
    requires of { IsOf domain.now position }
    ensures of { IsSeatOf domain.now result }
{
    match position {
        Position::Outside(seat) => seat,
        Position::Inside(section) => domain.resume(section).abort().into_seat(),
    }
}
