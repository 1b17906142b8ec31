// Meeting: all seats of a domain are joined, and its history is known whole.
ghost use Rattle.std.specs.Prelude.{◌≡◌, ◌+◌, ◌<◌, ◌≤◌, [], length, map, All, vec_capacity};
ghost use Rattle.object_lock.specs.mv_core.EnterSteps.{MayLoadLow};
ghost use Rattle.object_lock.specs.mv_core.Passes.{view, IsOf};
ghost use Rattle.mvrlu.specs.Holding.{AreTablesOf};
ghost use Rattle.mvrlu.specs.Joined.{AreJoining};
ghost use Rattle.mvrlu.specs.Meant.{numbers_of, opening_of, seat_of, whole_of};
ghost use Rattle.mvrlu.specs.Meeting.{AreAll, LawOfTheWhole, IsAtMostBehindOneOf};
ghost use Rattle.mvrlu.specs.Placed.{Fits};
ghost use Rattle.mvrlu.specs.Whole.{IsSound, AreApart, TellsTrails};

use crate::closing::{Closing, Last};
use crate::domain::{Domain, Seat};
use crate::places::{Idle, SeatState};
use mv_history::{LogTable, Protocol};
use object_lock::mv_core::{Pass, Shared, Steps};
use object_lock::reader_marks::enter;
use std::boxed::Box;
use std::marker::Brand;
use std::sync::ledger::{Blank, Ledger};

// The pass of a seat.
fn pass_of<P: Protocol>(shared: &Shared<P>, seat: Seat<P>) -> Pass<P>
    requires of { Fits shared.now seat.idle }
    ensures of { IsOf shared.now result }
    ensures view { view result ≡ seat.idle.view }
    ensures may { MayLoadLow (view result) }
{
    let Seat { idle } = seat;
    let Idle { place } = idle;
    let SeatState { pass, log: _ } = Box::into_inner(place);
    pass
}

// The table of each of these seats' logs, in their order. There is room for them. It takes no memory.
fn take_tables<P: Protocol>(seats: &[Seat<P>], mut tables: Vec<LogTable>) -> Vec<LogTable>
    requires none { length tables.items ≡ 0 }
    requires room { length seats.now ≤ vec_capacity tables }
    ensures taken { AreTablesOf (map seat_of seats.now) result.items }
{
    for seat in seats {
        tables.push_reserved(seat.idle.table());
    }
    tables
}

// Joins all these seats into the last of them.
fn join_all<P: Protocol, L: Ledger>(
    shared: &Shared<P>,
    mut seats: Vec<Seat<P>>,
    steps: &mut Steps<L>,
) -> Pass<P>
    requires some { 0 < length seats.items }
    requires of { All (λ s. Fits shared.now s.idle) seats.items }
    ensures of { IsOf shared.now result }
    ensures may { MayLoadLow (view result) }
    ensures joined { AreJoining seats.items [] (view result) }
    ensures cost { steps.new + 1 ≡ steps.old + length seats.items }
{
    let Some(first) = seats.pop() else {
        unreachable!()
    };
    let mut pass = pass_of(shared, first);
    while let Some(other) = seats.pop() {
        let other = pass_of(shared, other);
        shared.join(&mut pass, other, steps);
    }
    seats.destroy_empty();
    pass
}

// Meets, with a counter of steps.
fn meet_at<P: Protocol, L: Ledger>(
    domain: Domain<P>,
    seats: Vec<Seat<P>>,
    steps: &mut Steps<L>,
) -> Last<P>
    requires all { AreAll domain seats.items }
    ensures law { LawOfTheWhole P.start P.allowed seats.items result }
    ensures numbered { AreApart result }
    ensures tables { AreTablesOf (map seat_of seats.items) result.tables }
    ensures sound { IsSound result }
    ensures opening { (result.start ≡ opening_of domain) × (result.base ≡ (numbers_of domain).base) }
    ensures numbers { result.config ≡ numbers_of domain }
    ensures short { IsAtMostBehindOneOf seats.items result ((numbers_of domain).seats + 7) }
    ensures cost { steps.new ≤ steps.old + ((numbers_of domain).seats + 7) }
{
    let Domain { shared, room } = domain;
    let tables = take_tables(&seats, room);
    let mut pass = join_all(&shared, seats, steps);
    let _ = shared.load_joined(&mut pass, steps);
    let _ = enter(&shared, &mut pass, steps);
    let _ = shared.load_joined(&mut pass, steps);
    Last {
        pass,
        shared,
        tables,
    }
}

// Meets, with a counter of its own.
fn begin_meeting<P: Protocol, L: Ledger>(
    domain: Domain<P>,
    seats: Vec<Seat<P>>,
    blank: Blank,
) -> Last<P>
    requires name { blank.name ≡ L.name }
    requires parts { (blank.parts ≡ L.parts) × (0 < L.parts) }
    requires all { AreAll domain seats.items }
    ensures law { LawOfTheWhole P.start P.allowed seats.items result }
    ensures numbered { AreApart result }
    ensures tables { AreTablesOf (map seat_of seats.items) result.tables }
    ensures sound { IsSound result }
    ensures opening { (result.start ≡ opening_of domain) × (result.base ≡ (numbers_of domain).base) }
    ensures numbers { result.config ≡ numbers_of domain }
    ensures short { IsAtMostBehindOneOf seats.items result ((numbers_of domain).seats + 7) }
{
    meet_at(domain, seats, &mut Steps::<L>::open(blank))
}

impl<P: Protocol> Domain<P> {
    /// Ends the domain with all its seats, each once, and reads its last state.
    ///
    /// The law of the whole: whatever the seats have done, on however many threads, there is one
    /// history of it. It is legal and allowed by the client's rules from the opening state. Whatever a
    /// seat had seen at any time is a beginning of it. Each seat's commits stand in it, in order and
    /// each once, and so many of its rests; each entry is of one of the seats. The closing reads the
    /// state after that history, and has the numbers with which the domain was opened. It keeps the
    /// table of each seat's log, in the order of the seats that it was given (`Closing::tables`).
    ///
    /// The closing tells which seats met, with their steps: of each number one seat, with one trail.
    ///
    /// It never refuses and takes no memory: `open` took the room for the tables. It joins the seats,
    /// loads CLOCK, enters a section, which helps the last commit, and loads CLOCK again, in at most
    /// `seats + 7` steps: no seat is left that could make an entry between the two loads.
    pub fn meet(self, seats: Vec<Seat<P>>) -> Closing<P>
        requires all { AreAll self seats.items }
        ensures law { LawOfTheWhole P.start P.allowed seats.items (whole_of result) }
        ensures numbered { AreApart (whole_of result) }
        ensures trails { TellsTrails (whole_of result) }
        ensures tables { AreTablesOf (map seat_of seats.items) (whole_of result).tables }
        ensures opening { ((whole_of result).start ≡ opening_of self) × ((whole_of result).base ≡ (numbers_of self).base) }
        ensures numbers { (whole_of result).config ≡ numbers_of self }
        ensures short { IsAtMostBehindOneOf seats.items (whole_of result) ((numbers_of self).seats + 7) }
    {
        let last = begin_meeting::<P, Brand>(self, seats, Blank::new(1));
        Closing { last }
    }
}
