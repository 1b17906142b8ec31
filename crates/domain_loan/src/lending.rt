// The loan of a domain to its seats, and back, and the meeting.
ghost use Rattle.std.specs.Prelude.{◌≡◌, ◌≤◌, [], List, length, map, All, IfOk, IfErr, vec_capacity};
ghost use Rattle.domain_loan.specs.Lending.{IsLeft};
ghost use Rattle.domain_loan.specs.Met.{AllContinue, HaveMet};
ghost use Rattle.domain_loan.specs.New.{AreNewFrom};
ghost use Rattle.mv_history.specs.Meaning as history;
ghost use Rattle.mvrlu.specs.Meant.{numbers_of, opening_of, seat_of, handled, whole_of, IsSeatOf};

use mv_history::Protocol;
use mvrlu::{Closing, Domain, Handle, Seat};
use std::alloc::{AllocError, Global};

/// What is left of seats that were lent: the row that they stood in.
pub struct Left<P: Protocol> {
    /// Room for the seats.
    pub seats: Vec<Seat<P>>,
}

/// Lends a domain to its seats, in their order.
///
/// The error is want of memory for the handles, and hands back the seats.
pub fn lend_all<'d, P: Protocol>(
    alloc: Global,
    domain: &'d Domain<P>,
    mut seats: Vec<Seat<P>>,
) -> Result<(Vec<Handle<'d, P>>, Left<P>), (Vec<Seat<P>>, AllocError)>
    requires own { All (λ seat. IsSeatOf domain.now seat) seats.items }
    ensures handles { IfOk result (λ lent. map handled lent.0.items ≡ map seat_of seats.items) }
    ensures left { IfOk result (λ lent. IsLeft lent.1 (length lent.0.items)) }
    ensures err { IfErr result (λ refused. refused.0 ≡ seats) }
{
    // A row of handles can't be let go, so nothing is refused from here on.
    let Ok(mut handles) = Vec::with_capacity(alloc, seats.len()) else {
        return Err((seats, AllocError));
    };
    lend(domain, &mut seats, &mut handles);
    Ok((handles, Left { seats }))
}

/// Takes back the seats, in the order of the handles. It takes no memory.
pub fn take_back<P: Protocol>(handles: Vec<Handle<'_, P>>, left: Left<P>) -> Vec<Seat<P>>
    requires left { IsLeft left (length handles.items) }
    ensures seats { map seat_of result.items ≡ map handled handles.entry.items }
{
    let Left { mut seats } = left;
    give_back(handles, &mut seats);
    seats
}

/// Lets all seats of a domain meet, in order of number, each gone on from the one that `open` gave. There is one history of
/// it all, each seat stands in it, and the closing has their tables (`HaveMet`). It never refuses and takes no memory.
pub fn meet_all<P: Protocol>(domain: Domain<P>, seats: Vec<Seat<P>>) -> Closing<P>
    requires gone_on { (firsts : List history.Seat) × AreNewFrom domain 0 firsts × AllContinue firsts (map seat_of seats.items) }
    requires all { length seats.items ≡ (numbers_of domain).seats }
    ensures met { (firsts : List history.Seat) → AreNewFrom domain 0 firsts → AllContinue firsts (map seat_of seats.items)
        → HaveMet P.allowed (numbers_of domain) (opening_of domain) firsts (map seat_of seats.items) (whole_of result) }
{
    domain.meet(seats)
}

// Lends the domain to its seats, in their order. There is room for their handles. It takes no memory.
fn lend<'d, P: Protocol>(
    domain: &'d Domain<P>,
    seats: &mut Vec<Seat<P>>,
    handles: &mut Vec<Handle<'d, P>>,
)
    requires own { All (λ seat. IsSeatOf domain.now seat) seats.old.items }
    requires none { handles.old.items ≡ [] }
    requires room { length seats.old.items ≤ vec_capacity handles.old }
    ensures handles { map handled handles.new.items ≡ map seat_of seats.old.items }
    ensures taken { seats.new.items ≡ [] }
    ensures capacity { vec_capacity seats.new ≡ vec_capacity seats.old }
{
    while !seats.is_empty() {
        handles.push_reserved(domain.handle(seats.remove(0)));
    }
}

// Gives the domain back, in the order of the handles. There is room for their seats. It takes no memory.
fn give_back<P: Protocol>(mut handles: Vec<Handle<'_, P>>, seats: &mut Vec<Seat<P>>)
    requires none { seats.old.items ≡ [] }
    requires room { length handles.items ≤ vec_capacity seats.old }
    ensures seats { map seat_of seats.new.items ≡ map handled handles.entry.items }
{
    while !handles.is_empty() {
        seats.push_reserved(handles.remove(0).into_seat());
    }
    handles.destroy_empty();
}
