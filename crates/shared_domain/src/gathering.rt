// A domain with a place for each of its seats, and the meeting of all that stand there.
ghost use Rattle.std.specs.Prelude.{◌≡◌, ◌≢◌, ◌≤◌, length, All, AllPairs, IfSome, IfOk, vec_capacity};
ghost use Rattle.mvrlu.specs.Meant.{numbers_of, seat_of, IsSeatOf};
ghost use Rattle.shared_domain.specs.Tags.{IsTagOf};

use crate::exclusive::Exclusive;
use crate::place::{LeftSeat, SeatPlace};
use counted_slot::{Counted, FREE, PRESENT, TAKEN};
use mv_history::{Protocol, Store};
use mvrlu::{Closing, Domain, Seat};
use std::alloc::{AllocError, Global};

/// What closing a share came to.
#[derive(Drop)]
pub enum Closed<P: Protocol> {
    /// It was the last share of the domain, and all seats have met.
    Met(Closing<P>),
    /// Another share of the domain is left. The seat stands in its place.
    Left,
    /// It was the last share, but not each of the domain's seats stood in its place: one was let go. All of
    /// them are ended, each alone, and the domain's memory is given back.
    Unmet,
}

/// A domain, with a place for each of its seats, and an empty row that has room for all of them.
pub(crate) struct Gathering<P: Protocol> {
    pub(crate) domain: Domain<P>,
    pub(crate) places: Vec<Counted<SeatPlace<P>>>,
    pub(crate) row: Exclusive<Vec<Seat<P>>>,
    pub ghost count: { length places.items ≡ (numbers_of domain).seats },
    pub ghost tags: { All (λ tag. IsTagOf domain tag) places.items },
    pub ghost empty: { length row.items ≡ 0 },
    pub ghost room: { (numbers_of domain).seats ≤ vec_capacity row },
}

/// Ends the seats that stand in their places, each alone.
impl<P: Protocol> Drop for Gathering<P> {
    fn drop(self) {
        let Gathering {
            domain: _domain,
            places: _places,
            row,
        } = self;
        row.into_inner().destroy_empty();
    }
}

// So many places of the domain, all empty.
fn empty_places<P: Protocol>(
    alloc: Global,
    domain: &Domain<P>,
    count: usize,
) -> Result<Vec<Counted<SeatPlace<P>>>, AllocError>
    ensures count { IfOk result (λ places. length places.items ≡ count) }
    ensures tags { IfOk result (λ places. All (λ tag. IsTagOf domain.now tag) places.items) }
{
    let mut places = Vec::with_capacity(alloc, count)?;
    while places.len() < count {
        places.push_reserved(Counted::new(SeatPlace { left: None }, domain));
    }
    Ok(places)
}

// The number of a seat of the domain, and the seat again.
fn numbered<P: Protocol>(domain: &Domain<P>, seat: Seat<P>) -> (u32, Seat<P>)
    requires of { IsSeatOf domain.now seat }
    ensures number { result.0 ≡ (seat_of seat).number }
    ensures same { seat_of result.1 ≡ seat_of seat }
{
    let handle = domain.handle(seat);
    let number = handle.seat();
    (number, handle.into_seat())
}

// The seat that stands in the place of this number, if it is the domain's seat of this number.
fn seat_in<P: Protocol>(
    domain: &Domain<P>,
    place: Counted<SeatPlace<P>>,
    number: usize,
) -> Option<Seat<P>>
    requires tag { IsTagOf domain.now place }
    ensures own { IfSome result (λ seat. IsSeatOf domain.now seat) }
    ensures number { IfSome result (λ seat. (seat_of seat).number ≡ number) }
{
    let SeatPlace { left } = place.into_inner();
    let (found, seat) = numbered(domain, left?.into_inner().take());
    if found as usize == number {
        Some(seat)
    } else {
        seat.let_go();
        None
    }
}

// The seats that stand in their places, in a row that has room for them: no two of one number.
fn gathered<P: Protocol>(
    domain: &Domain<P>,
    mut places: Vec<Counted<SeatPlace<P>>>,
    mut row: Vec<Seat<P>>,
) -> Vec<Seat<P>>
    requires tags { All (λ tag. IsTagOf domain.now tag) places.items }
    requires empty { length row.items ≡ 0 }
    requires room { length places.items ≤ vec_capacity row }
    ensures own { All (λ seat. IsSeatOf domain.now seat) result.items }
    ensures apart { AllPairs (λ s t. (seat_of s).number ≢ (seat_of t).number) result.items }
{
    while let Some(place) = places.pop() {
        if let Some(seat) = seat_in(domain, place, places.len()) {
            row.push_reserved(seat);
        }
    }
    row
}

// Ends these seats, each alone.
fn let_all_go<P: Protocol>(mut seats: Vec<Seat<P>>) {
    while let Some(seat) = seats.pop() {
        seat.let_go();
    }
    seats.destroy_empty();
}

impl<P: Protocol> Gathering<P> {
    ghost use Rattle.shared_domain.specs.Met.{Closes};

    /// The domain, with this many empty places: one for each of its seats.
    pub(crate) fn new(
        alloc: Global,
        domain: Domain<P>,
        count: usize,
    ) -> Result<Gathering<P>, AllocError>
        requires count { count ≡ (numbers_of domain).seats }
        ensures domain { IfOk result (λ g. g.domain ≡ domain) }
    {
        let places = empty_places(alloc, &domain, count)?;
        // A row of seats can't be let go, so nothing is refused from here on.
        let row = Exclusive::new(Vec::with_capacity(alloc, count)?);
        Ok(Gathering {
            domain,
            places,
            row,
        })
    }

    /// Puts a seat of the domain into its place. Where a seat stands there already it is ended alone.
    pub(crate) fn leave(&self, seat: Seat<P>)
        requires of { IsSeatOf self.now.domain seat }
    {
        let (number, seat) = numbered(&self.domain, seat);
        let Some(place) = self.places.get(number as usize) else {
            seat.let_go();
            return;
        };
        let (found, claim) = place.turn(FREE, TAKEN);
        if found == FREE {
            let left = Some(Exclusive::new(LeftSeat { seat }));
            claim.put(SeatPlace { left }, PRESENT);
        } else {
            claim.done();
            seat.let_go();
        }
    }

    /// Lets all seats of the domain meet, if each stands in its place.
    pub(crate) fn meet(self) -> Closed<P>
        ensures closes { Closes P.start P.allowed self result }
    {
        let Gathering {
            domain,
            places,
            row,
        } = self;
        let count = places.len();
        let row = gathered(&domain, places, row.into_inner());
        if row.len() != count {
            let_all_go(row);
            return Closed::Unmet;
        }
        Closed::Met(domain.meet(row))
    }
}
