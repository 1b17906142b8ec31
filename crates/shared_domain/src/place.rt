// A place for a seat that its share has left.
ghost use Rattle.std.specs.Prelude.{◌≡◌, IfSome};

use crate::exclusive::Exclusive;
use counted_slot::Fits;
use mv_history::Protocol;
use mvrlu::{Domain, Seat};

/// A seat whose share was closed.
pub(crate) struct LeftSeat<P: Protocol> {
    pub(crate) seat: Seat<P>,
}

/// Ends the seat alone.
impl<P: Protocol> Drop for LeftSeat<P> {
    fn drop(self) {
        let LeftSeat { seat } = self;
        seat.let_go();
    }
}

impl<P: Protocol> LeftSeat<P> {
    /// The seat.
    pub(crate) fn take(self) -> Seat<P>
        ensures { result ≡ self.seat }
    {
        let LeftSeat { seat } = self;
        seat
    }
}

/// What stands in a place: a seat of the domain that the place was made for, or none.
#[derive(Drop)]
pub(crate) struct SeatPlace<P: Protocol> {
    pub(crate) left: Option<Exclusive<LeftSeat<P>>>,
}

impl<P: Protocol> Fits for SeatPlace<P> {
    ghost use Rattle.mvrlu.specs.Meant.{IsSeatOf};

    type Tag = Domain<P>;

    ghost fits = { λ domain place. IfSome place.left (λ left. IsSeatOf domain left.seat) };
}
