// The grace period: a time that no section is below any more.
ghost use Rattle.std.specs.Prelude.{◌≡◌, ◌<◌};
ghost use Rattle.mv_history.specs.Meaning.{IsSeat};
ghost use Rattle.mvrlu.specs.Placed.{seat_from, Fits};
ghost use Rattle.mvrlu.specs.Grace.{TellsGrace};

use crate::handle::Handle;
use crate::places::{Idle, SeatState};
use mv_history::Protocol;
use object_lock::mv_core::{Shared, Steps};
use object_lock::reader_marks::scan;
use std::marker::Brand;
use std::sync::ledger::{Blank, Ledger};

// Scans the marks of all seats, and answers the time of the watermark.
pub(crate) fn scan_at<P: Protocol, L: Ledger>(
    shared: &Shared<P>,
    idle: &mut Idle<P>,
    blank: Blank,
) -> u64
    requires name { blank.name ≡ L.name }
    requires parts { (blank.parts ≡ L.parts) × (0 < L.parts) }
    requires fits { Fits shared.now idle.old }
    ensures fits { Fits shared.now idle.new }
    ensures lawful { IsSeat P.start P.allowed (seat_from idle.new) }
    ensures aborts { idle.new.log.aborts ≡ idle.old.log.aborts }
    ensures grace { TellsGrace P.start P.allowed idle.old idle.new result }
{
    let mut steps = Steps::<L>::open(blank);
    let SeatState { pass, log: _ } = &mut *idle.place;
    scan(shared, pass, &mut steps).time
}

impl<'d, P: Protocol> Handle<'d, P> {
    ghost use Rattle.std.specs.Prelude.{◌≡◌};
    ghost use Rattle.mvrlu.specs.Grace.{TellsGrace};
    ghost use Rattle.mvrlu.specs.Meant.{place_of, aborts_of};

    /// A printed time that no section of the domain is below, and none ever will be: whatever a commit
    /// of that time or an earlier one took out of the state, no section reads it any more. It is the
    /// least of the time found in CLOCK and of the low times of all other seats' marks, or the time
    /// found in GRACE, if that is greater: another seat's scan may have found a later time. A call that waits
    /// until a time is passed was not taken, since no call of a domain waits.
    ///
    /// A seat in a section holds it back, at most to the section's time; one outside holds back nothing.
    /// It makes at most `seats + 3` steps, commits nothing, takes no memory and waits for nobody.
    pub fn grace(&mut self) -> u64
        ensures grace { TellsGrace P.start P.allowed (place_of self.old) (place_of self.new) result }
        ensures aborts { aborts_of self.new ≡ aborts_of self.old }
    {
        let domain = self.domain;
        let seat = &mut self.seat;
        scan_at::<P, Brand>(&domain.shared, &mut seat.idle, Blank::new(1))
    }
}
