// Entering a section.
ghost use Rattle.std.specs.Prelude.{◌≡◌, ◌<◌};
ghost use Rattle.mv_history.specs.Meaning.{IsSection};
ghost use Rattle.mv_history.specs.Calls.{Enters};
ghost use Rattle.mvrlu.specs.Placed.{seat_from, section_from, Fits};
ghost use Rattle.mvrlu.specs.Causes.{Took};
ghost use Rattle.mvrlu.specs.Bounds.{MakesAtMost};

use crate::places::{Busy, Idle};
use mv_history::Protocol;
use object_lock::mv_core::{Shared, Steps};
use object_lock::reader_marks::enter;
use std::sync::ledger::{Blank, Ledger};

// Begins a section.
pub(crate) fn enter_at<P: Protocol, L: Ledger>(
    shared: &Shared<P>,
    idle: Idle<P>,
    blank: Blank,
) -> Busy<P>
    requires name { blank.name ≡ L.name }
    requires parts { (blank.parts ≡ L.parts) × (0 < L.parts) }
    requires fits { Fits shared.now idle }
    ensures fits { Fits shared.now result }
    ensures lawful { IsSection P.start P.allowed (section_from result) }
    ensures enters { Enters (seat_from idle) (section_from result) }
    ensures took { Took (seat_from idle) (section_from result) }
    ensures aborts { result.log.aborts ≡ idle.log.aborts }
    ensures bound { MakesAtMost (seat_from idle) (section_from result).seat 6 }
{
    let mut steps = Steps::<L>::open(blank);
    let Idle { mut place } = idle;
    let _ = enter(shared, &mut place.pass, &mut steps);
    Busy { place }
}
