// The status of an end, and what is left of the domain.
ghost use Rattle.std.specs.Prelude.{◌≡◌};
ghost use Rattle.run_ends.specs.Status.{closed_of, status_of, stop_status};

use crate::finish::{Finish, LeftDomain};
use script_files::Stop;
use script_files::block_parser::BlockKind;
use script_files::step_replay::PlanKind;
use script_parser::FaultKind;

/// The status of an end.
pub fn status(finish: &Finish) -> u8
    ensures { result ≡ status_of finish.now }
{
    match finish {
        Finish::Done(_) => 0,
        Finish::Usage => 2,
        Finish::Limit(_) => 4,
        Finish::Stopped(stop) => stop_status(stop),
        Finish::Write => 6,
    }
}

// The status of a stop.
fn stop_status(stop: &Stop) -> u8
    ensures { result ≡ stop_status stop.now }
{
    match stop {
        Stop::Bytes { .. }
        | Stop::Script {
            kind: FaultKind::Many,
            ..
        }
        | Stop::BlockScript {
            kind: BlockKind::Line(FaultKind::Many),
            ..
        }
        | Stop::Plan {
            kind: PlanKind::Many,
            ..
        } => 4,
        Stop::Script { .. } | Stop::BlockScript { .. } | Stop::Plan { .. } => 3,
        Stop::Read { .. } => 5,
        Stop::Memory => 7,
    }
}

/// What is left of the domain: nothing, where not all was written.
pub fn into_closed(finish: Finish) -> LeftDomain
    ensures { result ≡ closed_of finish }
{
    match finish {
        Finish::Done(closed) => closed,
        _ => LeftDomain::No,
    }
}
