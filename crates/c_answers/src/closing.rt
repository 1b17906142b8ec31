// What closing a seat tells C.
ghost use Rattle.std.specs.Prelude.{◌≡◌};
ghost use Rattle.c_answers.specs.Closings.{status_of_close, last_told};

use crate::status::Status;
use mv_history::Protocol;
use shared_domain::Closed;

/// The status of closing a seat; none is there of a handle that was closed already. Where all seats of its domain met, the
/// last time is written into `last`.
pub fn tell_closed<P: Protocol>(answer: Option<Closed<P>>, last: &mut u64) -> Status
    ensures status { result ≡ status_of_close answer }
    ensures last { last.new ≡ last_told last.old answer }
{
    match answer {
        None => Status::Closed,
        Some(Closed::Met(closing)) => {
            *last = closing.time();
            Status::Done
        }
        Some(Closed::Left | Closed::Unmet) => Status::No,
    }
}
