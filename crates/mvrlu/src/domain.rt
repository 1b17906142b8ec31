// A domain, and its seats.
ghost use Rattle.std.specs.Prelude.{◌≡◌, ◌≤◌, length, vec_capacity};
ghost use Rattle.object_lock.specs.mv_core.Passes.{config_of};
ghost use Rattle.mv_history.specs.Laws.{IsSeat-prop};
ghost use Rattle.mv_history.specs.Meaning.{IsSeat};
ghost use Rattle.mvrlu.specs.Placed.{seat_from};

use crate::places::Idle;
use mv_history::{LogTable, Protocol};
use object_lock::mv_core::Shared;

/// The shared words of a domain: its opening objects, the logs and marks of its seats, and the commit
/// clock. It owns their memory, and gives it back when it is let go.
#[derive(Drop)]
pub struct Domain<P: Protocol> {
    pub(crate) shared: Shared<P>,
    // Empty, with room for a table of each seat's log: `meet` takes them, and takes no memory.
    pub(crate) room: Vec<LogTable>,
    pub ghost empty: { length room.items ≡ 0 },
    pub ghost roomy: { (config_of shared).seats ≤ vec_capacity room },
}

/// A seat of a domain, outside a section: a thread's place in it, which `Domain::handle` lends the
/// domain to. It must be spent; one that is let go doesn't compile.
pub struct Seat<P: Protocol> {
    pub(crate) idle: Idle<P>,
    pub ghost lawful: { IsSeat P.start P.allowed (seat_from idle) } by { IsSeat-prop P.start P.allowed P.one_start P.one_allowed (seat_from idle) },
}
