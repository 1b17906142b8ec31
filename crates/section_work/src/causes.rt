// Why a change was given up.
use mv_history::{Holder, Rival};

/// Why a lock was refused.
///
/// A lock with room for its object is refused in no other way. [`Cause`], which has more, is a type of its
/// own: one type for both would make each contract exclude values.
#[derive(Clone, Copy, Debug, PartialEq, Eq)]
pub enum Refusal {
    /// It found this object held by this other seat.
    Busy { object: u32, seat: u32 },
    /// It found this object written by a commit of this printed time, which the section's snapshot
    /// lacks.
    Stale { object: u32, time: u64 },
}

/// Why an attempt gave up its change. In a new attempt it may go through.
#[derive(Clone, Copy, Debug, PartialEq, Eq)]
pub enum Cause {
    /// A lock was refused.
    Lock(Refusal),
    /// The commit met this entry of another seat.
    Rival(Rival),
    /// The log had no room for a write set, because of this holder.
    LogFull(Holder),
}
