// What the calls of stores and sections answer.

/// What `try_lock` answers.
#[derive(Clone, Copy, Debug, PartialEq, Eq)]
pub enum LockAnswer {
    /// The object is held.
    Held,
    /// Another seat, of this number, holds the object.
    Busy { seat: u32 },
    /// A commit of this printed time, later than the section's snapshot, writes the object.
    Stale { time: u64 },
    /// The section holds `write_max` objects already.
    SetFull,
    /// The seat's log has no free slot.
    LogFull,
}

/// The entry that won against a commit: the number of its seat and its printed time.
#[derive(Clone, Copy, Debug, PartialEq, Eq)]
pub struct Rival {
    pub seat: u32,
    pub time: u64,
}

/// What `try_commit` answers.
pub enum CommitAnswer<B, S> {
    /// The seat, outside its section, and the printed time of the commit.
    Done(B, u64),
    /// The section as it was, and the entry that came first.
    Again(S, Rival),
    /// The section as it was: the last time has been reached.
    End(S),
}

/// Why the oldest write set of a log can't be freed.
#[derive(Clone, Copy, Debug, PartialEq, Eq)]
pub enum Holder {
    /// The mark of this seat, whose section may have begun at the printed time `low`.
    Mark { seat: u32, low: u64 },
    /// A newer version of this object, by this seat.
    Above { object: u32, seat: u32 },
    /// A version that is needed up to this printed time, which is too new for the last scan.
    Fresh { time: u64 },
    /// A version that is needed for ever, since the last time has been reached.
    End,
}

/// Whether a log has room for a write set, as `prepare` leaves it.
#[derive(Clone, Copy, Debug, PartialEq, Eq)]
pub enum Room {
    /// At least `write_max` slots are free.
    Enough,
    /// Fewer are, and this holds the oldest write set.
    Short(Holder),
}

/// What one seat's log has come to.
#[derive(Clone, Copy, Debug, PartialEq, Eq)]
pub struct LogTable {
    /// Slots that are live now.
    pub live: u64,
    /// Slots that were freed, in all.
    pub freed: u64,
    /// Write-backs that were finished.
    pub back: u64,
    /// Commits.
    pub commits: u64,
    /// Aborts of sections that held at least one object.
    pub aborts: u64,
    /// Rests.
    pub rests: u64,
}
