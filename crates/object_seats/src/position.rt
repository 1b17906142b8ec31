// Where a seat is between two calls.
use mv_history::{AnyRules, LockAnswer, Rival};
use mvrlu::{Parked, Seat};

/// A seat outside a section, or its section.
pub(crate) enum Position {
    Outside(Seat<AnyRules>),
    Inside(Parked<AnyRules>),
}

/// Why a call may not be made now. Nothing was done.
#[derive(Clone, Copy)]
pub enum Misuse {
    /// The call is for a section, and the seat is outside.
    Outside,
    /// The call is for a seat outside a section, and the seat is in one.
    Inside,
    /// The domain has no object of this number.
    Object,
    /// No word begins a pair there: it isn't 0 to 4.
    Place,
    /// The section doesn't hold the object.
    NotLocked,
    /// The section holds nothing, so there is nothing to commit.
    Empty,
    /// The section holds something, which is to be committed or given up.
    Holding,
}

/// An object that is vacant: all its words were 0 in the section's state, and the section didn't hold it.
#[derive(Clone, Copy)]
pub struct Vacancy {
    /// Its number.
    pub object: u32,
    /// Where the next look may begin: behind it.
    pub next: u32,
    /// What the try to hold it came to.
    pub lock: LockAnswer,
}

/// What a commit came to.
#[derive(Clone, Copy)]
pub enum CommitResult {
    /// It is the entry of this printed time, and the seat is outside.
    Done(u64),
    /// This entry of another seat came first. The section is as it was, and the commit may be tried again.
    Again(Rival),
    /// The last time was reached, so no commit is possible any more. The section is as it was.
    End,
}
