//! What a seat knows of its own circular log, which is a ring of slots. Clauses speak of it; no running code makes one.
use mv_history::Words;
use std::collections::LinkedList;

/// The slots of a seat's log, in their order, and the position that the seat uses next. The slot of
/// a position is `position mod slots`; positions rise, and no position is used twice.
pub struct Ring {
    pub slots: LinkedList<Slot>,
    pub next: u64,
}

/// A slot of a log.
pub enum Slot {
    /// Nothing is in it.
    Free,
    /// A version is being built for the next position.
    Built(Build),
    /// A version: its write set is held, aborted or committed, and none of its slots was freed.
    Live(Version, WriteSetStatus),
    /// The first slot of its write set was freed, this one not yet: its position, and the first
    /// position of its set.
    Freeing(u64, u64),
}

/// Which words of the slot were stored so far, and what was stored.
pub struct Build {
    pub first: Option<u64>,
    pub stamp: Option<u64>,
    pub previous: Option<u64>,
    pub successor: Option<u64>,
    pub words: LinkedList<Option<u64>>,
}

/// A version: its position, the first position of its write set, its object, the link to the
/// version below it (0 is the master), and its words.
pub struct Version {
    pub position: u64,
    pub first: u64,
    pub object: u32,
    pub previous: u64,
    pub words: Words,
}

/// What became of a version's write set.
pub enum WriteSetStatus {
    Held,
    /// With the time of death that was noted, if one was.
    Aborted(Option<u64>),
    Committed(CommitNote),
}

/// What is noted of a committed version.
pub struct CommitNote {
    /// The time of its commit, as printed.
    pub time: u64,
    /// The time of death, if one was noted.
    pub dead: Option<u64>,
    /// Whether its chain was cut by a won exchange after it was written back.
    pub cut: bool,
    /// Whether SUPER of the version that its previous link names was stored, or that link is 0.
    pub linked: bool,
}
