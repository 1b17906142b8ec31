//! What a seat knows: its view, which only its own steps change. Clauses speak of it; no running
//! code makes one.
use crate::ring::Ring;
use mv_history::{Commit, Entry, Step, Words};
use std::collections::LinkedList;

/// What a seat knows of the history: the prefix that it has seen, its own commits, and how many
/// rests it made.
pub struct Past {
    pub seen: LinkedList<Entry>,
    pub mine: LinkedList<Commit>,
    pub rests: u64,
}

/// Where a seat is between two sections.
pub enum Phase {
    Outside,
    /// The low time was loaded.
    Lowered(u64),
    /// The mark was stored, for this low time.
    Marked(u64),
    Inside(OwnSection),
}

/// A section: the low time of its mark, the clock word that gave its time, and how far it is.
pub struct OwnSection {
    pub low: u64,
    pub word: u64,
    pub mode: Mode,
}

/// How far a section is.
pub enum Mode {
    Open,
    Aborting,
    /// Its commit was named.
    Named(Naming),
}

/// A commit that was named: its time, the first position of its write set, and whether its own
/// exchange of the stamp was made.
pub struct Naming {
    pub time: u64,
    pub first: u64,
    pub stamped: bool,
}

/// A walk down a version chain.
pub enum WalkStage {
    Nowhere,
    At(Stand),
    /// At the master of this object.
    Master(u32),
}

/// Where a walk stands: the object, the link of the version, the FIRST and STAMP that were found
/// there, what it passed, and whether a lost exchange of a lock put it there.
pub struct Stand {
    pub object: u32,
    pub link: u64,
    pub first: Option<u64>,
    pub stamp: Option<u64>,
    pub passed: Passed,
    pub late: bool,
}

/// What a walk has passed since it loaded HEAD.
pub enum Passed {
    Nothing,
    /// A version whose stamp was unset.
    Unset,
    /// A version of this time, the least one so far.
    Time(u64),
}

/// A running scan of the marks: the clock that it loaded, the least time so far, and the seat whose
/// mark comes next.
pub struct Scan {
    pub clock: u64,
    pub least: u64,
    pub next: u32,
}

/// The clock words that were loaded, those of them that were helped, and an unset stamp that was
/// found for one.
pub struct LoadedClocks {
    pub loaded: LinkedList<u64>,
    pub helped: LinkedList<u64>,
    pub found: Option<FoundStamp>,
}

/// The unset stamp that was found for a clock word, and whether CLOCK had that word afterwards.
pub struct FoundStamp {
    pub word: u64,
    pub unset: u64,
    pub checked: bool,
}

/// A write-back under way: the object, the position of the version in the own log, how many of its
/// words were stored, and whether its exchange of HEAD was tried.
pub struct WriteBack {
    pub object: u32,
    pub position: u64,
    pub stored: u32,
    pub tried: bool,
}

/// A section of this time found HEAD of the object empty.
pub struct EmptyHead {
    pub object: u32,
    pub time: u64,
}

/// What is kept of a seat that was joined: its number, what it knew, its log, and its steps in order.
pub struct JoinedSeat {
    pub number: u32,
    pub past: Past,
    pub ring: Ring,
    pub trail: LinkedList<Step>,
}

/// What a seat knows.
pub struct Knowledge {
    pub number: u32,
    /// The opening state, and its printed time.
    pub start: LinkedList<Words>,
    pub base: u64,
    /// Its own atomic steps, in order.
    pub trail: LinkedList<Step>,
    pub past: Past,
    pub phase: Phase,
    pub clocks: LoadedClocks,
    pub walk: WalkStage,
    pub empty: LinkedList<EmptyHead>,
    pub ring: Ring,
    pub back: Option<WriteBack>,
    pub scan: Option<Scan>,
    /// The greatest watermark that it finished, or found in GRACE.
    pub grace: u64,
    /// How many seats were made, where this is the seat that makes them.
    pub made: u32,
    /// The seats that were joined to this one.
    pub notes: LinkedList<JoinedSeat>,
    /// Whether this seat was itself joined to another.
    pub spent: bool,
}
