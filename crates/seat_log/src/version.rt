// What is noted of one version.
use mv_history::Words;

/// A version in a seat's log, as its owner noted it.
#[derive(Clone, Copy, Debug, PartialEq, Eq, Drop)]
pub struct Note {
    /// Its position. Positions of a log rise, and none is used twice.
    pub position: u64,
    /// The position of its write set's first version.
    pub first: u64,
    pub object: u32,
    /// The link to the version below it; 0 is the master.
    pub previous: u64,
    pub words: Words,
    /// The printed time of its commit, or 0.
    pub time: u64,
    /// The printed time from which it is dead, or 0 where none is known.
    pub dead: u64,
}
