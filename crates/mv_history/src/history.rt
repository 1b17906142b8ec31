// Times, words and tags, and the history as clauses speak of it.
//
// Commits and entries are types of this crate, though no running code makes one, so that the clauses of all
// stores use the same words.
use std::collections::LinkedList;

/// The greatest printed time that a store can reach, `2^45 - 1`: a clock word has 45 bits for a time.
pub const LAST: u64 = 35184372088831;

/// The width of an object: how many words of 64 bits it has.
pub const WORDS: usize = 6;

/// The words of one object.
pub type Words = [u64; WORDS];

/// What a commit says of itself to its client's rules. The stores don't read it.
pub type Tag = [u64; 4];

/// A commit of a history: a seat's `number`-th, counted from 1, made on the snapshot of length
/// `snapshot`, with the objects that it writes and their new words in the order of locking.
///
/// Contracts speak of it; no running code makes one.
pub struct Commit {
    pub seat: u32,
    pub number: u64,
    pub snapshot: u64,
    pub tag: Tag,
    pub writes: LinkedList<(u32, Words)>,
}

/// An entry of a history: a rest by a seat, which changes no object, or a commit.
///
/// Contracts speak of it; no running code makes one.
pub enum Entry {
    Rest(u32),
    Change(Commit),
}
