// The history of a plain store, which only clauses read.
use mv_history::{Tag, Words};
use std::snapshot::Snapshot;

/// The greatest write set of a plain store.
pub const WRITE_MAX: usize = 16;

/// The commits of a plain store: none, or those before and one more, which writes the first `held`
/// of `own`.
///
/// A store has a snapshot of it, which takes no memory, so no value of it is kept.
#[derive(Drop)]
pub enum PlainHistory {
    Opened,
    Then {
        before: Snapshot<PlainHistory>,
        tag: Tag,
        own: [(u32, Words); WRITE_MAX],
        held: usize,
    },
}
