// Where a work took place.

/// Where a work took place in the one history. The times are printed ones.
#[derive(Clone, Copy, Debug, Drop, PartialEq, Eq)]
pub enum Place {
    /// It is the commit of this time.
    Commit(u64),
    /// It read the state of this time, and changed nothing.
    Read(u64),
}
