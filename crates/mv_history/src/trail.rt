// The atomic steps of a seat, as clauses speak of them.

/// The kinds of atomic step on the shared words of a domain. Each is one sequentially consistent
/// load, store, compare_exchange or fetch_max on one word, or one move of a seat.
///
/// The shared words are CLOCK, GRACE, a MARK for each seat, a HEAD and a MASTER copy for each
/// object, and for each slot of a log FIRST, STAMP, PREV, SUPER and DATA.
#[derive(Clone, Copy, Debug, PartialEq, Eq)]
pub enum StepKind {
    // Entering and leaving a section, and helping a named commit.
    /// load CLOCK (low bound)
    LoadLow,
    /// store MARK
    StoreMark,
    /// load CLOCK (take time)
    LoadTime,
    /// load STAMP named
    LoadNamed,
    /// load CLOCK (check)
    LoadCheck,
    /// compare_exchange STAMP
    SwapStamp,
    /// store MARK 0
    ClearMark,

    // Walking a version chain.
    /// load HEAD
    LoadHead,
    /// load FIRST
    LoadFirst,
    /// load STAMP
    LoadStamp,
    /// load PREV
    LoadPrev,
    /// load DATA
    LoadData,
    /// load MASTER
    LoadMaster,

    // Locking, writing and aborting.
    /// store into a built slot
    StoreBuilt,
    /// store DATA of a held slot
    StoreData,
    /// compare_exchange HEAD (lock)
    LockHead,
    /// store HEAD (abort)
    UnlockHead,
    /// load CLOCK (time a dead version)
    LoadDeath,

    // Naming the next entry of the history.
    /// compare_exchange CLOCK (commit)
    NameCommit,
    /// store SUPER
    StoreSuper,
    /// compare_exchange CLOCK (rest)
    NameRest,

    // Reclaiming the slots of a log.
    /// load CLOCK (scan)
    LoadScan,
    /// load MARK
    LoadMark,
    /// load SUPER
    LoadSuper,
    /// store MASTER
    StoreMaster,
    /// compare_exchange HEAD (cut)
    CutHead,
    /// store STAMP 0 (free)
    StoreFree,

    // Seats.
    /// making a seat
    MakeSeat,
    /// joining a seat
    JoinSeat,
    /// load CLOCK after a join
    LoadJoined,

    // The shared watermark.
    /// load GRACE
    LoadGrace,
    /// fetch_max GRACE
    RaiseGrace,
}

/// One atomic step of a seat: its kind, the place of the word in its domain's table, what it found
/// there and what it stored.
///
/// A plain store and a move of a seat find nothing. A load, a lost exchange and a move store
/// nothing, so an exchange is won exactly where it stored something, and no field of its own says so.
///
/// Contracts speak of it; no running code makes one.
pub struct Step {
    pub kind: StepKind,
    pub word: u32,
    pub found: Option<u64>,
    pub stored: Option<u64>,
}
