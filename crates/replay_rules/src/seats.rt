// What a replay knows of a seat: the notes of its log, and where its call is.
use crate::plan::Call;
use commit_abort::Ended;
use mv_history::{Holder, LockAnswer, Words};

/// A version in a seat's log, as its owner notes it. Its position is its place among all that the seat ever had.
#[derive(Clone, Copy, Drop)]
pub struct NotedVersion {
    /// The position of its write set's first version.
    pub first: usize,
    pub object: u32,
    /// The link to the version below it; 0 is the master.
    pub previous: u64,
    pub words: Words,
    /// The printed time of its commit, or 0.
    pub time: u64,
    /// The printed time from which it is dead, or 0 where none is known.
    pub dead: u64,
    /// Of which other seat its last write-back found a version in HEAD.
    pub above: Option<u32>,
}

/// What a scan found. Times are printed ones.
#[derive(Clone, Copy, Drop)]
pub struct Scanned {
    /// The watermark.
    pub time: u64,
    /// The least of the clock's time and the low times of the other seats' marks, and the lowest seat with that mark.
    pub low: u64,
    pub seat: u32,
    /// The time of CLOCK.
    pub clock: u64,
}

/// How far a tidy is.
#[derive(Clone, Copy, Drop)]
pub struct Sweep {
    /// Whether it is in its second round, and whether that round has scanned.
    pub again: bool,
    pub swept: bool,
    /// Up to which time of death the round frees.
    pub bound: u64,
    /// The first scan, and the last one.
    pub first: Scanned,
    pub last: Scanned,
    /// The greatest time that it found in CLOCK.
    pub latest: u64,
    /// The position of the version that it writes back.
    pub at: usize,
    /// How many versions had been freed before it.
    pub began: usize,
}

/// What a seat is at, beside the versions of its log.
#[derive(Clone, Copy, Drop)]
pub struct State {
    /// Its number.
    pub seat: u32,
    /// The time of the section that it is in.
    pub time: Option<u64>,
    /// The position of the first version that its section holds, or the next position where nothing is held.
    pub from: usize,
    /// How many of its versions, the first ones, were freed.
    pub freed: usize,
    /// The call that it has begun last.
    pub call: Call,
    pub sweep: Sweep,
}

/// The next step of an entering.
#[derive(Clone, Copy, Drop)]
pub enum Entering {
    LoadLow,
    StoreMark { mark: u64 },
    LoadTime,
}

/// The next step of a help of a clock word.
#[derive(Clone, Copy, Drop)]
pub enum Helping {
    LoadNamed { word: u64 },
    LoadCheck { word: u64, unset: u64 },
    SwapStamp { word: u64, unset: u64 },
}

/// The next step of a walk over an object. At link 0 it reads the master.
#[derive(Clone, Copy, Drop)]
pub enum Walking {
    LoadHead,
    LoadFirst { link: u64 },
    LoadStamp { link: u64, first: u64 },
    LoadPrev { link: u64 },
    LoadWord { link: u64, words: Words, word: u32 },
}

/// The next step of a lock behind its walk, of this version at this position.
#[derive(Clone, Copy, Drop)]
pub enum Locking {
    Build { field: u32 },
    LockHead,
    ClearPrevious,
    FoundFirst { link: u64 },
    FoundStamp { link: u64, first: u64 },
}

/// The next step of a commit, an abort or a leave, or of the rest of a tidy.
#[derive(Clone, Copy, Drop)]
pub enum Ending {
    LoadNow,
    Name {
        word: u64,
        new: u64,
    },
    StampOwn {
        first: usize,
        time: u64,
    },
    StoreSuper {
        at: usize,
        link: u64,
        time: u64,
    },
    Unlock {
        at: usize,
        object: u32,
        previous: u64,
    },
    LoadDeath,
    Leave(Leaving),
}

/// What a section comes to when its seat leaves it.
#[derive(Clone, Copy, Drop)]
pub enum Leaving {
    Plainly,
    WithCommit { time: u64 },
    WithAbort { dead: u64 },
}

/// What a write-back has come to when its seat leaves the section: the chain is cut, HEAD was 0, or HEAD named a newer
/// version, of this seat if it is another.
#[derive(Clone, Copy, Drop)]
pub enum WriteBackEnd {
    WasCut { dead: u64 },
    WasGone,
    WasAbove { seat: Option<u32> },
}

/// The next step of a tidy, but those of an entering, a help and the load of CLOCK before a rest.
#[derive(Clone, Copy, Drop)]
pub enum Sweeping {
    LoadGrace {
        again: bool,
    },
    Free {
        at: usize,
        left: usize,
    },
    LoadScan,
    LoadMark {
        seat: u32,
    },
    RaiseGrace {
        low: u64,
    },
    LoadSuper {
        at: usize,
    },
    LoadTop {
        at: usize,
        object: u32,
    },
    StoreMaster {
        at: usize,
        object: u32,
        words: Words,
        word: u32,
    },
    CutHead {
        at: usize,
        object: u32,
    },
    LoadCutDeath {
        at: usize,
    },
    LeaveBack {
        at: usize,
        back: WriteBackEnd,
    },
    LoadSuperAgain {
        at: usize,
    },
    NameRest {
        word: u64,
        new: u64,
    },
}

/// The next step of a call.
#[derive(Clone, Copy, Drop)]
pub enum NextStep {
    Enters(Entering),
    Helps(Helping),
    Walks {
        object: u32,
        next: Walking,
    },
    Locks {
        version: NotedVersion,
        at: usize,
        next: Locking,
    },
    Writes {
        at: usize,
        words: Words,
        word: u32,
    },
    EndsSection(Ending),
    Tidies(Sweeping),
}

/// What a step does with its word.
#[derive(Clone, Copy, Drop)]
pub enum Access {
    Load,
    Store { new: u64 },
    Swap { old: u64, new: u64 },
    Raise { by: u64 },
}

/// What a step changes in the notes of the log.
#[derive(Clone, Copy, Drop)]
pub enum Edit {
    Kept,
    /// One version more, the last one.
    Pushed(NotedVersion),
    /// A word of the version at this position.
    WordPut { at: usize, word: u32, value: u64 },
    /// From this position on all versions are committed at this time.
    CommittedFrom { from: usize, time: u64 },
    /// From this position on all versions are dead from this time on.
    AbortedFrom { from: usize, dead: u64 },
    /// The version at this position is dead from this time on.
    Retired { at: usize, dead: u64 },
    /// Its write-back found a version of this other seat.
    AboveNoted { at: usize, seat: Option<u32> },
}

/// What a tidy answers: how many versions it freed, how many are live afterwards, and who holds the oldest write set.
#[derive(Clone, Copy)]
pub struct Reclaimed {
    pub freed: usize,
    pub live: usize,
    pub held: Option<Holder>,
}

/// What a call answers.
#[derive(Clone, Copy)]
pub enum CallAnswer {
    Silent,
    AtTime(u64),
    SixWords(Words),
    Locked(LockAnswer),
    Committed(Ended),
    Tidied(Reclaimed),
}

/// How a call goes on: by a step, or it ends.
#[derive(Clone, Copy)]
pub enum Then {
    Goes(NextStep),
    Ends(CallAnswer),
}

/// What a version is looked for by.
#[derive(Clone, Copy)]
pub enum Test {
    /// It is of this object.
    IsOf { object: u32 },
    /// It has no time of death.
    IsUntimed,
    /// A version is below it.
    IsLinked,
    /// It is dead only from a time above this.
    IsDeadAbove { time: u64 },
    /// It isn't of the write set that begins at this position, or isn't dead at this time.
    EndsSet { first: usize, time: u64 },
}
