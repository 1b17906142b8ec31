// What a call tells C, as one number a meaning.
ghost use Rattle.std.specs.Prelude.{◌≡◌};
ghost use Rattle.c_answers.specs.Statuses.{code_of, status_of_misuse, status_of_lock, status_of_room, status_of_commit};

use mv_history::{LockAnswer, Room};
use object_seats::{CommitResult, Misuse};

/// What a call came to.
#[derive(Clone, Copy)]
pub enum Status {
    /// It was made.
    Done,
    /// The set had nothing to change, or nothing of what was asked for; or a handle was closed, and the
    /// domain's seats haven't met yet.
    No,
    /// Another seat's entry came first: nothing was committed, and the same call may be made again.
    Again,
    /// Another seat holds the object.
    Busy,
    /// The object was written after the section began.
    Stale,
    /// The log has too little room for a section that locks as much as it may.
    Short,
    /// The log has no free slot.
    LogFull,
    /// There is no room for what a command adds.
    Full,
    /// The last time was reached.
    Worn,
    /// There is no set of this number.
    BadSet,
    /// The two sets of a move are the same one.
    SameSet,
    /// The seat is closed.
    Closed,
    /// A seat that is to be opened is open already.
    InUse,
    /// A number of the domain is out of its range.
    BadNumber,
    /// There is too little memory.
    NoMemory,
    /// The call is for a section, and the seat is outside.
    Outside,
    /// The call is for a seat outside a section, and the seat is in one.
    Inside,
    /// The domain has no object of this number.
    BadObject,
    /// No word begins a pair there.
    BadPlace,
    /// The section doesn't hold the object.
    NotLocked,
    /// The section holds nothing.
    Empty,
    /// The section holds something.
    Holding,
    /// The section holds as many objects as it may.
    SetFull,
    /// There is no command of this number.
    BadCommand,
    /// The commands are no block: none or more than 8, or a size or a next is among several.
    BadBlock,
}

impl Status {
    /// Its number: 0 or more where the call was made or may be made again, and below 0 where nothing was
    /// done.
    pub fn code(self) -> i32
        ensures { result ≡ code_of self }
    {
        match self {
            Status::Done => 0,
            Status::No => 1,
            Status::Again => 2,
            Status::Busy => 3,
            Status::Stale => 4,
            Status::Short => 5,
            Status::LogFull => 6,
            Status::Full => -1,
            Status::Worn => -2,
            Status::BadSet => -3,
            Status::SameSet => -4,
            Status::Closed => -5,
            Status::InUse => -6,
            Status::BadNumber => -7,
            Status::NoMemory => -8,
            Status::Outside => -12,
            Status::Inside => -13,
            Status::BadObject => -14,
            Status::NotLocked => -15,
            Status::Empty => -16,
            Status::Holding => -17,
            Status::SetFull => -18,
            Status::BadPlace => -19,
            Status::BadCommand => -20,
            Status::BadBlock => -21,
        }
    }
}

pub(crate) fn of_misuse(why: Misuse) -> Status
    ensures { result ≡ status_of_misuse why }
{
    match why {
        Misuse::Outside => Status::Outside,
        Misuse::Inside => Status::Inside,
        Misuse::Object => Status::BadObject,
        Misuse::Place => Status::BadPlace,
        Misuse::NotLocked => Status::NotLocked,
        Misuse::Empty => Status::Empty,
        Misuse::Holding => Status::Holding,
    }
}

pub(crate) fn of_lock(answer: LockAnswer) -> Status
    ensures { result ≡ status_of_lock answer }
{
    match answer {
        LockAnswer::Held => Status::Done,
        LockAnswer::Busy { seat: _ } => Status::Busy,
        LockAnswer::Stale { time: _ } => Status::Stale,
        LockAnswer::SetFull => Status::SetFull,
        LockAnswer::LogFull => Status::LogFull,
    }
}

pub(crate) fn of_room(room: Room) -> Status
    ensures { result ≡ status_of_room room }
{
    match room {
        Room::Enough => Status::Done,
        Room::Short(_) => Status::Short,
    }
}

pub(crate) fn of_commit(end: CommitResult) -> Status
    ensures { result ≡ status_of_commit end }
{
    match end {
        CommitResult::Done(_) => Status::Done,
        CommitResult::Again(_) => Status::Again,
        CommitResult::End => Status::Worn,
    }
}
