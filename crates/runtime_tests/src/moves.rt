// What a client may do next, and what it is answered.
ghost use Rattle.std.specs.Prelude.{IfSome};
ghost use Rattle.mv_layout.specs.Words.{IsLink};
ghost use Rattle.runtime_tests.specs.Clients.{IsReady};

use crate::clients::Client;
use crate::outside::outside;
use log_reclaim::{BackEnd, NoBack};
use mv_core::{Shared, Steps};
use mv_history::{AnyRules, Holder, LockAnswer, LogTable, Words};
use mv_layout::{NO_SLOT, clock_seat, clock_slot, clock_time, link_position, link_seat};
use reader_marks::Watermark;
use seat_log::table;
use std::sync::ledger::Ledger;
use version_chain::FoundVersion;

/// A call of a client.
#[derive(Clone, Copy)]
pub enum Move {
    Enter,
    Leave,
    /// `find`, and the matching reader.
    Read(u32),
    Lock(u32),
    /// A lock with these words.
    LockWith(u32, Words),
    Write(u32, Words),
    /// Loads CLOCK. In a section it also helps the commit that the word names.
    Now,
    /// Names the commit, after the word that `Now` loaded last.
    Name,
    Finish,
    Commit,
    Abort,
    /// All of a lock before its exchange of HEAD.
    LockStart(u32),
    /// The rest of the lock that was begun last.
    LockEnd,
    /// `enter` by its parts. First the low time is loaded.
    LoadLow,
    /// Then the mark for that low time is stored.
    StoreMark(u64),
    /// Then the time of the section is loaded.
    LoadTime,
    /// At last the commit is helped that the clock's word names. So it is, outside a section, after
    /// `Now`.
    Help,
    /// `rest`, after the word that `Now` loaded last, and `Help` helped.
    Rest,
    Scan,
    Known,
    /// The table of the log.
    Table,
    /// `walk_start` over an object.
    WalkStart(u32),
    /// `walk_step` of the walk that is under way.
    WalkStep,
    /// The matching reader, where the last look of a walk ended it.
    ReadFound,
    /// `round`, with write-backs or without.
    Round(bool),
    Tidy,
    /// A scan, and `back_start` with its watermark, of the version at this place of the log, from the
    /// oldest on.
    BackStart(u32),
    /// `back_word` of the write-back that is under way.
    BackWord,
    BackFinish,
    /// Joins the passes of all seats into that of the last one, and loads CLOCK then. It ends a
    /// schedule: no client is left.
    Join,
}

/// What a look of a walk ended at.
#[derive(Clone, Copy, PartialEq, Eq)]
pub enum Found {
    /// The object's master.
    Master,
    /// The version at this position of this seat's log.
    Version { seat: u32, position: u64 },
}

/// What a move is answered.
#[derive(Clone, Copy, PartialEq, Eq)]
pub enum Answer {
    Entered(u64),
    Left,
    Words(Words),
    Written,
    Held,
    Busy(u32),
    Stale(u64),
    SetFull,
    LogFull,
    /// The word of CLOCK by its parts: the time and the seat of the last entry, and, where that is a
    /// commit, the first slot of its write set.
    Clock(u64, u32, Option<u32>),
    Named(u64),
    /// The seat and the time of the entry that came first.
    Lost(u32, u64),
    Finished,
    Done(u64),
    Again(u32, u64),
    End,
    Aborted,
    /// The move isn't one of this stage, and nothing was done.
    Skipped,
    /// A version was built for a lock, and HEAD wasn't exchanged yet.
    LockStarted,
    /// The time of the word of CLOCK that was loaded.
    Time(u64),
    Stored,
    Helped,
    Marked(Watermark),
    Counts(LogTable),
    /// A walk has begun.
    Started,
    /// Where a walk ended, or that it goes on.
    Walked(Option<Found>),
    /// A rest was made, of this time.
    Rested(u64),
    /// How many slots were freed, how many are live then, and who holds the oldest write set.
    Tidied(u32, u32, Option<Holder>),
    NoBack(NoBack),
    BackEnded(BackEnd),
}

// What a walk has found, by its seat and position.
pub(crate) fn by_position(found: Option<FoundVersion>) -> Found
    requires { IfSome found (λ at. IsLink at.link) }
{
    match found {
        None => Found::Master,
        Some(at) => {
            let seat = link_seat(at.link);
            let position = link_position(at.link);
            Found::Version { seat, position }
        }
    }
}

pub(crate) fn tried(answer: LockAnswer) -> Answer {
    match answer {
        LockAnswer::Held => Answer::Held,
        LockAnswer::Busy { seat } => Answer::Busy(seat),
        LockAnswer::Stale { time } => Answer::Stale(time),
        LockAnswer::SetFull => Answer::SetFull,
        LockAnswer::LogFull => Answer::LogFull,
    }
}

// A word of CLOCK by its parts.
pub(crate) fn clock(word: u64) -> Answer {
    let slot = match clock_slot(word) {
        NO_SLOT => None,
        slot => Some(slot),
    };
    Answer::Clock(clock_time(word), clock_seat(word), slot)
}

// Makes a move of a client that goes on with nothing under way, and answers what it was answered. A move
// that isn't one of its stage is skipped.
pub(crate) fn make<L: Ledger>(
    shared: &Shared<AnyRules>,
    client: &mut Client,
    next: Move,
    steps: &mut Steps<L>,
) -> Answer
    requires ready { IsReady shared.now client.old }
    ensures ready { IsReady shared.now client.new }
{
    match next {
        Move::Table => Answer::Counts(table(&client.log)),
        _ => outside(shared, client, next, steps),
    }
}
