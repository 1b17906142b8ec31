// Plans, and what is wrong with a text that is none.
use mv_history::Words;
use mv_layout::Config;

/// A call of a seat.
#[derive(Clone, Copy, Debug, Drop, PartialEq, Eq)]
pub enum Call {
    /// Enters a section.
    Enter,
    /// Reads an object in the section.
    Read { object: u32 },
    /// Tries to lock an object for the section.
    Lock { object: u32 },
    /// Gives an object that the section holds these words.
    Write { object: u32, words: Words },
    /// Tries to commit what the section holds.
    Commit,
    /// Gives up what the section holds, and leaves it.
    Abort,
    /// Leaves the section, which holds nothing.
    Leave,
    /// Reclaims what it can of the seat's log.
    Tidy,
}

/// A call, and the seat that makes it.
#[derive(Clone, Copy, Debug, Drop, PartialEq, Eq)]
pub struct CallOf {
    pub seat: u32,
    pub call: Call,
}

/// How many steps a plan may have.
pub const MOST_STEPS: usize = 65_536;

/// The numbers of a domain, the calls of its seats, and the order in which the seats have their turns.
#[derive(Debug, Drop)]
pub struct Plan {
    /// 1 to 64 seats, 1 to 1024 objects and 64 to 256 slots; `write_max` is 16, `low` half of the slots,
    /// and `high` 16 less than them.
    pub config: Config,
    /// The calls, in the order of their lines. Each seat makes its own ones in this order.
    pub calls: Vec<CallOf>,
    /// The seat of each turn, at most `MOST_STEPS`.
    pub steps: Vec<u32>,
}

/// What is wrong with a line of a plan.
#[derive(Clone, Copy, Debug, Drop, PartialEq, Eq)]
pub enum PlanKind {
    /// The first word is not that of a line which may stand there, or a call is none of the eight.
    Word,
    /// The number of words is not the line's.
    Count,
    /// A number is not 1 to 20 decimal digits, or out of its range.
    Number,
    /// With this line there are more than `MOST_STEPS` steps.
    Many,
}

/// Why a text has no plan.
#[derive(Clone, Copy, Debug, Drop, PartialEq, Eq)]
pub enum PlanFault {
    /// The first faulty line, counted from 1, and what is wrong with it.
    At { line: u32, kind: PlanKind },
    /// Want of memory.
    Memory,
}
