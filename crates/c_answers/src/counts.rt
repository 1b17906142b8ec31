// The counts of a seat's log, for C.
ghost use Rattle.std.specs.Prelude.{◌≡◌};
ghost use Rattle.c_answers.specs.Counted.{counts_told};

use mv_history::LogTable;

/// The counts of a seat's log.
#[repr(C)]
#[derive(Clone, Copy)]
pub struct MvrluCounts {
    /// Commits of the seat.
    pub commits: u64,
    /// Sections that were aborted with something held.
    pub aborts: u64,
    /// Versions that were written back into their objects.
    pub back: u64,
    /// Slots that were freed.
    pub freed: u64,
    /// Entries of the seat that change nothing.
    pub rests: u64,
    /// Slots that are live.
    pub live: u64,
}

/// The counts of a log, as they are written for C.
pub fn counts_of(log: LogTable) -> MvrluCounts
    ensures { result ≡ counts_told log }
{
    MvrluCounts {
        commits: log.commits,
        aborts: log.aborts,
        back: log.back,
        freed: log.freed,
        rests: log.rests,
        live: log.live,
    }
}
