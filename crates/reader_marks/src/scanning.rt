// Scanning the marks for a watermark, and taking the one that stands in GRACE.
ghost use Rattle.std.specs.Prelude.{◌≡◌, ◌≢◌, ℕ, ◌+◌, ◌<◌, ◌≤◌, false, None, Some, All};
ghost use Rattle.mv_history.specs.State.{maker_of};
ghost use Rattle.commit_clock.specs.mv_core.declared.view.Scan.{Scan};
ghost use Rattle.commit_clock.specs.mv_core.Passes.{view, IsOf, IsSame, config_of};
ghost use Rattle.commit_clock.specs.mv_core.ReclaimSteps.{MayLoadScan, MayLoadMark, mark_loaded};
ghost use Rattle.commit_clock.specs.mv_core.SeatSteps.{grace_loaded};
ghost use Rattle.reader_marks.specs.Scans.{Scans, IsKnown};
ghost use Rattle.reader_marks.specs.Lowering.{lowered};

use commit_clock::mv_core::{Pass, Shared, Steps};
use mv_history::Protocol;
use mv_layout::{clock_time, mark_low};
use std::sync::ledger::Ledger;

/// A time that no section is below, now or later, and what fixed it. Times are printed ones.
#[derive(Clone, Copy, Debug, PartialEq, Eq)]
pub struct Watermark {
    /// The greater of `low` and the time that was found in GRACE.
    pub time: u64,
    /// The least of the clock's time and of the low times of all other seats' marks.
    pub low: u64,
    /// Whether a mark below the clock's time fixed `low`.
    pub marked: bool,
    /// The lowest seat with that mark, or 0.
    pub seat: u32,
}

// The least time of a scan so far, and the lowest seat whose mark has it, where it is below the
// clock's time.
#[derive(Clone, Copy)]
struct Lowest {
    low: u64,
    seat: Option<u32>,
}

// The same with one mark more, of a seat above all before.
fn lower(lowest: Lowest, seat: u32, mark: u64) -> Lowest
    ensures { result ≡ lowered lowest seat mark }
{
    if mark == 0 {
        return lowest;
    }
    let low = mark_low(mark);
    if low >= lowest.low {
        return lowest;
    }
    Lowest {
        low,
        seat: Some(seat),
    }
}

// Loads the mark of a seat, unless it is the own.
fn look_at<P: Protocol, L: Ledger>(
    shared: &Shared<P>,
    pass: &mut Pass<P>,
    lowest: Lowest,
    seat: u32,
    steps: &mut Steps<L>,
) -> Lowest
    requires of { IsOf shared.now pass.old }
    requires may { seat ≢ (view pass.old).number → (scan : Scan) × MayLoadMark (config_of shared.now) (view pass.old) seat scan }
    ensures same { IsSame pass.old pass.new }
    ensures own { seat ≡ (view pass.old).number → (result ≡ lowest) × (view pass.new ≡ view pass.old) × (steps.new ≡ steps.old) }
    ensures other { seat ≢ (view pass.old).number → (mark : ℕ) × (scan : Scan) × ((view pass.old).scan ≡ Some scan)
        × (result ≡ lowered lowest seat mark) × (view pass.new ≡ mark_loaded (config_of shared.now) (view pass.old) seat scan mark)
        × (steps.new ≡ steps.old + 1) }
{
    if seat == pass.seat() {
        return lowest;
    }
    let mark = shared.load_mark(pass, seat, steps);
    lower(lowest, seat, mark)
}

/// Finds a watermark: loads CLOCK and the mark of each other seat, in order, and raises GRACE by the
/// least of their times, `low`. The answered `time` is the greater of `low` and the time found in
/// GRACE. No section of any seat has a time below it, now or later, and the pass knows it. The pass
/// is outside a section, with no scan running, and has then seen the whole history of the load of
/// CLOCK, every entry of which is by a seat of the domain. It never refuses.
pub fn scan<P: Protocol, L: Ledger>(
    shared: &Shared<P>,
    pass: &mut Pass<P>,
    steps: &mut Steps<L>,
) -> Watermark
    requires of { IsOf shared.now pass.old }
    requires may { MayLoadScan (view pass.old) }
    ensures same { IsSame pass.old pass.new }
    ensures scans { (clock : ℕ) × Scans (config_of shared.now) (view pass.old) (view pass.new) result clock steps.old steps.new }
    ensures known { IsKnown (view pass.new) result }
    ensures makers { All (λ e. maker_of e < (config_of shared.now).seats) (view pass.new).past.seen }
    ensures cost { steps.new ≤ steps.old + ((config_of shared.now).seats + 3) }
{
    scan_clock(shared, pass, steps).0
}

/// Scans as `scan` does, and answers besides the printed time that it found in CLOCK.
pub fn scan_clock<P: Protocol, L: Ledger>(
    shared: &Shared<P>,
    pass: &mut Pass<P>,
    steps: &mut Steps<L>,
) -> (Watermark, u64)
    requires of { IsOf shared.now pass.old }
    requires may { MayLoadScan (view pass.old) }
    ensures same { IsSame pass.old pass.new }
    ensures scans { Scans (config_of shared.now) (view pass.old) (view pass.new) result.0 result.1 steps.old steps.new }
    ensures known { IsKnown (view pass.new) result.0 }
    ensures makers { All (λ e. maker_of e < (config_of shared.now).seats) (view pass.new).past.seen }
    ensures cost { steps.new ≤ steps.old + ((config_of shared.now).seats + 3) }
{
    let clock = clock_time(shared.load_scan(pass, steps));
    let mut lowest = Lowest {
        low: clock,
        seat: None,
    };
    for seat in 0..shared.config().seats {
        lowest = look_at(shared, pass, lowest, seat, steps);
    }
    let low = lowest.low;
    let found = shared.raise_grace(pass, low, steps);
    let mark = Watermark {
        time: low.max(found),
        low,
        marked: lowest.seat.is_some(),
        seat: lowest.seat.unwrap_or(0),
    };
    (mark, clock)
}

/// The watermark that stands in GRACE, by one load: `time` and `low` are what it found, and no mark
/// fixed it. No section of any seat has a time below it, now or later, and the pass knows it.
pub fn known<P: Protocol, L: Ledger>(
    shared: &Shared<P>,
    pass: &mut Pass<P>,
    steps: &mut Steps<L>,
) -> Watermark
    requires of { IsOf shared.now pass.old }
    ensures same { IsSame pass.old pass.new }
    ensures mark { result ≡ record { time = result.time; low = result.time; marked = false; seat = 0 } }
    ensures view { view pass.new ≡ grace_loaded (config_of shared.now) (view pass.old) result.time }
    ensures known { IsKnown (view pass.new) result }
    ensures step { steps.new ≡ steps.old + 1 }
{
    let time = shared.load_grace(pass, steps);
    Watermark {
        time,
        low: time,
        marked: false,
        seat: 0,
    }
}
