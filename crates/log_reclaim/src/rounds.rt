// A round: free what GRACE allows, scan, look at each version, and free again.
ghost use Rattle.std.specs.Prelude.{◌≡◌, ◌≢◌, ℕ, ◌+◌, ◌*◌, ◌<◌, ◌≤◌, List, [], length, true, false, Some, None};
ghost use Rattle.mv_history.specs.declared.Step.{Step};
ghost use Rattle.mv_history.specs.Trail.{clock_exchanges};
ghost use Rattle.seat_log.specs.mv_core.EnterSteps.{MayLoadLow};
ghost use Rattle.seat_log.specs.mv_core.Passes.{view, IsOf, IsSame, config_of};
ghost use Rattle.seat_log.specs.commit_clock.Hears.{Hears};
ghost use Rattle.seat_log.specs.reader_marks.Scans.{IsKnown};
ghost use Rattle.seat_log.specs.declared.version.Note.{Note};
ghost use Rattle.seat_log.specs.Notes.{IsNoteAt, IsLog};
ghost use Rattle.seat_log.specs.Stands.{Stands};
ghost use Rattle.seat_log.specs.Frees.{OldestIsDead, freed_noted};
ghost use Rattle.log_reclaim.specs.Parts.{Reclaims, Shrinks};
ghost use Rattle.log_reclaim.specs.Tries.{Makes};
ghost use Rattle.log_reclaim.specs.Sweeps.{HasEntries, Sweeps, SweepsSo};
ghost use Rattle.log_reclaim.specs.Holders.{RoundHolds, HeldSo};
ghost use Rattle.log_reclaim.specs.Rounds.{FreesAll, FreesFirst, FreesBeforeScan, IsDue, by_mark_of, IsHolder, SweptSo, HasMade};

use crate::settling::{HeadHolders, settle_all};
use mv_history::{Holder, Protocol};
use mv_layout::LAST;
use seat_log::mv_core::{Pass, Shared, Steps};
use seat_log::reader_marks::{Watermark, known, scan_clock};
use seat_log::{Log, Note, free_oldest, live, note};
use std::sync::ledger::Ledger;

/// What a round or a tidy answers.
#[derive(Clone, Copy, Debug, PartialEq, Eq)]
pub struct Tidy {
    /// How many slots this call freed.
    pub freed: u32,
    /// How many slots are live afterwards.
    pub live: u32,
    /// Who holds the oldest write set, if one is left.
    pub held: Option<Holder>,
}

/// What a round's scan found, and the greatest printed time that the round found in CLOCK.
#[derive(Clone, Copy)]
pub(crate) struct RoundScan {
    pub(crate) mark: Watermark,
    pub(crate) clock: u64,
    pub(crate) latest: u64,
}

// Frees the oldest write set while it is dead by this watermark. It answers how many slots it freed.
pub(crate) fn free_all<P: Protocol, L: Ledger>(
    shared: &Shared<P>,
    pass: &mut Pass<P>,
    log: &mut Log,
    mark: &Watermark,
    steps: &mut Steps<L>,
) -> u32
    requires of { IsOf shared.now pass.old }
    requires may { MayLoadLow (view pass.old) }
    requires stands { Stands (config_of shared.now) (view pass.old) log.old }
    requires known { IsKnown (view pass.old) mark.now }
    ensures same { IsSame pass.old pass.new }
    ensures stands { Stands (config_of shared.now) (view pass.new) log.new }
    ensures frees { (made : List Step) × FreesAll (view pass.old) (view pass.new) log.old log.new made mark.now.time result }
    ensures step { steps.new ≡ steps.old + result }
{
    let mut freed = 0;
    'sets: loop {
        let count = free_oldest(shared, pass, log, mark, steps);
        if count == 0 {
            return freed;
        }
        freed += count;
    }
}

// Scans, looks at each version, and frees what is then dead. The log isn't empty.
pub(crate) fn scan_and_free<P: Protocol, L: Ledger>(
    shared: &Shared<P>,
    pass: &mut Pass<P>,
    log: &mut Log,
    back: bool,
    found: &mut HeadHolders,
    steps: &mut Steps<L>,
) -> (u32, RoundScan)
    requires of { IsOf shared.now pass.old }
    requires may { MayLoadLow (view pass.old) }
    requires stands { Stands (config_of shared.now) (view pass.old) log.old }
    requires some { 0 < length log.old.live }
    ensures same { IsSame pass.old pass.new }
    ensures stands { Stands (config_of shared.now) (view pass.new) log.new }
    ensures sweeps { (made : List Step) × Sweeps (config_of shared.now) (view pass.old) (view pass.new) log.old log.new made back result.1 found.new result.0 }
    ensures hears { Hears (view pass.old) (view pass.new) result.1.latest }
    ensures cost { steps.new ≤ steps.old + ((config_of shared.now).seats + 3 + 18 * length log.old.live + result.0) }
    ensures trail { length (view pass.new).trail ≤ length (view pass.old).trail + ((config_of shared.now).seats + 3 + 18 * length log.old.live + result.0) }
{
    let (mark, clock) = scan_clock(shared, pass, steps);
    *found = HeadHolders::new(note(log, 0).position);
    let latest = settle_all(shared, pass, log, back, &mark, clock, found, steps);
    let freed = free_all(shared, pass, log, &mark, steps);
    let scanned = RoundScan {
        mark,
        clock,
        latest,
    };
    (freed, scanned)
}

/// A round: frees what the watermark that stands in GRACE allows, and then, unless the log is empty,
/// scans, looks at each version, with write-backs or without, and frees from the oldest write set on
/// what is dead by the scan's watermark. It answers how many slots it freed, and what it scanned.
pub(crate) fn sweep<P: Protocol, L: Ledger>(
    shared: &Shared<P>,
    pass: &mut Pass<P>,
    log: &mut Log,
    back: bool,
    found: &mut HeadHolders,
    steps: &mut Steps<L>,
) -> (u32, Option<RoundScan>)
    requires of { IsOf shared.now pass.old }
    requires may { MayLoadLow (view pass.old) }
    requires stands { Stands (config_of shared.now) (view pass.old) log.old }
    ensures same { IsSame pass.old pass.new }
    ensures stands { Stands (config_of shared.now) (view pass.new) log.new }
    ensures sweeps { (made : List Step) × SweepsSo (config_of shared.now) (view pass.old) (view pass.new) log.old log.new made back found.new result.0 result.1
        × FreesBeforeScan (config_of shared.now) log.old made result.1 }
    ensures kept { result.1 ≡ None → found.new ≡ found.old }
    ensures cost { steps.new ≤ steps.old + (4 + (config_of shared.now).seats + 19 * length log.old.live) }
    ensures trail { length (view pass.new).trail ≤ length (view pass.old).trail + (4 + (config_of shared.now).seats + 19 * length log.old.live) }
{
    let mark = known(shared, pass, steps);
    let first = free_all(shared, pass, log, &mark, steps);
    if live(log) == 0 {
        return (first, None);
    }
    let (second, scanned) = scan_and_free(shared, pass, log, back, found, steps);
    (first + second, Some(scanned))
}

// The first version of the oldest write set, in the order of locking, that has no time of death or one
// above this time.
fn due(log: &Log, time: u64) -> Option<Note>
    requires { IsLog log.now }
    ensures { IsDue log.now time result }
{
    for index in 0..live(log) {
        let version = note(log, index);
        if version.first != note(log, 0).position {
            return None;
        }
        if version.dead == 0 || version.dead > time {
            return Some(version);
        }
    }
    None
}

// The holder by the mark of a scan.
fn by_mark(mark: &Watermark) -> Holder
    ensures { result ≡ by_mark_of mark.now }
{
    Holder::Mark {
        seat: mark.seat,
        low: mark.low,
    }
}

/// Who holds the oldest write set, if one is left: by the version of it that is due by the last scan's
/// watermark, with its time of death; or without one by what its write-back found, or by the first
/// scan. In a round that wrote nothing back a version without a time of death is fresh.
pub(crate) fn holder(
    log: &Log,
    first: &RoundScan,
    last: &RoundScan,
    back: bool,
    found: &HeadHolders,
) -> Option<Holder>
    requires noted { IsLog log.now }
    requires table { back ≡ true → HasEntries log.now found.now }
    ensures { IsHolder log.now first.now last.now back found.now result }
{
    let version = due(log, last.mark.time)?;
    let holder = if version.dead > LAST {
        Holder::End
    } else if version.dead > last.clock {
        Holder::Fresh { time: version.dead }
    } else if version.dead != 0 {
        by_mark(&last.mark)
    } else if !back {
        Holder::Fresh { time: version.time }
    } else if let Some(seat) = found.at(version.position) {
        Holder::Above {
            object: version.object,
            seat,
        }
    } else {
        by_mark(&first.mark)
    };
    Some(holder)
}

/// Reclaims what it can of the own log in one round. The pass is outside a section, with no scan
/// running. First it frees, from the oldest write set on, what the watermark that stands in GRACE
/// allows; where the log is then empty, that is all. Else it scans once; of each version without a
/// time of death it loads SUPER, which may tell one; with `back` it writes back each of the others
/// whose time isn't above the watermark and that HEAD names; and it frees from the oldest write set on
/// what is dead by the watermark.
///
/// The first step is the load of GRACE, and the frees that it allows are the next; where they leave
/// nothing, no step follows.
///
/// No commit and no rest is made or tried: no step is an exchange on CLOCK. The seat's commits and
/// rests are as before. Without `back` it enters no section: each step loads GRACE, CLOCK, a mark or
/// SUPER, raises GRACE, or frees a slot. `held` is None exactly
/// where the log is empty afterwards. Else the oldest write set isn't dead by the scan's watermark, and
/// its holder has a cause in this call's steps:
///
/// - `Mark` only where this call read the mark of that other seat at that low time, and a version of
///   the oldest write set needs a watermark above it.
/// - `Above` only where this call found SUPER 0 in a version of the oldest write set, of that object,
///   and later found HEAD of the object naming a version of that other seat. That one is newer: in a
///   state of the rule in which the pass had the view that it had just before that step, it is held, or
///   was committed later.
/// - `Fresh` only where a version of it needs that printed time, which is above the scan's clock, or,
///   without `back`, where SUPER of a version of that commit time was found 0.
/// - `End` only where this call found the last time in CLOCK, and a version needs a watermark above it.
///
/// It makes at most `4 + seats + 20 * slots` steps, takes no memory, waits for nothing and tries
/// nothing twice. (MV-RLU, section 3.6, where a thread of its own finds the watermark.)
pub fn round<P: Protocol, L: Ledger>(
    shared: &Shared<P>,
    pass: &mut Pass<P>,
    log: &mut Log,
    back: bool,
    steps: &mut Steps<L>,
) -> Tidy
    requires of { IsOf shared.now pass.old }
    requires may { MayLoadLow (view pass.old) }
    requires stands { Stands (config_of shared.now) (view pass.old) log.old }
    ensures same { IsSame pass.old pass.new }
    ensures stands { Stands (config_of shared.now) (view pass.new) log.new }
    ensures live { result.live ≡ length log.new.live }
    ensures shrinks { Shrinks log.old log.new result.freed }
    ensures rests { (view pass.new).past.rests ≡ (view pass.old).past.rests }
    ensures reclaims { (made : List Step) × Reclaims (view pass.old) (view pass.new) made
        × SweptSo (config_of shared.now) (view pass.new) log.new made back
        × HeldSo (RoundHolds (config_of shared.now) (view pass.new) log.new made back) log.new result.held × (clock_exchanges made ≡ [])
        × FreesFirst (config_of shared.now) log.old made false }
    ensures plain { HasMade (view pass.old) (view pass.new) back }
    ensures cost { steps.new ≤ steps.old + (4 + (config_of shared.now).seats + 20 * (config_of shared.now).slots) }
    ensures trail { length (view pass.new).trail ≤ length (view pass.old).trail + (4 + (config_of shared.now).seats + 20 * (config_of shared.now).slots) }
{
    let mut found = HeadHolders::new(0);
    let (freed, scanned) = sweep(shared, pass, log, back, &mut found, steps);
    let held = match scanned {
        Some(scanned) => holder(log, &scanned, &scanned, back, &found),
        None => None,
    };
    Tidy {
        freed,
        live: live(log),
        held,
    }
}
