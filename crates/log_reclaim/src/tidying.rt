// A tidy: a round with write-backs, one try of a rest where it helps, and a round without.
ghost use Rattle.std.specs.Prelude.{◌≡◌, ℕ, ◌+◌, ◌*◌, ◌<◌, ◌≤◌, List, [], length, true, false, Some};
ghost use Rattle.mv_history.specs.declared.answers.Holder.TheVariants.{Fresh};
ghost use Rattle.mv_history.specs.declared.Step.{Step};
ghost use Rattle.mv_history.specs.Trail.{clock_exchanges};
ghost use Rattle.seat_log.specs.mv_core.EnterSteps.{MayLoadLow};
ghost use Rattle.seat_log.specs.mv_core.Passes.{view, IsOf, IsSame, config_of};
ghost use Rattle.seat_log.specs.Stands.{Stands};
ghost use Rattle.log_reclaim.specs.Parts.{Reclaims, Shrinks};
ghost use Rattle.log_reclaim.specs.Holders.{TidyHolds, HeldSo};
ghost use Rattle.log_reclaim.specs.Rounds.{FreesFirst, SweptSo};
ghost use Rattle.log_reclaim.specs.Tidies.{IsAnyAbove, RestsSo, RestsOnce, RestsWhereDue, WritesBackSo, TidiesLeft};

use crate::rounds::{Tidy, free_all, holder, scan_and_free, sweep};
use crate::settling::HeadHolders;
use mv_history::Protocol;
use mv_layout::{LAST, clock_time};
use seat_log::commit_clock::{Named, help, now, rest};
use seat_log::mv_core::{Pass, Shared, Steps};
use seat_log::reader_marks::known;
use seat_log::{Log, live, note, note_rest};
use std::sync::ledger::Ledger;

// Whether a version is dead only from a time above this one.
fn any_above(log: &Log, time: u64) -> bool
    ensures { IsAnyAbove log.now time result }
{
    for index in 0..live(log) {
        if note(log, index).dead > time {
            return true;
        }
    }
    false
}

// Tries one rest, where a version is dead only from a time above this one and the last time isn't
// reached.
fn rest_if_due<P: Protocol, L: Ledger>(
    shared: &Shared<P>,
    pass: &mut Pass<P>,
    log: &mut Log,
    latest: u64,
    steps: &mut Steps<L>,
)
    requires of { IsOf shared.now pass.old }
    requires may { MayLoadLow (view pass.old) }
    requires stands { Stands (config_of shared.now) (view pass.old) log.old }
    requires within { latest ≤ (view pass.old).base + length (view pass.old).past.seen }
    ensures same { IsSame pass.old pass.new }
    ensures stands { Stands (config_of shared.now) (view pass.new) log.new }
    ensures rests { (made : List Step) × RestsSo (config_of shared.now) (view pass.old) (view pass.new) log.old log.new made latest }
    ensures cost { steps.new ≤ steps.old + 5 }
    ensures trail { length (view pass.new).trail ≤ length (view pass.old).trail + 5 }
{
    if latest == LAST || !any_above(log, latest) {
        return;
    }
    let word = now(shared, pass, steps);
    help(shared, pass, word, steps);
    if clock_time(word) == LAST {
        return;
    }
    if let Named::Done(_) = rest(shared, pass, word, steps) {
        note_rest(log);
    }
}

// A tidy of what its first frees left. It is a function of its own since a call takes time at its begin
// to clear the tables of found seats, of which a log that is empty needs none.
fn tidy_left<P: Protocol, L: Ledger>(
    shared: &Shared<P>,
    pass: &mut Pass<P>,
    log: &mut Log,
    steps: &mut Steps<L>,
) -> Tidy
    requires of { IsOf shared.now pass.old }
    requires may { MayLoadLow (view pass.old) }
    requires stands { Stands (config_of shared.now) (view pass.old) log.old }
    requires some { 0 < length log.old.live }
    ensures same { IsSame pass.old pass.new }
    ensures stands { Stands (config_of shared.now) (view pass.new) log.new }
    ensures live { result.live ≡ length log.new.live }
    ensures tidies { TidiesLeft P.start P.allowed (config_of shared.now) (view pass.old) (view pass.new) log.old log.new result.freed result.held }
    ensures cost { steps.new ≤ steps.old + (2 * (config_of shared.now).seats + 38 * length log.old.live + 12) }
    ensures trail { length (view pass.new).trail ≤ length (view pass.old).trail + (2 * (config_of shared.now).seats + 38 * length log.old.live + 12) }
{
    let mut found = HeadHolders::new(0);
    let (first_freed, first) = scan_and_free(shared, pass, log, true, &mut found, steps);
    rest_if_due(shared, pass, log, first.latest, steps);
    let mut unused = HeadHolders::new(0);
    let (freed, last) = sweep(shared, pass, log, false, &mut unused, steps);
    let held = match last {
        Some(last) => holder(log, &first, &last, true, &found),
        None => None,
    };
    Tidy {
        freed: first_freed + freed,
        live: live(log),
        held,
    }
}

/// Reclaims what it can of the own log: a round with write-backs; where a version is then dead only
/// from a time above the clock, and the last time isn't reached, one try of a rest, which moves the
/// clock on; and a round without write-backs. The pass is outside a section, with no scan running.
///
/// The first step is the load of GRACE, and the frees that it allows are the next; where they leave
/// nothing, one more load of GRACE follows, which begins the round without write-backs and finds
/// nothing to free, and no other step.
///
/// No commit is made or tried, and the seat's commits are as before. At most one step is an exchange on
/// CLOCK, won or lost; at most one rest is made, which is counted. The exchange is tried from a word
/// whose time isn't the last, which this call then loaded and helped, and only where a version that the
/// log had at the begin is dead from a time above each time that the loads of CLOCK before had found,
/// one of them that of a scan. The time of death was noted before, or this call found it: in SUPER of
/// that very version, or by the load of CLOCK that ends a write-back.
///
/// Of each version that is left without a time of death it is known why the first round's write-back
/// left it so. This call found SUPER 0 in it. Then it found a newer version in HEAD of its object,
/// another seat's; or a scan of this call found a low time below its clock's, and the version is
/// later than the watermark that this scan answered, or its object has a later write.
///
/// `held` is None exactly where the log is empty afterwards. Else the oldest write set isn't
/// dead by the last scan's watermark, and its holder has a cause in this call's steps:
///
/// - `Mark` only where this call read the mark of that other seat at that low time, and a version of
///   the oldest write set needs a watermark above it.
/// - `Above` only where this call found SUPER 0 in a version of the oldest write set, of that object,
///   and later found HEAD of the object naming a version of that other seat. That one is newer: in a
///   state of the rule in which the pass had the view that it had just before that step, it is held, or
///   was committed later.
/// - `Fresh` only where another seat made the entry of that printed time after this call's last scan had
///   loaded the clock, so that it wasn't seen before the call, and a version of the oldest write set
///   needs that time.
/// - `End` only where this call found the last time in CLOCK, and a version needs a watermark above it.
///
/// In a domain of one seat whose last time wasn't reached before, the log is empty afterwards.
///
/// It makes at most `2 * (4 + seats + 20 * slots) + 8` steps, takes no memory, waits for nothing and
/// tries nothing twice.
pub fn tidy<P: Protocol, L: Ledger>(
    shared: &Shared<P>,
    pass: &mut Pass<P>,
    log: &mut Log,
    steps: &mut Steps<L>,
) -> Tidy
    requires of { IsOf shared.now pass.old }
    requires may { MayLoadLow (view pass.old) }
    requires stands { Stands (config_of shared.now) (view pass.old) log.old }
    ensures same { IsSame pass.old pass.new }
    ensures stands { Stands (config_of shared.now) (view pass.new) log.new }
    ensures live { result.live ≡ length log.new.live }
    ensures shrinks { Shrinks log.old log.new result.freed }
    ensures rests { RestsOnce (view pass.old) (view pass.new) }
    ensures reclaims { (made : List Step) × Reclaims (view pass.old) (view pass.new) made
        × SweptSo (config_of shared.now) (view pass.new) log.new made false
        × HeldSo (TidyHolds (config_of shared.now) (view pass.new) log.new made) log.new result.held × (length (clock_exchanges made) ≤ 1)
        × WritesBackSo (config_of shared.now) (view pass.new) log.new made × FreesFirst (config_of shared.now) log.old made true
        × RestsWhereDue (config_of shared.now) (view pass.new) log.old made }
    ensures fresh { (time : ℕ) → result.held ≡ Some (Fresh time) → (view pass.old).base + length (view pass.old).past.seen < time }
    ensures alone { (config_of shared.now).seats ≡ 1 → (view pass.old).base + length (view pass.old).past.seen < 35184372088831 → log.new.live ≡ [] }
    ensures idle { log.old.live ≡ [] → steps.new ≡ steps.old + 2 }
    ensures cost { steps.new ≤ steps.old + (2 * (4 + (config_of shared.now).seats + 20 * (config_of shared.now).slots) + 8) }
    ensures trail { length (view pass.new).trail
        ≤ length (view pass.old).trail + (2 * (4 + (config_of shared.now).seats + 20 * (config_of shared.now).slots) + 8) }
{
    let mark = known(shared, pass, steps);
    let freed = free_all(shared, pass, log, &mark, steps);
    if live(log) == 0 {
        let _ = known(shared, pass, steps);
        return Tidy {
            freed,
            live: 0,
            held: None,
        };
    }
    let left = tidy_left(shared, pass, log, steps);
    Tidy {
        freed: freed + left.freed,
        live: left.live,
        held: left.held,
    }
}
