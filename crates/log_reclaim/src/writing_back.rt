// Writing a version back into its object's master, and cutting its chain.
ghost use Rattle.std.specs.Prelude.{◌≡◌, ◌≢◌, ◌+◌, ◌<◌, ◌≤◌, length, Err};
ghost use Rattle.mv_layout.specs.Words.{IsLink, link_seat_of};
ghost use Rattle.seat_log.specs.mv_core.declared.view.Knowledge.{Knowledge};
ghost use Rattle.seat_log.specs.mv_core.EnterSteps.{MayLoadLow, mark_cleared};
ghost use Rattle.seat_log.specs.mv_core.LockSteps.{MayLoadDeath};
ghost use Rattle.seat_log.specs.mv_core.Passes.{view, IsOf, IsSame, config_of};
ghost use Rattle.seat_log.specs.commit_clock.Hears.{Hears};
ghost use Rattle.seat_log.specs.reader_marks.Scans.{IsKnown};
ghost use Rattle.seat_log.specs.reader_marks.Sections.{IsOpen};
ghost use Rattle.seat_log.specs.declared.version.Note.{Note};
ghost use Rattle.seat_log.specs.Notes.{retired, back_noted};
ghost use Rattle.seat_log.specs.Stands.{Stands};
ghost use Rattle.log_reclaim.specs.declared.writing_back.NoBack.TheVariants.{Young, Gone, Above};
ghost use Rattle.log_reclaim.specs.declared.writing_back.BackEnd.TheVariants.{Cut};
ghost use Rattle.log_reclaim.specs.Backs.{IsCommitted, IsWriting, StartsSo, StoresWord, CutsSo, FindsDeath, HasTimed, IsCutAt, FinishesSo};

use mv_history::{Protocol, Words};
use mv_layout::{WIDTH, clock_time, link_seat, link_word};
use seat_log::mv_core::{Pass, Shared, Steps, Swap};
use seat_log::reader_marks::{Watermark, enter_clock, leave};
use seat_log::{Log, note, note_cut, retire};
use std::sync::ledger::Ledger;

/// A write-back under way: the version, and how many of its words were stored. Letting it go leaves
/// the pass in its section.
#[derive(Drop)]
pub struct StartedWriteBack {
    object: u32,
    position: u64,
    words: Words,
    stored: u32,
}

/// Why a write-back doesn't start.
#[derive(Clone, Copy, Debug, PartialEq, Eq)]
pub enum NoBack {
    /// The version's time is above the watermark.
    Young,
    /// HEAD of the object is 0: a later version was committed, and cut meanwhile.
    Gone,
    /// HEAD names another version, of this seat, which is newer: held, or committed later.
    Above { seat: u32 },
}

/// How a write-back ends.
#[derive(Clone, Copy, Debug, PartialEq, Eq)]
pub enum BackEnd {
    /// The chain was cut, and the version is retired.
    Cut,
    /// HEAD named another version, of this seat, which is newer: held, or committed later.
    Above { seat: u32 },
}

// Why a write-back doesn't start that found this link in HEAD.
fn not_on_top(link: u64) -> NoBack
    requires { link ≢ 0 → IsLink link }
    ensures gone { link ≡ 0 → result ≡ Gone }
    ensures above { link ≢ 0 → result ≡ Above (link_seat_of link) }
{
    if link == 0 {
        return NoBack::Gone;
    }
    NoBack::Above {
        seat: link_seat(link),
    }
}

/// Begins to write a version of the own log back, which is live and committed at this position. The
/// pass is outside a section, with no scan running, and knows the mark.
///
/// - `Young` exactly where the version's time is above `mark.time`. No step is made.
/// - Else it enters a section and loads HEAD of the version's object, in at most eight steps. The
///   answer is `Ok` exactly where HEAD names that version; the pass is then in that section. Else it
///   leaves the section: `Gone` exactly where HEAD was 0, and `Above` exactly where it named another
///   version, of that seat. One of another seat was found in a state of the rule in which the pass had
///   the view that it had before the load: there it is held, or was committed later than each version
///   of the object that the own log has as committed. Of the own seat the log has a later commit.
pub fn back_start<P: Protocol, L: Ledger>(
    shared: &Shared<P>,
    pass: &mut Pass<P>,
    log: &Log,
    position: u64,
    mark: &Watermark,
    steps: &mut Steps<L>,
) -> Result<StartedWriteBack, NoBack>
    ghost at: { Note }
    requires of { IsOf shared.now pass.old }
    requires may { MayLoadLow (view pass.old) }
    requires stands { Stands (config_of shared.now) (view pass.old) log.now }
    requires live { IsCommitted log.now position at }
    requires known { IsKnown (view pass.old) mark.now }
    ensures same { IsSame pass.old pass.new }
    ensures starts { StartsSo (config_of shared.now) (view pass.old) (view pass.new) log.now at mark.now steps.old steps.new result }
    ensures cost { steps.new ≤ steps.old + 8 }
    ensures trail { length (view pass.new).trail ≤ length (view pass.old).trail + 8 }
{
    start_clock(shared, pass, log, position, mark, steps).0
}

// The same, and the greatest time that it found in CLOCK, which is that of all it has seen; 0 where
// it made no step.
pub(crate) fn start_clock<P: Protocol, L: Ledger>(
    shared: &Shared<P>,
    pass: &mut Pass<P>,
    log: &Log,
    position: u64,
    mark: &Watermark,
    steps: &mut Steps<L>,
) -> (Result<StartedWriteBack, NoBack>, u64)
    ghost at: { Note }
    requires of { IsOf shared.now pass.old }
    requires may { MayLoadLow (view pass.old) }
    requires stands { Stands (config_of shared.now) (view pass.old) log.now }
    requires live { IsCommitted log.now position at }
    requires known { IsKnown (view pass.old) mark.now }
    ensures same { IsSame pass.old pass.new }
    ensures starts { StartsSo (config_of shared.now) (view pass.old) (view pass.new) log.now at mark.now steps.old steps.new result.0 }
    ensures young { result.0 ≡ Err Young → result.1 ≡ 0 }
    ensures clock { result.0 ≢ Err Young → result.1 ≡ (config_of shared.now).base + length (view pass.new).past.seen }
    ensures hears { Hears (view pass.old) (view pass.new) result.1 }
    ensures cost { steps.new ≤ steps.old + 8 }
    ensures trail { length (view pass.new).trail ≤ length (view pass.old).trail + 8 }
{
    let version = note(log, (position - note(log, 0).position) as u32);
    if version.time > mark.time {
        return (Err(NoBack::Young), 0);
    }
    let (_, clock) = enter_clock(shared, pass, steps);
    let link = shared.load_head(pass, version.object, steps);
    if link == link_word(pass.seat(), position) {
        let words = version.words;
        let back = StartedWriteBack {
            object: version.object,
            position,
            words,
            stored: 0,
        };
        return (Ok(back), clock);
    }
    leave(shared, pass, steps);
    (Err(not_on_top(link)), clock)
}

/// Stores the next of the six words of a write-back into the object's master. One is left. It makes
/// one step.
pub fn back_word<P: Protocol, L: Ledger>(
    shared: &Shared<P>,
    pass: &mut Pass<P>,
    back: &mut StartedWriteBack,
    steps: &mut Steps<L>,
)
    requires of { IsOf shared.now pass.old }
    requires writing { IsWriting (config_of shared.now) (view pass.old) back.old }
    requires left { back.old.stored < 6 }
    ensures same { IsSame pass.old pass.new }
    ensures writing { IsWriting (config_of shared.now) (view pass.new) back.new }
    ensures stores { StoresWord (config_of shared.now) (view pass.old) (view pass.new) back.old back.new }
    ensures step { steps.new ≡ steps.old + 1 }
{
    let word = back.stored;
    shared.store_master(pass, back.object, word, back.words[word as usize], steps);
    back.stored += 1;
}

/// Tries to cut the chain of a write-back whose six words are stored: the first step of `back_finish`,
/// one exchange of HEAD from the version to 0.
///
/// - `Cut` exactly where it was won; `back_death` goes on from there, now or after steps of others.
/// - `Above` exactly where HEAD named another version, which is a newer one, of that other seat. What is
///   left of `back_finish` is `leave`.
pub fn back_cut<P: Protocol, L: Ledger>(
    shared: &Shared<P>,
    pass: &mut Pass<P>,
    back: &StartedWriteBack,
    steps: &mut Steps<L>,
) -> BackEnd
    requires of { IsOf shared.now pass.old }
    requires writing { IsWriting (config_of shared.now) (view pass.old) back.now }
    requires stored { back.now.stored ≡ 6 }
    ensures same { IsSame pass.old pass.new }
    ensures ends { CutsSo (config_of shared.now) (view pass.old) (view pass.new) back.now result }
    ensures next { result ≡ Cut → MayLoadDeath (view pass.new) }
    ensures open { IsOpen (view pass.new) }
    ensures step { steps.new ≡ steps.old + 1 }
{
    match shared.cut_head(pass, back.object, back.position, steps) {
        Swap::Won => BackEnd::Cut,
        Swap::Found(link) => BackEnd::Above {
            seat: link_seat(link),
        },
    }
}

/// Loads CLOCK after a chain was cut, and answers its printed time: the second step of `back_finish`. The
/// version is dead from the time after that. `back_end` goes on from there.
pub fn back_death<P: Protocol, L: Ledger>(
    shared: &Shared<P>,
    pass: &mut Pass<P>,
    steps: &mut Steps<L>,
) -> u64
    requires of { IsOf shared.now pass.old }
    requires may { MayLoadDeath (view pass.old) }
    ensures same { IsSame pass.old pass.new }
    ensures death { FindsDeath (config_of shared.now) (view pass.old) (view pass.new) result }
    ensures step { steps.new ≡ steps.old + 1 }
{
    clock_time(shared.load_death(pass, steps))
}

/// Ends a write-back whose chain was cut, with that printed time found in CLOCK since and nothing else done
/// for its seat: the last step of `back_finish`, which leaves the section. The log notes from when the
/// version is dead, and that a chain was cut, and stands for the pass again.
pub fn back_end<P: Protocol, L: Ledger>(
    shared: &Shared<P>,
    pass: &mut Pass<P>,
    log: &mut Log,
    back: StartedWriteBack,
    time: u64,
    steps: &mut Steps<L>,
)
    requires of { IsOf shared.now pass.old }
    requires timed { (from : Knowledge) × HasTimed (config_of shared.now) from (view pass.old) log.old back time }
    ensures same { IsSame pass.old pass.new }
    ensures view { view pass.new ≡ mark_cleared (config_of shared.now) (view pass.old) }
    ensures log { log.new ≡ back_noted (retired log.old back.position (time + 1)) }
    ensures cut { (from : Knowledge) → HasTimed (config_of shared.now) from (view pass.old) log.old back time
        → IsCutAt (config_of shared.now) from (view pass.new) log.old log.new back time }
    ensures stands { Stands (config_of shared.now) (view pass.new) log.new }
    ensures step { steps.new ≡ steps.old + 1 }
{
    leave(shared, pass, steps);
    retire(log, back.position, time + 1);
    note_cut(log);
}

/// Ends a write-back whose six words are stored: tries to cut the chain, by one exchange of HEAD from
/// the version to 0, and leaves the section. The log stood for the pass at its start, and is as then.
///
/// - `Cut` exactly where the exchange was won. The version is then dead from the time after that of
///   the clock, which is loaded, and the log has noted that.
/// - `Above` exactly where HEAD named another version, which is of that other seat, and was then held
///   or committed later, as in `back_start`. The log is as before.
///
/// It makes at most three steps, and tries the exchange once. It is `back_cut`, and then `back_death` and
/// `back_end`, or `leave`.
pub fn back_finish<P: Protocol, L: Ledger>(
    shared: &Shared<P>,
    pass: &mut Pass<P>,
    log: &mut Log,
    back: StartedWriteBack,
    steps: &mut Steps<L>,
) -> BackEnd
    requires of { IsOf shared.now pass.old }
    requires writing { IsWriting (config_of shared.now) (view pass.old) back }
    requires stored { back.stored ≡ 6 }
    requires stands { Stands (config_of shared.now) (view pass.old) log.old }
    ensures same { IsSame pass.old pass.new }
    ensures finishes { FinishesSo (config_of shared.now) (view pass.old) (view pass.new) log.old log.new back result }
    ensures stands { Stands (config_of shared.now) (view pass.new) log.new }
    ensures cost { steps.new ≤ steps.old + 3 }
    ensures trail { length (view pass.new).trail ≤ length (view pass.old).trail + 3 }
{
    finish_clock(shared, pass, log, back, steps).0
}

// The same, and the time that it found in CLOCK; 0 where it loaded none.
pub(crate) fn finish_clock<P: Protocol, L: Ledger>(
    shared: &Shared<P>,
    pass: &mut Pass<P>,
    log: &mut Log,
    back: StartedWriteBack,
    steps: &mut Steps<L>,
) -> (BackEnd, u64)
    requires of { IsOf shared.now pass.old }
    requires writing { IsWriting (config_of shared.now) (view pass.old) back }
    requires stored { back.stored ≡ 6 }
    requires stands { Stands (config_of shared.now) (view pass.old) log.old }
    ensures same { IsSame pass.old pass.new }
    ensures finishes { FinishesSo (config_of shared.now) (view pass.old) (view pass.new) log.old log.new back result.0 }
    ensures clock { result.1 ≤ (config_of shared.now).base + length (view pass.new).past.seen }
    ensures hears { Hears (view pass.old) (view pass.new) result.1 }
    ensures cut { result.0 ≡ Cut → IsCutAt (config_of shared.now) (view pass.old) (view pass.new) log.old log.new back result.1 }
    ensures stands { Stands (config_of shared.now) (view pass.new) log.new }
    ensures cost { steps.new ≤ steps.old + 3 }
    ensures trail { length (view pass.new).trail ≤ length (view pass.old).trail + 3 }
{
    match back_cut(shared, pass, &back, steps) {
        BackEnd::Cut => {
            let time = back_death(shared, pass, steps);
            back_end(shared, pass, log, back, time, steps);
            (BackEnd::Cut, time)
        }
        BackEnd::Above { seat } => {
            leave(shared, pass, steps);
            (BackEnd::Above { seat }, 0)
        }
    }
}
