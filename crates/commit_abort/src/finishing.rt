// Finishing a commit that was named.
ghost use Rattle.std.specs.Prelude.{◌≡◌, ◌+◌, ◌≤◌, ◌<◌, length};
ghost use Rattle.mv_layout.specs.Words.{clock_time_of};
ghost use Rattle.seat_log.specs.mv_core.declared.view.Knowledge.{Knowledge};
ghost use Rattle.seat_log.specs.mv_core.declared.view.OwnSection.{OwnSection};
ghost use Rattle.seat_log.specs.mv_core.EnterSteps.{mark_cleared};
ghost use Rattle.seat_log.specs.mv_core.Passes.{view, IsOf, IsSame, config_of};
ghost use Rattle.seat_log.specs.declared.version.Note.{Note};
ghost use Rattle.seat_log.specs.Notes.{IsNoteAt, held_from, committed_noted};
ghost use Rattle.seat_log.specs.Stands.{Stands};
ghost use Rattle.commit_abort.specs.Finishes.{WonNaming, IsJustNamed, HasNamed, StampsIt, CommittedSlot, MayTell};
ghost use Rattle.commit_abort.specs.Finishes.{TellsOne, IsFinishing, above_held, Finishes};

use mv_history::Protocol;
use seat_log::mv_core::{Pass, Shared, Steps};
use seat_log::{Log, held, live, note, note_commit};
use std::sync::ledger::Ledger;

// Exchanges the stamp of the own commit.
fn stamp_own<P: Protocol, L: Ledger>(
    shared: &Shared<P>,
    pass: &mut Pass<P>,
    first: u64,
    time: u64,
    steps: &mut Steps<L>,
)
    ghost inside: { OwnSection }
    requires of { IsOf shared.now pass.old }
    requires named { HasNamed (view pass.old) first time inside }
    ensures same { IsSame pass.old pass.new }
    ensures stamps { StampsIt (view pass.old) (view pass.new) first time inside }
    ensures step { steps.new ≡ steps.old + 1 }
{
    let _ = shared.stamp_own(pass, first, time, steps);
}

// Stores the commit's time into SUPER of the version below the one that is noted at this index, if
// there is one.
fn store_super_below<P: Protocol, L: Ledger>(
    shared: &Shared<P>,
    pass: &mut Pass<P>,
    log: &Log,
    index: u32,
    time: u64,
    steps: &mut Steps<L>,
)
    ghost above: { CommittedSlot }
    requires of { IsOf shared.now pass.old }
    requires range { index < length log.now.live }
    requires may { (n : Note) → IsNoteAt log.now index n → MayTell (config_of shared.now) (view pass.old) n time above }
    ensures same { IsSame pass.old pass.new }
    ensures tells { (n : Note) → IsNoteAt log.now index n
        → TellsOne (config_of shared.now) (view pass.old) (view pass.new) n time steps.old steps.new above }
{
    let above = note(log, index);
    if above.previous != 0 {
        shared.store_super(pass, above.previous, time, steps);
    }
}

/// Begins to finish the commit that the pass has just named, with the condition of `finish`: its first
/// step, the exchange of the stamp of the write set for the commit's time. `finish_step` goes on from
/// there, now or after steps of others.
pub fn finish_start<P: Protocol, L: Ledger>(
    shared: &Shared<P>,
    pass: &mut Pass<P>,
    log: &Log,
    time: u64,
    steps: &mut Steps<L>,
)
    requires of { IsOf shared.now pass.old }
    requires named { (won : WonNaming) × IsJustNamed (config_of shared.now) (view pass.old) log.now won × (time ≡ clock_time_of won.word + 1) }
    ensures same { IsSame pass.old pass.new }
    ensures finishing { IsFinishing (config_of shared.now) (view pass.old) (view pass.new) log.now time 0 }
    ensures step { steps.new ≡ steps.old + 1 }
{
    let first = note(log, live(log) - held(log)).first;
    stamp_own(shared, pass, first, time, steps);
}

/// Goes on with the finish of the commit of that time, with nothing done for its seat since: stores
/// the time into SUPER of the version below the one that was locked as number `which`, from 0 on. It is
/// one step, and none where nothing is below. After that of the last one `finish_end` comes.
pub fn finish_step<P: Protocol, L: Ledger>(
    shared: &Shared<P>,
    pass: &mut Pass<P>,
    log: &Log,
    time: u64,
    which: u32,
    steps: &mut Steps<L>,
)
    requires of { IsOf shared.now pass.old }
    requires finishing { (from : Knowledge) × IsFinishing (config_of shared.now) from (view pass.old) log.now time which }
    requires range { which < log.now.held }
    ensures same { IsSame pass.old pass.new }
    ensures tells { (n : Note) → IsNoteAt log.now (held_from log.now + which) n
        → TellsOne (config_of shared.now) (view pass.old) (view pass.new) n time steps.old steps.new
        (above_held (config_of shared.now) (view pass.old) log.now which) }
    ensures finishing { (from : Knowledge) → IsFinishing (config_of shared.now) from (view pass.old) log.now time which
        → IsFinishing (config_of shared.now) from (view pass.new) log.now time (which + 1) }
    ensures cost { steps.new ≤ steps.old + 1 }
{
    let first = live(log) - held(log);
    store_super_below(shared, pass, log, first + which, time, steps);
}

/// Ends the finish of the commit of that time, with SUPER stored below all of its versions and nothing
/// done for its seat since: the last step, the store of 0 into MARK, which leaves the section. The
/// commit is noted, and the log stands for the pass again, with nothing held.
pub fn finish_end<P: Protocol, L: Ledger>(
    shared: &Shared<P>,
    pass: &mut Pass<P>,
    log: &mut Log,
    time: u64,
    steps: &mut Steps<L>,
)
    requires of { IsOf shared.now pass.old }
    requires finishing { (from : Knowledge) × IsFinishing (config_of shared.now) from (view pass.old) log.old time log.old.held }
    ensures same { IsSame pass.old pass.new }
    ensures view { view pass.new ≡ mark_cleared (config_of shared.now) (view pass.old) }
    ensures finishes { (from : Knowledge) → IsFinishing (config_of shared.now) from (view pass.old) log.old time log.old.held
        → Finishes from (view pass.new) (log.old.held + 2) }
    ensures log { log.new ≡ committed_noted log.old time }
    ensures stands { Stands (config_of shared.now) (view pass.new) log.new }
    ensures step { steps.new ≡ steps.old + 1 }
{
    shared.clear_mark(pass, steps);
    note_commit(log, time);
}

/// Finishes the commit that the pass has just named: its last step was its own won exchange of CLOCK,
/// and `time` is the commit's printed time. The log stood for the pass before that exchange, and
/// has noted nothing since. It stamps the write set, stores SUPER below each of its versions, leaves
/// the section, and notes the commit; the log stands for the pass again, with nothing held. It makes
/// at most `held + 2` steps, and never refuses. It is `finish_start`, a `finish_step` for each version
/// of the write set, in the order of locking, and `finish_end`.
pub fn finish<P: Protocol, L: Ledger>(
    shared: &Shared<P>,
    pass: &mut Pass<P>,
    log: &mut Log,
    time: u64,
    steps: &mut Steps<L>,
)
    requires of { IsOf shared.now pass.old }
    requires named { (won : WonNaming) × IsJustNamed (config_of shared.now) (view pass.old) log.old won × (time ≡ clock_time_of won.word + 1) }
    ensures same { IsSame pass.old pass.new }
    ensures finishes { Finishes (view pass.old) (view pass.new) (log.old.held + 2) }
    ensures log { log.new ≡ committed_noted log.old time }
    ensures stands { Stands (config_of shared.now) (view pass.new) log.new }
    ensures cost { steps.new ≤ steps.old + log.old.held + 2 }
{
    finish_start(shared, pass, log, time, steps);
    for which in 0..held(log) {
        finish_step(shared, pass, log, time, which, steps);
    }
    finish_end(shared, pass, log, time, steps);
}
