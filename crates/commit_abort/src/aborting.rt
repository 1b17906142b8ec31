// Giving up what a section holds.
ghost use Rattle.std.specs.Prelude.{◌≡◌, ℕ, ◌+◌, ◌≤◌, ◌<◌, length, None};
ghost use Rattle.seat_log.specs.mv_core.declared.view.Knowledge.{Knowledge};
ghost use Rattle.seat_log.specs.mv_core.declared.view.OwnSection.{OwnSection};
ghost use Rattle.seat_log.specs.mv_core.EnterSteps.{mark_cleared};
ghost use Rattle.seat_log.specs.mv_core.Passes.{view, IsOf, IsSame, config_of};
ghost use Rattle.seat_log.specs.declared.version.Note.{Note};
ghost use Rattle.seat_log.specs.Notes.{IsNoteAt, held_from, aborted_noted};
ghost use Rattle.seat_log.specs.Stands.{Stands};
ghost use Rattle.commit_abort.specs.Aborts.{IsOpen, HeldSlot, MayGiveBack, GivesBack, IsAborting, held_number, LoadsDeath, HasGivenUp, Aborts, abort_cost};

use mv_history::Protocol;
use mv_layout::clock_time;
use seat_log::mv_core::{Pass, Shared, Steps};
use seat_log::{Log, held, live, note, note_abort};
use std::sync::ledger::Ledger;

// Gives HEAD back of the object that is noted at this index.
fn unlock_one<P: Protocol, L: Ledger>(
    shared: &Shared<P>,
    pass: &mut Pass<P>,
    log: &Log,
    index: u32,
    steps: &mut Steps<L>,
)
    ghost at: { HeldSlot }
    requires of { IsOf shared.now pass.old }
    requires range { index < length log.now.live }
    requires may { (n : Note) → IsNoteAt log.now index n → MayGiveBack (config_of shared.now) (view pass.old) n at }
    ensures same { IsSame pass.old pass.new }
    ensures gives { (n : Note) → IsNoteAt log.now index n → GivesBack (config_of shared.now) (view pass.old) (view pass.new) n at }
    ensures step { steps.new ≡ steps.old + 1 }
{
    let version = note(log, index);
    shared.unlock_head(pass, version.object, version.previous, steps);
}

/// Gives HEAD back of the object that was locked as number `which`, from 0 on: a step of an `abort`,
/// which begins with number 0, with the condition of `abort`. `abort_death` comes after that of the last
/// one. Others may move in between.
pub fn abort_step<P: Protocol, L: Ledger>(
    shared: &Shared<P>,
    pass: &mut Pass<P>,
    log: &Log,
    which: u32,
    steps: &mut Steps<L>,
)
    requires of { IsOf shared.now pass.old }
    requires aborting { (from : Knowledge) × IsAborting (config_of shared.now) from (view pass.old) log.now which }
    requires range { which < log.now.held }
    ensures same { IsSame pass.old pass.new }
    ensures gives { (n : Note) → IsNoteAt log.now (held_from log.now + which) n
        → GivesBack (config_of shared.now) (view pass.old) (view pass.new) n (held_number (config_of shared.now) (view pass.old) log.now which) }
    ensures aborting { (from : Knowledge) → IsAborting (config_of shared.now) from (view pass.old) log.now which
        → IsAborting (config_of shared.now) from (view pass.new) log.now (which + 1) }
    ensures step { steps.new ≡ steps.old + 1 }
{
    let first = live(log) - held(log);
    unlock_one(shared, pass, log, first + which, steps);
}

/// Finds the printed time from which the versions given up are dead, with HEAD given back of all of
/// their objects: the one after that of CLOCK, by one load. Where nothing was held it makes no step, and
/// answers 0. `abort_end` goes on from there.
pub fn abort_death<P: Protocol, L: Ledger>(
    shared: &Shared<P>,
    pass: &mut Pass<P>,
    log: &Log,
    steps: &mut Steps<L>,
) -> u64
    requires of { IsOf shared.now pass.old }
    requires aborting { (from : Knowledge) × IsAborting (config_of shared.now) from (view pass.old) log.now log.now.held }
    ensures same { IsSame pass.old pass.new }
    ensures death { LoadsDeath (config_of shared.now) (view pass.old) (view pass.new) log.now.held result steps.old steps.new }
{
    if held(log) == 0 {
        return 0;
    }
    clock_time(shared.load_death(pass, steps)) + 1
}

/// Ends an `abort`, with the time of death found and nothing done for its seat since: the last step,
/// the store of 0 into MARK, which leaves the section. What is given up is noted with that time, and the
/// log stands for the pass again, with nothing held.
pub fn abort_end<P: Protocol, L: Ledger>(
    shared: &Shared<P>,
    pass: &mut Pass<P>,
    log: &mut Log,
    dead: u64,
    steps: &mut Steps<L>,
)
    requires of { IsOf shared.now pass.old }
    requires given_up { (from : Knowledge) × HasGivenUp (config_of shared.now) from (view pass.old) log.old dead }
    ensures same { IsSame pass.old pass.new }
    ensures view { view pass.new ≡ mark_cleared (config_of shared.now) (view pass.old) }
    ensures aborts { (from : Knowledge) → HasGivenUp (config_of shared.now) from (view pass.old) log.old dead
        → Aborts from (view pass.new) (abort_cost log.old.held) }
    ensures log { log.new ≡ aborted_noted log.old dead }
    ensures stands { Stands (config_of shared.now) (view pass.new) log.new }
    ensures step { steps.new ≡ steps.old + 1 }
{
    shared.clear_mark(pass, steps);
    note_abort(log, dead);
}

/// Gives up what an open section holds, perhaps nothing, and leaves it. Nothing is being built in the
/// log, which stands for the pass before and after. No entry is made or tried, and the seat's commits
/// are as before. HEAD of each held object leads past its version again; the versions given up are
/// dead from the time after that of the clock, which is loaded then, and their slots stay in use
/// until they are freed. It makes at most `held + 2` steps, and one alone where nothing is held. It
/// never refuses. It is an `abort_step` for each held object, in the order of locking, `abort_death` and
/// `abort_end`.
pub fn abort<P: Protocol, L: Ledger>(
    shared: &Shared<P>,
    pass: &mut Pass<P>,
    log: &mut Log,
    steps: &mut Steps<L>,
)
    ghost inside: { OwnSection }
    requires of { IsOf shared.now pass.old }
    requires open { IsOpen (view pass.old) inside }
    requires stands { Stands (config_of shared.now) (view pass.old) log.old }
    requires unbuilt { log.old.built ≡ None }
    ensures same { IsSame pass.old pass.new }
    ensures aborts { Aborts (view pass.old) (view pass.new) (abort_cost log.old.held) }
    ensures log { (dead : ℕ) × (log.new ≡ aborted_noted log.old dead) }
    ensures stands { Stands (config_of shared.now) (view pass.new) log.new }
    ensures cost { steps.new ≤ steps.old + abort_cost log.old.held }
{
    for which in 0..held(log) {
        abort_step(shared, pass, log, which, steps);
    }
    let dead = abort_death(shared, pass, log, steps);
    abort_end(shared, pass, log, dead, steps);
}
