// Freeing the oldest write set of a log.
ghost use Rattle.std.specs.Prelude.{◌≡◌, ℕ, ◌+◌, ◌<◌, ◌≤◌, ◌^◌, drop};
ghost use Rattle.std.specs.VecDeque.{deque_len, deque_capacity};
ghost use Rattle.reader_marks.specs.mv_core.declared.view.Phase.TheVariants.{Outside};
ghost use Rattle.reader_marks.specs.mv_core.Passes.{view, IsOf, IsSame, config_of};
ghost use Rattle.reader_marks.specs.mv_core.ReclaimSteps.{MayStoreFree};
ghost use Rattle.reader_marks.specs.Scans.{IsKnown};
ghost use Rattle.seat_log.specs.Stands.{Stands};
ghost use Rattle.seat_log.specs.Frees.{FreesSet, freed_noted, slots_freed};

use crate::log::Log;
use crate::notes::{live, note};
use crate::version::Note;
use mv_history::Protocol;
use reader_marks::Watermark;
use reader_marks::mv_core::{Pass, Shared, Steps};
use std::alloc::Global;
use std::collections::VecDeque;
use std::sync::ledger::Ledger;

// How many versions the oldest write set has, where each of them is dead from a time not above this
// one, and else 0.
fn oldest_dead(log: &Log, time: u64) -> u32
    ensures { FreesSet log.now time result }
{
    for index in 0..live(log) {
        let note = note(log, index);
        if note.first != log.freed {
            return index;
        }
        if note.dead == 0 || note.dead > time {
            return 0;
        }
    }
    live(log)
}

// Frees the slots of so many positions, one after another.
fn free_slots<P: Protocol, L: Ledger>(
    shared: &Shared<P>,
    pass: &mut Pass<P>,
    position: u64,
    count: u32,
    steps: &mut Steps<L>,
)
    requires of { IsOf shared.now pass.old }
    requires range { position + count ≤ 2 ^ 57 }
    requires may { (j : ℕ) → j < count
        → MayStoreFree (config_of shared.now) (slots_freed (config_of shared.now) (view pass.old) position j) (position + j) }
    ensures same { IsSame pass.old pass.new }
    ensures view { view pass.new ≡ slots_freed (config_of shared.now) (view pass.old) position count }
    ensures step { steps.new ≡ steps.old + count }
{
    for freed in 0..count {
        shared.store_free(pass, position + freed as u64, steps);
    }
}

// Takes so many notes away from the front.
fn drop_front(live: &mut VecDeque<Note, Global>, count: u32)
    requires { count ≤ deque_len live.old }
    ensures items { live.new.items ≡ drop count live.old.items }
    ensures capacity { deque_capacity live.new ≡ deque_capacity live.old }
{
    for _ in 0..count {
        let _ = live.pop_front();
    }
}

/// Frees the oldest write set of the log, exactly where each of its versions is noted to be dead from
/// a time not above `mark.time`, by a store of STAMP 0 into each of its slots. It answers how many
/// slots it freed, which is how many steps it makes: 0 exactly where it frees none, as of an empty
/// log. The pass is outside a section, and knows the mark. A freed slot is given again by a later
/// `build` alone.
pub fn free_oldest<P: Protocol, L: Ledger>(
    shared: &Shared<P>,
    pass: &mut Pass<P>,
    log: &mut Log,
    mark: &Watermark,
    steps: &mut Steps<L>,
) -> u32
    requires of { IsOf shared.now pass.old }
    requires stands { Stands (config_of shared.now) (view pass.old) log.old }
    requires outside { (view pass.old).phase ≡ Outside }
    requires known { IsKnown (view pass.old) mark.now }
    ensures same { IsSame pass.old pass.new }
    ensures stands { Stands (config_of shared.now) (view pass.new) log.new }
    ensures frees { FreesSet log.old mark.now.time result }
    ensures log { log.new ≡ freed_noted log.old result }
    ensures view { view pass.new ≡ slots_freed (config_of shared.now) (view pass.old) log.old.freed result }
    ensures step { steps.new ≡ steps.old + result }
{
    let count = oldest_dead(log, mark.time);
    free_slots(shared, pass, log.freed, count, steps);
    drop_front(&mut log.live, count);
    log.freed += count as u64;
    count
}
