// Writing an object that is held.
ghost use Rattle.std.specs.Prelude.{◌≡◌, ◌+◌, true, false, None};
ghost use Rattle.mv_history.specs.State.{touches, rewritten};
ghost use Rattle.seat_log.specs.mv_core.Rings.{own_of, spare_count};
ghost use Rattle.seat_log.specs.mv_core.Passes.{view, IsOf, IsSame, config_of};
ghost use Rattle.seat_log.specs.Stands.{Stands};
ghost use Rattle.version_chain.specs.Walks.{MayWalk};
ghost use Rattle.object_lock.specs.Locks.{HoldsObject};
ghost use Rattle.object_lock.specs.Writes.{IsHeldAt, Stores};

use mv_history::{Protocol, Words};
use seat_log::mv_core::{Pass, Shared, Steps};
use seat_log::{Log, held, live, note, put_words};
use std::sync::ledger::Ledger;

/// Whether the section whose log this is holds the object.
pub fn holds(log: &Log, object: u32) -> bool
    ensures yes { result ≡ true → HoldsObject log.now object }
    ensures not { result ≡ false → ¬ (HoldsObject log.now object) }
{
    let end = live(log);
    for index in end - held(log)..end {
        if note(log, index).object == object {
            return true;
        }
    }
    false
}

// The position of the section's version of an object that it holds.
fn position_of(log: &Log, object: u32) -> u64
    requires { HoldsObject log.now object }
    ensures { IsHeldAt log.now object result }
{
    let end = live(log);
    for index in end - held(log)..end {
        let version = note(log, index);
        if version.object == object {
            return version.position;
        }
    }
    0
}

/// Gives an object that the section holds these words, in this section alone, in six steps. It never
/// refuses, and leaves what else is held, how many slots are free, and the log's count of aborts.
pub fn write<P: Protocol, L: Ledger>(
    shared: &Shared<P>,
    pass: &mut Pass<P>,
    log: &mut Log,
    object: u32,
    words: Words,
    steps: &mut Steps<L>,
)
    requires of { IsOf shared.now pass.old }
    requires may { MayWalk (view pass.old) }
    requires stands { Stands (config_of shared.now) (view pass.old) log.old }
    requires unbuilt { log.old.built ≡ None }
    requires held { touches (own_of (config_of shared.now) (view pass.old).ring) object ≡ true }
    ensures same { IsSame pass.old pass.new }
    ensures may { MayWalk (view pass.new) }
    ensures stands { Stands (config_of shared.now) (view pass.new) log.new }
    ensures unbuilt { log.new.built ≡ None }
    ensures count { log.new.held ≡ log.old.held }
    ensures own { own_of (config_of shared.now) (view pass.new).ring ≡ rewritten (own_of (config_of shared.now) (view pass.old).ring) object words }
    ensures spare { spare_count (view pass.new).ring ≡ spare_count (view pass.old).ring }
    ensures stores { Stores (view pass.old) (view pass.new) 6 }
    ensures aborts { log.new.aborts ≡ log.old.aborts }
    ensures cost { steps.new ≡ steps.old + 6 }
{
    let position = position_of(log, object);
    put_words(shared, pass, log, position, words, steps);
}
