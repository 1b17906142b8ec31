// What is on top of an object's chain.
ghost use Rattle.std.specs.Prelude.{◌≡◌, ◌≢◌, ◌+◌, ◌<◌, ◌≤◌, []};
ghost use Rattle.mv_layout.specs.Words.{link_seat_of};
ghost use Rattle.seat_log.specs.mv_core.Passes.{view, IsOf, IsSame, config_of};
ghost use Rattle.seat_log.specs.mv_core.Slots.{IsSlotLinked};
ghost use Rattle.version_chain.specs.Walks.{MayWalk, stand_in};
ghost use Rattle.object_lock.specs.Tops.{IsUnheld, StandsOn, Looked, Tries, TopAnswers, most_to_look};

use mv_history::{LockAnswer, Protocol, Words};
use mv_layout::{is_unset, link_seat};
use seat_log::mv_core::{Pass, Shared, Steps};
use std::sync::ledger::Ledger;
use version_chain::{FoundVersion, read_master, read_version};

// Loads FIRST and STAMP of the version that the walk stands at, whose slot begins at this cell, and
// answers the stamp.
pub(crate) fn stamp_at<P: Protocol, L: Ledger>(
    shared: &Shared<P>,
    pass: &mut Pass<P>,
    link: u64,
    slot: u32,
    steps: &mut Steps<L>,
) -> u64
    requires of { IsOf shared.now pass.old }
    requires may { MayWalk (view pass.old) }
    requires stands { StandsOn (config_of shared.now) (view pass.old) link }
    requires slot { IsSlotLinked (config_of shared.now) link slot }
    ensures same { IsSame pass.old pass.new }
    ensures may { MayWalk (view pass.new) }
    ensures looked { Looked (config_of shared.now) (view pass.old) (view pass.new) result }
    ensures step { steps.new ≡ steps.old + 2 }
{
    let first = shared.load_first(pass, link, slot, steps);
    let set = shared.slot_of_first(link, slot, first);
    shared.load_stamp(pass, link, first, set, steps)
}

// Looks at what is on top of an object that the section doesn't hold. It answers the link there, 0
// for the master, with the given words, or else with those that the section reads there, where a
// lock may be put; else why not. Where words are given none is read.
pub(crate) fn top_of<P: Protocol, L: Ledger>(
    shared: &Shared<P>,
    pass: &mut Pass<P>,
    object: u32,
    given: Option<Words>,
    steps: &mut Steps<L>,
) -> Result<(u64, Words), LockAnswer>
    requires of { IsOf shared.now pass.old }
    requires may { MayWalk (view pass.old) }
    requires range { object < (config_of shared.now).objects }
    requires unheld { IsUnheld (view pass.old) object }
    ensures same { IsSame pass.old pass.new }
    ensures may { MayWalk (view pass.new) }
    ensures answers { TopAnswers (config_of shared.now) (view pass.old) (view pass.new) object given result }
    ensures tries { Tries (view pass.old) (view pass.new) steps.old steps.new [] }
    ensures ring { (view pass.new).ring ≡ (view pass.old).ring }
    ensures bound { steps.new ≤ steps.old + most_to_look given }
{
    let link = shared.load_head(pass, object, steps);
    if link == 0 {
        if let Some(words) = given {
            return Ok((0, words));
        }
        return Ok((0, read_master(shared, pass, object, steps)));
    }
    let slot = shared.slot_linked(link);
    let stamp = stamp_at(shared, pass, link, slot, steps);
    let seat = link_seat(link);
    if is_unset(stamp) {
        return Err(LockAnswer::Busy { seat });
    }
    if stamp > pass.time() {
        return Err(LockAnswer::Stale { time: stamp });
    }
    if let Some(words) = given {
        return Ok((link, words));
    }
    let at = FoundVersion { link, slot };
    Ok((link, read_version(shared, pass, at, steps)))
}
