// The walk from an object's HEAD down to what a section reads.
ghost use Rattle.std.specs.Prelude.{◌≡◌, ◌+◌, ◌-◌, ◌*◌, ◌<◌, ◌≤◌, length};
ghost use Rattle.mv_core.specs.Passes.{view, IsOf, IsSame, config_of};
ghost use Rattle.mv_core.specs.WalkSteps.{head_loaded};
ghost use Rattle.version_chain.specs.Walks.{section_in, MayWalk, StandsAt, HasFound, Walks, Answers, IsPutAt, snapshot_length};

use mv_core::{Pass, Shared, Steps};
use mv_history::Protocol;
use mv_layout::is_unset;
use std::sync::ledger::Ledger;

/// A walk under way down the version chain of an object: the link that it looks at next, 0 for the
/// master.
#[derive(Drop)]
pub struct Walk {
    object: u32,
    link: u64,
}

/// A version that a walk has ended at. By the cell its words are read without finding the slot again.
#[derive(Clone, Copy, Debug, PartialEq, Eq)]
pub struct FoundVersion {
    /// Its link: its seat and its position.
    pub link: u64,
    /// The cell at which its slot begins.
    pub slot: u32,
}

/// Begins a walk over an object, by one load of its HEAD. The walk stands at the version that HEAD
/// names, or at the master where HEAD is 0.
#[inline(always)]
pub fn walk_start<P: Protocol, L: Ledger>(
    shared: &Shared<P>,
    pass: &mut Pass<P>,
    object: u32,
    steps: &mut Steps<L>,
) -> Walk
    requires of { IsOf shared.now pass.old }
    requires may { MayWalk (view pass.old) }
    requires range { object < (config_of shared.now).objects }
    ensures same { IsSame pass.old pass.new }
    ensures may { MayWalk (view pass.new) }
    ensures object { result.object ≡ object }
    ensures stands { StandsAt (config_of shared.now) (view pass.new) result }
    ensures view { view pass.new ≡ head_loaded (config_of shared.now) (view pass.old) (section_in (view pass.old)) object result.link }
    ensures walks { Walks (view pass.old) (view pass.new) steps.old steps.new }
    ensures step { steps.new ≡ steps.old + 1 }
{
    let link = shared.load_head(pass, object, steps);
    Walk { object, link }
}

/// Looks at the link where a walk stands. It answers what the section reads: `None`, the master, at
/// link 0, with no step, and a version whose stamp is a time not above the section's, after the loads of
/// its FIRST and STAMP. Else it answers the walk that goes on, exactly where the version has a stamp that
/// is unset or above the section's time, after the load of its PREV; that walk stands at PREV, which may
/// be 0. A time found there is seen afterwards. The version's slot is found once; that of the first
/// version of its write set is found too where it is another.
#[inline(always)]
pub fn walk_step<P: Protocol, L: Ledger>(
    shared: &Shared<P>,
    pass: &mut Pass<P>,
    walk: Walk,
    steps: &mut Steps<L>,
) -> Result<Option<FoundVersion>, Walk>
    requires of { IsOf shared.now pass.old }
    requires may { MayWalk (view pass.old) }
    requires stands { StandsAt (config_of shared.now) (view pass.old) walk }
    ensures same { IsSame pass.old pass.new }
    ensures may { MayWalk (view pass.new) }
    ensures answers { Answers (config_of shared.now) (view pass.old) (view pass.new) walk steps.old steps.new result }
    ensures put { IsPutAt (config_of shared.now) (view pass.new) walk result }
    ensures walks { Walks (view pass.old) (view pass.new) steps.old steps.new }
{
    let Walk { object, link } = walk;
    if link == 0 {
        return Ok(None);
    }
    let slot = shared.slot_linked(link);
    let first = shared.load_first(pass, link, slot, steps);
    let set = shared.slot_of_first(link, slot, first);
    let stamp = shared.load_stamp(pass, link, first, set, steps);
    if is_unset(stamp) || stamp > pass.time() {
        let link = shared.load_prev(pass, link, slot, steps);
        return Err(Walk { object, link });
    }
    Ok(Some(FoundVersion { link, slot }))
}

/// Finds where a section reads an object, by a walk from its HEAD to its end: in a version, or, where it
/// answers `None`, in the master. The pass stands there afterwards, so that the matching reader reads the
/// words of the section's state. It makes at most six steps, and three for each entry that was seen after
/// the section's snapshot.
#[inline(always)]
pub fn find<P: Protocol, L: Ledger>(
    shared: &Shared<P>,
    pass: &mut Pass<P>,
    object: u32,
    steps: &mut Steps<L>,
) -> Option<FoundVersion>
    requires of { IsOf shared.now pass.old }
    requires may { MayWalk (view pass.old) }
    requires range { object < (config_of shared.now).objects }
    ensures same { IsSame pass.old pass.new }
    ensures may { MayWalk (view pass.new) }
    ensures found { HasFound (config_of shared.now) (view pass.new) object result }
    ensures walks { Walks (view pass.old) (view pass.new) steps.old steps.new }
    ensures bound { steps.new ≤ steps.old + (6 + 3 * (length (view pass.new).past.seen - snapshot_length (config_of shared.now) (view pass.old))) }
{
    let mut walk = walk_start(shared, pass, object, steps);
    'versions: loop {
        match walk_step(shared, pass, walk, steps) {
            Ok(found) => return found,
            Err(on) => walk = on,
        }
    }
}
