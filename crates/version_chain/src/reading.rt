// Reading the words of what a walk has found.
//
// The readers are inlined: called apart they cost a third of a long walk's time.
ghost use Rattle.std.specs.Prelude.{◌≡◌, ◌+◌, ◌<◌, slice_index};
ghost use Rattle.mv_history.specs.declared.StepKind.TheVariants.{LoadData, LoadMaster};
ghost use Rattle.mv_history.specs.Fours.{four_from};
ghost use Rattle.mv_core.specs.declared.view.WalkStage.TheVariants as walk;
ghost use Rattle.mv_core.specs.Passes.{view, IsOf, IsSame, config_of};
ghost use Rattle.version_chain.specs.Walks.{MayWalk, StandsAtVersion, stand_in};
ghost use Rattle.version_chain.specs.Reads.{Reads, ReadsSome, words_in};

use crate::walking::FoundVersion;
use mv_core::{Pass, Shared, Steps};
use mv_history::{Protocol, WORDS, Words};
use mv_layout::WIDTH;
use std::sync::ledger::Ledger;

/// Reads the six words of the version that `find` has found, where the pass stands and found a stamp that
/// is a time not above the section's. They are the object's words in the state of the section's time. It
/// makes six steps; the pass stands there still.
#[inline(always)]
pub fn read_version<P: Protocol, L: Ledger>(
    shared: &Shared<P>,
    pass: &mut Pass<P>,
    at: FoundVersion,
    steps: &mut Steps<L>,
) -> Words
    requires of { IsOf shared.now pass.old }
    requires may { MayWalk (view pass.old) }
    requires stands { StandsAtVersion (config_of shared.now) (view pass.old) at }
    ensures same { IsSame pass.old pass.new }
    ensures may { MayWalk (view pass.new) }
    ensures words { result ≡ words_in (config_of shared.now) (view pass.old) (stand_in (view pass.old)).object }
    ensures reads { Reads LoadData (view pass.old) (view pass.new) }
    ensures cost { steps.new ≡ steps.old + 6 }
{
    let FoundVersion { link, slot } = at;
    let mut words = [0; WORDS];
    for word in 0..WIDTH {
        words[word as usize] = shared.load_data(pass, link, slot, word, steps);
    }
    words
}

/// Reads the six master words of an object, at whose master the pass stands. They are its words in
/// the state of the section's time. It makes six steps; the pass stands there still.
#[inline(always)]
pub fn read_master<P: Protocol, L: Ledger>(
    shared: &Shared<P>,
    pass: &mut Pass<P>,
    object: u32,
    steps: &mut Steps<L>,
) -> Words
    requires of { IsOf shared.now pass.old }
    requires may { MayWalk (view pass.old) }
    requires range { object < (config_of shared.now).objects }
    requires stands { (view pass.old).walk ≡ walk.Master object }
    ensures same { IsSame pass.old pass.new }
    ensures may { MayWalk (view pass.new) }
    ensures words { result ≡ words_in (config_of shared.now) (view pass.old) object }
    ensures reads { Reads LoadMaster (view pass.old) (view pass.new) }
    ensures cost { steps.new ≡ steps.old + 6 }
{
    let mut words = [0; WORDS];
    for word in 0..WIDTH {
        words[word as usize] = shared.load_master(pass, object, word, steps);
    }
    words
}

/// Reads two words of the version, the one at this place and the one after it, of the six that
/// `read_version` reads, on the same condition. It makes two steps; the pass stands there still.
#[inline(always)]
pub fn read_version_pair<P: Protocol, L: Ledger>(
    shared: &Shared<P>,
    pass: &mut Pass<P>,
    at: FoundVersion,
    place: u32,
    steps: &mut Steps<L>,
) -> (u64, u64)
    requires of { IsOf shared.now pass.old }
    requires may { MayWalk (view pass.old) }
    requires stands { StandsAtVersion (config_of shared.now) (view pass.old) at }
    requires place { place < 5 }
    ensures same { IsSame pass.old pass.new }
    ensures may { MayWalk (view pass.new) }
    ensures first { result.0 ≡ slice_index (words_in (config_of shared.now) (view pass.old) (stand_in (view pass.old)).object) place }
    ensures second { result.1 ≡ slice_index (words_in (config_of shared.now) (view pass.old) (stand_in (view pass.old)).object) (place + 1) }
    ensures reads { ReadsSome LoadData 2 (view pass.old) (view pass.new) }
    ensures cost { steps.new ≡ steps.old + 2 }
{
    let FoundVersion { link, slot } = at;
    let first = shared.load_data(pass, link, slot, place, steps);
    (first, shared.load_data(pass, link, slot, place + 1, steps))
}

/// Reads two master words of an object, the one at this place and the one after it, of the six that
/// `read_master` reads, on the same condition. It makes two steps; the pass stands there still.
#[inline(always)]
pub fn read_master_pair<P: Protocol, L: Ledger>(
    shared: &Shared<P>,
    pass: &mut Pass<P>,
    object: u32,
    place: u32,
    steps: &mut Steps<L>,
) -> (u64, u64)
    requires of { IsOf shared.now pass.old }
    requires may { MayWalk (view pass.old) }
    requires range { object < (config_of shared.now).objects }
    requires stands { (view pass.old).walk ≡ walk.Master object }
    requires place { place < 5 }
    ensures same { IsSame pass.old pass.new }
    ensures may { MayWalk (view pass.new) }
    ensures first { result.0 ≡ slice_index (words_in (config_of shared.now) (view pass.old) object) place }
    ensures second { result.1 ≡ slice_index (words_in (config_of shared.now) (view pass.old) object) (place + 1) }
    ensures reads { ReadsSome LoadMaster 2 (view pass.old) (view pass.new) }
    ensures cost { steps.new ≡ steps.old + 2 }
{
    let first = shared.load_master(pass, object, place, steps);
    (first, shared.load_master(pass, object, place + 1, steps))
}

/// Reads four words of the version, from this place on, of the six that `read_version` reads, on the
/// same condition. It makes four steps; the pass stands there still.
#[inline(always)]
pub fn read_version_four<P: Protocol, L: Ledger>(
    shared: &Shared<P>,
    pass: &mut Pass<P>,
    at: FoundVersion,
    place: u32,
    steps: &mut Steps<L>,
) -> [u64; 4]
    requires of { IsOf shared.now pass.old }
    requires may { MayWalk (view pass.old) }
    requires stands { StandsAtVersion (config_of shared.now) (view pass.old) at }
    requires place { place < 3 }
    ensures same { IsSame pass.old pass.new }
    ensures may { MayWalk (view pass.new) }
    ensures words { result ≡ four_from place (words_in (config_of shared.now) (view pass.old) (stand_in (view pass.old)).object) }
    ensures reads { ReadsSome LoadData 4 (view pass.old) (view pass.new) }
    ensures cost { steps.new ≡ steps.old + 4 }
{
    let (first, second) = read_version_pair(shared, pass, at, place, steps);
    let (third, fourth) = read_version_pair(shared, pass, at, place + 2, steps);
    [first, second, third, fourth]
}

/// Reads four master words of an object, from this place on, of the six that `read_master` reads, on the
/// same condition. It makes four steps; the pass stands there still.
#[inline(always)]
pub fn read_master_four<P: Protocol, L: Ledger>(
    shared: &Shared<P>,
    pass: &mut Pass<P>,
    object: u32,
    place: u32,
    steps: &mut Steps<L>,
) -> [u64; 4]
    requires of { IsOf shared.now pass.old }
    requires may { MayWalk (view pass.old) }
    requires range { object < (config_of shared.now).objects }
    requires stands { (view pass.old).walk ≡ walk.Master object }
    requires place { place < 3 }
    ensures same { IsSame pass.old pass.new }
    ensures may { MayWalk (view pass.new) }
    ensures words { result ≡ four_from place (words_in (config_of shared.now) (view pass.old) object) }
    ensures reads { ReadsSome LoadMaster 4 (view pass.old) (view pass.new) }
    ensures cost { steps.new ≡ steps.old + 4 }
{
    let (first, second) = read_master_pair(shared, pass, object, place, steps);
    let (third, fourth) = read_master_pair(shared, pass, object, place + 2, steps);
    [first, second, third, fourth]
}
