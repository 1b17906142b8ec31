// The first read of a new domain.
ghost use Rattle.std.specs.Prelude.{◌≡◌, ◌+◌, ◌<◌, ◌≤◌, length, IfSome, IsTrue};
ghost use Rattle.mv_core.specs.EnterSteps.{MayLoadLow};
ghost use Rattle.mv_core.specs.Passes.{view, IsOf, IsSame, config_of};
ghost use Rattle.version_chain.specs.Walks.{MayWalk};
ghost use Rattle.version_chain.specs.Reads.{words_in};

use crate::comparing::assert_same;
use crate::first_domains::two_seats;
use mv_core::{Pass, Shared, Steps};
use mv_history::{AnyRules, Words};
use mv_layout::{LAST, NO_SLOT, clock_slot, clock_time};
use std::alloc::{AllocError, Global};
use std::marker::Brand;
use std::sync::ledger::{Blank, Ledger};
use std::test::Fail;
use version_chain::{
    find, read_master, read_master_four, read_master_pair, read_version, read_version_four,
    read_version_pair, walk_start, walk_step,
};

// Enters where the clock names no commit, in three steps.
fn enter<L: Ledger>(
    shared: &Shared<AnyRules>,
    pass: &mut Pass<AnyRules>,
    steps: &mut Steps<L>,
) -> bool
    requires of { IsOf shared.now pass.old }
    requires may { MayLoadLow (view pass.old) }
    ensures same { IsSame pass.old pass.new }
    ensures may { IsTrue result → MayWalk (view pass.new) }
    ensures trail { length (view pass.new).trail ≡ length (view pass.old).trail + 3 }
    ensures steps { steps.new ≡ steps.old + 3 }
{
    let low = shared.load_low(pass, steps);
    shared.store_mark(pass, clock_time(low), steps);
    clock_slot(shared.load_time(pass, steps)) == NO_SLOT
}

// The words of an object, where its HEAD is 0: one step finds the master, and six read it.
fn read_empty<L: Ledger>(
    shared: &Shared<AnyRules>,
    pass: &mut Pass<AnyRules>,
    object: u32,
    steps: &mut Steps<L>,
) -> Option<Words>
    requires of { IsOf shared.now pass.old }
    requires may { MayWalk (view pass.old) }
    requires range { object < (config_of shared.now).objects }
    ensures same { IsSame pass.old pass.new }
    ensures may { MayWalk (view pass.new) }
    ensures words { IfSome result (λ w. w ≡ words_in (config_of shared.now) (view pass.old) object) }
    ensures trail { IfSome result (λ _. length (view pass.new).trail ≡ length (view pass.old).trail + 7) }
    ensures steps { IfSome result (λ _. steps.new ≡ steps.old + 7) }
{
    let walk = walk_start(shared, pass, object, steps);
    match walk_step(shared, pass, walk, steps) {
        Ok(None) => Some(read_master(shared, pass, object, steps)),
        _ => None,
    }
}

// What `find` names, read by the matching reader.
fn read<L: Ledger>(
    shared: &Shared<AnyRules>,
    pass: &mut Pass<AnyRules>,
    object: u32,
    steps: &mut Steps<L>,
) -> Words
    requires of { IsOf shared.now pass.old }
    requires may { MayWalk (view pass.old) }
    requires range { object < (config_of shared.now).objects }
    ensures same { IsSame pass.old pass.new }
    ensures may { MayWalk (view pass.new) }
    ensures words { result ≡ words_in (config_of shared.now) (view pass.new) object }
{
    match find(shared, pass, object, steps) {
        None => read_master(shared, pass, object, steps),
        Some(at) => read_version(shared, pass, at, steps),
    }
}

// Two words of it, the one at this place and the one after it.
fn read_pair<L: Ledger>(
    shared: &Shared<AnyRules>,
    pass: &mut Pass<AnyRules>,
    object: u32,
    place: u32,
    steps: &mut Steps<L>,
) -> (u64, u64)
    requires of { IsOf shared.now pass.old }
    requires may { MayWalk (view pass.old) }
    requires range { object < (config_of shared.now).objects }
    requires place { place < 5 }
    ensures same { IsSame pass.old pass.new }
    ensures may { MayWalk (view pass.new) }
{
    match find(shared, pass, object, steps) {
        None => read_master_pair(shared, pass, object, place, steps),
        Some(at) => read_version_pair(shared, pass, at, place, steps),
    }
}

// Four words of it, from this place on.
fn read_four<L: Ledger>(
    shared: &Shared<AnyRules>,
    pass: &mut Pass<AnyRules>,
    object: u32,
    place: u32,
    steps: &mut Steps<L>,
) -> [u64; 4]
    requires of { IsOf shared.now pass.old }
    requires may { MayWalk (view pass.old) }
    requires range { object < (config_of shared.now).objects }
    requires place { place < 3 }
{
    match find(shared, pass, object, steps) {
        None => read_master_four(shared, pass, object, place, steps),
        Some(at) => read_version_four(shared, pass, at, place, steps),
    }
}

// Object 0 by one look, again by `find`, and two and four words of it.
type Reads = (Words, Words, (u64, u64), [u64; 4]);

// Enters a section, and reads object 0.
fn read_all_ways<L: Ledger>(
    shared: &Shared<AnyRules>,
    pass: &mut Pass<AnyRules>,
    steps: &mut Steps<L>,
) -> Option<Reads>
    requires of { IsOf shared.now pass.old }
    requires may { MayLoadLow (view pass.old) }
    requires range { 0 < (config_of shared.now).objects }
{
    if !enter(shared, pass, steps) {
        return None;
    }
    let first = read_empty(shared, pass, 0, steps)?;
    let second = read(shared, pass, 0, steps);
    let pair = read_pair(shared, pass, 0, 2, steps);
    Some((first, second, pair, read_four(shared, pass, 0, 2, steps)))
}

// The same of seat 0 of a new domain.
fn first_reads<L: Ledger>(
    alloc: Global,
    base: u64,
    blank: Blank,
) -> Result<Option<Reads>, AllocError>
    requires base { base ≤ LAST }
    requires name { blank.name ≡ L.name }
    requires parts { (blank.parts ≡ L.parts) × (0 < L.parts) }
{
    let (shared, mut one, _other) = two_seats(alloc, base, [9, 8, 7, 6, 5, 0])?;
    let mut steps = Steps::<L>::open(blank);
    Ok(read_all_ways(&shared, &mut one, &mut steps))
}

#[test]
fn first_read_steps(rt: HostRuntime) -> Result<(), Fail> {
    let opening = [9, 8, 7, 6, 5, 0];
    for base in [0, LAST] {
        let words = first_reads::<Brand>(rt.alloc(), base, Blank::new(1))?;
        let wanted = Some((opening, opening, (7, 6), [7, 6, 5, 0]));
        assert_same(&rt, &words, &wanted, "words");
    }
    Ok(())
}
