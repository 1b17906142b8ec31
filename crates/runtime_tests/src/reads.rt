// Reading the opening words, in a domain in which nobody has committed.
ghost use Rattle.std.specs.Prelude.{◌≡◌, ◌+◌, ◌<◌, ◌≤◌, OnSome};
ghost use Rattle.mv_core.specs.EnterSteps.{MayLoadLow};
ghost use Rattle.mv_core.specs.Passes.{view, IsOf, IsSame, config_of};
ghost use Rattle.version_chain.specs.Walks.{MayWalk};
ghost use Rattle.runtime_tests.specs.Reads.{Keeps, ReadsMaster, IsFirstRead};

use crate::comparing::assert_same;
use crate::first_domains::two_seats;
use mv_core::{Pass, Shared, Steps};
use mv_history::{AnyRules, Words};
use mv_layout::LAST;
use reader_marks::{enter, leave};
use std::alloc::{AllocError, Global};
use std::marker::Brand;
use std::sync::ledger::{Blank, Ledger};
use std::test::Fail;
use version_chain::{find, read_master, walk_start, walk_step};

// The time of a section, and the words of object 0 that it read in the master, if it found it there.
type Reading = (u64, Option<Words>);

// Finds object 0, and reads its master if it is found there.
fn read_by_find<L: Ledger>(
    shared: &Shared<AnyRules>,
    pass: &mut Pass<AnyRules>,
    steps: &mut Steps<L>,
) -> Option<Words>
    requires of { IsOf shared.now pass.old }
    requires may { MayWalk (view pass.old) }
    requires range { 0 < (config_of shared.now).objects }
    ensures same { IsSame pass.old pass.new }
    ensures keeps { Keeps (view pass.old) (view pass.new) }
{
    match find(shared, pass, 0, steps) {
        None => Some(read_master(shared, pass, 0, steps)),
        Some(_) => None,
    }
}

// The same by one look of the walk, which shows each step.
fn read_at_once<L: Ledger>(
    shared: &Shared<AnyRules>,
    pass: &mut Pass<AnyRules>,
    steps: &mut Steps<L>,
) -> Option<Words>
    requires of { IsOf shared.now pass.old }
    requires may { MayWalk (view pass.old) }
    requires range { 0 < (config_of shared.now).objects }
    ensures same { IsSame pass.old pass.new }
    ensures keeps { Keeps (view pass.old) (view pass.new) }
    ensures steps { OnSome result (steps.new ≡ steps.old + 7) }
    ensures trail { OnSome result (ReadsMaster (view pass.old).trail (view pass.new).trail) }
{
    let walk = walk_start(shared, pass, 0, steps);
    match walk_step(shared, pass, walk, steps) {
        Ok(None) => Some(read_master(shared, pass, 0, steps)),
        _ => None,
    }
}

// A section of a seat over object 0.
fn section<L: Ledger>(
    shared: &Shared<AnyRules>,
    pass: &mut Pass<AnyRules>,
    steps: &mut Steps<L>,
) -> Reading
    requires of { IsOf shared.now pass.old }
    requires may { MayLoadLow (view pass.old) }
    requires range { 0 < (config_of shared.now).objects }
    ensures same { IsSame pass.old pass.new }
    ensures may { MayLoadLow (view pass.new) }
{
    let time = enter(shared, pass, steps);
    let words = read_by_find(shared, pass, steps);
    leave(shared, pass, steps);
    (time, words)
}

// The same by one look of the walk: how many steps it takes to enter, find, read and leave.
fn first_section<L: Ledger>(
    shared: &Shared<AnyRules>,
    pass: &mut Pass<AnyRules>,
    steps: &mut Steps<L>,
) -> Reading
    requires of { IsOf shared.now pass.old }
    requires may { MayLoadLow (view pass.old) }
    requires range { 0 < (config_of shared.now).objects }
    ensures same { IsSame pass.old pass.new }
    ensures may { MayLoadLow (view pass.new) }
    ensures trail { OnSome result.1 (IsFirstRead (view pass.old).trail (view pass.new).trail) }
{
    let time = enter(shared, pass, steps);
    let words = read_at_once(shared, pass, steps);
    leave(shared, pass, steps);
    (time, words)
}

// Sections of two seats, one after another: two of the first seat, and then two of the other.
fn in_turn<L: Ledger>(
    shared: &Shared<AnyRules>,
    one: &mut Pass<AnyRules>,
    other: &mut Pass<AnyRules>,
    steps: &mut Steps<L>,
) -> [Reading; 4]
    requires one { IsOf shared.now one.old × MayLoadLow (view one.old) }
    requires other { IsOf shared.now other.old × MayLoadLow (view other.old) }
    requires range { 0 < (config_of shared.now).objects }
{
    let first = first_section(shared, one, steps);
    let again = section(shared, one, steps);
    [
        first,
        again,
        first_section(shared, other, steps),
        section(shared, other, steps),
    ]
}

// A section of the one seat, in which a whole section of the other one passes before it reads.
fn overlapping<L: Ledger>(
    shared: &Shared<AnyRules>,
    one: &mut Pass<AnyRules>,
    other: &mut Pass<AnyRules>,
    steps: &mut Steps<L>,
) -> [Reading; 2]
    requires one { IsOf shared.now one.old × MayLoadLow (view one.old) }
    requires other { IsOf shared.now other.old × MayLoadLow (view other.old) }
    requires range { 0 < (config_of shared.now).objects }
{
    let time = enter(shared, one, steps);
    let inner = section(shared, other, steps);
    let words = read_by_find(shared, one, steps);
    leave(shared, one, steps);
    [(time, words), inner]
}

const OPENING: Words = [9, 8, 7, 6, 5, 0];

// Both, each in a new domain.
fn reads<L: Ledger>(
    alloc: Global,
    base: u64,
    blank: Blank,
) -> Result<([Reading; 4], [Reading; 2]), AllocError>
    requires base { base ≤ LAST }
    requires name { blank.name ≡ L.name }
    requires parts { (blank.parts ≡ L.parts) × (0 < L.parts) }
{
    let mut steps = Steps::<L>::open(blank);
    let (shared, mut one, mut other) = two_seats(alloc, base, OPENING)?;
    let turns = in_turn(&shared, &mut one, &mut other, &mut steps);
    let (shared, mut one, mut other) = two_seats(alloc, base, OPENING)?;
    let overlap = overlapping(&shared, &mut one, &mut other, &mut steps);
    Ok((turns, overlap))
}

#[test]
fn sections_read_the_opening_words(rt: HostRuntime) -> Result<(), Fail> {
    for base in [0, 3, LAST] {
        let (turns, overlap) = reads::<Brand>(rt.alloc(), base, Blank::new(1))?;
        let reading = (base, Some(OPENING));
        assert_same(&rt, &turns, &[reading; 4], "sections in turn");
        assert_same(&rt, &overlap, &[reading; 2], "sections that overlap");
    }
    Ok(())
}
