// The clock of a new domain, on passes.
ghost use Rattle.std.specs.Prelude.{◌≡◌, ◌<◌, ◌≤◌};
ghost use Rattle.mv_core.specs.EnterSteps.{MayLoadLow};
ghost use Rattle.mv_core.specs.Passes.{view, IsOf};

use crate::comparing::assert_same;
use crate::first_domains::two_seats;
use commit_clock::{Named, help_clock, now, rest};
use mv_core::{Pass, Shared, Steps};
use mv_history::{AnyRules, Rival};
use mv_layout::{LAST, NO_SLOT, clock_slot, clock_time};
use std::alloc::{AllocError, Global};
use std::marker::Brand;
use std::sync::ledger::{Blank, Ledger};
use std::test::Fail;

// What the second seat of a new domain finds in CLOCK, and what its help of that word loads there.
fn first_clock<L: Ledger>(
    alloc: Global,
    base: u64,
    blank: Blank,
) -> Result<(u64, Option<u64>), AllocError>
    requires base { base ≤ LAST }
    requires name { blank.name ≡ L.name }
    requires parts { (blank.parts ≡ L.parts) × (0 < L.parts) }
{
    let (shared, _one, mut other) = two_seats(alloc, base, [9, 8, 7, 6, 5, 4])?;
    let mut steps = Steps::<L>::open(blank);
    let word = now(&shared, &mut other, &mut steps);
    let loaded = help_clock(&shared, &mut other, word, &mut steps);
    Ok((word, loaded))
}

// What two seats are answered that both load a clock word, and then name a rest after it. None where
// the word names a commit, or no time is left.
fn two_rests<L: Ledger>(
    shared: &Shared<AnyRules>,
    one: &mut Pass<AnyRules>,
    other: &mut Pass<AnyRules>,
    steps: &mut Steps<L>,
) -> Option<(Named, Named)>
    requires one { IsOf shared.now one.old × MayLoadLow (view one.old) }
    requires other { IsOf shared.now other.old × MayLoadLow (view other.old) }
{
    let early = now(shared, one, steps);
    let late = now(shared, other, steps);
    if late != early || clock_slot(early) != NO_SLOT || clock_time(early) >= LAST {
        return None;
    }
    let first = rest(shared, other, late, steps);
    let second = rest(shared, one, early, steps);
    Some((first, second))
}

// The same of the two seats of a new domain.
fn first_rests<L: Ledger>(
    alloc: Global,
    base: u64,
    blank: Blank,
) -> Result<Option<(Named, Named)>, AllocError>
    requires base { base ≤ LAST }
    requires name { blank.name ≡ L.name }
    requires parts { (blank.parts ≡ L.parts) × (0 < L.parts) }
{
    let (shared, mut one, mut other) = two_seats(alloc, base, [9, 8, 7, 6, 5, 4])?;
    let mut steps = Steps::<L>::open(blank);
    Ok(two_rests(&shared, &mut one, &mut other, &mut steps))
}

#[test]
fn the_second_rest_is_lost_to_the_first(rt: HostRuntime) -> Result<(), Fail> {
    for base in [0, 1, LAST - 1] {
        let answers = first_rests::<Brand>(rt.alloc(), base, Blank::new(1))?;
        let rival = Rival {
            seat: 1,
            time: base + 1,
        };
        let rests = (Named::Done(base + 1), Named::Lost(rival));
        assert_same(&rt, &answers, &Some(rests), "two rests");
    }
    let worn = first_rests::<Brand>(rt.alloc(), LAST, Blank::new(1))?;
    assert_same(&rt, &worn, &None, "rests at the last time");
    Ok(())
}

#[test]
fn a_new_clock_names_no_commit(rt: HostRuntime) -> Result<(), Fail> {
    let rows = [(0, 8191), (1, 532_479), (LAST, 18_446_744_073_709_035_519)];
    for (base, word) in rows {
        let found = first_clock::<Brand>(rt.alloc(), base, Blank::new(1))?;
        assert_same(&rt, &found, &(word, None), "a new clock");
    }
    Ok(())
}
