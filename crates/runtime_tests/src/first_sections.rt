// Entering and leaving, in a domain in which nobody has committed.
ghost use Rattle.std.specs.Prelude.{◌≡◌, ◌<◌, ◌≤◌};
ghost use Rattle.mv_core.specs.EnterSteps.{MayLoadLow};
ghost use Rattle.mv_core.specs.Passes.{view, IsOf};

use crate::comparing::assert_same;
use crate::first_domains::two_seats;
use mv_core::{Pass, Shared, Steps};
use mv_history::AnyRules;
use mv_layout::LAST;
use reader_marks::{enter, enter_clock, leave};
use std::alloc::{AllocError, Global};
use std::marker::Brand;
use std::sync::ledger::{Blank, Ledger};
use std::test::Fail;

// The times of two sections of a seat, and the greatest time that the second one found.
fn two_sections<L: Ledger>(
    shared: &Shared<AnyRules>,
    pass: &mut Pass<AnyRules>,
    steps: &mut Steps<L>,
) -> (u64, u64, u64)
    requires of { IsOf shared.now pass.old }
    requires may { MayLoadLow (view pass.old) }
{
    let first = enter(shared, pass, steps);
    leave(shared, pass, steps);
    let (second, found) = enter_clock(shared, pass, steps);
    leave(shared, pass, steps);
    (first, second, found)
}

// The same of seat 1 of a new domain.
fn enters_twice<L: Ledger>(
    alloc: Global,
    base: u64,
    blank: Blank,
) -> Result<(u64, u64, u64), AllocError>
    requires base { base ≤ LAST }
    requires name { blank.name ≡ L.name }
    requires parts { (blank.parts ≡ L.parts) × (0 < L.parts) }
{
    let (shared, _one, mut other) = two_seats(alloc, base, [9, 8, 7, 6, 5, 4])?;
    let mut steps = Steps::<L>::open(blank);
    Ok(two_sections(&shared, &mut other, &mut steps))
}

#[test]
fn a_seat_enters_and_leaves(rt: HostRuntime) -> Result<(), Fail> {
    for base in [0, 3, LAST] {
        let times = enters_twice::<Brand>(rt.alloc(), base, Blank::new(1))?;
        assert_same(&rt, &times, &(base, base, base), "times");
    }
    Ok(())
}
