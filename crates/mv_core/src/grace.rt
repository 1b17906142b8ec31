//! The steps on the shared watermark, a time that no section is below.
ghost use Rattle.std.specs.Prelude.{◌≡◌, ◌+◌};
ghost use Rattle.mv_core.specs.Passes.{view, IsOf, IsSame, config_of};
ghost use Rattle.mv_core.specs.SeatSteps.{grace_loaded, MayRaiseGrace, grace_raised};

use crate::shared::{Pass, Shared, load_as, raise_as};
use crate::steps::Steps;
use mv_history::Protocol;
use mv_layout::GRACE_CELL;
use std::marker::Brand;
use std::sync::ledger::Ledger;

impl<P: Protocol> Shared<P> {
    /// Loads GRACE. The watermark of the pass becomes the time found, where that is greater.
    pub fn load_grace<L: Ledger>(&self, pass: &mut Pass<P>, steps: &mut Steps<L>) -> u64
        requires of { IsOf self.now pass.old }
        ensures same { IsSame pass.old pass.new }
        ensures view { view pass.new ≡ grace_loaded (config_of self.now) (view pass.old) result }
        ensures step { steps.new ≡ steps.old + 1 }
    {
        load_as::<P, Brand, L, _>(self, pass, GRACE_CELL as usize, &(), steps)
    }

    /// Raises GRACE to `time`, a printed time not above the watermark of the pass, where it is less,
    /// and answers the time found. The watermark of the pass becomes that time, where that is
    /// greater.
    pub fn raise_grace<L: Ledger>(&self, pass: &mut Pass<P>, time: u64, steps: &mut Steps<L>) -> u64
        requires of { IsOf self.now pass.old }
        requires may { MayRaiseGrace (view pass.old) time }
        ensures same { IsSame pass.old pass.new }
        ensures view { view pass.new ≡ grace_raised (config_of self.now) (view pass.old) time result }
        ensures step { steps.new ≡ steps.old + 1 }
    {
        raise_as::<P, Brand, L, _>(self, pass, GRACE_CELL, time, &time, steps)
    }
}
