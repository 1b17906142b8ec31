//! The steps of a scan of the marks, which finds a time that no section is below.
ghost use Rattle.std.specs.Prelude.{◌≡◌, ◌+◌, List, Some};
ghost use Rattle.mv_history.specs.declared.Entry.{Entry};
ghost use Rattle.mv_core.specs.declared.view.Scan.{Scan};
ghost use Rattle.mv_core.specs.Passes.{view, IsOf, IsSame, config_of};
ghost use Rattle.mv_core.specs.SectionFacts.{IsWord};
ghost use Rattle.mv_core.specs.EnterSteps.{IsWhole};
ghost use Rattle.mv_core.specs.ReclaimSteps.{MayLoadScan, scan_loaded, MayLoadMark, mark_loaded};

use crate::shared::{Pass, Shared, load_as};
use crate::steps::Steps;
use mv_history::Protocol;
use mv_layout::{CLOCK_CELL, mark_cell};
use std::marker::Brand;
use std::sync::ledger::Ledger;

impl<P: Protocol> Shared<P> {
    /// Loads CLOCK and begins a scan of the marks, whose least time so far is that of the word found.
    /// The seat is outside, with no scan running, and has then seen the whole history, every entry of
    /// which is by a seat of the domain. In a domain of one seat the scan is finished by this step,
    /// and its time is known to the pass.
    pub fn load_scan<L: Ledger>(&self, pass: &mut Pass<P>, steps: &mut Steps<L>) -> u64
        requires of { IsOf self.now pass.old }
        requires may { MayLoadScan (view pass.old) }
        ensures same { IsSame pass.old pass.new }
        ensures view { (h : List Entry) × IsWhole (config_of self.now) (view pass.old) result h
            × (view pass.new ≡ scan_loaded (config_of self.now) (view pass.old) result h) }
        ensures word { IsWord (config_of self.now) result }
        ensures step { steps.new ≡ steps.old + 1 }
    {
        load_as::<P, Brand, L, _>(self, pass, CLOCK_CELL as usize, &(), steps)
    }

    /// Loads the mark of the seat that the running scan comes to next: 0 of a seat without a mark,
    /// and else `1 + low`, which lowers the least time of the scan to `low` where that is less.
    /// After the last seat the scan is finished, and its least time is known to the pass: no section
    /// of any seat has a time below it, now or later.
    pub fn load_mark<L: Ledger>(&self, pass: &mut Pass<P>, seat: u32, steps: &mut Steps<L>) -> u64
        requires of { IsOf self.now pass.old }
        requires may { (scan : Scan) × MayLoadMark (config_of self.now) (view pass.old) seat scan }
        ensures same { IsSame pass.old pass.new }
        ensures view { (scan : Scan) × ((view pass.old).scan ≡ Some scan)
            × (view pass.new ≡ mark_loaded (config_of self.now) (view pass.old) seat scan result) }
        ensures step { steps.new ≡ steps.old + 1 }
    {
        let cell = mark_cell(&self.config, seat);
        load_as::<P, Brand, L, _>(self, pass, cell as usize, &seat, steps)
    }
}
