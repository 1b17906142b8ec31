//! The steps of entering and leaving a section.
ghost use Rattle.std.specs.Prelude.{◌≡◌, ◌+◌, List};
ghost use Rattle.mv_history.specs.declared.Entry.{Entry};
ghost use Rattle.mv_core.specs.Rings.{HoldsNothing};
ghost use Rattle.mv_core.specs.Passes.{view, IsOf, IsSame, config_of};
ghost use Rattle.mv_core.specs.SectionFacts.{IsWord};
ghost use Rattle.mv_core.specs.EnterSteps.{IsWhole, MayLoadLow, low_loaded, MayStoreMark, mark_stored, MayLoadTime, time_loaded, MayClearMark, mark_cleared};

use crate::shared::{Pass, Shared, load_alone, load_as, store_as};
use crate::steps::Steps;
use mv_history::Protocol;
use mv_layout::{CLOCK_CELL, clock_time, mark_cell, mark_word};
use std::marker::Brand;
use std::sync::ledger::Ledger;

impl<P: Protocol> Shared<P> {
    /// Loads CLOCK for the low time of a section to come: its time, which is not above the time that
    /// the section will have. The seat is outside, with no scan running. Clock words that it loaded
    /// before are forgotten.
    pub fn load_low<L: Ledger>(&self, pass: &mut Pass<P>, steps: &mut Steps<L>) -> u64
        requires of { IsOf self.now pass.old }
        requires may { MayLoadLow (view pass.old) }
        ensures same { IsSame pass.old pass.new }
        ensures view { view pass.new ≡ low_loaded (config_of self.now) (view pass.old) result }
        ensures word { IsWord (config_of self.now) result }
        ensures step { steps.new ≡ steps.old + 1 }
    {
        load_as::<P, Brand, L, _>(self, pass, CLOCK_CELL as usize, &(), steps)
    }

    /// Stores the mark of the seat, `1 + low`, for the low time that it loaded.
    pub fn store_mark<L: Ledger>(&self, pass: &mut Pass<P>, low: u64, steps: &mut Steps<L>)
        requires of { IsOf self.now pass.old }
        requires may { MayStoreMark (view pass.old) low }
        ensures same { IsSame pass.old pass.new }
        ensures view { view pass.new ≡ mark_stored (config_of self.now) (view pass.old) low }
        ensures step { steps.new ≡ steps.old + 1 }
    {
        let cell = mark_cell(&self.config, pass.number);
        store_as::<P, Brand, L, _>(self, pass, cell as usize, mark_word(low), &low, steps)
    }

    /// Loads CLOCK and begins a section, whose time is that of the word found. The mark of the seat was
    /// stored before. The pass has then seen the whole history, whose last entry has that time. The
    /// section is open and holds nothing, and no walk and no write-back is under way in it. The word
    /// counts as helped where it names no commit; else the seat helps it before it walks.
    pub fn load_time<L: Ledger>(&self, pass: &mut Pass<P>, steps: &mut Steps<L>) -> u64
        requires of { IsOf self.now pass.old }
        requires may { MayLoadTime (view pass.old) }
        ensures same { IsSame pass.old pass.new }
        ensures view { (h : List Entry) × IsWhole (config_of self.now) (view pass.old) result h
            × (view pass.new ≡ time_loaded (config_of self.now) (view pass.old) result h) }
        ensures word { IsWord (config_of self.now) result }
        ensures nothing { HoldsNothing (view pass.new).ring }
        ensures step { steps.new ≡ steps.old + 1 }
    {
        let word = load_alone::<P, Brand, L, _>(self, &mut pass.seat, CLOCK_CELL, &(), steps);
        pass.time = clock_time(word);
        word
    }

    /// Stores 0 into the mark of the seat, and so leaves its section. The section holds nothing;
    /// where it named a commit, the exchange of its stamp was made and SUPER was stored below each
    /// of its versions. The walk and the write-back of the section end with it.
    pub fn clear_mark<L: Ledger>(&self, pass: &mut Pass<P>, steps: &mut Steps<L>)
        requires of { IsOf self.now pass.old }
        requires may { MayClearMark (view pass.old) }
        ensures same { IsSame pass.old pass.new }
        ensures view { view pass.new ≡ mark_cleared (config_of self.now) (view pass.old) }
        ensures step { steps.new ≡ steps.old + 1 }
    {
        let cell = mark_cell(&self.config, pass.number);
        store_as::<P, Brand, L, _>(self, pass, cell as usize, 0, &(), steps)
    }
}
