//! The steps that build a version in the own log, write one that is held, and time dead ones.
ghost use Rattle.std.specs.Prelude.{◌≡◌, ◌+◌, ◌<◌, ◌^◌, List};
ghost use Rattle.mv_history.specs.declared.Entry.{Entry};
ghost use Rattle.mv_core.specs.declared.ring.Build.{Build};
ghost use Rattle.mv_core.specs.declared.ring.Version.{Version};
ghost use Rattle.mv_core.specs.Passes.{view, IsOf, IsOwnSlot, IsSame, config_of};
ghost use Rattle.mv_core.specs.SectionFacts.{IsWord};
ghost use Rattle.mv_core.specs.EnterSteps.{IsWhole};
ghost use Rattle.mv_core.specs.LockSteps.{MayStoreBuilt, built_stored, MayStoreData, data_stored, MayLoadDeath, death_loaded};

use crate::shared::{Pass, Shared, load_as, store_as};
use crate::steps::Steps;
use mv_history::Protocol;
use mv_layout::{CLOCK_CELL, DATA_OFFSET, slot_cell, slot_of_position};
use std::marker::Brand;
use std::sync::ledger::Ledger;

impl<P: Protocol> Shared<P> {
    /// The cell at which the slot of a position of the own log begins, by which `store_built` and
    /// `store_data` store the words of the version there. No step is made.
    pub fn own_slot(&self, pass: &Pass<P>, position: u64) -> u32
        requires of { IsOf self.now pass.now }
        ensures { IsOwnSlot (config_of self.now) pass.now position result }
    {
        let slot = slot_of_position(&self.config, position);
        slot_cell(&self.config, pass.number, slot)
    }

    /// Stores a word into a slot of the own log, which is free or being built, for the pass's next
    /// position, in an open section. `slot` is the cell at which the slot begins, as `own_slot` gives it,
    /// and `field` the word's offset in it: one of `FIRST_OFFSET`, `STAMP_OFFSET`, `PREV_OFFSET` and
    /// `SUPER_OFFSET`, or `DATA_OFFSET + w` for the data word `w`.
    /// FIRST takes the first position of the write set, STAMP the unset stamp of that position where
    /// this slot is its first, and SUPER takes 0.
    /// The slot is then being built, and the view has what was stored. A position that may be built
    /// fits a link.
    pub fn store_built<L: Ledger>(
        &self,
        pass: &mut Pass<P>,
        position: u64,
        slot: u32,
        field: u32,
        value: u64,
        steps: &mut Steps<L>,
    )
        ghost build: { Build }
        requires of { IsOf self.now pass.old }
        requires slot { IsOwnSlot (config_of self.now) pass.old position slot }
        requires may { MayStoreBuilt (config_of self.now) (view pass.old) position field value build }
        ensures same { IsSame pass.old pass.new }
        ensures view { view pass.new ≡ built_stored (config_of self.now) (view pass.old) position field value build }
        ensures range { position < 2 ^ 57 }
        ensures step { steps.new ≡ steps.old + 1 }
    {
        let cell = slot as usize + field as usize;
        store_as::<P, Brand, L, _>(self, pass, cell, value, &(position, field), steps)
    }

    /// Stores a data word into the own slot of a version that is held, in an open section. `slot` is the
    /// cell at which that slot begins, as `own_slot` gives it. No other seat reads the word before the
    /// commit that the version is of.
    pub fn store_data<L: Ledger>(
        &self,
        pass: &mut Pass<P>,
        position: u64,
        slot: u32,
        word: u32,
        value: u64,
        steps: &mut Steps<L>,
    )
        ghost version: { Version }
        requires of { IsOf self.now pass.old }
        requires slot { IsOwnSlot (config_of self.now) pass.old position slot }
        requires may { MayStoreData (config_of self.now) (view pass.old) position word version }
        ensures same { IsSame pass.old pass.new }
        ensures view { view pass.new ≡ data_stored (config_of self.now) (view pass.old) position word value version }
        ensures step { steps.new ≡ steps.old + 1 }
    {
        store_as::<P, Brand, L, _>(
            self,
            pass,
            slot as usize + DATA_OFFSET as usize + word as usize,
            value,
            &(position, word),
            steps,
        )
    }

    /// Loads CLOCK after an abort or a cut. The own aborted and cut versions that have no time of
    /// death yet are dead from the time after the clock's, and the pass has then seen the whole
    /// history.
    pub fn load_death<L: Ledger>(&self, pass: &mut Pass<P>, steps: &mut Steps<L>) -> u64
        requires of { IsOf self.now pass.old }
        requires may { MayLoadDeath (view pass.old) }
        ensures same { IsSame pass.old pass.new }
        ensures view { (h : List Entry) × IsWhole (config_of self.now) (view pass.old) result h
            × (view pass.new ≡ death_loaded (config_of self.now) (view pass.old) result h) }
        ensures word { IsWord (config_of self.now) result }
        ensures step { steps.new ≡ steps.old + 1 }
    {
        load_as::<P, Brand, L, _>(self, pass, CLOCK_CELL as usize, &(), steps)
    }
}
