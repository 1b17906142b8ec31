//! The steps that help a named commit: whoever loaded the clock word of a commit stamps it.
ghost use Rattle.std.specs.Prelude.{◌≡◌, ◌≢◌, ◌+◌, ◌<◌, ◌^◌, List};
ghost use Rattle.mv_history.specs.declared.Entry.{Entry};
ghost use Rattle.mv_layout.specs.Places.{IsPlace};
ghost use Rattle.mv_layout.specs.Cells.{cell_of};
ghost use Rattle.mv_layout.specs.Words.{clock_slot_of, unset_of};
ghost use Rattle.mv_core.specs.Passes.{view, IsOf, IsSame, config_of};
ghost use Rattle.mv_core.specs.SectionFacts.{IsWord};
ghost use Rattle.mv_core.specs.EnterSteps.{IsWhole, stamp_place, MayLoadNamed, named_loaded, MayLoadCheck, check_loaded};
ghost use Rattle.mv_core.specs.EnterSteps.{IsOwnNaming, own_word, MayStamp, stamp_swapped};
ghost use Rattle.mv_core.specs.Laws.{HelpedAreStamped};
ghost use Rattle.mv_core.specs.Swaps.{found_by, IsSwap};

use crate::shared::{Pass, Shared, load_as, swap_as};
use crate::steps::Steps;
use crate::swap::{Swap, swap_of};
use mv_history::Protocol;
use mv_layout::{
    CLOCK_CELL, STAMP_OFFSET, clock_seat, clock_slot, clock_time, slot_cell, slot_of_position,
    unset_stamp,
};
use std::marker::Brand;
use std::sync::ledger::Ledger;

impl<P: Protocol> Shared<P> {
    /// Loads the stamp of the commit that a clock word names, which the pass has loaded. A stamp
    /// that isn't unset means that the commit is stamped or no longer live, and the word counts as
    /// helped; an unset one is kept, and counts once the clock is found to have that word still.
    pub fn load_named<L: Ledger>(&self, pass: &mut Pass<P>, word: u64, steps: &mut Steps<L>) -> u64
        requires of { IsOf self.now pass.old }
        requires may { MayLoadNamed (view pass.old) word }
        ensures same { IsSame pass.old pass.new }
        ensures view { view pass.new ≡ named_loaded (config_of self.now) (view pass.old) word result }
        ensures step { steps.new ≡ steps.old + 1 }
    {
        let cell = self.named_cell(word);
        load_as::<P, Brand, L, _>(self, pass, cell as usize, &word, steps)
    }

    /// Loads the clock. The pass then has seen the whole history, and has loaded this word. The
    /// unset stamp that it kept counts from now on where the clock has the word it was found for;
    /// where the clock has another word, whoever moved it on had helped that one first.
    pub fn load_check<L: Ledger>(&self, pass: &mut Pass<P>, steps: &mut Steps<L>) -> u64
        requires of { IsOf self.now pass.old }
        requires may { MayLoadCheck (view pass.old).phase }
        ensures same { IsSame pass.old pass.new }
        ensures view { (h : List Entry) × IsWhole (config_of self.now) (view pass.old) result h
            × (view pass.new ≡ check_loaded (config_of self.now) (view pass.old) result h) }
        ensures word { IsWord (config_of self.now) result }
        ensures step { steps.new ≡ steps.old + 1 }
    {
        load_as::<P, Brand, L, _>(self, pass, CLOCK_CELL as usize, &(), steps)
    }

    /// Exchanges the stamp of the commit that a clock word names from `unset` to the commit's time.
    /// The unset stamp is one that the pass found for that word and checked since, or both are of
    /// the commit that its own section has named. Won or lost, the word counts as helped; in the
    /// own section the exchange of the stamp then counts as made.
    pub fn stamp<L: Ledger>(
        &self,
        pass: &mut Pass<P>,
        word: u64,
        unset: u64,
        steps: &mut Steps<L>,
    ) -> Swap
        requires of { IsOf self.now pass.old }
        requires may { MayStamp (config_of self.now) (view pass.old) word unset }
        ensures same { IsSame pass.old pass.new }
        ensures view { view pass.new ≡ stamp_swapped (config_of self.now) (view pass.old) word unset (found_by unset result) }
        ensures swap { IsSwap unset result }
        ensures step { steps.new ≡ steps.old + 1 }
    {
        let cell = self.named_cell(word);
        let time = clock_time(word);
        let found = swap_as::<P, Brand, L, _>(self, pass, cell, unset, time, &(word, unset), steps);
        swap_of(found, unset)
    }

    /// Exchanges the stamp of the commit that the own section has named from its unset stamp to the
    /// commit's printed time. `first` is the position of the first version of its write set. It is the
    /// step `stamp` of the commit's clock word, which isn't packed for it. Won or lost, that word counts
    /// as helped, and the exchange of the stamp as made.
    pub fn stamp_own<L: Ledger>(
        &self,
        pass: &mut Pass<P>,
        first: u64,
        time: u64,
        steps: &mut Steps<L>,
    ) -> Swap
        requires of { IsOf self.now pass.old }
        requires may { IsOwnNaming (config_of self.now) (view pass.old) (own_word (config_of self.now) (view pass.old) first time) (unset_of first) }
        ensures same { IsSame pass.old pass.new }
        ensures view { view pass.new ≡ stamp_swapped (config_of self.now) (view pass.old) (own_word (config_of self.now) (view pass.old) first time)
            (unset_of first) (found_by (unset_of first) result) }
        ensures swap { IsSwap (unset_of first) result }
        ensures step { steps.new ≡ steps.old + 1 }
    {
        let slot = slot_of_position(&self.config, first);
        let cell = slot_cell(&self.config, pass.number, slot) + STAMP_OFFSET;
        let unset = unset_stamp(first);
        let found = swap_as::<P, Brand, L, _>(
            self,
            pass,
            cell,
            unset,
            time,
            &(first, time, unset),
            steps,
        );
        swap_of(found, unset)
    }

    // Where the stamp of the commit that a clock word names stands.
    fn named_cell(&self, word: u64) -> u32
        requires word { IsWord (config_of self.now) word }
        requires names { clock_slot_of word ≢ 8191 }
        ensures range { IsPlace (config_of self.now) (stamp_place word) }
        ensures cell { result ≡ cell_of (config_of self.now) (stamp_place word) }
    {
        slot_cell(&self.config, clock_seat(word), clock_slot(word)) + STAMP_OFFSET
    }
}

/// The law of helping: wherever the rule holds, that is between any two steps of any seats, the
/// stamp of each live commit up to the time of a clock word that some seat has helped is that
/// commit's time. A section is past its help where it has helped the word that gave it its time, so
/// it finds each live commit up to its own time stamped.
pub fn helped_are_stamped<P: Protocol>()
    ensures { HelpedAreStamped P.start P.allowed }
{}
