//! The steps that make an entry of the history, a commit of what a section holds or a rest, and that
//! tell the versions below a commit of it.
ghost use Rattle.std.specs.Prelude.{◌≡◌, ℕ, ◌+◌};
ghost use Rattle.mv_core.specs.declared.ring.CommitNote.{CommitNote};
ghost use Rattle.mv_core.specs.declared.ring.Version.{Version};
ghost use Rattle.mv_core.specs.declared.view.OwnSection.{OwnSection};
ghost use Rattle.mv_core.specs.Passes.{view, IsOf, IsSame, config_of};
ghost use Rattle.mv_core.specs.SectionFacts.{IsWord};
ghost use Rattle.mv_core.specs.NameSteps.{LogTold, MayNameCommit, CommitTold, MayStoreSuper, super_stored, MayNameRest, RestTold};
ghost use Rattle.mv_core.specs.WalkSteps.{IsPackedOf};
ghost use Rattle.mv_core.specs.Swaps.{found_by, IsSwap};

use crate::shared::{Pass, Shared, store_as, swap_as};
use crate::steps::Steps;
use crate::swap::{Swap, swap_of};
use mv_history::{Protocol, Tag};
use mv_layout::{CLOCK_CELL, NO_SLOT, SUPER_OFFSET, clock_time, clock_word, slot_of_position};
use std::marker::Brand;
use std::sync::ledger::Ledger;

impl<P: Protocol> Shared<P> {
    /// Exchanges CLOCK from a word that the pass loaded and helped to the clock word of its own commit,
    /// whose time is the next one. Won, the history gets the commit of exactly what the open section
    /// holds, in the order of locking; what it held is committed, and the section has named it. The
    /// commit isn't stamped yet; whoever loads the new word can do that. Lost, nothing is changed but that
    /// the word found is loaded, which is of a later entry. Either way the pass has then seen the
    /// whole history. What was held links to nothing, or by a packed link, and
    /// no commit that was in the own log is later than the word found.
    pub fn name_commit<L: Ledger>(
        &self,
        pass: &mut Pass<P>,
        word: u64,
        tag: Tag,
        steps: &mut Steps<L>,
    ) -> Swap
        ghost inside: { OwnSection }
        requires of { IsOf self.now pass.old }
        requires may { MayNameCommit P.allowed (config_of self.now) (view pass.old) word tag inside }
        ensures same { IsSame pass.old pass.new }
        ensures view { CommitTold (config_of self.now) (view pass.old) inside tag word (found_by word result) (view pass.new) }
        ensures word { IsWord (config_of self.now) (found_by word result) }
        ensures log { LogTold (config_of self.now) (view pass.old) (found_by word result) }
        ensures swap { IsSwap word result }
        ensures step { steps.new ≡ steps.old + 1 }
    {
        let slot = slot_of_position(&self.config, pass.first);
        let named = clock_word(clock_time(word) + 1, pass.number, slot);
        let found = swap_as::<P, Brand, L, _>(
            self,
            pass,
            CLOCK_CELL,
            word,
            named,
            &(word, tag),
            steps,
        );
        swap_of(found, word)
    }
    /// Exchanges CLOCK from a word that the pass loaded and helped to that of a rest of its seat, whose
    /// time is the next one. The seat is outside. Won, the history gets the rest, which writes nothing.
    /// Lost, nothing is changed but that the word found is loaded, which is of a later entry. Either
    /// way the pass has then seen the whole history.
    pub fn name_rest<L: Ledger>(&self, pass: &mut Pass<P>, word: u64, steps: &mut Steps<L>) -> Swap
        requires of { IsOf self.now pass.old }
        requires may { MayNameRest (view pass.old) word }
        ensures same { IsSame pass.old pass.new }
        ensures view { RestTold (config_of self.now) (view pass.old) word (found_by word result) (view pass.new) }
        ensures word { IsWord (config_of self.now) (found_by word result) }
        ensures swap { IsSwap word result }
        ensures step { steps.new ≡ steps.old + 1 }
    {
        let named = clock_word(clock_time(word) + 1, pass.number, NO_SLOT);
        let found = swap_as::<P, Brand, L, _>(self, pass, CLOCK_CELL, word, named, &word, steps);
        swap_of(found, word)
    }

    /// Stores the time of the own commit into SUPER of the version that PREV of one of its versions
    /// links to, which tells that version's owner its time of death. The commit was named by this
    /// section, its stamp's exchange was made, and SUPER wasn't stored there yet.
    pub fn store_super<L: Ledger>(
        &self,
        pass: &mut Pass<P>,
        link: u64,
        time: u64,
        steps: &mut Steps<L>,
    )
        ghost above: { ℕ × Version × CommitNote }
        requires of { IsOf self.now pass.old }
        requires range { IsPackedOf (config_of self.now) link }
        requires may { MayStoreSuper (view pass.old) link time above.0 above.1 above.2 }
        ensures same { IsSame pass.old pass.new }
        ensures view { view pass.new ≡ super_stored (config_of self.now) (view pass.old) link time above.0 above.1 above.2 }
        ensures step { steps.new ≡ steps.old + 1 }
    {
        let cell = self.slot_linked(link) + SUPER_OFFSET;
        store_as::<P, Brand, L, _>(self, pass, cell as usize, time, &link, steps)
    }
}
