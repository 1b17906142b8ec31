//! The steps that write a version back into its master and give its slot free.
ghost use Rattle.std.specs.Prelude.{◌≡◌, ◌≢◌, ℕ, ◌+◌, ◌<◌};
ghost use Rattle.mv_core.specs.declared.ring.Version.{Version};
ghost use Rattle.mv_core.specs.declared.ring.CommitNote.{CommitNote};
ghost use Rattle.mv_core.specs.declared.view.OwnSection.{OwnSection};
ghost use Rattle.mv_core.specs.Passes.{view, IsOf, IsSame, config_of};
ghost use Rattle.mv_core.specs.ReclaimSteps.{MayLoadSuper, super_loaded, SeesSuper, FoundEmpty, MayStoreMaster, master_stored, MayCutHead, CutTold};
ghost use Rattle.mv_core.specs.ReclaimSteps.{IsOfOther, MayStoreFree, free_stored};
ghost use Rattle.mv_core.specs.Swaps.{found_by, IsSwap};
ghost use Rattle.mv_core.specs.Tops.{NamesNewer};
ghost use Rattle.mv_core.specs.WalkSteps.{IsLinkOf};
ghost use Rattle.mv_layout.specs.Words.{link_of};

use crate::shared::{Pass, Shared, load_as, store_as, swap_as};
use crate::steps::Steps;
use crate::swap::{Swap, swap_of};
use mv_history::Protocol;
use mv_layout::{
    STAMP_OFFSET, SUPER_OFFSET, head_cell, link_word, master_cell, slot_cell, slot_of_position,
};
use std::marker::Brand;
use std::sync::ledger::Ledger;

impl<P: Protocol> Shared<P> {
    /// Loads SUPER of an own committed version that wasn't cut and has no time of death. A time found
    /// is the printed time of the next write of the object, from which on the version is dead; the
    /// pass then has seen that write. Where 0 is found, no write of the object that the pass has
    /// seen comes after the version's and up to the pass's watermark. A time is found where a
    /// section of the seat whose time wasn't below the version's found the object's HEAD empty.
    pub fn load_super<L: Ledger>(
        &self,
        pass: &mut Pass<P>,
        position: u64,
        steps: &mut Steps<L>,
    ) -> u64
        ghost own: { Version × CommitNote }
        requires of { IsOf self.now pass.old }
        requires may { MayLoadSuper (config_of self.now) (view pass.old) position own.0 own.1 }
        ensures same { IsSame pass.old pass.new }
        ensures view { view pass.new ≡ super_loaded (config_of self.now) (view pass.old) position own.0 own.1 result (view pass.new).past.seen }
        ensures sees { SeesSuper (config_of self.now) (view pass.old) own.0 own.1 result (view pass.new).past.seen }
        ensures empty { FoundEmpty (view pass.old) own.0.object own.1.time → result ≢ 0 }
        ensures step { steps.new ≡ steps.old + 1 }
    {
        let slot = slot_of_position(&self.config, position);
        let cell = slot_cell(&self.config, pass.number, slot) + SUPER_OFFSET;
        load_as::<P, Brand, L, _>(self, pass, cell as usize, &position, steps)
    }

    /// Stores a data word of an own version into the object's master, in an open section past its
    /// help that holds nothing. Word 0 begins a write-back, of the version that the walk stands at,
    /// where its chain wasn't cut and its time is not above the pass's watermark; each word after it
    /// goes on with that write-back, in their order. No section reads the master meanwhile, since
    /// the version serves all of them.
    pub fn store_master<L: Ledger>(
        &self,
        pass: &mut Pass<P>,
        object: u32,
        word: u32,
        value: u64,
        steps: &mut Steps<L>,
    )
        ghost back: { ℕ × Version × CommitNote × OwnSection }
        requires of { IsOf self.now pass.old }
        requires range { object < (config_of self.now).objects }
        requires may { MayStoreMaster (config_of self.now) (view pass.old) object word value back.0 back.1 back.2 back.3 }
        ensures same { IsSame pass.old pass.new }
        ensures view { view pass.new ≡ master_stored (config_of self.now) (view pass.old) object word value back.0 }
        ensures step { steps.new ≡ steps.old + 1 }
    {
        let cell = master_cell(&self.config, object, word);
        store_as::<P, Brand, L, _>(self, pass, cell as usize, value, &(object, word), steps)
    }

    /// Exchanges HEAD of an object from the link of the version that is written back to 0, once all
    /// its words were stored. Where it is won the version is cut from its chain: the object's master
    /// has the present state, and a walk that begins goes there. A lost exchange leaves the chain as
    /// it is, and found the link of a version of another seat, in a state of the rule in which the pass
    /// had its view; there that version is held or has the object's last commit, and so is newer than
    /// each committed version of the object in the own log. It is tried once in a write-back, won or
    /// lost.
    pub fn cut_head<L: Ledger>(
        &self,
        pass: &mut Pass<P>,
        object: u32,
        position: u64,
        steps: &mut Steps<L>,
    ) -> Swap
        ghost back: { Version × CommitNote }
        requires of { IsOf self.now pass.old }
        requires object { object < (config_of self.now).objects }
        requires may { MayCutHead (config_of self.now) (view pass.old) object position back.0 back.1 }
        ensures same { IsSame pass.old pass.new }
        ensures view { CutTold (config_of self.now) (view pass.old) object position back.0 back.1
            (found_by (link_of (view pass.old).number position) result) (view pass.new) }
        ensures swap { IsSwap (link_of (view pass.old).number position) result }
        ensures link { found_by (link_of (view pass.old).number position) result ≢ link_of (view pass.old).number position
            → IsLinkOf (config_of self.now) (found_by (link_of (view pass.old).number position) result) }
        ensures other { found_by (link_of (view pass.old).number position) result ≢ link_of (view pass.old).number position
            → IsOfOther (view pass.old) (found_by (link_of (view pass.old).number position) result) }
        ensures newer { found_by (link_of (view pass.old).number position) result ≢ link_of (view pass.old).number position
            → NamesNewer (config_of self.now) (view pass.old) object (found_by (link_of (view pass.old).number position) result) }
        ensures step { steps.new ≡ steps.old + 1 }
    {
        let cell = head_cell(&self.config, object);
        let link = link_word(pass.number, position);
        let found = swap_as::<P, Brand, L, _>(
            self,
            pass,
            cell,
            link,
            0,
            &(object, position),
            steps,
        );
        swap_of(found, link)
    }

    /// Stores STAMP 0 into the own slot of the oldest position of the log, outside a section, and so
    /// gives the slot free. Where that position is the first of its write set, every version of the
    /// set is dead from a time that is not above the pass's watermark, and none of them is live any
    /// more; the slots of the others are given free by such stores of their own, in order.
    pub fn store_free<L: Ledger>(&self, pass: &mut Pass<P>, position: u64, steps: &mut Steps<L>)
        requires of { IsOf self.now pass.old }
        requires may { MayStoreFree (config_of self.now) (view pass.old) position }
        ensures same { IsSame pass.old pass.new }
        ensures view { view pass.new ≡ free_stored (config_of self.now) (view pass.old) position }
        ensures step { steps.new ≡ steps.old + 1 }
    {
        let slot = slot_of_position(&self.config, position);
        let cell = slot_cell(&self.config, pass.number, slot) + STAMP_OFFSET;
        store_as::<P, Brand, L, _>(self, pass, cell as usize, 0, &position, steps)
    }
}
