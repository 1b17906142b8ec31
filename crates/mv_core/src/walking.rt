//! The steps of a walk down a version chain.
ghost use Rattle.std.specs.Prelude.{◌≡◌, ◌+◌, ◌<◌, length};
ghost use Rattle.mv_core.specs.declared.view.OwnSection.{OwnSection};
ghost use Rattle.mv_core.specs.declared.view.Stand.{Stand};
ghost use Rattle.mv_core.specs.Passes.{view, IsOf, IsSame, config_of};
ghost use Rattle.mv_core.specs.Tops.{IsNewer};
ghost use Rattle.mv_core.specs.WalkSteps.{IsPackedOf, IsLinkOf, IsOwnTop, IsOwnLink, IsLastOwn, IsLastSeen, IsOwnTime, MayLoadHead};
ghost use Rattle.mv_core.specs.WalkSteps.{head_loaded, MayLoadFirst, first_loaded, MayLoadStamp, StampSays, stamp_loaded, MayLoadPrev, prev_loaded};
ghost use Rattle.mv_core.specs.WalkSteps.{MayLoadData, data_loaded, MayLoadMaster, master_loaded, words_read, word_read};
ghost use Rattle.mv_core.specs.Slots.{IsSlotIn, IsSlotLinked};
ghost use Rattle.mv_layout.specs.Cells.{cell_of};
ghost use Rattle.mv_layout.specs.declared.SharedWord.TheVariants.{Head};

use crate::shared::{Pass, Shared, load_as};
use crate::steps::Steps;
use mv_history::Protocol;
use mv_layout::{
    DATA_OFFSET, FIRST_OFFSET, PREV_OFFSET, STAMP_OFFSET, head_cell_from, link_position, link_seat,
    slot_cell_from, slot_of_position,
};
use std::marker::Brand;
use std::sync::ledger::Ledger;

impl<P: Protocol> Shared<P> {
    /// The cell of HEAD of an object, behind which its master words follow.
    fn head_of(&self, object: u32) -> u32
        requires { object < (config_of self.now).objects }
        ensures { result ≡ cell_of (config_of self.now) (Head object) }
    {
        head_cell_from(&self.config, self.first_head, object)
    }

    /// The cell at which the slot that a link names begins, by which `load_first`, `load_prev` and
    /// `load_data` load the words of the version there, so that it is found once. No step is made.
    pub fn slot_linked(&self, link: u64) -> u32
        requires { IsPackedOf (config_of self.now) link }
        ensures { IsSlotLinked (config_of self.now) link result }
    {
        let slot = slot_of_position(&self.config, link_position(link));
        slot_cell_from(&self.config, self.first_slot, link_seat(link), slot)
    }

    /// The cell at which the slot begins of the position `first` in the log that a link names, by which
    /// `load_stamp` loads the STAMP of the write set of the version there. `slot` is the cell of the
    /// link's own slot, as `slot_linked` gives it, and is the answer where `first` is the link's own
    /// position. No step is made.
    pub fn slot_of_first(&self, link: u64, slot: u32, first: u64) -> u32
        requires range { IsPackedOf (config_of self.now) link }
        requires slot { IsSlotLinked (config_of self.now) link slot }
        ensures { IsSlotIn (config_of self.now) link first result }
    {
        if first == link_position(link) {
            return slot;
        }
        let index = slot_of_position(&self.config, first);
        slot_cell_from(&self.config, self.first_slot, link_seat(link), index)
    }

    /// Loads HEAD of an object, in an open section that is past its help and has no write-back under
    /// way, and so begins a walk over that object. The word is 0, where the walk then stands at the
    /// master, or the link of the version on top, where it then stands. A version of the own log on top
    /// is held, or is committed and wasn't cut, and the link is of its position; where it is committed,
    /// each other committed version of the object in the own log has a lesser time, and the pass has
    /// seen no later write of the object. A version of another seat on top was found in a state of the
    /// rule in which the pass had its view; there it is held or has the object's last commit, and so is
    /// newer than each committed version of the object in the own log.
    pub fn load_head<L: Ledger>(&self, pass: &mut Pass<P>, object: u32, steps: &mut Steps<L>) -> u64
        ghost inside: { OwnSection }
        requires of { IsOf self.now pass.old }
        requires range { object < (config_of self.now).objects }
        requires may { MayLoadHead (view pass.old) inside }
        ensures same { IsSame pass.old pass.new }
        ensures view { view pass.new ≡ head_loaded (config_of self.now) (view pass.old) inside object result }
        ensures link { IsLinkOf (config_of self.now) result }
        ensures own { IsOwnTop (config_of self.now) (view pass.old) object result }
        ensures own_link { IsOwnLink (config_of self.now) (view pass.old) result }
        ensures later { IsLastOwn (config_of self.now) (view pass.old) object result }
        ensures seen { IsLastSeen (config_of self.now) (view pass.old) object result }
        ensures newer { IsNewer (config_of self.now) (view pass.old) object result }
        ensures step { steps.new ≡ steps.old + 1 }
    {
        let cell = self.head_of(object);
        load_as::<P, Brand, L, _>(self, pass, cell as usize, &object, steps)
    }

    /// Loads FIRST of the version that the walk stands at: the first position of its write set. `slot` is
    /// the cell at which the version's slot begins, as `slot_linked` gives it.
    pub fn load_first<L: Ledger>(
        &self,
        pass: &mut Pass<P>,
        link: u64,
        slot: u32,
        steps: &mut Steps<L>,
    ) -> u64
        ghost stand: { Stand }
        requires of { IsOf self.now pass.old }
        requires range { IsPackedOf (config_of self.now) link }
        requires slot { IsSlotLinked (config_of self.now) link slot }
        requires may { MayLoadFirst (view pass.old) link stand }
        ensures same { IsSame pass.old pass.new }
        ensures view { view pass.new ≡ first_loaded (config_of self.now) (view pass.old) stand result }
        ensures step { steps.new ≡ steps.old + 1 }
    {
        let cell = slot as usize + FIRST_OFFSET as usize;
        load_as::<P, Brand, L, _>(self, pass, cell, &link, steps)
    }

    /// Loads STAMP of the write set of the version that the walk stands at, whose first position
    /// `first` it found. `slot` is the cell at which the slot of `first` begins, as `slot_of_first` gives
    /// it. A word from `2^63` on is unset; else it is the time of the commit, a write of the object, and
    /// the pass has then seen the history at least up to that time. Below a version that the walk has
    /// passed it is a time, and a lesser one than that version's. Of a version that the own log has as
    /// committed it is a time.
    pub fn load_stamp<L: Ledger>(
        &self,
        pass: &mut Pass<P>,
        link: u64,
        first: u64,
        slot: u32,
        steps: &mut Steps<L>,
    ) -> u64
        ghost stand: { Stand }
        requires of { IsOf self.now pass.old }
        requires range { IsPackedOf (config_of self.now) link }
        requires slot { IsSlotIn (config_of self.now) link first slot }
        requires may { MayLoadStamp (view pass.old) link first stand }
        ensures same { IsSame pass.old pass.new }
        ensures view { view pass.new ≡ stamp_loaded (config_of self.now) (view pass.old) stand first result (view pass.new).past.seen }
        ensures says { StampSays (config_of self.now) (view pass.old) stand result (view pass.new).past.seen }
        ensures own { IsOwnTime (config_of self.now) (view pass.old) link result }
        ensures step { steps.new ≡ steps.old + 1 }
    {
        let cell = slot as usize + STAMP_OFFSET as usize;
        load_as::<P, Brand, L, _>(self, pass, cell, &(link, first), steps)
    }

    /// Loads PREV of the version that the walk stands at, whose stamp it found to be unset or a time
    /// above the section's. `slot` is the cell at which the version's slot begins, as `slot_linked` gives
    /// it. The word is 0, where the walk then stands at the master, or the link of the next older version,
    /// where it then stands.
    pub fn load_prev<L: Ledger>(
        &self,
        pass: &mut Pass<P>,
        link: u64,
        slot: u32,
        steps: &mut Steps<L>,
    ) -> u64
        ghost stand: { Stand }
        requires of { IsOf self.now pass.old }
        requires range { IsPackedOf (config_of self.now) link }
        requires slot { IsSlotLinked (config_of self.now) link slot }
        requires may { MayLoadPrev (view pass.old) link stand }
        ensures same { IsSame pass.old pass.new }
        ensures view { view pass.new ≡ prev_loaded (config_of self.now) (view pass.old) stand result }
        ensures link { IsLinkOf (config_of self.now) result }
        ensures step { steps.new ≡ steps.old + 1 }
    {
        let cell = slot as usize + PREV_OFFSET as usize;
        load_as::<P, Brand, L, _>(self, pass, cell, &link, steps)
    }

    /// Loads a data word of the version that the walk stands at, whose stamp it found to be a time not
    /// above the section's. `slot` is the cell at which the version's slot begins, as `slot_linked` gives
    /// it. The word found is the object's in the state that the section reads.
    pub fn load_data<L: Ledger>(
        &self,
        pass: &mut Pass<P>,
        link: u64,
        slot: u32,
        word: u32,
        steps: &mut Steps<L>,
    ) -> u64
        ghost at: { Stand × OwnSection }
        requires of { IsOf self.now pass.old }
        requires range { IsPackedOf (config_of self.now) link }
        requires slot { IsSlotLinked (config_of self.now) link slot }
        requires may { MayLoadData (view pass.old) link word at.0 at.1 }
        ensures same { IsSame pass.old pass.new }
        ensures view { view pass.new ≡ data_loaded (config_of self.now) (view pass.old) at.0 word result }
        ensures word { result ≡ word_read (config_of self.now) (view pass.old) at.1 at.0.object word }
        ensures wide { length (words_read (config_of self.now) (view pass.old) at.1 at.0.object) ≡ 6 }
        ensures step { steps.new ≡ steps.old + 1 }
    {
        let cell = slot as usize + DATA_OFFSET as usize + word as usize;
        load_as::<P, Brand, L, _>(self, pass, cell, &(link, word), steps)
    }

    /// Loads a master word of an object, where the walk stands at its master. The word found is the
    /// object's in the state that the section reads.
    pub fn load_master<L: Ledger>(
        &self,
        pass: &mut Pass<P>,
        object: u32,
        word: u32,
        steps: &mut Steps<L>,
    ) -> u64
        ghost inside: { OwnSection }
        requires of { IsOf self.now pass.old }
        requires range { object < (config_of self.now).objects }
        requires may { MayLoadMaster (view pass.old) object word inside }
        ensures same { IsSame pass.old pass.new }
        ensures view { view pass.new ≡ master_loaded (config_of self.now) (view pass.old) object word result }
        ensures word { result ≡ word_read (config_of self.now) (view pass.old) inside object word }
        ensures wide { length (words_read (config_of self.now) (view pass.old) inside object) ≡ 6 }
        ensures step { steps.new ≡ steps.old + 1 }
    {
        let head = self.head_of(object);
        let cell = head as usize + 1 + word as usize;
        load_as::<P, Brand, L, _>(self, pass, cell, &(object, word), steps)
    }
}
