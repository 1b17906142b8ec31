//! The steps that put a version on top of an object's chain and take it off again.
ghost use Rattle.std.specs.Prelude.{◌≡◌, ◌≢◌, ℕ, List, ◌+◌, ◌<◌};
ghost use Rattle.mv_layout.specs.Words.{link_seat_of};
ghost use Rattle.mv_core.specs.declared.ring.Build.{Build};
ghost use Rattle.mv_core.specs.declared.ring.Version.{Version};
ghost use Rattle.mv_core.specs.declared.view.OwnSection.{OwnSection};
ghost use Rattle.mv_core.specs.Rings.{set_first};
ghost use Rattle.mv_core.specs.Passes.{view, IsOf, IsSame, config_of};
ghost use Rattle.mv_core.specs.WalkSteps.{IsLinkOf};
ghost use Rattle.mv_core.specs.LockSteps.{MayLock, LockTold, OneMoreWrite, MayUnlock, head_unlocked};
ghost use Rattle.mv_core.specs.Swaps.{found_by, IsSwap};

use crate::shared::{Pass, Shared, store_as, swap_alone};
use crate::steps::Steps;
use crate::swap::{Swap, swap_of};
use mv_history::Protocol;
use mv_layout::{head_cell, link_word};
use std::marker::Brand;
use std::sync::ledger::Ledger;

impl<P: Protocol> Shared<P> {
    /// Exchanges HEAD of an object from `previous` to the link of the version that was built at
    /// `position`, and so locks the object where it is won: the version is held then, with the words
    /// that it was built with. The section is open and past its help, doesn't hold the
    /// object, and has fewer versions held than its limit. Its walk stands at the version that
    /// `previous` links to, whose time is not above the section's, or at the master, and `previous`
    /// is 0. `first` is the position of the write set's first version, which is `position` where
    /// nothing is held yet. A lost exchange puts the walk where the link found leads: to the master,
    /// or to a version in another log, and a commit there is later than the section.
    pub fn lock_head<L: Ledger>(
        &self,
        pass: &mut Pass<P>,
        object: u32,
        previous: u64,
        first: u64,
        position: u64,
        steps: &mut Steps<L>,
    ) -> Swap
        ghost what: { List ℕ × Build × OwnSection }
        requires of { IsOf self.now pass.old }
        requires may { MayLock (config_of self.now) (config_of self.now).write_max (view pass.old) object previous position what.0 what.1 what.2 }
        requires first { first ≡ set_first (view pass.old).ring }
        ensures same { IsSame pass.old pass.new }
        ensures view { LockTold (config_of self.now) (view pass.old) object previous position what.0 (found_by previous result) (view pass.new) }
        ensures swap { IsSwap previous result }
        ensures own { found_by previous result ≡ previous → OneMoreWrite (config_of self.now) (view pass.old) object what.0 (view pass.new) }
        ensures link { found_by previous result ≢ previous → IsLinkOf (config_of self.now) (found_by previous result) }
        ensures other { found_by previous result ≢ previous → found_by previous result ≢ 0
            → link_seat_of (found_by previous result) ≢ (view pass.old).number }
        ensures step { steps.new ≡ steps.old + 1 }
    {
        let cell = head_cell(&self.config, object);
        let link = link_word(pass.number, position);
        let found = swap_alone::<P, Brand, L, _>(
            self,
            &mut pass.seat,
            cell,
            previous,
            link,
            &(object, previous, position),
            steps,
        );
        if found == previous {
            pass.first = first;
        }
        swap_of(found, previous)
    }

    /// Stores `previous` into HEAD of an object that the section holds, over the version that the
    /// lock put there, whose previous link it is. The section hasn't named a commit. From now on it
    /// is aborting, and the version is aborted: who stands at it goes on by its previous link.
    pub fn unlock_head<L: Ledger>(
        &self,
        pass: &mut Pass<P>,
        object: u32,
        previous: u64,
        steps: &mut Steps<L>,
    )
        ghost held: { ℕ × Version × OwnSection }
        requires of { IsOf self.now pass.old }
        requires range { object < (config_of self.now).objects }
        requires may { MayUnlock (view pass.old) object previous held.0 held.1 held.2 }
        ensures same { IsSame pass.old pass.new }
        ensures view { view pass.new ≡ head_unlocked (config_of self.now) (view pass.old) object previous held.0 held.1 held.2 }
        ensures step { steps.new ≡ steps.old + 1 }
    {
        let cell = head_cell(&self.config, object);
        store_as::<P, Brand, L, _>(self, pass, cell as usize, previous, &object, steps)
    }
}
