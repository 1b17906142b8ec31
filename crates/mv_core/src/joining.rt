//! The steps of joining seats, of which one seat is left that knows all history.
ghost use Rattle.std.specs.Prelude.{◌≡◌, ◌+◌, List};
ghost use Rattle.mv_history.specs.declared.Entry.{Entry};
ghost use Rattle.mv_core.specs.Passes.{view, IsOf, IsSame, config_of};
ghost use Rattle.mv_core.specs.SectionFacts.{IsWord};
ghost use Rattle.mv_core.specs.EnterSteps.{IsWhole};
ghost use Rattle.mv_core.specs.SeatSteps.{MayJoin, joined, AreJoined, joined_loaded};

use crate::opening::DomainNumbers;
use crate::shared::{Pass, Shared, join_as, load_as};
use crate::steps::Steps;
use crate::view::Knowledge;
use atomic_table::Join;
use mv_history::Protocol;
use mv_layout::CLOCK_CELL;
use std::marker::{Brand, PhantomData};
use std::sync::ledger::Ledger;

// How two views are made one, in the domain whose numbers are `D`'s.
pub(crate) struct Joining<D> {
    domain: PhantomData<D>,
}

impl<D: DomainNumbers> Join<Knowledge> for Joining<D> {
    ghost use Rattle.mv_core.specs.Views.{spent_view};
    ghost use Rattle.mv_core.specs.SeatSteps.{joined};

    ghost both = { joined D.config };

    ghost spent = { spent_view };
}

impl<P: Protocol> Shared<P> {
    /// Joins another seat into that of the pass, which keeps a note of it: its number, what it has
    /// seen, its commits and rests, its steps, and what is in its log. Both are outside, with no scan
    /// running. The other seat makes no step any more.
    pub fn join<L: Ledger>(&self, pass: &mut Pass<P>, other: Pass<P>, steps: &mut Steps<L>)
        requires of { IsOf self.now pass.old }
        requires other { IsOf self.now other }
        requires may { MayJoin (view pass.old) (view other) }
        ensures of { IsOf self.now pass.new }
        ensures view { view pass.new ≡ joined (config_of self.now) (view pass.old) (view other) }
        ensures step { steps.new ≡ steps.old + 1 }
    {
        steps.tick();
        join_as::<P, Brand>(self, &mut pass.seat, other.seat);
    }

    /// Loads CLOCK after a join. The pass then has seen the whole history, and has loaded this word.
    /// Of each note: its number is below `seats`, and neither the own one nor that of another note;
    /// its seat had seen a prefix of the history, which has all the commits and rests of that number.
    /// The same holds of the own seat. Where the notes are one fewer than the seats of the domain,
    /// each entry is of the own seat or of one with a note; a domain of one seat needs no join.
    pub fn load_joined<L: Ledger>(&self, pass: &mut Pass<P>, steps: &mut Steps<L>) -> u64
        requires of { IsOf self.now pass.old }
        ensures same { IsSame pass.old pass.new }
        ensures view { (h : List Entry) × IsWhole (config_of self.now) (view pass.old) result h
            × AreJoined (config_of self.now) (view pass.old) h × (view pass.new ≡ joined_loaded (config_of self.now) (view pass.old) result h) }
        ensures word { IsWord (config_of self.now) result }
        ensures step { steps.new ≡ steps.old + 1 }
    {
        load_as::<P, Brand, L, _>(self, pass, CLOCK_CELL as usize, &(), steps)
    }
}
