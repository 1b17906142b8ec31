//! Every access to the shared words of a domain. Each function that accesses a word makes one access,
//! outside any loop, and counts it by one `tick`; `tests/accesses.sh` looks that it is so, and that no
//! other code accesses one. Opening a domain makes its words, and closing it gives them up, when nobody
//! steps any more: neither is a step. Making a seat and joining two are moves of their views, each with
//! a record of the trail; the table loads its first word for it, and ignores what it finds. A join is
//! counted by its caller, and seats are made before anything counts.
//!
//! What a step is of and what it tells is picked where it is called, by a `Transition` for `Brand`; it may
//! speak of `about`, which is for the proof alone.
ghost use Rattle.std.specs.Prelude.{◌≡◌, ◌+◌, ◌<◌, [], length, IfOk};
ghost use Rattle.std.specs.Mem.Slots.{slots_items, slots_len, IsFull};
ghost use Rattle.mv_layout.specs.Limits.{Checked};
ghost use Rattle.mv_layout.specs.Places.{IsPlace};
ghost use Rattle.mv_layout.specs.Cells.{cells, cell_of};
ghost use Rattle.mv_core.specs.Closing.{EndsIn};
ghost use Rattle.mv_core.specs.Known.{Known, KnownInDomain, RunsOn};
ghost use Rattle.mv_core.specs.Passes.{view, IsOf, IsSame, IsSeatOf, config_of, start_of};
ghost use Rattle.mv_core.specs.Rule.{Loads, Stores, Swaps, Raises, LoadsAs, StoresAs, SwapsAs, RaisesAs, IsKept};
ghost use Rattle.mv_core.specs.SeatSteps.{made_one, newly_made, MayJoin, joined};
ghost use Rattle.mv_core.specs.Start.{maker_view, ShowsOpening};

use crate::joining::Joining;
use crate::opening::{DomainNumbers, Making};
use crate::shared::{Opening, Pass, Shared};
use crate::steps::Steps;
use crate::turns::{QuietStep, ToldAlone, Transition};
use crate::view::Knowledge;
use atomic_table::{Closed, Seat, Table};
use mv_history::{Protocol, Tag, Words};
use mv_layout::{Config, head_cell, slot_cell};
use std::alloc::{AllocError, Global};
use std::marker::PhantomData;
use std::snapshot::Snapshot;
use std::sync::ledger::Ledger;

/// A load, in a pass.
pub(crate) fn load_as<P: Protocol, J: Transition, L: Ledger, T>(
    shared: &Shared<P>,
    pass: &mut Pass<P>,
    index: usize,
    about: &T,
    steps: &mut Steps<L>,
) -> u64
    requires of { IsOf shared.now pass.old }
    requires domain { J.config ≡ config_of shared.now }
    requires place { IsPlace (config_of shared.now) J.place × (index ≡ cell_of (config_of shared.now) J.place) }
    requires rule { Loads P.start P.allowed (config_of shared.now) (start_of shared.now) (view pass.old) J.place
        (λ n w. (J.tells n w × RunsOn (view pass.old) w) × IsKept (view pass.old) w) }
    requires moves { LoadsAs P.start P.allowed (config_of shared.now) (start_of shared.now) (view pass.old) J.place J.kind J.tells }
    ensures same { IsSame pass.old pass.new }
    ensures tells { J.tells result (view pass.new) }
    ensures step { steps.new ≡ steps.old + 1 }
{
    let _ = about;
    steps.tick();
    shared
        .table
        .shared
        .load::<QuietStep<P, J>>(&mut pass.seat, index)
}

/// A store of `new`, in a pass.
pub(crate) fn store_as<P: Protocol, J: Transition, L: Ledger, T>(
    shared: &Shared<P>,
    pass: &mut Pass<P>,
    index: usize,
    new: u64,
    about: &T,
    steps: &mut Steps<L>,
)
    requires of { IsOf shared.now pass.old }
    requires domain { J.config ≡ config_of shared.now }
    requires place { IsPlace (config_of shared.now) J.place × (index ≡ cell_of (config_of shared.now) J.place) }
    requires rule { Stores P.start P.allowed (config_of shared.now) (start_of shared.now) (view pass.old) J.place new
        (λ w. (J.tells new w × RunsOn (view pass.old) w) × IsKept (view pass.old) w) }
    requires moves { StoresAs P.start P.allowed (config_of shared.now) (start_of shared.now) (view pass.old) J.place J.kind new (J.tells new) }
    ensures same { IsSame pass.old pass.new }
    ensures tells { J.tells new (view pass.new) }
    ensures step { steps.new ≡ steps.old + 1 }
{
    let _ = about;
    steps.tick();
    shared
        .table
        .shared
        .store::<QuietStep<P, J>>(&mut pass.seat, index, new)
}

/// An exchange of `old` for `new`, in a pass. It answers what it found.
pub(crate) fn swap_as<P: Protocol, J: Transition, L: Ledger, T>(
    shared: &Shared<P>,
    pass: &mut Pass<P>,
    index: u32,
    old: u64,
    new: u64,
    about: &T,
    steps: &mut Steps<L>,
) -> u64
    requires of { IsOf shared.now pass.old }
    requires domain { J.config ≡ config_of shared.now }
    requires place { IsPlace (config_of shared.now) J.place × (index ≡ cell_of (config_of shared.now) J.place) }
    requires rule { Swaps P.start P.allowed (config_of shared.now) (start_of shared.now) (view pass.old) J.place old new
        (λ n w. (J.tells n w × RunsOn (view pass.old) w) × IsKept (view pass.old) w) }
    requires moves { SwapsAs P.start P.allowed (config_of shared.now) (start_of shared.now) (view pass.old) J.place J.kind old new J.tells }
    ensures same { IsSame pass.old pass.new }
    ensures tells { J.tells result (view pass.new) }
    ensures step { steps.new ≡ steps.old + 1 }
{
    let _ = about;
    steps.tick();
    shared
        .table
        .shared
        .compare_exchange::<QuietStep<P, J>>(&mut pass.seat, index as usize, old, new)
}

/// A fetch_max by `by`, in a pass. It answers what it found.
pub(crate) fn raise_as<P: Protocol, J: Transition, L: Ledger, T>(
    shared: &Shared<P>,
    pass: &mut Pass<P>,
    index: u32,
    by: u64,
    about: &T,
    steps: &mut Steps<L>,
) -> u64
    requires of { IsOf shared.now pass.old }
    requires domain { J.config ≡ config_of shared.now }
    requires place { IsPlace (config_of shared.now) J.place × (index ≡ cell_of (config_of shared.now) J.place) }
    requires rule { Raises P.start P.allowed (config_of shared.now) (start_of shared.now) (view pass.old) J.place by
        (λ n w. (J.tells n w × RunsOn (view pass.old) w) × IsKept (view pass.old) w) }
    requires moves { RaisesAs P.start P.allowed (config_of shared.now) (start_of shared.now) (view pass.old) J.place J.kind by J.tells }
    ensures same { IsSame pass.old pass.new }
    ensures tells { J.tells result (view pass.new) }
    ensures step { steps.new ≡ steps.old + 1 }
{
    let _ = about;
    steps.tick();
    shared
        .table
        .shared
        .fetch_max::<QuietStep<P, J>>(&mut pass.seat, index as usize, by)
}

/// A load, whose caller sets afterwards what the pass has at run time.
pub(crate) fn load_alone<P: Protocol, J: Transition, L: Ledger, T>(
    shared: &Shared<P>,
    seat: &mut Seat<Tag, Knowledge>,
    index: u32,
    about: &T,
    steps: &mut Steps<L>,
) -> u64
    requires of { IsSeatOf P.start P.allowed shared.now seat.old }
    requires domain { J.config ≡ config_of shared.now }
    requires place { IsPlace (config_of shared.now) J.place × (index ≡ cell_of (config_of shared.now) J.place) }
    requires rule { Loads P.start P.allowed (config_of shared.now) (start_of shared.now) seat.old.me.0 J.place (λ n w. J.tells n w × IsKept seat.old.me.0 w) }
    requires moves { LoadsAs P.start P.allowed (config_of shared.now) (start_of shared.now) seat.old.me.0 J.place J.kind J.tells }
    ensures same { (seat.new.table_id ≡ seat.old.table_id) × IsKept seat.old.me.0 seat.new.me.0 }
    ensures known { ∥ Known P.start P.allowed seat.new.me.0 ∥₁ × KnownInDomain (config_of shared.now) seat.new.me.0 }
    ensures taken { seat.new.me.1 ≡ seat.old.me.1 }
    ensures tells { J.tells result seat.new.me.0 }
    ensures step { steps.new ≡ steps.old + 1 }
{
    let _ = about;
    steps.tick();
    shared
        .table
        .shared
        .load::<ToldAlone<P, J>>(seat, index as usize)
}

/// An exchange, whose caller sets afterwards what the pass has at run time.
pub(crate) fn swap_alone<P: Protocol, J: Transition, L: Ledger, T>(
    shared: &Shared<P>,
    seat: &mut Seat<Tag, Knowledge>,
    index: u32,
    old: u64,
    new: u64,
    about: &T,
    steps: &mut Steps<L>,
) -> u64
    requires of { IsSeatOf P.start P.allowed shared.now seat.old }
    requires domain { J.config ≡ config_of shared.now }
    requires place { IsPlace (config_of shared.now) J.place × (index ≡ cell_of (config_of shared.now) J.place) }
    requires rule { Swaps P.start P.allowed (config_of shared.now) (start_of shared.now) seat.old.me.0 J.place old new
        (λ n w. J.tells n w × IsKept seat.old.me.0 w) }
    requires moves { SwapsAs P.start P.allowed (config_of shared.now) (start_of shared.now) seat.old.me.0 J.place J.kind old new J.tells }
    ensures same { (seat.new.table_id ≡ seat.old.table_id) × IsKept seat.old.me.0 seat.new.me.0 }
    ensures known { ∥ Known P.start P.allowed seat.new.me.0 ∥₁ × KnownInDomain (config_of shared.now) seat.new.me.0 }
    ensures taken { seat.new.me.1 ≡ seat.old.me.1 }
    ensures tells { J.tells result seat.new.me.0 }
    ensures step { steps.new ≡ steps.old + 1 }
{
    let _ = about;
    steps.tick();
    shared
        .table
        .shared
        .compare_exchange::<ToldAlone<P, J>>(seat, index as usize, old, new)
}

/// Cuts the seat that comes next from the first one, in the domain whose numbers are `D`'s.
#[tactic(auto, using(crate::proofs::kinds::opening::MakeSeat::seat_splits_in))]
pub(crate) fn split_as<P: Protocol, D: DomainNumbers>(
    shared: &Shared<P>,
    seat: &mut Seat<Tag, Knowledge>,
) -> Seat<Tag, Knowledge>
    requires config { D.config ≡ config_of shared.now }
    requires of { IsSeatOf P.start P.allowed shared.now seat.old }
    requires maker { (0 < seat.old.me.0.made) × (seat.old.me.0.made < (config_of shared.now).seats) }
    ensures maker { (seat.new.table_id ≡ seat.old.table_id) × (seat.new.me.0 ≡ made_one (config_of shared.now) seat.old.me.0)
        × (seat.new.me.1 ≡ seat.old.me.1) }
    ensures made { (result.table_id ≡ seat.old.table_id) × (result.me.0 ≡ newly_made (config_of shared.now) seat.old.me.0) × (result.me.1 ≡ []) }
{
    shared.table.shared.split_seat::<Making<D>>(seat)
}

/// Joins a seat into another, in the domain whose numbers are `D`'s.
pub(crate) fn join_as<P: Protocol, D: DomainNumbers>(
    shared: &Shared<P>,
    seat: &mut Seat<Tag, Knowledge>,
    other: Seat<Tag, Knowledge>,
)
    requires config { D.config ≡ config_of shared.now }
    requires of { IsSeatOf P.start P.allowed shared.now seat.old }
    requires other { IsSeatOf P.start P.allowed shared.now other }
    requires taken { other.me.1 ≡ [] }
    requires may { MayJoin seat.old.me.0 other.me.0 }
    ensures same { seat.new.table_id ≡ seat.old.table_id }
    ensures joined { seat.new.me.0 ≡ joined (config_of shared.now) seat.old.me.0 other.me.0 }
    ensures taken { seat.new.me.1 ≡ seat.old.me.1 }
{
    shared.table.shared.join_seat::<Joining<D>>(seat, other)
}

impl<P: Protocol> Shared<P> {
    /// The domain whose words show this opening state, with its first seat alone.
    pub(crate) fn open(
        alloc: Global,
        config: &Config,
        words: Vec<u64>,
        start: Snapshot<Vec<Words>>,
    ) -> Result<(Shared<P>, Pass<P>), AllocError>
        requires checked { Checked config.now }
        requires sized { length start.value.items ≡ config.now.objects }
        requires lawful { P.start start.value.items }
        requires shows { ShowsOpening config.now start.value.items words.items }
        ensures about { IfOk result (λ r. (config_of r.0 ≡ config.now) × (start_of r.0 ≡ start.value.items)) }
        ensures first { IfOk result (λ r. IsOf r.0 r.1 × (view r.1 ≡ maker_view config.now start.value.items 1)) }
    {
        let about = Opening {
            config: *config,
            start,
        };
        let (table, seat) = Table::of_words(alloc, words.as_slice(), &about)?;
        let shared = Shared {
            config: *config,
            first_head: head_cell(config, 0),
            first_slot: slot_cell(config, 0, 0),
            table,
        };
        let first = Pass {
            number: 0,
            time: 0,
            first: 0,
            seat,
            domain: *config,
            rules: PhantomData,
        };
        Ok((shared, first))
    }

    /// Ends the domain, with the pass of a seat. What comes back are its words, to be read and then
    /// freed. They are those of a state that was reached from the opening by moves, in which the seat
    /// has the very view of its pass, and of which each law of this crate holds. No other pass of the
    /// domain makes a step any more.
    pub fn close(self, pass: Pass<P>) -> Closed<Tag, Global>
        requires of { IsOf self pass }
        ensures counts { (slots_len result.words ≡ cells (config_of self)) × (slots_len result.slots ≡ 0) }
        ensures full { IsFull result.words }
        ensures state { EndsIn P.start P.allowed self pass (slots_items result.words) }
    {
        let Shared {
            config: _,
            first_head: _,
            first_slot: _,
            table,
        } = self;
        let Pass {
            number: _,
            time: _,
            first: _,
            seat,
            domain: _,
            rules: _,
        } = pass;
        table.close_with(seat)
    }
}
