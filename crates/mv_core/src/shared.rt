//! The shared words of a domain, and what a thread steps with. The table is private to this module: the
//! functions of `accesses` alone access its words.
ghost use Rattle.std.specs.Prelude.{◌≡◌, ◌<◌, [], length};
ghost use Rattle.mv_layout.specs.Limits.{Checked};
ghost use Rattle.mv_layout.specs.Cells.{cells, cell_of};
ghost use Rattle.mv_layout.specs.declared.SharedWord.TheVariants.{Head, First};
ghost use Rattle.mv_core.specs.Known.{Known, KnownInDomain, IsTimed, IsBegun};

use crate::view::Knowledge;
use atomic_table::{Seat, Table, TableRule};
use mv_history::{Protocol, Tag, Words};
use mv_layout::Config;
use std::alloc::Global;
use std::marker::PhantomData;
use std::snapshot::Snapshot;

mod accesses;

pub(crate) use accesses::{
    join_as, load_alone, load_as, raise_as, split_as, store_as, swap_alone, swap_as,
};

/// What the rule is told once: the numbers of the domain, and the opening state.
#[derive(Drop)]
pub struct Opening {
    pub config: Config,
    pub start: Snapshot<Vec<Words>>,
}

/// The rule of the table of a domain under these client rules.
pub struct Core<P> {
    protocol: PhantomData<P>,
}

impl<P: Protocol> TableRule<Tag, Knowledge, Opening> for Core<P> {
    ghost use Rattle.mv_core.specs.Rule.{Ruled, first_view};

    ghost holds = { λ key s. Ruled P.start P.allowed key s };

    ghost first = { λ key. first_view key.config key.start.value.items };
}

/// The shared words of a domain. It owns its memory.
#[derive(Drop)]
pub struct Shared<P: Protocol> {
    pub(crate) config: Config,
    // The cell of HEAD of object 0, and that at which slot 0 of seat 0 begins.
    pub(crate) first_head: u32,
    pub(crate) first_slot: u32,
    table: Table<Tag, Knowledge, Opening, Core<P>, Global>,
    pub ghost checked: { Checked config },
    pub ghost placed: { (first_head ≡ cell_of config (Head 0)) × (first_slot ≡ cell_of config (First 0 0)) },
    pub ghost sized: { (table.shared.table_id.words ≡ cells config) × (table.shared.table_id.slots ≡ 0) },
    pub ghost about: { table.shared.key.config ≡ config },
    pub ghost opening: { length table.shared.key.start.value.items ≡ config.objects },
}

/// A seat of a domain with its view. At run time it has its number, its section's time, the position
/// of its write set's first version, and the numbers of its domain: clauses say by them which words
/// are its own. (They are no snapshot, since a pass may go to another thread.)
#[derive(Drop)]
pub struct Pass<P: Protocol> {
    pub(crate) number: u32,
    pub(crate) time: u64,
    pub(crate) first: u64,
    pub(crate) seat: Seat<Tag, Knowledge>,
    pub(crate) domain: Config,
    pub(crate) rules: PhantomData<P>,
    pub ghost numbered: { number ≡ seat.me.0.number },
    pub ghost timed: { IsTimed time seat.me.0 },
    pub ghost begun: { IsBegun first seat.me.0 },
    pub ghost known: { ∥ Known P.start P.allowed seat.me.0 ∥₁ },
    pub ghost in_domain: { KnownInDomain domain seat.me.0 },
    // The table has no slots of its own, so no seat has one.
    pub ghost taken: { seat.me.1 ≡ [] },
}
