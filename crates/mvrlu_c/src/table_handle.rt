// What C holds of a seat of a growing set.
ghost use Rattle.std.specs.Prelude.{◌≡◌};
ghost use Rattle.crossbeam_utils.specs.declared.cache_padded.CachePadded.{CachePadded as Padded};
ghost use Rattle.grow_seats.specs.declared.seat.GrowSeat.{GrowSeat};
ghost use Rattle.mvrlu_c.specs.Held.{table_row};

use crate::handle::CHandle;
use crate::loose::Loose;
use crossbeam_utils::CachePadded;
use grow_seats::GrowSeat;
use std::alloc::Global;
use std::marker::Model;

/// A seat of a growing set in memory that C owns. Zeroed memory is a closed one.
#[repr(C)]
#[derive(Drop)]
pub struct MvrluTable {
    pub(crate) is_open: bool,
    pub(crate) at: *mut (),
    pub(crate) ghost state: { Padded GrowSeat } by { table_row.coded },
}

impl Model for MvrluTable {
    ghost use Rattle.mvrlu_c.specs.Held.{held_if, token, table_row};

    ghost also_owns = { λ h. held_if token table_row h.is_open h.at h.state };
}

impl CHandle for MvrluTable {
    type Seat = GrowSeat;

    ghost is_open = { λ h. h.is_open };

    ghost state = { λ h. h.state };

    ghost made = { λ t p x. record { is_open = t; at = p; state = x } };

    fn take_apart(self, alloc: Global) -> (bool, Loose<CachePadded<GrowSeat>, Global>)
        ensures { (self ≡ record { is_open = result.0; at = result.1.at; state = result.1.value }) × (result.0 ≡ self.is_open)
            × (result.1.is_full ≡ self.is_open) × (result.1.value ≡ self.state) }
    {
        let MvrluTable { is_open, at } = self;
        let at = at as *mut CachePadded<GrowSeat>;
        (is_open, Loose { at, alloc })
    }

    fn of(full: bool, block: Loose<CachePadded<GrowSeat>, Global>) -> MvrluTable
        requires { block.is_full ≡ full }
        ensures { (result ≡ record { is_open = full; at = block.at; state = block.value }) × (result.is_open ≡ full) × (result.state ≡ block.value) }
    {
        let Loose { at, alloc: _ } = block;
        MvrluTable {
            is_open: full,
            at: at as *mut (),
        }
    }
}

unsafe impl Send for MvrluTable {}
