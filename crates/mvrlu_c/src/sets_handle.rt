// What C holds of a seat of the sets.
ghost use Rattle.std.specs.Prelude.{◌≡◌};
ghost use Rattle.crossbeam_utils.specs.declared.cache_padded.CachePadded.{CachePadded as Padded};
ghost use Rattle.set_seats.specs.declared.seat.SetSeat.{SetSeat};
ghost use Rattle.mvrlu_c.specs.Held.{sets_row};

use crate::handle::CHandle;
use crate::loose::Loose;
use crossbeam_utils::CachePadded;
use set_seats::SetSeat;
use std::alloc::Global;
use std::marker::Model;

/// A seat of the sets in memory that C owns. Zeroed memory is a closed one.
#[repr(C)]
#[derive(Drop)]
pub struct MvrluSets {
    pub(crate) is_open: bool,
    pub(crate) at: *mut (),
    pub(crate) ghost state: { Padded SetSeat } by { sets_row.coded },
}

impl Model for MvrluSets {
    ghost use Rattle.mvrlu_c.specs.Held.{held_if, token, sets_row};

    ghost also_owns = { λ h. held_if token sets_row h.is_open h.at h.state };
}

impl CHandle for MvrluSets {
    type Seat = SetSeat;

    ghost is_open = { λ h. h.is_open };

    ghost state = { λ h. h.state };

    ghost made = { λ t p x. record { is_open = t; at = p; state = x } };

    fn take_apart(self, alloc: Global) -> (bool, Loose<CachePadded<SetSeat>, Global>)
        ensures { (self ≡ record { is_open = result.0; at = result.1.at; state = result.1.value }) × (result.0 ≡ self.is_open)
            × (result.1.is_full ≡ self.is_open) × (result.1.value ≡ self.state) }
    {
        let MvrluSets { is_open, at } = self;
        let at = at as *mut CachePadded<SetSeat>;
        (is_open, Loose { at, alloc })
    }

    fn of(full: bool, block: Loose<CachePadded<SetSeat>, Global>) -> MvrluSets
        requires { block.is_full ≡ full }
        ensures { (result ≡ record { is_open = full; at = block.at; state = block.value }) × (result.is_open ≡ full) × (result.state ≡ block.value) }
    {
        let Loose { at, alloc: _ } = block;
        MvrluSets {
            is_open: full,
            at: at as *mut (),
        }
    }
}

unsafe impl Send for MvrluSets {}
