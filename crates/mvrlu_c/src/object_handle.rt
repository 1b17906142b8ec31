// What C holds of a seat.
ghost use Rattle.std.specs.Prelude.{◌≡◌};
ghost use Rattle.crossbeam_utils.specs.declared.cache_padded.CachePadded.{CachePadded as Padded};
ghost use Rattle.object_seats.specs.declared.seat.ObjectSeat.{ObjectSeat};
ghost use Rattle.mvrlu_c.specs.Held.{object_row};

use crate::handle::CHandle;
use crate::loose::Loose;
use crossbeam_utils::CachePadded;
use object_seats::ObjectSeat;
use std::alloc::Global;
use std::marker::Model;

/// A seat in memory that C owns. Zeroed memory is a closed one.
#[repr(C)]
#[derive(Drop)]
pub struct MvrluSeat {
    pub(crate) is_open: bool,
    pub(crate) at: *mut (),
    pub(crate) ghost state: { Padded ObjectSeat } by { object_row.coded },
}

impl Model for MvrluSeat {
    ghost use Rattle.mvrlu_c.specs.Held.{held_if, token, object_row};

    ghost also_owns = { λ h. held_if token object_row h.is_open h.at h.state };
}

impl CHandle for MvrluSeat {
    type Seat = ObjectSeat;

    ghost is_open = { λ h. h.is_open };

    ghost state = { λ h. h.state };

    ghost made = { λ t p x. record { is_open = t; at = p; state = x } };

    fn take_apart(self, alloc: Global) -> (bool, Loose<CachePadded<ObjectSeat>, Global>)
        ensures { (self ≡ record { is_open = result.0; at = result.1.at; state = result.1.value }) × (result.0 ≡ self.is_open)
            × (result.1.is_full ≡ self.is_open) × (result.1.value ≡ self.state) }
    {
        let MvrluSeat { is_open, at } = self;
        let at = at as *mut CachePadded<ObjectSeat>;
        (is_open, Loose { at, alloc })
    }

    fn of(full: bool, block: Loose<CachePadded<ObjectSeat>, Global>) -> MvrluSeat
        requires { block.is_full ≡ full }
        ensures { (result ≡ record { is_open = full; at = block.at; state = block.value }) × (result.is_open ≡ full) × (result.state ≡ block.value) }
    {
        let Loose { at, alloc: _ } = block;
        MvrluSeat {
            is_open: full,
            at: at as *mut (),
        }
    }
}

unsafe impl Send for MvrluSeat {}
