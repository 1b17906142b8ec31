// Opening a domain of a growing set.
ghost use Rattle.std.specs.Prelude.{◌≡◌};
ghost use Rattle.mvrlu_c.specs.TableOpening.{Opens, OpensAs, grown_of};

use crate::opening::{MOST_SEATS, any_is_open, give_seats};
use crate::table_handle::MvrluTable;
use c_answers::Status;
use grow_seats::{GrownFault, OpenGrown, open_grow_seats};
use std::alloc::{AllocError, Global};

/// The numbers of a domain of a growing set that a caller chooses.
#[repr(C)]
#[derive(Clone, Copy)]
pub struct MvrluTableOptions {
    /// How many bytes the caller's options have: 24.
    pub size: u32,
    /// How many objects, 1,048,578 to 16,777,216.
    pub objects: u32,
    /// How many slots the log of each seat has, 65 to 4,096.
    pub slots: u32,
    /// The time of the opening state, 0 to `2^45 - 1`.
    pub opening_time: u64,
}

const SIZE: u32 = 24;

/// Opens a domain of a growing set, empty and of 16 buckets, with a seat for each handle, in order of number: all of
/// them or none. All handles have to be closed.
#[unsafe(no_mangle)]
pub extern "C" fn mvrlu_raw_table_open(
    alloc: Global,
    options: &MvrluTableOptions,
    handles: &mut [MvrluTable],
) -> i32
    ensures { Opens options.now handles.old handles.new result }
{
    open_all(alloc, options, handles).code()
}

fn open_all(alloc: Global, options: &MvrluTableOptions, handles: &mut [MvrluTable]) -> Status
    ensures { OpensAs options.now handles.old handles.new result }
{
    if any_is_open(alloc, handles) {
        return Status::InUse;
    }
    if options.size != SIZE || handles.len() > MOST_SEATS {
        return Status::BadNumber;
    }
    let seats = match open_grow_seats(alloc, numbers(options, handles.len() as u32)) {
        Ok(seats) => seats,
        Err(GrownFault::Objects | GrownFault::Config(_)) => return Status::BadNumber,
        Err(GrownFault::Memory) => return Status::NoMemory,
    };
    match give_seats(alloc, handles, seats) {
        Ok(()) => Status::Done,
        Err(AllocError) => Status::NoMemory,
    }
}

// The numbers of the domain.
fn numbers(options: &MvrluTableOptions, seats: u32) -> OpenGrown
    ensures { result ≡ grown_of options.now seats }
{
    OpenGrown {
        seats,
        objects: options.objects,
        slots: options.slots,
        opening_time: options.opening_time,
    }
}
