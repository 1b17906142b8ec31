// Opening a domain of the sets.
ghost use Rattle.std.specs.Prelude.{◌≡◌};
ghost use Rattle.mvrlu_c.specs.SetsOpening.{Opens, OpensAs, sets_of};

use crate::opening::{MOST_SEATS, any_is_open, give_seats};
use crate::sets_handle::MvrluSets;
use c_answers::Status;
use set_seats::{OpenSets, SetsFault, open_set_seats};
use std::alloc::{AllocError, Global};

/// The numbers of a domain of the sets that a caller chooses.
#[repr(C)]
#[derive(Clone, Copy)]
pub struct MvrluSetsOptions {
    /// How many bytes the caller's options have: 24.
    pub size: u32,
    /// How many objects, 181 to 16,777,216.
    pub objects: u32,
    /// How many slots the log of each seat has, 64 to 4,096.
    pub slots: u32,
    /// The time of the opening state, 0 to `2^45 - 1`.
    pub opening_time: u64,
}

const SIZE: u32 = 24;

/// Opens a domain of the thirty sets, all empty, with a seat for each handle, in order of number: all of them
/// or none. All handles have to be closed.
#[unsafe(no_mangle)]
pub extern "C" fn mvrlu_raw_sets_open(
    alloc: Global,
    options: &MvrluSetsOptions,
    handles: &mut [MvrluSets],
) -> i32
    ensures { Opens options.now handles.old handles.new result }
{
    open_all(alloc, options, handles).code()
}

fn open_all(alloc: Global, options: &MvrluSetsOptions, handles: &mut [MvrluSets]) -> Status
    ensures { OpensAs options.now handles.old handles.new result }
{
    if any_is_open(alloc, handles) {
        return Status::InUse;
    }
    if options.size != SIZE || handles.len() > MOST_SEATS {
        return Status::BadNumber;
    }
    let seats = match open_set_seats(alloc, numbers(options, handles.len() as u32)) {
        Ok(seats) => seats,
        Err(SetsFault::Objects | SetsFault::Config(_)) => return Status::BadNumber,
        Err(SetsFault::Memory) => return Status::NoMemory,
    };
    match give_seats(alloc, handles, seats) {
        Ok(()) => Status::Done,
        Err(AllocError) => Status::NoMemory,
    }
}

// The numbers of the domain.
fn numbers(options: &MvrluSetsOptions, seats: u32) -> OpenSets
    ensures { result ≡ sets_of options.now seats }
{
    OpenSets {
        seats,
        objects: options.objects,
        slots: options.slots,
        opening_time: options.opening_time,
    }
}
