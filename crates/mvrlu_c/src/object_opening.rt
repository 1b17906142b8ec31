// Opening a domain of objects.
ghost use Rattle.std.specs.Prelude.{◌≡◌};
ghost use Rattle.mvrlu_c.specs.ObjectOpening.{Opens, OpensAs, config_of};

use crate::object_handle::MvrluSeat;
use crate::opening::{MOST_SEATS, any_is_open, give_seats};
use c_answers::Status;
use mv_layout::Config;
use mvrlu::OpenFault;
use object_seats::open_seats;
use std::alloc::{AllocError, Global};

/// The numbers of a domain that a caller chooses.
#[repr(C)]
#[derive(Clone, Copy)]
pub struct MvrluOptions {
    /// How many bytes the caller's options have: 24.
    pub size: u32,
    /// How many objects, 1 to 16,777,216.
    pub objects: u32,
    /// How many slots the log of each seat has, 64 to 4,096.
    pub slots: u32,
    /// How many objects one section may lock, 1 to 64, and less than the slots.
    pub write_max: u32,
    /// The time of the opening state, 0 to `2^45 - 1`.
    pub opening_time: u64,
}

const SIZE: u32 = 24;

/// Opens a domain of objects that are all 0, with a seat for each handle, in order of number: all of them
/// or none. All handles have to be closed.
#[unsafe(no_mangle)]
pub extern "C" fn mvrlu_raw_open(
    alloc: Global,
    options: &MvrluOptions,
    handles: &mut [MvrluSeat],
) -> i32
    ensures { Opens options.now handles.old handles.new result }
{
    open_all(alloc, options, handles).code()
}

fn open_all(alloc: Global, options: &MvrluOptions, handles: &mut [MvrluSeat]) -> Status
    ensures { OpensAs options.now handles.old handles.new result }
{
    if any_is_open(alloc, handles) {
        return Status::InUse;
    }
    if options.size != SIZE || handles.len() > MOST_SEATS {
        return Status::BadNumber;
    }
    let seats = match open_seats(alloc, numbers(options, handles.len() as u32)) {
        Ok(seats) => seats,
        Err(OpenFault::Config(_)) => return Status::BadNumber,
        Err(OpenFault::Memory) => return Status::NoMemory,
    };
    match give_seats(alloc, handles, seats) {
        Ok(()) => Status::Done,
        Err(AllocError) => Status::NoMemory,
    }
}

// The numbers of the domain.
fn numbers(options: &MvrluOptions, seats: u32) -> Config
    ensures { result ≡ config_of options.now seats }
{
    let high = options.slots.saturating_sub(options.write_max);
    Config {
        seats,
        objects: options.objects,
        slots: options.slots,
        write_max: options.write_max,
        low: (high / 2).max(1),
        high,
        base: options.opening_time,
    }
}
