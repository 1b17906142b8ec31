// Opening a domain, with a seat for each thread.
ghost use Rattle.std.specs.Prelude.{◌≡◌, ◌+◌, ◌≤◌, [], length, IfOk, IfErr, vec_len, vec_capacity};
ghost use Rattle.mv_layout.specs.Limits.{Checked};
ghost use Rattle.object_lock.specs.mv_core.Passes.{IsOf, AreNew, config_of, start_of};
ghost use Rattle.object_lock.specs.mv_core.Start.{zero_state};
ghost use Rattle.mvrlu.specs.Opened.{IsNewSeatOf, IsOpened, Refuses};
ghost use Rattle.mvrlu.specs.Readiness.{IsReady, AreReady, AreSeats};

use crate::domain::{Domain, Seat};
use crate::places::{Idle, SeatState};
use mv_history::{Protocol, Words};
use mv_layout::{Config, ConfigFault};
use object_lock::mv_core::{Pass, Shared};
use object_lock::seat_log::new_log;
use std::alloc::{AllocError, Global};
use std::boxed::Box;

/// Why a domain can't be opened. Nothing is left of it.
#[derive(Clone, Copy, Debug, PartialEq, Eq)]
pub enum OpenFault {
    /// A number of the config is out of its range: the first fault that `Config::check` finds.
    Config(ConfigFault),
    /// There is no memory for it.
    Memory,
}

// A seat's pass and its log, in the block that the seat hands on.
#[derive(Drop)]
struct Ready<P: Protocol> {
    place: Box<SeatState<P>>,
}

// These passes with a log each, from the last one on.
fn with_logs<P: Protocol>(
    shared: &Shared<P>,
    alloc: Global,
    mut passes: Vec<Pass<P>>,
) -> Result<Vec<Ready<P>>, AllocError>
    requires count { vec_len passes ≡ (config_of shared.now).seats }
    requires new { AreNew shared.now passes.items }
    ensures count { IfOk result (λ r. vec_len r ≡ (config_of shared.now).seats) }
    ensures ready { IfOk result (λ r. AreReady shared.now r.items) }
{
    let mut ready = Vec::new(alloc);
    while let Some(pass) = passes.pop() {
        let log = new_log(alloc, shared.config(), pass.seat())?;
        let place = Box::new(alloc, SeatState { pass, log })?;
        ready.push(Ready { place })?;
    }
    Ok(ready)
}

// A seat of these.
fn make_seat<P: Protocol>(shared: &Shared<P>, ready: Ready<P>) -> Seat<P>
    requires ready { IsReady shared.now ready.place.value.pass.number ready }
    ensures new { IsNewSeatOf shared.now ready.place.value.pass.number result }
{
    let Ready { place } = ready;
    let idle = Idle { place };
    Seat { idle }
}

// The seats of these, in order of number, in a row that has room for them.
fn make_seats<P: Protocol>(
    shared: &Shared<P>,
    mut ready: Vec<Ready<P>>,
    mut seats: Vec<Seat<P>>,
) -> Vec<Seat<P>>
    requires count { vec_len ready ≡ (config_of shared.now).seats }
    requires ready { AreReady shared.now ready.items }
    requires empty { seats.items ≡ [] }
    requires room { vec_len ready ≤ vec_capacity seats }
    ensures count { vec_len result ≡ (config_of shared.now).seats }
    ensures seats { AreSeats shared.now result.items }
{
    while let Some(last) = ready.pop() {
        seats.push_reserved(make_seat(shared, last));
    }
    seats
}

// The domain of these shared words, with its seats.
fn with_seats<P: Protocol>(
    alloc: Global,
    made: (Shared<P>, Vec<Pass<P>>),
) -> Result<(Domain<P>, Vec<Seat<P>>), AllocError>
    requires count { vec_len made.1 ≡ (config_of made.0).seats }
    requires new { AreNew made.0 made.1.items }
    ensures opened { IfOk result (λ r. IsOpened (config_of made.0) (start_of made.0) r.0 r.1.items) }
{
    let (shared, passes) = made;
    let ready = with_logs(&shared, alloc, passes)?;
    let room = Vec::with_capacity(alloc, ready.len())?;
    // A row of seats can't be let go, so nothing is refused from here on.
    let seats = Vec::with_capacity(alloc, ready.len())?;
    let seats = make_seats(&shared, ready, seats);
    Ok((Domain { shared, room }, seats))
}

// Opens a domain of numbers that are in range.
fn open_shared<P: Protocol>(
    alloc: Global,
    config: &Config,
    start: &[Words],
) -> Result<(Domain<P>, Vec<Seat<P>>), AllocError>
    requires checked { Checked config.now }
    requires sized { length start.now ≡ config.now.objects }
    requires lawful { P.start start.now }
    ensures opened { IfOk result (λ r. IsOpened config.now start.now r.0 r.1.items) }
{
    with_seats(alloc, Shared::new(alloc, config, start)?)
}

// The same, where all words of all objects are 0.
fn open_zeroed<P: Protocol>(
    alloc: Global,
    config: &Config,
) -> Result<(Domain<P>, Vec<Seat<P>>), AllocError>
    requires checked { Checked config.now }
    requires lawful { P.start (zero_state config.now.objects) }
    ensures opened { IfOk result (λ r. IsOpened config.now (zero_state config.now.objects) r.0 r.1.items) }
{
    with_seats(alloc, Shared::new_zeros(alloc, config)?)
}

/// Opens a domain of these numbers with this opening state, of which each object has its words, and
/// gives its seats in order of number. No seat has seen or made an entry, and their logs are empty.
/// Each thread that works on the domain takes one of them.
///
/// - `Config` exactly where a number is out of its range; it is the fault that `Config::check` answers.
/// - `Memory` is want of memory, and comes only where all numbers are in range.
pub fn open<P: Protocol>(
    alloc: Global,
    config: Config,
    start: &[Words],
) -> Result<(Domain<P>, Vec<Seat<P>>), OpenFault>
    requires sized { length start.now ≡ config.objects }
    requires lawful { P.start start.now }
    ensures opened { IfOk result (λ r. Checked config × IsOpened config start.now r.0 r.1.items) }
    ensures refused { IfErr result (λ fault. Refuses config fault) }
{
    if let Err(fault) = config.check() {
        return Err(OpenFault::Config(fault));
    }
    match open_shared(alloc, &config, start) {
        Ok(domain_and_seats) => Ok(domain_and_seats),
        Err(AllocError) => Err(OpenFault::Memory),
    }
}

/// Opens a domain of these numbers whose opening state is zero: each of its objects has six words of 0.
/// It is `open` for that state, and takes no list of it.
///
/// - `Config` exactly where a number is out of its range; it is the fault that `Config::check` answers.
/// - `Memory` is want of memory, and comes only where all numbers are in range.
pub fn open_zeros<P: Protocol>(
    alloc: Global,
    config: Config,
) -> Result<(Domain<P>, Vec<Seat<P>>), OpenFault>
    requires lawful { P.start (zero_state config.objects) }
    ensures opened { IfOk result (λ r. Checked config × IsOpened config (zero_state config.objects) r.0 r.1.items) }
    ensures refused { IfErr result (λ fault. Refuses config fault) }
{
    if let Err(fault) = config.check() {
        return Err(OpenFault::Config(fault));
    }
    match open_zeroed(alloc, &config) {
        Ok(opened) => Ok(opened),
        Err(AllocError) => Err(OpenFault::Memory),
    }
}
