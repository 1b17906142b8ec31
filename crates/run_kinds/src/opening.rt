// Opening the domain of a run, and what becomes of it where memory is wanting.
ghost use Rattle.std.specs.Prelude.{◌≡◌, ◌≤◌, ◌*◌, IfErr, IfOk, Ok, replicate};
ghost use Rattle.set_model.specs.Objects.{no_words};
ghost use Rattle.mvrlu.specs.Opened.{IsOpened};
ghost use Rattle.mvrlu.specs.Meeting.{AreAll};
ghost use Rattle.run_words.specs.Words.{FitOptions};
ghost use Rattle.run_kinds.specs.Kinds.{config_of};

use mv_history::Protocol;
use mv_layout::Config;
use mvrlu::{Domain, OpenFault, Seat, open_zeros};
use run_words::Options;
use std::alloc::{AllocError, Global};

/// The numbers of the domain of a run that has no options.
pub const USUAL: Options = Options {
    objects: 4096,
    slots: 1024,
    base: 0,
};

/// How many objects a command of the sets may hold.
pub const WRITE_MAX: u32 = 16;

/// Opens a domain of these numbers, with so many seats, each of which may hold so many objects, at most half as many as its log
/// has slots. All objects are zero. The error is want of memory.
pub fn open_run<P: Protocol>(
    alloc: Global,
    options: Options,
    write_max: u32,
    seats: u32,
) -> Result<(Domain<P>, Vec<Seat<P>>), AllocError>
    requires fit { FitOptions options }
    requires held { (1 ≤ write_max) × (write_max ≤ 64) × (write_max * 2 ≤ options.slots) }
    requires some { 1 ≤ seats }
    requires few { seats ≤ 64 }
    requires lawful { P.start (replicate options.objects no_words) }
    ensures { IfOk result (λ r. IsOpened (config_of options write_max seats) (replicate options.objects no_words) r.0 r.1.items) }
{
    match open_zeros(alloc, config(options, write_max, seats)) {
        Ok(opened) => Ok(opened),
        Err(OpenFault::Memory) => Err(AllocError),
        Err(OpenFault::Config(_)) => unreachable!(),
    }
}

// The numbers of a domain with so many seats, each of which may hold so many objects, at most 64.
fn config(options: Options, write_max: u32, seats: u32) -> Config
    requires fit { FitOptions options }
    requires few { write_max ≤ 64 }
    ensures { result ≡ config_of options write_max seats }
{
    Config {
        seats,
        objects: options.objects,
        slots: options.slots,
        write_max,
        low: options.slots / 2,
        high: options.slots - write_max,
        base: options.base,
    }
}

/// What a run over a domain gave. Where memory was wanting, the domain and its seats come back; seats can't be let go, so
/// they meet.
pub fn ran_or_met<P: Protocol, T>(
    ran: Result<T, (Domain<P>, Vec<Seat<P>>, AllocError)>,
) -> Result<T, AllocError>
    requires all { IfErr ran (λ refused. AreAll refused.0 refused.1.items) }
    ensures { IfOk result (λ done. ran ≡ Ok done) }
{
    match ran {
        Ok(done) => Ok(done),
        Err((domain, seats, error)) => {
            let _ = domain.meet(seats);
            Err(error)
        }
    }
}
