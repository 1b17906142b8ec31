// New domains of a growing hash set, with the numbers of the program.
ghost use Rattle.std.specs.Prelude.{◌≡◌, ◌<◌, IfOk, replicate};
ghost use Rattle.mvrlu.specs.Opened.{IsOpened};
ghost use Rattle.set_model.specs.Objects.{no_words};

use grow_hash::{GROW_LEVELS, GrowRules};
use mv_layout::Config;
use mvrlu::{Domain, OpenFault, Seat, open_zeros};
use std::alloc::{AllocError, Global};
use std::test::Fail;

// One seat of a domain of so many objects, whose times begin at this one.
pub(crate) fn numbers(objects: u32, base: u64) -> Config
    ensures one { result.seats ≡ 1 }
    ensures objects { result.objects ≡ objects }
    ensures most { result.write_max ≡ 64 }
{
    Config {
        seats: 1,
        objects,
        slots: 1024,
        write_max: 64,
        low: 512,
        high: 960,
        base,
    }
}

// A domain of an empty set, of these numbers.
pub(crate) fn open_grown(
    alloc: Global,
    config: Config,
) -> Result<
    (
        Domain<GrowRules<GROW_LEVELS>>,
        Vec<Seat<GrowRules<GROW_LEVELS>>>,
    ),
    Fail,
>
    requires some { 1025 < config.objects }
    requires few { config.objects < 65536 }
    ensures { IfOk result (λ r. IsOpened config (replicate config.objects no_words) r.0 r.1.items) }
{
    match open_zeros(alloc, config) {
        Ok(opened) => Ok(opened),
        Err(OpenFault::Memory) => Err(AllocError.into()),
        Err(OpenFault::Config(_)) => Err(Fail::new("the numbers are in range")),
    }
}
