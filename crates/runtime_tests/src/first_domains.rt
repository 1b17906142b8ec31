// A new domain, for what its seats do first.
ghost use Rattle.std.specs.Prelude.{◌≡◌, ◌≤◌, IfOk};
ghost use Rattle.mv_core.specs.EnterSteps.{MayLoadLow};
ghost use Rattle.mv_core.specs.Passes.{view, IsOf, config_of};

use mv_core::{Pass, Shared};
use mv_history::{AnyRules, Words};
use mv_layout::{Config, LAST};
use std::alloc::{AllocError, Global};

// A new domain of two seats and one object with these words.
pub(crate) fn two_seats(
    alloc: Global,
    base: u64,
    words: Words,
) -> Result<(Shared<AnyRules>, Pass<AnyRules>, Pass<AnyRules>), AllocError>
    requires base { base ≤ LAST }
    ensures one { IfOk result (λ r. IsOf r.0 r.1 × MayLoadLow (view r.1)) }
    ensures other { IfOk result (λ r. IsOf r.0 r.2 × MayLoadLow (view r.2)) }
    ensures objects { IfOk result (λ r. (config_of r.0).objects ≡ 1) }
{
    let config = Config {
        seats: 2,
        objects: 1,
        slots: 64,
        write_max: 1,
        low: 1,
        high: 1,
        base,
    };
    let (shared, mut passes) = Shared::<AnyRules>::new(alloc, &config, &[words])?;
    let other = passes.swap_remove(1);
    let one = passes.swap_remove(0);
    Ok((shared, one, other))
}
