// A new domain, with its clients.
ghost use Rattle.std.specs.Prelude.{◌≡◌, All, IfOk};
ghost use Rattle.mv_layout.specs.Limits.{Checked};
ghost use Rattle.mv_core.specs.Passes.{config_of};
ghost use Rattle.runtime_tests.specs.Clients.{AreReady};

use crate::clients::{Client, Stage, UnderWay};
use mv_core::Shared;
use mv_history::AnyRules;
use mv_layout::Config;
use seat_log::new_log;
use std::alloc::{AllocError, Global};

// A new domain of these numbers whose objects are all zeros, with a client for each seat.
pub(crate) fn open(
    alloc: Global,
    config: &Config,
) -> Result<(Shared<AnyRules>, Vec<Client>), AllocError>
    requires checked { Checked config.now }
    ensures ready { IfOk result (λ r. AreReady r.0 r.1.items) }
{
    let start = vec![in alloc; [0; 6]; config.objects as usize]?;
    let (shared, mut passes) = Shared::<AnyRules>::new(alloc, config, start.as_slice())?;
    let mut clients = Vec::new(alloc);
    while let Some(pass) = passes.pop() {
        let log = new_log(alloc, config, pass.seat())?;
        let client = Client {
            pass,
            log,
            stage: Stage::Outside,
            under_way: UnderWay::Nothing,
        };
        clients.insert(0, client)?;
    }
    Ok((shared, clients))
}
