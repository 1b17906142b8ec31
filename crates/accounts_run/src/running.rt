// A run over a domain of accounts.
ghost use Rattle.std.specs.Prelude.{◌≡◌, ◌*◌, ◌≤◌, length, vec_len, All, IfOk, IfErr};
ghost use Rattle.accounts.specs.Rules.{total};
ghost use Rattle.accounts.specs.declared.rules.TheConstants.{ACCOUNTS as how_many};
ghost use Rattle.accounts_run.specs.Runs.{HasRoom, IsRunOf};
ghost use Rattle.domain_run.specs.Numbers.{numbers_for};
ghost use Rattle.mvrlu.specs.Meant.{whole_of};
ghost use Rattle.mvrlu.specs.Opened.{Refuses};
ghost use Rattle.mvrlu.specs.Whole.{last_state};

use crate::teller::Teller;
use accounts::{ACCOUNTS, Accounts, opening};
use domain_run::{config_of, run};
use mvrlu::{Closing, OpenFault};
use std::alloc::Global;
use std::sync::Wait;
use std::thread::Threads;

// A transfer holds two accounts.
const WRITE_MAX: u32 = 2;

/// Runs the tellers, each in a thread of its own, over a domain of accounts that have this balance each. It answers the
/// closing, which has the whole history, and the tellers with what they did.
///
/// - `Config(Seats)` where there is no teller.
/// - `Memory` where there is no memory for the domain or the threads. Nothing was begun, and the tellers come back.
pub fn run_in_domain<R: Threads + Wait + Sync>(
    rt: &R,
    alloc: Global,
    balance: u32,
    tellers: Vec<Teller>,
) -> Result<(Closing<Accounts>, Vec<Teller>), (Vec<Teller>, OpenFault)>
    requires few { vec_len tellers ≤ 64 }
    requires new { All HasRoom tellers.items }
    ensures run { IfOk result (λ done. IsRunOf (8 * balance) tellers.items done.1.items (whole_of done.0)) }
    ensures last { IfOk result (λ done. let last = last_state (whole_of done.0) in (length last ≡ how_many) × (total last ≡ 8 * balance)) }
    ensures refused { IfErr result (λ back. Refuses (numbers_for (vec_len tellers) how_many 2) back.1 × (back.0 ≡ tellers)) }
{
    let config = config_of(tellers.len() as u32, ACCOUNTS, WRITE_MAX);
    let start = opening(balance);
    run::<R, Accounts, Teller>(rt, alloc, config, &start, tellers)
}
