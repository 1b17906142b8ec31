// A run over a domain of the directory.
ghost use Rattle.std.specs.Prelude.{◌≡◌, ℕ, ◌<◌, ◌≤◌, vec_len, All, IfOk, IfErr};
ghost use Rattle.directory.specs.declared.rules.TheConstants.{OBJECTS as objects, SHELVES as shelves};
ghost use Rattle.directory.specs.Ring.{IsDirectory, IsPlaced};
ghost use Rattle.directory_run.specs.Runs.{AsksForUser, EachServed};
ghost use Rattle.domain_run.specs.Numbers.{numbers_for};
ghost use Rattle.mvrlu.specs.Meant.{whole_of};
ghost use Rattle.mvrlu.specs.Opened.{Refuses};
ghost use Rattle.mvrlu.specs.Whole.{last_state};

use crate::clerk::Clerk;
use client_run::run_over;
use directory::{Directory, opening};
use mvrlu::{Closing, OpenFault};
use std::alloc::Global;
use std::sync::Wait;
use std::thread::Threads;

// A move holds three objects.
const WRITE_MAX: u32 = 3;

/// Runs the clerks, each in a thread of its own, over a domain of the directory, and answers the closing, which has the whole
/// history, and the clerks with what they did.
///
/// - `Config(Seats)` where there is no clerk.
/// - `Memory` where there is no memory for the domain or the threads. Nothing was begun, and the clerks come back.
pub fn run_in_domain<R: Threads + Wait + Sync>(
    rt: &R,
    alloc: Global,
    clerks: Vec<Clerk>,
) -> Result<(Closing<Directory>, Vec<Clerk>), (Vec<Clerk>, OpenFault)>
    requires few { vec_len clerks ≤ 64 }
    requires users { All AsksForUser clerks.items }
    ensures each { IfOk result (λ done. EachServed clerks.items done.1.items (whole_of done.0)) }
    ensures directory { IfOk result (λ done. IsDirectory (last_state (whole_of done.0))) }
    ensures last { IfOk result (λ done. (user : ℕ) → shelves ≤ user → user < objects → IsPlaced (last_state (whole_of done.0)) user) }
    ensures refused { IfErr result (λ back. Refuses (numbers_for (vec_len clerks) objects 3) back.1 × (back.0 ≡ clerks)) }
{
    let start = opening();
    run_over::<R, Directory, Clerk>(rt, alloc, WRITE_MAX, &start, clerks)
}
