// Tasks over a domain that is as large as what is given.
ghost use Rattle.std.specs.Prelude.{◌≡◌, ℕ, ◌<◌, ◌≤◌, List, length, vec_len, IfOk, IfErr};
ghost use Rattle.domain_run.specs.Numbers.{numbers_for};
ghost use Rattle.domain_run.specs.Runs.{AreReady, IsRun};
ghost use Rattle.mv_history.specs.Meaning as history;
ghost use Rattle.mvrlu.specs.Causes.{Took};
ghost use Rattle.mvrlu.specs.Meant.{whole_of};
ghost use Rattle.mvrlu.specs.Opened.{Refuses, new_seat};

use domain_run::{Task, config_of, run};
use mv_history::{Protocol, Words};
use mvrlu::{Closing, OpenFault};
use std::alloc::Global;
use std::sync::Wait;
use std::thread::Threads;

/// Opens a domain with this opening state, in which a section may hold `write_max` objects, runs each task on a seat of
/// its own, in a thread of its own, and lets all seats meet: `domain_run::run` with the numbers that this gives.
///
/// - `Config(Seats)` where there is no task.
/// - `Memory` where there is no memory for the domain or the run. No task was begun, and all come back as they were.
pub fn run_over<R: Threads + Wait + Sync, P: Protocol + Send + Sync, T: Task<P> + Send>(
    rt: &R,
    alloc: Global,
    write_max: u32,
    start: &[Words],
    tasks: Vec<T>,
) -> Result<(Closing<P>, Vec<T>), (Vec<T>, OpenFault)>
    requires few { vec_len tasks ≤ 64 }
    requires some { 0 < length start.now }
    requires objects { length start.now ≤ 16777216 }
    requires holds { 0 < write_max }
    requires most { write_max ≤ 64 }
    requires lawful { P.start start.now }
    requires ready { (home : List ℕ) → AreReady T.ready (new_seat home (numbers_for (vec_len tasks) (length start.now) write_max) start.now) tasks.items }
    ensures ran { IfOk result (λ done. (home : List ℕ) × (met : List history.Seat)
        × IsRun (T.did Took) P.allowed home (numbers_for (vec_len tasks) (length start.now) write_max) start.now tasks.items done.1.items met
        (whole_of done.0)) }
    ensures refused { IfErr result (λ back. Refuses (numbers_for (vec_len tasks) (length start.now) write_max) back.1 × (back.0 ≡ tasks)) }
{
    let config = config_of(tasks.len() as u32, start.len() as u32, write_max);
    run::<R, P, T>(rt, alloc, config, start, tasks)
}
