// A run over a domain.
ghost use Rattle.std.specs.Prelude.{◌≡◌, ℕ, List, length, map, IfOk, IfErr};
ghost use Rattle.domain_loan.specs.Met.{AllContinue};
ghost use Rattle.domain_loan.specs.New.{fresh, AreNewFrom};
ghost use Rattle.domain_run.specs.Runs.{AllDid, AreReady, IsRun};
ghost use Rattle.mv_history.specs.Meaning as history;
ghost use Rattle.mvrlu.specs.Causes.{Took};
ghost use Rattle.mvrlu.specs.Meant.{numbers_of, name_of, opening_of, seat_of, whole_of};
ghost use Rattle.mvrlu.specs.Opened.{Refuses, new_seat};

use crate::task::Task;
use crate::workers::run_each;
use domain_loan::{lend_all, meet_all, take_back};
use mv_history::{Protocol, Words};
use mv_layout::Config;
use mvrlu::{Closing, Domain, OpenFault, Seat, open};
use std::alloc::Global;
use std::sync::Wait;
use std::thread::Threads;

/// Opens a domain of these numbers with this opening state, runs each task on the seat of its place, in a thread of its
/// own, and lets all seats meet. It answers the closing of the domain, and the tasks in their order, each as its run left it.
///
/// The closing's history is legal, and allowed by the rules from the opening state. Each task ran once, on a seat that was
/// new, whose number is the task's place; what that seat saw is a beginning of the history, and what it committed is what
/// the history has by its number. Nobody else made an entry. Where a thread can't be started, this thread does its work.
///
/// - `Config` exactly where a number is out of its range, and `Memory` where there is no memory for the domain or the run.
///   No task was begun, and all come back as they were.
pub fn run<R: Threads + Wait + Sync, P: Protocol + Send + Sync, T: Task<P> + Send>(
    rt: &R,
    alloc: Global,
    config: Config,
    start: &[Words],
    tasks: Vec<T>,
) -> Result<(Closing<P>, Vec<T>), (Vec<T>, OpenFault)>
    requires sized { length start.now ≡ config.objects }
    requires lawful { P.start start.now }
    requires many { length tasks.items ≡ config.seats }
    requires ready { (home : List ℕ) → AreReady T.ready (new_seat home config start.now) tasks.items }
    ensures ran { IfOk result (λ done. (home : List ℕ) × (met : List history.Seat)
        × IsRun (T.did Took) P.allowed home config start.now tasks.items done.1.items met (whole_of done.0)) }
    ensures refused { IfErr result (λ back. Refuses config back.1 × (back.0 ≡ tasks)) }
{
    let (domain, seats) = match open::<P>(alloc, config, start) {
        Ok(opened) => opened,
        Err(fault) => return Err((tasks, fault)),
    };
    match run_on(rt, alloc, domain, seats, tasks) {
        Ok(done) => Ok(done),
        Err((domain, seats, tasks)) => {
            let _ = domain.meet(seats);
            Err((tasks, OpenFault::Memory))
        }
    }
}

/// Runs each task on the seat of its place, in a thread of its own, and lets all seats meet. It needs all seats of the
/// domain as `open` gave them, in order of number, and a task for each.
///
/// It answers the closing of the domain, which has the tables of the seats' logs, and the tasks in their order, each as its
/// run left it. What holds of them is as said of [`run`].
///
/// The error is want of memory. It comes before any task is begun, and hands back the domain, its seats and the tasks as
/// they were.
pub fn run_on<R: Threads + Wait + Sync, P: Protocol + Send + Sync, T: Task<P> + Send>(
    rt: &R,
    alloc: Global,
    domain: Domain<P>,
    seats: Vec<Seat<P>>,
    tasks: Vec<T>,
) -> Result<(Closing<P>, Vec<T>), (Domain<P>, Vec<Seat<P>>, Vec<T>)>
    requires new { AreNewFrom domain 0 (map seat_of seats.items) }
    requires all { length seats.items ≡ (numbers_of domain).seats }
    requires as_many { length tasks.items ≡ length seats.items }
    requires ready { AreReady T.ready (fresh domain) tasks.items }
    ensures ran { IfOk result (λ done. (met : List history.Seat)
        × IsRun (T.did Took) P.allowed (name_of domain) (numbers_of domain) (opening_of domain) tasks.items done.1.items met (whole_of done.0)) }
    ensures refused { IfErr result (λ back. (back.0 ≡ domain) × (back.1 ≡ seats) × (back.2 ≡ tasks)) }
{
    match run_lent(rt, alloc, &domain, seats, tasks) {
        Ok((seats, tasks)) => Ok((meet_all(domain, seats), tasks)),
        Err((seats, tasks)) => Err((domain, seats, tasks)),
    }
}

// The same, up to the meeting.
fn run_lent<R: Threads + Wait + Sync, P: Protocol + Send + Sync, T: Task<P> + Send>(
    rt: &R,
    alloc: Global,
    domain: &Domain<P>,
    seats: Vec<Seat<P>>,
    tasks: Vec<T>,
) -> Result<(Vec<Seat<P>>, Vec<T>), (Vec<Seat<P>>, Vec<T>)>
    requires new { AreNewFrom domain.now 0 (map seat_of seats.items) }
    requires as_many { length tasks.items ≡ length seats.items }
    requires ready { AreReady T.ready (fresh domain.now) tasks.items }
    ensures gone_on { IfOk result (λ done. AllContinue (map seat_of seats.items) (map seat_of done.0.items)) }
    ensures did { IfOk result (λ done.
        AllDid (T.did Took) (map seat_of seats.items) (map seat_of done.0.items) tasks.items done.1.items) }
    ensures refused { IfErr result (λ back. (back.0 ≡ seats) × (back.1 ≡ tasks)) }
{
    let Ok(workers) = Vec::with_capacity(alloc, seats.len()) else {
        return Err((seats, tasks));
    };
    let (handles, left) = match lend_all(alloc, domain, seats) {
        Ok(lent) => lent,
        Err((seats, _)) => {
            workers.destroy_empty();
            return Err((seats, tasks));
        }
    };
    let (handles, tasks) = run_each(rt, handles, tasks, workers);
    Ok((take_back(handles, left), tasks))
}
