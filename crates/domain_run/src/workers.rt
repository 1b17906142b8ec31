// A task for each store, and the threads in which they run.
ghost use Rattle.std.specs.Prelude.{◌≡◌, ◌≤◌, [], length, map, All, vec_capacity};
ghost use Rattle.std.specs.List.{AllZip};
ghost use Rattle.domain_loan.specs.Met.{AllContinue};
ghost use Rattle.domain_run.specs.Runs.{AllDid, HasRun};

use crate::task::Task;
use core::mem::replace_with;
use mv_history::{Protocol, Store};
use std::sync::Wait;
use std::thread;
use std::thread::Threads;

// A task with its store.
pub(crate) struct StoreTask<S, T> {
    pub(crate) store: S,
    pub(crate) task: T,
}

// Runs each task with the store of its place, in a thread of its own. There is room for the workers.
pub(crate) fn run_each<
    R: Threads + Wait + Sync,
    P: Protocol + Send + Sync,
    S: Store<Rules = P> + Send,
    T: Task<P> + Send,
>(
    rt: &R,
    mut stores: Vec<S>,
    mut tasks: Vec<T>,
    mut workers: Vec<StoreTask<S, T>>,
) -> (Vec<S>, Vec<T>)
where
    S::Open: Send,
    requires empty { workers.items ≡ [] }
    requires room { length stores.items ≤ vec_capacity workers }
    requires ready { AllZip T.ready (map S.seat_of stores.items) tasks.items }
    ensures gone_on { AllContinue (map S.seat_of stores.items) (map S.seat_of result.0.items) }
    ensures did { AllDid (T.did S.took) (map S.seat_of stores.items) (map S.seat_of result.0.items) tasks.items result.1.items }
{
    pair_up(&mut stores, &mut tasks, &mut workers);
    run_all(rt, workers.as_mut_slice());
    part(workers, &mut stores, &mut tasks);
    (stores, tasks)
}

// Each task with the store of its place. There is room for the workers.
fn pair_up<S, T>(stores: &mut Vec<S>, tasks: &mut Vec<T>, workers: &mut Vec<StoreTask<S, T>>)
    requires as_many { length tasks.old.items ≡ length stores.old.items }
    requires empty { workers.old.items ≡ [] }
    requires room { length stores.old.items ≤ vec_capacity workers.old }
    ensures stores { map (λ w. w.store) workers.new.items ≡ stores.old.items }
    ensures tasks { map (λ w. w.task) workers.new.items ≡ tasks.old.items }
    ensures taken { (stores.new.items ≡ []) × (tasks.new.items ≡ []) }
    ensures capacities { (vec_capacity stores.new ≡ vec_capacity stores.old) × (vec_capacity tasks.new ≡ vec_capacity tasks.old) }
{
    while !stores.is_empty() {
        workers.push_reserved(StoreTask {
            store: stores.remove(0),
            task: tasks.remove(0),
        });
    }
}

// The stores and the tasks of the workers, in order. There is room for them.
fn part<S, T>(mut workers: Vec<StoreTask<S, T>>, stores: &mut Vec<S>, tasks: &mut Vec<T>)
    requires empty { (stores.old.items ≡ []) × (tasks.old.items ≡ []) }
    requires stores { length workers.items ≤ vec_capacity stores.old }
    requires tasks { length workers.items ≤ vec_capacity tasks.old }
    ensures stores { stores.new.items ≡ map (λ w. w.store) workers.items }
    ensures tasks { tasks.new.items ≡ map (λ w. w.task) workers.items }
{
    while !workers.is_empty() {
        let StoreTask { store, task } = workers.remove(0);
        stores.push_reserved(store);
        tasks.push_reserved(task);
    }
    workers.destroy_empty();
}

// Each runs in a thread of its own.
fn run_all<
    R: Threads + Wait + Sync,
    P: Protocol + Send + Sync,
    S: Store<Rules = P> + Send,
    T: Task<P> + Send,
>(rt: &R, workers: &mut [StoreTask<S, T>])
where
    S::Open: Send,
    requires { All (λ w. T.ready (S.seat_of w.store) w.task) workers.old }
    ensures { AllZip (λ o n. HasRun (T.did S.took) (S.seat_of o.store) (S.seat_of n.store) o.task n.task) workers.old workers.new }
{
    let threads = workers.len().max(1);
    thread::for_each_mut(
        rt,
        workers,
        threads,
        &|_, worker: &mut StoreTask<S, T>|
            requires { T.ready (S.seat_of worker.old.store) worker.old.task }
            ensures { HasRun (T.did S.took) (S.seat_of worker.old.store) (S.seat_of worker.new.store) worker.old.task worker.new.task }
        { run_in_place(rt, worker) },
    );
}

// A store can't be copied or left out, so the worker is taken out of its place and put back.
fn run_in_place<R: Wait, P: Protocol, S: Store<Rules = P>, T: Task<P>>(
    rt: &R,
    worker: &mut StoreTask<S, T>,
)
    requires { T.ready (S.seat_of worker.old.store) worker.old.task }
    ensures { HasRun (T.did S.took) (S.seat_of worker.old.store) (S.seat_of worker.new.store) worker.old.task worker.new.task }
{
    replace_with(
        worker,
        (),
        |worker, _unit|
            requires { T.ready (S.seat_of worker.store) worker.task }
            ensures { HasRun (T.did S.took) (S.seat_of worker.store) (S.seat_of result.0.store) worker.task result.0.task }
        { (ran(rt, worker), ()) },
    )
}

// Runs the task with its store.
fn ran<R: Wait, P: Protocol, S: Store<Rules = P>, T: Task<P>>(
    rt: &R,
    worker: StoreTask<S, T>,
) -> StoreTask<S, T>
    requires { T.ready (S.seat_of worker.store) worker.task }
    ensures { HasRun (T.did S.took) (S.seat_of worker.store) (S.seat_of result.store) worker.task result.task }
{
    let StoreTask { store, task } = worker;
    let (task, store) = task.run(rt, store);
    StoreTask { store, task }
}
