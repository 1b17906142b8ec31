// The memory of a run, and the way of the stores and the sources into the workers and back.
ghost use Rattle.std.specs.Prelude.{◌≡◌, ◌≤◌, ◌<◌, ◌∷◌, [], length, map, All, IfOk, vec_capacity};
ghost use Rattle.item_workers.specs.Workers.{IsReady, AreRooms, keeps, stands_at, source_of, answers_of};

use crate::runner::{Answer, Runner};
use crate::source::Source;
use crate::threads::Worker;
use std::alloc::{AllocError, Global};

// What a worker needs beside its store and its source.
#[derive(Drop)]
pub(crate) struct WorkerRoom<M, D> {
    pub(crate) memo: M,
    pub(crate) answers: Vec<Answer<D>>,
}

// All the memory that a run needs.
pub(crate) struct RunRoom<W: Runner, P> {
    pub(crate) rooms: Vec<WorkerRoom<W::Memo, W::Done>>,
    pub(crate) answers: Vec<Vec<Answer<W::Done>>>,
    pub(crate) workers: Vec<Worker<W, P, W::Done>>,
}

// Takes all the memory that a run of these sources needs.
pub(crate) fn make_room<W: Runner, P: Source<W>>(
    alloc: Global,
    sources: &[P],
) -> Result<RunRoom<W, P>, AllocError>
    requires { All P.may sources.now }
    ensures rooms { IfOk result (λ made. AreRooms P.left sources.now made.rooms.items) }
    ensures answers { IfOk result (λ made. (made.answers.items ≡ []) × (length sources.now ≤ vec_capacity made.answers)) }
    ensures workers { IfOk result (λ made. (made.workers.items ≡ []) × (length sources.now ≤ vec_capacity made.workers)) }
{
    let rooms = make_rooms::<W, P>(alloc, sources)?;
    let answers = Vec::with_capacity(alloc, sources.len())?;
    // A row of workers can't be let go, so nothing is refused from here on.
    let workers = Vec::with_capacity(alloc, sources.len())?;
    Ok(RunRoom {
        rooms,
        answers,
        workers,
    })
}

// Takes what the worker of each source needs.
fn make_rooms<W: Runner, P: Source<W>>(
    alloc: Global,
    sources: &[P],
) -> Result<Vec<WorkerRoom<W::Memo, W::Done>>, AllocError>
    requires { All P.may sources.now }
    ensures { IfOk result (λ rooms. AreRooms P.left sources.now rooms.items) }
{
    let mut rooms = Vec::new(alloc);
    for source in sources {
        let memo = W::memo(alloc)?;
        let answers = Vec::with_capacity(alloc, source.most())?;
        rooms.push(WorkerRoom { memo, answers })?;
    }
    Ok(rooms)
}

// Moves the stores and the sources into workers.
pub(crate) fn load<W: Runner, P: Source<W>>(
    stores: &mut Vec<W::Store>,
    sources: &mut Vec<P>,
    mut rooms: Vec<WorkerRoom<W::Memo, W::Done>>,
    workers: &mut Vec<Worker<W, P, W::Done>>,
)
    requires as_many { length sources.old.items ≡ length stores.old.items }
    requires fit { All W.fits stores.old.items }
    requires may { All P.may sources.old.items }
    requires rooms { AreRooms P.left sources.old.items rooms.items }
    requires none { workers.old.items ≡ [] }
    requires places { length stores.old.items ≤ vec_capacity workers.old }
    ensures kept { map (keeps W.kept_of) workers.new.items ≡ map W.first stores.old.items }
    ensures sources { map source_of workers.new.items ≡ sources.old.items }
    ensures ready { All (IsReady W.ready P.may P.left) workers.new.items }
    ensures taken { (stores.new.items ≡ []) × (sources.new.items ≡ []) }
    ensures capacity { (vec_capacity stores.new ≡ vec_capacity stores.old) × (vec_capacity sources.new ≡ vec_capacity sources.old) }
{
    while !stores.is_empty() {
        let store = take_first(stores);
        let source = take_first(sources);
        let WorkerRoom { memo, answers } = take_first(&mut rooms);
        workers.push_reserved(Worker {
            runner: W::new(store, memo),
            source,
            answers,
        });
    }
}

// Moves the stores, the sources and the answers out of the workers.
pub(crate) fn unload<W: Runner, P>(
    mut workers: Vec<Worker<W, P, W::Done>>,
    stores: &mut Vec<W::Store>,
    sources: &mut Vec<P>,
    answers: &mut Vec<Vec<Answer<W::Done>>>,
)
    requires stores { (stores.old.items ≡ []) × (length workers.items ≤ vec_capacity stores.old) }
    requires sources { (sources.old.items ≡ []) × (length workers.items ≤ vec_capacity sources.old) }
    requires answers { (answers.old.items ≡ []) × (length workers.items ≤ vec_capacity answers.old) }
    ensures seats { map W.seat_in stores.new.items ≡ map (stands_at W.kept_of W.seat_of) workers.items }
    ensures sources { sources.new.items ≡ map source_of workers.items }
    ensures answers { answers.new.items ≡ map answers_of workers.items }
{
    while !workers.is_empty() {
        let Worker {
            runner,
            source,
            answers: own,
        } = take_first(&mut workers);
        stores.push_reserved(runner.into_store());
        sources.push_reserved(source);
        answers.push_reserved(own);
    }
    workers.destroy_empty();
}

/// Takes the first element out. There is one.
pub fn take_first<T>(from: &mut Vec<T>) -> T
    requires { 0 < length from.old.items }
    ensures items { from.old.items ≡ result ∷ from.new.items }
    ensures capacity { vec_capacity from.new ≡ vec_capacity from.old }
{
    from.remove(0)
}
