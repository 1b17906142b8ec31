// Runners in threads, each with a source of its own.
ghost use Rattle.std.specs.Prelude.{◌≡◌, length, map, All, IfOk, IfErr};
ghost use Rattle.std.specs.List.{AllZip};
ghost use Rattle.item_workers.specs.Chains.{EachDid};
ghost use Rattle.item_workers.specs.OwnLists.{IsAt, AreOwn};
ghost use Rattle.item_workers.specs.Serving.{EachServed};
ghost use Rattle.item_workers.specs.Workers.{IsReady, RanBy, MayDo, items_of};

use crate::loading::{RunRoom, load, make_room, unload};
use crate::runner::{Answer, Runner};
use crate::running::run_from;
use crate::source::{Own, Source};
use host_io::Gate;
use std::alloc::{AllocError, Global};
use std::sync::Wait;
use std::sync::atomic::{AtomicU64, Ordering};
use std::thread;
use std::thread::Threads;

// How often a thread gives its processor away at most until all have begun.
const MOST_YIELDS: u32 = 10_000;

// What does items, where it has them from, and what they answered, for all of which there is room.
pub(crate) struct Worker<W, P, D> {
    pub(crate) runner: W,
    pub(crate) source: P,
    pub(crate) answers: Vec<Answer<D>>,
}

/// Does each list by a runner of the store of its place, as [`run_sources`] does what a source gives, and gives the stores back
/// in their order, with the answers of each list.
///
/// There are as many lists as stores, a runner may be made of each store, does each item of its list, and no item's number
/// is above `u32::MAX`.
///
/// The error is want of memory. It comes before the first item is tried, and hands the stores back as they were.
pub fn run_lists<R: Threads + Wait + Sync, W: Runner + Send, G: Gate>(
    rt: &R,
    alloc: Global,
    stores: Vec<W::Store>,
    lists: &[Vec<W::Item>],
    gate: &G,
) -> Result<(Vec<W::Store>, Vec<Vec<Answer<W::Done>>>), (Vec<W::Store>, AllocError)>
where
    W::Item: Sync,
    W::Done: Send,
    W::Store: Send,
    W::Memo: Send,
    requires as_many { length lists.now ≡ length stores.items }
    requires fit { All W.fits stores.items }
    requires may { All (λ list. MayDo W.does W.width_of list.items) lists.now }
    ensures did { IfOk result (λ done. EachDid W.seat_of W.link W.width_of (map W.first stores.items) (map W.seat_in done.0.items)
        (map items_of lists.now) done.1.items) }
    ensures err { IfErr result (λ refused. refused.0.items ≡ stores.items) }
{
    let sources = match own_sources::<W>(alloc, lists) {
        Ok(sources) => sources,
        Err(error) => return Err((stores, error)),
    };
    match run_sources::<R, W, Own<'_, W::Item>, G>(rt, alloc, stores, sources, gate) {
        Ok((stores, _, answers)) => Ok((stores, answers)),
        Err((stores, _, error)) => Err((stores, error)),
    }
}

// Each list as the source of a worker's own.
fn own_sources<'s, W: Runner>(
    alloc: Global,
    lists: &'s [Vec<W::Item>],
) -> Result<Vec<Own<'s, W::Item>>, AllocError>
    requires { All (λ list. MayDo W.does W.width_of list.items) lists.now }
    ensures own { IfOk result (λ sources. AreOwn (map items_of lists.now) sources.items) }
    ensures may { IfOk result (λ sources. All (IsAt W.does W.width_of) sources.items) }
{
    let mut sources = Vec::new(alloc);
    for list in lists {
        sources.push(Own::new(list))?;
    }
    Ok(sources)
}

/// Does what each source gives by a runner of the store of its place, each in a thread of its own, until it has none to give,
/// and gives the stores and the sources back in their order, with the answers of each. Where a thread can't be started, this
/// thread does its work.
///
/// Each item is tried until it is done, which may go on for ever where others always come first. The gate is called ahead of
/// an item's first attempt and once it is done, with the number of the seat and that of the item.
///
/// There are as many sources as stores, which may be asked for items, and a runner may be made of each store.
///
/// The error is want of memory. It comes before the first item is taken, and hands the stores and the sources back as they
/// were.
pub fn run_sources<R: Threads + Wait + Sync, W: Runner + Send, P: Source<W> + Send, G: Gate>(
    rt: &R,
    alloc: Global,
    mut stores: Vec<W::Store>,
    mut sources: Vec<P>,
    gate: &G,
) -> Result<(Vec<W::Store>, Vec<P>, Vec<Vec<Answer<W::Done>>>), (Vec<W::Store>, Vec<P>, AllocError)>
where
    W::Item: Sync,
    W::Done: Send,
    W::Store: Send,
    W::Memo: Send,
    requires as_many { length sources.items ≡ length stores.items }
    requires fit { All W.fits stores.items }
    requires may { All P.may sources.items }
    ensures served { IfOk result (λ done. EachServed W.seat_of W.link P.gives P.ended (map W.first stores.items) sources.items
        (map W.seat_in done.0.items) done.1.items done.2.items) }
    ensures err { IfErr result (λ refused. (refused.0.items ≡ stores.items) × (refused.1.items ≡ sources.items)) }
{
    let RunRoom {
        rooms,
        mut answers,
        mut workers,
    } = match make_room::<W, P>(alloc, &sources) {
        Ok(room) => room,
        Err(error) => return Err((stores, sources, error)),
    };
    load(&mut stores, &mut sources, rooms, &mut workers);
    run_all(rt, &mut workers, gate);
    unload(workers, &mut stores, &mut sources, &mut answers);
    Ok((stores, sources, answers))
}

// Each worker does what its source gives in a thread of its own, and all have ended when this returns. The threads begin
// together.
fn run_all<R: Threads + Wait + Sync, W: Runner + Send, P: Source<W> + Send, G: Gate>(
    rt: &R,
    workers: &mut [Worker<W, P, W::Done>],
    gate: &G,
)
where
    W::Item: Sync,
    W::Done: Send,
    W::Store: Send,
    W::Memo: Send,
    requires { All (IsReady W.ready P.may P.left) workers.old }
    ensures { AllZip (RanBy W.kept_of W.seat_of W.link P.gives P.ended) workers.old workers.new }
{
    let threads = workers.len().max(1);
    let begun = AtomicU64::new(0);
    thread::for_each_mut(
        rt,
        workers,
        threads,
        &|_, worker: &mut Worker<W, P, W::Done>|
            requires { IsReady W.ready P.may P.left worker.old }
            ensures { RanBy W.kept_of W.seat_of W.link P.gives P.ended worker.old worker.new }
        {
            begin_together(&begun, threads as u64);
            run_from(
                rt,
                &mut worker.runner,
                &mut worker.source,
                gate,
                &mut worker.answers,
            )
        },
    );
}

// Counts this thread as begun, and gives the processor away until as many have begun as there are workers. It does so no more
// often than `MOST_YIELDS`: the work of a thread that can't be started comes behind that of another, which waits no longer for it.
fn begin_together(begun: &AtomicU64, workers: u64) {
    begun.fetch_add(1, Ordering::SeqCst);
    for _ in 0..MOST_YIELDS {
        if begun.load(Ordering::SeqCst) >= workers {
            return;
        }
        thread::yield_now();
    }
}
