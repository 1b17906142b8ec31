// A store that does works.
use item_workers::{Runner, Tried};
use mv_history::Store;
use section_work::{Attempt, Place, Work, attempt_work};
use std::alloc::{AllocError, Global};

/// A store that does works, each by attempts. What it answers is the place and the reply.
pub struct Doing<W: Work, S: Store<Rules = W::Rules>> {
    pub store: S,
    // What is remembered from one section to the next, of which there is nothing.
    memo: W::Memo,
}

impl<W: Work<Memo = ()>, S: Store<Rules = W::Rules>> Runner for Doing<W, S> {
    ghost use Rattle.mv_history.specs.Meaning.{Seat};
    ghost use Rattle.section_work.specs.Causes.{causes};
    ghost use Rattle.work_runner.specs.Tries.{CommitsNone, nothing_begun};
    ghost use Rattle.work_runner.specs.Works.{MayBegin, LinkedWork};

    type Item = W;

    type Done = (Place, W::Reply);

    type Store = S;

    type Memo = ();

    ghost Kept = { Seat };

    ghost kept_of = { λ w. S.seat_of w.store };

    ghost seat_of = { λ s. s };

    ghost first = { S.seat_of };

    ghost seat_in = { S.seat_of };

    ghost fits = { λ s. MayBegin W.accepts W.means W.knows tt (S.seat_of s) };

    ghost ready = { λ w. MayBegin W.accepts W.means W.knows w.memo (S.seat_of w.store) };

    ghost does = { W.accepts };

    ghost width_of = { λ work. 1 };

    ghost under = { λ s work w. CommitsNone s (S.seat_of w.store) × MayBegin W.accepts W.means W.knows w.memo (S.seat_of w.store) };

    ghost link = { λ s t work done. let shows = causes S.Open.may_refuse S.Open.has_trail S.took S.holds_back S.Open.found_held S.Open.loaded in
        LinkedWork shows (W.means work) s t done.0 done.1 };

    fn memo(_alloc: Global) -> Result<(), AllocError> {
        Ok(())
    }

    fn new(store: S, _memo: ()) -> Doing<W, S> {
        Doing { store, memo: () }
    }

    fn into_store(self) -> S {
        let Doing { store, memo: _ } = self;
        store
    }

    fn seat(&self) -> u32 {
        self.store.seat()
    }

    fn width(_item: &W) -> u32 {
        1
    }

    fn attempt(self, item: &W) -> (Doing<W, S>, Tried<(Place, W::Reply)>) {
        let Doing { store, mut memo } = self;
        let (store, attempt) = attempt_work(store, item, &mut memo);
        match attempt {
            Attempt::Done { reply, place } => (Doing { store, memo }, Tried::Done((place, reply))),
            Attempt::Again(_) => (Doing { store, memo }, Tried::Again),
        }
    }

    ghost begins = { λ w work ready does. (nothing_begun (S.seat_of w.store), ready) };
}
