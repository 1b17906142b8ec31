// A store of the sets with its hints, which does commands one after another.
use item_workers::{Runner, Tried};
use mv_history::Store;
use section_work::Place;
use set_catalog::{CommandAttempt, HintedStore, Memo};
use set_model::{Command, Reply, SetRules};
use std::alloc::{AllocError, Global};

// How many vacant objects a worker remembers.
const HINTS: u32 = 64;

/// A store of the sets with its hints, which does commands, each by attempts. What it answers is the place and the reply.
pub struct Hinted<S: Store<Rules = SetRules>> {
    pub hinted: HintedStore<S>,
}

impl<S: Store<Rules = SetRules>> Runner for Hinted<S> {
    ghost use Rattle.std.specs.Prelude.{⊤, ◌≤◌};
    ghost use Rattle.script_workers.specs.Terms.{Seat, most_locks, causes, IsUnder, none_begun};
    ghost use Rattle.script_workers.specs.Links.{Linked};

    type Item = Command;

    type Done = (Place, Reply);

    type Store = S;

    type Memo = Box<Memo>;

    ghost Kept = { Seat };

    ghost kept_of = { λ w. S.seat_of w.hinted.store };

    ghost seat_of = { λ s. s };

    ghost first = { S.seat_of };

    ghost seat_in = { S.seat_of };

    ghost fits = { λ s. most_locks ≤ (S.seat_of s).write_max };

    ghost ready = { λ w. most_locks ≤ (S.seat_of w.hinted.store).write_max };

    ghost does = { λ command. ⊤ };

    ghost width_of = { λ command. 1 };

    ghost under = { λ s command w. IsUnder most_locks s (S.seat_of w.hinted.store) };

    ghost link = { Linked (causes S.Open.may_refuse S.Open.has_trail S.took S.holds_back S.Open.found_held S.Open.loaded) };

    fn memo(alloc: Global) -> Result<Box<Memo>, AllocError> {
        Memo::new(alloc, HINTS)
    }

    fn new(store: S, memo: Box<Memo>) -> Hinted<S> {
        Hinted {
            hinted: HintedStore::new(store, memo),
        }
    }

    fn into_store(self) -> S {
        let Hinted { hinted: last } = self;
        last.into_store()
    }

    fn seat(&self) -> u32 {
        self.hinted.store().seat()
    }

    fn width(_item: &Command) -> u32 {
        1
    }

    fn attempt(self, item: &Command) -> (Hinted<S>, Tried<(Place, Reply)>) {
        let Hinted { hinted } = self;
        let (hinted, attempt) = hinted.attempt(item);
        match attempt {
            CommandAttempt::Done { reply, place } => (
                Hinted { hinted },
                Tried::Done((place, reply)),
            ),
            CommandAttempt::Again(_) => (Hinted { hinted }, Tried::Again),
        }
    }

    ghost begins = { λ w command ready does. none_begun most_locks (S.seat_of w.hinted.store) ready };
}
