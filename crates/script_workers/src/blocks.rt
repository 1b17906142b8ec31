// A store that does blocks one after another.
use item_workers::{Runner, Tried};
use mv_history::Store;
use section_work::Place;
use set_blocks::{Block, BlockAttempt, BlockRules, Replies, attempt_block};
use std::alloc::{AllocError, Global};

/// A store that does blocks, each by attempts. What it answers is the place and the replies.
pub struct Blocks<S: Store<Rules = BlockRules>> {
    pub store: S,
}

impl<S: Store<Rules = BlockRules>> Runner for Blocks<S> {
    ghost use Rattle.std.specs.Prelude.{⊤, ◌≤◌, length};
    ghost use Rattle.script_workers.specs.Terms.{Seat, causes, IsUnder, none_begun};
    ghost use Rattle.script_workers.specs.Links.{LinkedBlock};
    ghost use Rattle.script_workers.specs.Workers.{most_in_blocks};

    type Item = Block;

    type Done = (Place, Replies);

    type Store = S;

    type Memo = ();

    ghost Kept = { Seat };

    ghost kept_of = { λ w. S.seat_of w.store };

    ghost seat_of = { λ s. s };

    ghost first = { S.seat_of };

    ghost seat_in = { S.seat_of };

    ghost fits = { λ s. most_in_blocks ≤ (S.seat_of s).write_max };

    ghost ready = { λ w. most_in_blocks ≤ (S.seat_of w.store).write_max };

    ghost does = { λ block. ⊤ };

    ghost width_of = { λ block. length block };

    ghost under = { λ s block w. IsUnder most_in_blocks s (S.seat_of w.store) };

    ghost link = { LinkedBlock (causes S.Open.may_refuse S.Open.has_trail S.took S.holds_back S.Open.found_held S.Open.loaded) };

    fn memo(_alloc: Global) -> Result<(), AllocError> {
        Ok(())
    }

    fn new(store: S, _memo: ()) -> Blocks<S> {
        Blocks { store }
    }

    fn into_store(self) -> S {
        let Blocks { store } = self;
        store
    }

    fn seat(&self) -> u32 {
        self.store.seat()
    }

    fn width(item: &Block) -> u32 {
        item.commands().len() as u32
    }

    fn attempt(self, item: &Block) -> (Blocks<S>, Tried<(Place, Replies)>) {
        // A block has at most eight commands, so the store may hold what it locks.
        let _commands = item.commands();
        let Blocks { store } = self;
        let (store, attempt) = attempt_block(store, item);
        match attempt {
            BlockAttempt::Done { replies, place } => (
                Blocks { store },
                Tried::Done((place, replies)),
            ),
            BlockAttempt::Again(_) => (Blocks { store }, Tried::Again),
        }
    }

    ghost begins = { λ w block ready does. none_begun most_in_blocks (S.seat_of w.store) ready };
}
