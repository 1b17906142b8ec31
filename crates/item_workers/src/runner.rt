// What does items one after another.
use std::alloc::{AllocError, Global};

/// What came of one attempt.
pub enum Tried<D> {
    /// The item is done, and this is what it answered.
    Done(D),
    /// It is not done yet. Another attempt may be done.
    Again,
}

/// What came of an item.
#[derive(Drop)]
pub struct Answer<D> {
    /// The number of the seat that did it.
    pub seat: u32,
    /// The item's number, from 1.
    pub number: u32,
    /// What it answered.
    pub done: D,
}

/// A store with what is kept beside it, which does items one after another, each by attempts.
///
/// What it keeps from one item to the next is its own to say: its seat, and what else the next item depends on. So is what it
/// means that an item is done between two such states, its *link*. Whatever tries items in order then leaves a chain of them
/// with a link for each item (`Chain`): the next item begins at the very state, and so at the very seat, at which the last one
/// was done. So a link that tells of a section which the item's own attempt entered tells that the snapshot holds all that came
/// before.
pub trait Runner: Sized {
    ghost use Rattle.std.specs.Prelude.{ℕ, ◌≡◌};
    ghost use Rattle.mv_history.specs.Meaning.{Seat};
    ghost use Rattle.item_workers.specs.Chains.{OnTried};

    /// What is done.
    type Item;

    /// What it answers.
    type Done: Drop;

    /// What it is made of, and leaves in the end.
    type Store;

    /// What it remembers beside the store.
    type Memo: Drop;

    // What is kept from one item to the next: a seat, and what else the next item depends on.
    ghost Kept: { Type 0 };

    // What it keeps.
    ghost kept_of: { Self → Self.Kept };

    // The seat in it.
    ghost seat_of: { Self.Kept → Seat };

    // What is kept by one that is made of the store, ahead of its first item.
    ghost first: { Self.Store → Self.Kept };

    // The seat of a store.
    ghost seat_in: { Self.Store → Seat };

    // It may be made of the store.
    ghost fits: { Self.Store → Type 0 };

    // It may begin an item.
    ghost ready: { Self → Type 0 };

    // The item is one that it does.
    ghost does: { Self.Item → Type 0 };

    // How many numbers the item has.
    ghost width_of: { Self.Item → ℕ };

    // It kept this when it began the item, and has not done it yet.
    ghost under: { Self.Kept → Self.Item → Self → Type 0 };

    // From the one to the other the item was done, with this answer.
    ghost link: { Self.Kept → Self.Kept → Self.Item → Self.Done → Type 0 };

    /// Takes the memory for what one runner remembers. An error is want of memory.
    fn memo(alloc: Global) -> Result<Self::Memo, AllocError>;

    /// Puts a store and its memo together.
    fn new(store: Self::Store, memo: Self::Memo) -> Self
        requires { fits store }
        ensures kept { kept_of result ≡ first store }
        ensures ready { ready result };

    /// Gives the store back.
    fn into_store(self) -> Self::Store
        ensures { seat_in result ≡ seat_of (kept_of self) };

    /// The seat's number.
    fn seat(&self) -> u32
        ensures { result ≡ (seat_of (kept_of self.now)).number };

    /// How many numbers the item has.
    fn width(item: &Self::Item) -> u32
        ensures { result ≡ width_of item.now };

    /// One attempt of an item, or of what is still due behind it.
    fn attempt(self, item: &Self::Item) -> (Self, Tried<Self::Done>)
        requires does { does item.now }
        requires under { (s : Self.Kept) × under s item.now self }
        ensures tried { (s : Self.Kept) → under s item.now self → OnTried (λ d. link s (kept_of result.0) item.now d × ready result.0)
            (under s item.now result.0) result.1 };

    ghost begins: { (w : Self) (item : Self.Item) → ready w → does item → under (kept_of w) item w };
}
