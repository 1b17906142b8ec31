// Where a worker has its items from.
ghost use Rattle.std.specs.Prelude.{◌≡◌};

use crate::runner::Runner;
use std::sync::Wait;

/// An item that a source gave.
#[derive(Clone, Copy)]
pub struct Given {
    /// Its place in the source's list, from 0.
    pub place: usize,
    /// Its number, from 1.
    pub number: u32,
}

/// A source of items for a worker: a list of its own, or one that workers share.
pub trait Source<W: Runner> {
    ghost use Rattle.std.specs.Prelude.{ℕ, ◌≡◌, ◌<◌, ◌≤◌, List, slice_get, Some};
    ghost use Rattle.item_workers.specs.Serving.{OnTaken};

    // It may be asked for items.
    ghost may: { Self → Type 0 };

    // The list of its items.
    ghost listed: { Self → List W.Item };

    // How many it may give yet.
    ghost left: { Self → ℕ };

    // It gave the item of this number.
    ghost gives: { Self → ℕ → W.Item → Self → Type 0 };

    // It has none to give any more.
    ghost ended: { Self → Self → Type 0 };

    /// The list of its items.
    fn items(&self) -> &[W::Item]
        ensures { result.now ≡ listed self.now };

    /// As many as it may give yet, or more.
    fn most(&self) -> usize
        requires { may self.now }
        ensures { left self.now ≤ result };

    /// The next item, if there is one. It may wait for others.
    fn take<R: Wait>(&mut self, rt: &R) -> Option<Given>
        requires { may self.old }
        ensures may { may self.new }
        ensures taken { OnTaken (λ place number. (item : W.Item) × (slice_get (listed self.new) place ≡ Some item) × W.does item
            × gives self.old number item self.new × (left self.new < left self.old)) (ended self.old self.new) result };
}

/// A worker's own list: its items, one after another, each with a number above all that the items before it have.
#[derive(Drop)]
pub struct Own<'s, I> {
    items: &'s [I],
    next: usize,
    number: u32,
}

impl<'s, I> Own<'s, I> {
    // None of the items was given yet. The first has the number 1.
    pub(crate) fn new(items: &'s [I]) -> Own<'s, I>
        ensures items { result.items.now ≡ items.now }
        ensures first { (result.next ≡ 0) × (result.number ≡ 1) }
    {
        Own {
            items,
            next: 0,
            number: 1,
        }
    }
}

impl<'s, W: Runner> Source<W> for Own<'s, W::Item> {
    ghost use Rattle.std.specs.Prelude.{length, ◌-◌, ◌≤◌};
    ghost use Rattle.item_workers.specs.OwnLists.{IsAt, GaveOwn};

    ghost may = { IsAt W.does W.width_of };

    ghost listed = { λ own. own.items.now };

    ghost left = { λ own. length own.items.now - own.next };

    ghost gives = { GaveOwn W.width_of };

    ghost ended = { λ old new. length old.items.now ≤ old.next };

    fn items(&self) -> &[W::Item] {
        self.items
    }

    fn most(&self) -> usize {
        self.items.len() - self.next
    }

    fn take<R: Wait>(&mut self, _rt: &R) -> Option<Given> {
        let item = self.items.get(self.next)?;
        let given = Given {
            place: self.next,
            number: self.number,
        };
        self.next += 1;
        self.number += W::width(item);
        Some(given)
    }
}
