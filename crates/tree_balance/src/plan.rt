// The writes of an add and of the steps that follow it in the same commit.
ghost use Rattle.std.specs.Prelude.{◌≡◌, ◌+◌, ◌<◌, ◌≤◌, [], ◌∷◌, MatchOption, length, true, false};
ghost use Rattle.mv_history.specs.State.{touches, written};
ghost use Rattle.mv_history.specs.Legal.{are_distinct};
ghost use Rattle.mv_history.specs.Meaning.{words_at};
ghost use Rattle.section_work.specs.OwnWrites.{objects_of};
ghost use Rattle.section_work.specs.Held.{count_unheld};

use crate::steps::{BalanceStep, is_child, is_inner, is_parent, lowered, raised, redirected};
use mv_history::{View, Words};
use set_model::word;

/// The objects to lock, in this order, each with the words to write: at most 16. No change of the sets writes more of them:
/// a move writes 5, and an add to a tree as many more than its own 4 as [`plan_add`](crate::plan_add) is told.
#[derive(Drop)]
pub struct WritePlan {
    writes: [(u32, Words); 16],
    count: usize,
    ghost few: { count ≤ 16 },
    ghost whole: { length writes ≡ 16 },
}

impl WritePlan {
    ghost use Rattle.tree_balance.specs.Drafts.{writes_in, IsPlaceOf, merged_one, merged, Extends};

    /// No writes.
    pub fn nothing() -> WritePlan
        ensures count { result.count ≡ 0 }
    {
        WritePlan {
            writes: [(0, [0; 6]); 16],
            count: 0,
        }
    }

    /// Empties it.
    pub fn clear(&mut self)
        ensures count { self.new.count ≡ 0 }
    {
        self.count = 0;
    }

    /// The writes, in their order.
    pub fn writes(&self) -> &[(u32, Words)]
        ensures writes { result.now ≡ writes_in self.now }
    {
        &self.writes[..self.count]
    }

    // How many objects it has.
    pub(crate) fn count(&self) -> usize
        ensures { result ≡ length (writes_in self.now) }
    {
        self.writes().len()
    }

    /// Takes these writes too. An object that is among its own keeps its place in the order, and gets the
    /// new words.
    pub fn write(&mut self, changes: &[(u32, Words)])
        requires room { length (writes_in self.old) + count_unheld (writes_in self.old) (objects_of changes.now) ≤ 16 }
        ensures writes { writes_in self.new ≡ merged (writes_in self.old) changes.now }
    {
        for change in changes {
            self.write_one(change.0, change.1);
        }
    }

    // Takes this write too.
    fn write_one(&mut self, object: u32, words: Words)
        requires room { self.old.count + count_unheld (writes_in self.old) (object ∷ []) ≤ 16 }
        ensures writes { writes_in self.new ≡ merged_one (writes_in self.old) object words }
        ensures count { self.new.count ≡ self.old.count + count_unheld (writes_in self.old) (object ∷ []) }
    {
        match self.place_of(object) {
            Some(place) => self.writes[place] = (object, words),
            None => {
                self.writes[self.count] = (object, words);
                self.count += 1;
            }
        }
    }

    // Where the object is among them.
    fn place_of(&self, object: u32) -> Option<usize>
        ensures { MatchOption result (touches (writes_in self.now) object ≡ false) (IsPlaceOf (writes_in self.now) object) }
    {
        let writes = self.writes();
        for i in 0..writes.len() {
            if writes[i].0 == object {
                return Some(i);
            }
        }
        None
    }

    // 0 where the object is among them, and else 1.
    fn unheld(&self, object: u32) -> usize
        ensures { result ≡ count_unheld (writes_in self.now) (object ∷ []) }
    {
        match self.place_of(object) {
            Some(_) => 0,
            None => 1,
        }
    }

    // The words of the object once they are written.
    pub(crate) fn words<V: View>(&self, view: &mut V, object: u32) -> Words
        requires object { object < length (V.state view.old) }
        requires distinct { are_distinct (writes_in self.now) ≡ true }
        ensures words { result ≡ words_at (written (V.state view.old) (writes_in self.now)) object }
        ensures as_before { V.as_before view.old view.new }
    {
        match self.place_of(object) {
            Some(place) => self.writes[place].1,
            None => view.read(object),
        }
    }

    // Gives an inner node this rank. Whether it did: not where the node isn't one, or there is no room.
    fn rank<V: View>(&mut self, view: &mut V, root: u32, node: u32, rank: u64, limit: usize) -> bool
        requires root_in { root < 180 }
        requires limit { limit ≤ 16 }
        requires distinct { are_distinct (writes_in self.old) ≡ true }
        ensures extends { Extends (V.state view.old) root limit (writes_in self.old) (writes_in self.new) }
        ensures as_before { V.as_before view.old view.new }
    {
        if node >= view.objects() {
            return false;
        }
        let words = self.words(view, node);
        if !is_inner(root, node, words) {
            return false;
        }
        if self.count() + self.unheld(node) > limit {
            return false;
        }
        let mut ranked = words;
        ranked[word::RANK] = rank;
        self.write(&[(node, ranked)]);
        true
    }

    // Lets an inner node take the place of its parent. Whether it did: not where they aren't inner nodes,
    // one under the other, or there is no room.
    fn rotate<V: View>(
        &mut self,
        view: &mut V,
        root: u32,
        grand: u32,
        parent: u32,
        child: u32,
        limit: usize,
    ) -> bool
        requires root_in { root < 180 }
        requires limit { limit ≤ 16 }
        requires distinct { are_distinct (writes_in self.old) ≡ true }
        ensures extends { Extends (V.state view.old) root limit (writes_in self.old) (writes_in self.new) }
        ensures as_before { V.as_before view.old view.new }
    {
        let objects = view.objects();
        if grand >= objects || parent >= objects || child >= objects {
            return false;
        }
        let above = self.words(view, grand);
        let here = self.words(view, parent);
        let below = self.words(view, child);
        if !is_parent(root, grand, above, parent) {
            return false;
        }
        if !is_inner(root, parent, here) {
            return false;
        }
        if !is_child(here, child) {
            return false;
        }
        if !is_inner(root, child, below) {
            return false;
        }
        let more = self.unheld(grand) + self.unheld(parent) + self.unheld(child);
        if self.count() + more > limit {
            return false;
        }
        let led = redirected(above, parent, child);
        let lower = lowered(here, child, below);
        let higher = raised(here, parent, child, below);
        self.write(&[(grand, led), (parent, lower), (child, higher)]);
        true
    }

    // Makes the step. Whether it did.
    fn take<V: View>(&mut self, view: &mut V, root: u32, step: BalanceStep, limit: usize) -> bool
        requires root_in { root < 180 }
        requires limit { limit ≤ 16 }
        requires distinct { are_distinct (writes_in self.old) ≡ true }
        ensures extends { Extends (V.state view.old) root limit (writes_in self.old) (writes_in self.new) }
        ensures as_before { V.as_before view.old view.new }
    {
        match step {
            BalanceStep::Rank { node, rank } => self.rank(view, root, node, rank, limit),
            BalanceStep::Rotate {
                grand,
                parent,
                child,
            } => self.rotate(view, root, grand, parent, child, limit),
        }
    }

    // Makes these steps, up to the first that can't be made. Whether it made all.
    pub(crate) fn take_all<V: View>(
        &mut self,
        view: &mut V,
        root: u32,
        steps: &[BalanceStep],
        limit: usize,
    ) -> bool
        requires root_in { root < 180 }
        requires limit { limit ≤ 16 }
        requires distinct { are_distinct (writes_in self.old) ≡ true }
        ensures extends { Extends (V.state view.old) root limit (writes_in self.old) (writes_in self.new) }
        ensures as_before { V.as_before view.old view.new }
    {
        for step in steps {
            if !self.take(view, root, *step, limit) {
                return false;
            }
        }
        true
    }
}
