// Which steps follow an add on the way of its search.
ghost use Rattle.std.specs.Prelude.{◌≡◌, ◌≢◌, ◌+◌, ◌<◌, ◌≤◌, length, slice_index_or, true};
ghost use Rattle.mv_history.specs.Legal.{are_distinct};
ghost use Rattle.set_model.specs.Lawful.{IsLawful};
ghost use Rattle.set_model.specs.Objects.{owner};
ghost use Rattle.tree_set.specs.Descents.{EndsHere};
ghost use Rattle.tree_set.specs.Places.{grow_writes};
ghost use Rattle.tree_balance.specs.Drafts.{writes_in, Extends, IsAddOnWay};

use crate::plan::WritePlan;
use crate::steps::BalanceStep;
use crate::way::Way;
use mv_history::{View, Words};
use set_model::word;
use tree_set::Descent;

/// A way of at most so many objects, the root and 8 inner nodes, is left as it is.
pub const SHORT: usize = 9;

// The steps at one inner node of the way, and the node that is on the way above it then.
#[derive(Clone, Copy)]
struct Choice {
    steps: [BalanceStep; 5],
    count: usize,
    next: u32,
    ghost few: { count ≤ 5 },
}

// Where a climb stands: at an inner node of this rank.
#[derive(Clone, Copy)]
struct ClimbPlace {
    node: u32,
    rank: u64,
}

// The rank of a node with these words: a leaf has rank 0.
fn rank_of(words: Words) -> u64 {
    if words[word::KIND] == word::INNER {
        words[word::RANK]
    } else {
        0
    }
}

// The child of an inner node with these words that is on the same side as `child`, and the other one of `words`.
fn child_beside(words: Words, child: u32) -> u64 {
    if words[word::LEFT] == child as u64 {
        words[word::RIGHT]
    } else {
        words[word::LEFT]
    }
}

// The child of the node with `words` that is nearer to the sibling of that node.
fn child_inside(parent: Words, child: u32, words: Words) -> u64 {
    if parent[word::LEFT] == child as u64 {
        words[word::RIGHT]
    } else {
        words[word::LEFT]
    }
}

// The step that gives an inner node this rank.
fn ranked(node: u32, rank: u64) -> BalanceStep {
    BalanceStep::Rank { node, rank }
}

// The step by which the child takes the place of the parent.
fn rotated(grand: u32, parent: u32, child: u32) -> BalanceStep {
    BalanceStep::Rotate {
        grand,
        parent,
        child,
    }
}

impl WritePlan {
    // The object of this number, with its words once they are written, if there is such an object.
    fn look<V: View>(&self, view: &mut V, object: u64) -> Option<(u32, Words)>
        requires distinct { are_distinct (writes_in self.now) ≡ true }
        ensures as_before { V.as_before view.old view.new }
    {
        if object >= view.objects() as u64 {
            return None;
        }
        let object = object as u32;
        Some((object, self.words(view, object)))
    }

    // What is to be done where the child's rank isn't below that of its parent; None where there is no room.
    // These are the words of the parent.
    fn choose<V: View>(
        &self,
        view: &mut V,
        grand: u32,
        parent: u32,
        child: u32,
        limit: usize,
        above: Words,
    ) -> Option<Choice>
        requires limit { limit ≤ 16 }
        requires distinct { are_distinct (writes_in self.now) ≡ true }
        ensures as_before { V.as_before view.old view.new }
    {
        if self.count() + 3 > limit {
            return None;
        }
        let (_, here) = self.look(view, child as u64)?;
        let (_, sibling) = self.look(view, child_beside(above, child))?;
        let beside = rank_of(sibling);
        if above[word::RANK] <= beside.saturating_add(1) {
            let most = if here[word::RANK] < beside {
                beside
            } else {
                here[word::RANK]
            };
            return Some(Choice {
                steps: [ranked(parent, most.saturating_add(1)); 5],
                count: 1,
                next: parent,
            });
        }
        self.choose_turn(view, grand, parent, child, limit, above, here)
    }

    // The turn, by one rotation or by two.
    fn choose_turn<V: View>(
        &self,
        view: &mut V,
        grand: u32,
        parent: u32,
        child: u32,
        limit: usize,
        above: Words,
        here: Words,
    ) -> Option<Choice>
        requires limit { limit ≤ 16 }
        requires distinct { are_distinct (writes_in self.now) ≡ true }
        ensures as_before { V.as_before view.old view.new }
    {
        let (inside, words) = self.look(view, child_inside(above, child, here))?;
        let lower = ranked(parent, above[word::RANK].saturating_sub(1));
        if words[word::KIND] != word::INNER
            || here[word::RANK] >= words[word::RANK].saturating_add(2)
        {
            return Some(Choice {
                steps: [rotated(grand, parent, child), lower, lower, lower, lower],
                count: 2,
                next: child,
            });
        }
        if self.count() + 4 > limit {
            return None;
        }
        Some(Choice {
            steps: [
                rotated(parent, child, inside),
                rotated(grand, parent, inside),
                ranked(inside, words[word::RANK].saturating_add(1)),
                ranked(child, here[word::RANK].saturating_sub(1)),
                lower,
            ],
            count: 5,
            next: inside,
        })
    }

    // Makes the steps at this parent of a node whose rank isn't below its own, and goes to the node that is
    // on the way above it then; None where there is no room.
    fn mend<V: View>(
        &mut self,
        view: &mut V,
        root: u32,
        grand: u32,
        parent: u32,
        child: u32,
        above: Words,
        limit: usize,
    ) -> Option<ClimbPlace>
        requires root_in { root < 180 }
        requires limit { limit ≤ 16 }
        requires distinct { are_distinct (writes_in self.old) ≡ true }
        ensures extends { Extends (V.state view.old) root limit (writes_in self.old) (writes_in self.new) }
        ensures as_before { V.as_before view.old view.new }
    {
        let choice = self.choose(view, grand, parent, child, limit, above)?;
        if !self.take_all(view, root, &choice.steps[..choice.count], limit) {
            return None;
        }
        let (node, words) = self.look(view, choice.next as u64)?;
        Some(ClimbPlace {
            node,
            rank: words[word::RANK],
        })
    }

    // Goes from a node of the way to the parent, with the steps that are due there; None where nothing is left
    // to do, or there is no room. Where the ranks of the way fall, none is due above a parent of a higher rank.
    fn rise<V: View>(
        &mut self,
        view: &mut V,
        root: u32,
        grand: u32,
        parent: u32,
        at: ClimbPlace,
        falls: bool,
        limit: usize,
    ) -> Option<ClimbPlace>
        requires root_in { root < 180 }
        requires limit { limit ≤ 16 }
        requires distinct { are_distinct (writes_in self.old) ≡ true }
        ensures extends { Extends (V.state view.old) root limit (writes_in self.old) (writes_in self.new) }
        ensures as_before { V.as_before view.old view.new }
    {
        let (_, above) = self.look(view, parent as u64)?;
        if at.rank >= above[word::RANK] {
            return self.mend(view, root, grand, parent, at.node, above, limit);
        }
        if falls {
            return None;
        }
        Some(ClimbPlace {
            node: parent,
            rank: above[word::RANK],
        })
    }

    // Goes up the way from this node, which stands where the last object of the way leads.
    fn climb<V: View>(&mut self, view: &mut V, root: u32, way: &Way, from: u32, limit: usize)
        requires root_in { root < 180 }
        requires limit { limit ≤ 16 }
        requires distinct { are_distinct (writes_in self.old) ≡ true }
        ensures extends { Extends (V.state view.old) root limit (writes_in self.old) (writes_in self.new) }
        ensures as_before { V.as_before view.old view.new }
    {
        if !self.take_all(view, root, &[ranked(from, 1)], limit) {
            return;
        }
        let falls = way.falls();
        let way = way.objects();
        let mut at = ClimbPlace {
            node: from,
            rank: 1,
        };
        for i in 1..way.len() {
            let place = way.len() - i;
            let Some(next) = self.rise(view, root, way[place - 1], way[place], at, falls, limit)
            else {
                return;
            };
            at = next;
        }
    }

    /// Goes up the way from the new inner node, and makes steps where a node's rank isn't below that of its
    /// parent, while the writes are of at most so many objects. A way of at most [`SHORT`] objects is left as it is.
    ///
    /// The way is advice: whatever objects it names, a step is made only where their words allow it.
    pub fn rebalance<V: View>(
        &mut self,
        view: &mut V,
        root: u32,
        way: &Way,
        inner: u32,
        limit: usize,
    )
        requires root_in { root < 180 }
        requires limit { limit ≤ 16 }
        requires distinct { are_distinct (writes_in self.old) ≡ true }
        ensures extends { Extends (V.state view.old) root limit (writes_in self.old) (writes_in self.new) }
        ensures short { way.now.count ≤ 9 → writes_in self.new ≡ writes_in self.old }
        ensures as_before { V.as_before view.old view.new }
    {
        if way.objects().len() <= SHORT {
            return;
        }
        self.climb(view, root, way, inner, limit);
    }
}

/// Plans an add of the key, with this value, where the search for it ended, and the steps after it by which the
/// tree stays short, in a plan that has nothing yet.
///
/// It needs a lawful state in which that search ended at this descent, at a leaf of another key, and two
/// vacant objects. The way is what [`find_way`](crate::find_way) remembers; `most` is how many objects
/// may be locked beside the add's own four, at most 12. It refuses nothing, and takes no memory.
///
/// A commit of these writes is an add. Where the way has at most [`SHORT`] objects the writes are
/// those of the add alone.
pub fn plan_add<V: View>(
    plan: &mut WritePlan,
    view: &mut V,
    root: u32,
    key: u32,
    value: u64,
    descent: &Descent,
    way: &Way,
    leaf: u32,
    inner: u32,
    most: usize,
)
    requires none { plan.old.count ≡ 0 }
    requires root_from { 170 ≤ root }
    requires root_in { root < 180 }
    requires lawful { IsLawful (V.state view.old) }
    requires ends { EndsHere (V.state view.old) root key descent.now }
    requires lacks { slice_index_or descent.now.words 2 0 ≢ key }
    requires leaf_vacant { (180 ≤ leaf) × (leaf < length (V.state view.old)) × (owner (V.state view.old) leaf ≡ 0) }
    requires inner_vacant { (180 ≤ inner) × (inner < length (V.state view.old)) × (owner (V.state view.old) inner ≡ 0) }
    requires differ { leaf ≢ inner }
    requires most { most ≤ 12 }
    ensures plan { IsAddOnWay (V.state view.old) root key value descent.now.parent descent.now.leaf leaf inner most (writes_in plan.new) }
    ensures short { way.now.count ≤ 9 → writes_in plan.new ≡ grow_writes (V.state view.old) root key value descent.now.parent descent.now.leaf leaf inner }
    ensures as_before { V.as_before view.old view.new }
{
    plan.write(&descent.grow_writes(root, key, value, leaf, inner));
    plan.rebalance(view, root, way, inner, most + 4);
}
