// The last objects of the way that a search takes.
ghost use Rattle.std.specs.Prelude.{◌≡◌, ◌+◌, ◌<◌, ◌≤◌, length, take};
ghost use Rattle.set_model.specs.Lawful.{IsLawful};
ghost use Rattle.tree_balance.specs.Depths.{child_for, IsOfWay};

use mv_history::View;

/// How many objects of a way are remembered: 32 inner nodes, and the one before them or the root.
pub const MOST_REMEMBERED: usize = 33;

/// The last objects of the way that a search takes, from above: the root, where it is among them, and
/// inner nodes. The last one leads to the leaf.
#[derive(Clone, Copy)]
pub struct Way {
    objects: [u32; 33],
    count: usize,
    // The rank of the last inner node.
    rank: u64,
    // Whether each inner node of the search, also one that isn't remembered, has a lower rank than the one above it.
    falls: bool,
    ghost few: { count ≤ 33 },
}

impl Way {
    /// The objects, from above.
    pub fn objects(&self) -> &[u32]
        ensures { result.now ≡ take self.now.count self.now.objects }
    {
        &self.objects[..self.count]
    }

    // Whether the rank falls at each inner node.
    pub(crate) fn falls(&self) -> bool {
        self.falls
    }

    // Takes the next object, of this rank; where it is full, the first one is forgotten.
    fn push(&mut self, object: u32, rank: u64)
        ensures count { self.new.count ≤ self.old.count + 1 }
    {
        self.falls = self.falls && rank < self.rank;
        self.rank = rank;
        if self.count < MOST_REMEMBERED {
            self.objects[self.count] = object;
            self.count += 1;
        } else {
            forget_first(&mut self.objects);
            self.objects[MOST_REMEMBERED - 1] = object;
        }
    }
}

// Moves each object to the place before its own.
fn forget_first(objects: &mut [u32; 33]) {
    for i in 1..MOST_REMEMBERED {
        objects[i - 1] = objects[i];
    }
}

// The object to which the search for the key goes from this one, or 0 where it ends here, and the rank of an inner node.
#[inline(always)]
fn child_for<V: View>(view: &mut V, object: u32, key: u32) -> (u64, u64)
    requires object { object < length (V.state view.old) }
    ensures child { result.0 ≡ child_for (V.state view.old) key object }
    ensures as_before { V.as_before view.old view.new }
{
    let [divider, left, right, rank] = view.read_four(object, 2);
    if left == 0 {
        return (0, rank);
    }
    if (key as u64) < divider {
        (left, rank)
    } else {
        (right, rank)
    }
}

/// The way that the search for the key takes in the tree of this root: its last 33 objects, and no more than the
/// root and the inner nodes that the search passes.
///
/// It needs a lawful state and a root. It reads four words of each object from the root down to one leaf.
pub fn find_way<V: View>(view: &mut V, root: u32, key: u32) -> Way
    requires root_in { root < 180 }
    requires lawful { IsLawful (V.state view.old) }
    ensures remembers { IsOfWay (V.state view.old) root key result.count }
    ensures as_before { V.as_before view.old view.new }
{
    let mut way = Way {
        objects: [root; 33],
        count: 1,
        rank: u64::MAX,
        falls: true,
    };
    let objects = view.objects();
    let (_, mut node) = view.read_pair(root, 2);
    for _ in 0..objects {
        if node >= objects as u64 {
            return way;
        }
        let object = node as u32;
        let (child, rank) = child_for(view, object, key);
        if child == 0 {
            return way;
        }
        way.push(object, rank);
        node = child;
    }
    way
}
