// The walk along a list for a key.
ghost use Rattle.std.specs.Prelude.{◌≡◌, ◌^◌, ◌<◌, ◌≤◌, ◌==◌, ◌&&◌, not, if◌then◌else◌, length, Some, None};
ghost use Rattle.list_set.specs.Linked.{IsLinked};
ghost use Rattle.list_set.specs.Walks.{IsBehind};
ghost use Rattle.list_set.specs.Windows.{StopsHere};
ghost use Rattle.set_model.specs.Objects.{most_objects};

use mv_history::View;

/// The place of a node's key among its words; its link comes next.
pub(crate) const KEY: u32 = 2;

// Where a walk for a key ended, by keys alone: at the first node whose key is not below the one looked
// for, or at 0 behind the last node. `previous` is its predecessor, the head or a node; of a node the
// walk has the key too.
#[derive(Clone, Copy)]
pub(crate) struct KeyWindow {
    pub(crate) previous: u32,
    pub(crate) previous_key: u64,
    pub(crate) node: u32,
    pub(crate) node_key: u64,
}

impl KeyWindow {
    // Whether the node has this key.
    pub(crate) fn has(&self, key: u32) -> bool
        ensures { result ≡ (not (self.now.node == 0) && (self.now.node_key == key)) }
    {
        self.node != 0 && self.node_key == key as u64
    }

    // The node's key, or none where it is 0.
    pub(crate) fn next(&self) -> Option<u32>
        requires fits { self.now.node_key < 2 ^ 32 }
        ensures { result ≡ (if self.now.node == 0 then None else Some self.now.node_key) }
    {
        if self.node == 0 {
            None
        } else {
            Some(self.node_key as u32)
        }
    }
}

// Where the key is, or belongs, by a walk from this object on, the head or a node with a key below `key`,
// which leads to `first`; and how many nodes the walk passed. A node from which it walks has this key.
#[inline(always)]
pub(crate) fn walk_from<V: View>(
    view: &mut V,
    head: u32,
    key: u32,
    from: u32,
    from_key: u64,
    first: u64,
) -> (KeyWindow, u32)
    requires linked { IsLinked (V.state view.old) head }
    requires few { length (V.state view.old) ≤ most_objects }
    requires behind { IsBehind (V.state view.old) head key from first }
    ensures stops { StopsHere (V.state view.old) head key result.0 }
    ensures as_before { V.as_before view.old view.new }
{
    let mut previous = from;
    let mut previous_key = from_key;
    let mut link = first;
    let mut passed: u32 = 0;
    while link != 0 {
        let node = link as u32;
        let (node_key, next) = view.read_pair(node, KEY);
        if node_key >= key as u64 {
            let key_window = KeyWindow {
                previous,
                previous_key,
                node,
                node_key,
            };
            return (key_window, passed);
        }
        previous = node;
        previous_key = node_key;
        link = next;
        passed = passed.wrapping_add(1);
    }
    let key_window = KeyWindow {
        previous,
        previous_key,
        node: 0,
        node_key: 0,
    };
    (key_window, passed)
}
