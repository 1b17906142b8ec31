// The nodes of a tree, by the words that a search needs.
ghost use Rattle.std.specs.Prelude.{◌≡◌, ◌<◌, length};
ghost use Rattle.set_model.specs.Objects.{leaf_words};
ghost use Rattle.tree_set.specs.Nodes.{IsNodeAt, branch_words};

use mv_history::{View, Words};

/// The place of a node's key among its words. Its links come next, and last its value, or of an inner node its rank.
pub(crate) const KEY: u32 = 2;

/// Four of the six words of a node; `value` is the rank of an inner node. The other two, its owner and its kind, are known where its root
/// is: only an inner node has a left child.
#[derive(Clone, Copy)]
pub(crate) struct Node {
    pub(crate) key: u64,
    pub(crate) left: u64,
    pub(crate) right: u64,
    pub(crate) value: u64,
}

/// Reads the four words of an object.
#[inline(always)]
pub(crate) fn read_node<V: View>(view: &mut V, object: u32) -> Node
    requires { object < length (V.state view.old) }
    ensures node { IsNodeAt (V.state view.old) object result }
    ensures as_before { V.as_before view.old view.new }
{
    let [key, left, right, value] = view.read_four(object, KEY);
    Node {
        key,
        left,
        right,
        value,
    }
}

impl Node {
    /// All words of the root, where the object is the root, and else of an inner node in its tree.
    pub(crate) fn branch_words(self, root: u32, object: u32) -> Words
        ensures { result ≡ branch_words root object self }
    {
        if object == root {
            [0, 0, 0, self.left, 0, 0]
        } else {
            [
                root as u64 + 1,
                2,
                self.key,
                self.left,
                self.right,
                self.value,
            ]
        }
    }

    /// All words of a leaf in the tree of this root.
    pub(crate) fn leaf_words(self, root: u32) -> Words
        ensures { result ≡ leaf_words root self.key self.value }
    {
        [root as u64 + 1, 1, self.key, 0, 0, self.value]
    }
}
