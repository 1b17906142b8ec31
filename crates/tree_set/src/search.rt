// The search for a key.
ghost use Rattle.std.specs.Prelude.{◌≡◌, ◌≢◌, ◌<◌, ◌≤◌, IfNone, IfSome};
ghost use Rattle.set_model.specs.Lawful.{IsLawful};
ghost use Rattle.set_model.specs.Objects.{link};
ghost use Rattle.set_model.specs.Trees.{Tree, top, Stands};
ghost use Rattle.tree_set.specs.Descents.{HasWords};
ghost use Rattle.tree_set.specs.Walks.{IsDescent, IsSubtree, first_key};

use crate::nodes::{KEY, Node, read_node};
use mv_history::{View, Words};
use set_model::word;

/// Where a search for a key ended: at this leaf. `parent` leads to it, and `grand` to `parent`, where
/// that is not the root. All three have their words here, so that a change is known without another
/// read. `right` is the right child of the last inner node at which the search went left, or 0 where
/// it never did.
#[derive(Clone, Copy)]
pub struct Descent {
    pub grand: u32,
    pub grand_words: Words,
    pub parent: u32,
    pub parent_words: Words,
    pub leaf: u32,
    pub words: Words,
    pub right: u32,
}

/// The leaf where the search for the key ends, or `None` where the tree of this root is empty.
///
/// It needs a lawful state and a root, 170 to 179. It reads the objects from the root down to one
/// leaf, each once, four words of a node and two of the root. It never refuses, and takes no memory.
#[inline(always)]
pub fn find<V: View>(view: &mut V, root: u32, key: u32) -> Option<Descent>
    requires root_from { 170 ≤ root }
    requires root_in { root < 180 }
    requires lawful { IsLawful (V.state view.old) }
    ensures empty { IfNone result (link (V.state view.old) root ≡ 0) }
    ensures descent { IfSome result (λ descent. IsDescent (V.state view.old) root key descent.grand descent.parent descent.leaf descent.right descent.words) }
    ensures words { IfSome result (λ descent. HasWords (V.state view.old) descent) }
    ensures as_before { V.as_before view.old view.new }
{
    let (_, first) = view.read_pair(root, KEY);
    if first == 0 {
        return None;
    }
    Some(descend(view, root, first, key))
}

/// The leaf where the search for the key ends, in a tree that is not empty.
///
/// It needs and reads what `find` does.
pub fn find_leaf<V: View>(view: &mut V, root: u32, key: u32) -> Descent
    requires root_from { 170 ≤ root }
    requires root_in { root < 180 }
    requires lawful { IsLawful (V.state view.old) }
    requires some { link (V.state view.old) root ≢ 0 }
    ensures descent { IsDescent (V.state view.old) root key result.grand result.parent result.leaf result.right result.words }
    ensures words { HasWords (V.state view.old) result }
    ensures as_before { V.as_before view.old view.new }
{
    let (_, first) = view.read_pair(root, KEY);
    descend(view, root, first, key)
}

// The leaf where the search for the key ends, down from the root, which leads to this node.
#[inline(always)]
fn descend<V: View>(view: &mut V, root: u32, first: u64, key: u32) -> Descent
    requires root_from { 170 ≤ root }
    requires root_in { root < 180 }
    requires lawful { IsLawful (V.state view.old) }
    requires first { first ≡ link (V.state view.old) root }
    requires some { first ≢ 0 }
    ensures descent { IsDescent (V.state view.old) root key result.grand result.parent result.leaf result.right result.words }
    ensures words { HasWords (V.state view.old) result }
    ensures as_before { V.as_before view.old view.new }
{
    let top = Node {
        key: 0,
        left: first,
        right: 0,
        value: 0,
    };
    let mut grand = root;
    let mut grand_node = top;
    let mut parent = root;
    let mut parent_node = top;
    let mut leaf = first as u32;
    let mut right = 0;
    let mut node = read_node(view, leaf);
    while node.left != 0 {
        grand = parent;
        grand_node = parent_node;
        parent = leaf;
        parent_node = node;
        if (key as u64) < node.key {
            right = node.right as u32;
            leaf = node.left as u32;
        } else {
            leaf = node.right as u32;
        }
        node = read_node(view, leaf);
    }
    Descent {
        grand,
        grand_words: grand_node.branch_words(root, grand),
        parent,
        parent_words: parent_node.branch_words(root, parent),
        leaf,
        words: node.leaf_words(root),
        right,
    }
}

// The least key of the part of a tree that stands at this node.
pub fn least_key<V: View>(view: &mut V, root: u32, node: u32) -> u32
    requires lawful { IsLawful (V.state view.old) }
    requires subtree { IsSubtree (V.state view.old) root node }
    ensures least { (t : Tree) → Stands (V.state view.old) root t → node ≡ top t → result ≡ first_key t }
    ensures as_before { V.as_before view.old view.new }
{
    let mut least = node;
    let mut words = view.read(least);
    while words[word::KIND] == word::INNER {
        least = words[word::LEFT] as u32;
        words = view.read(least);
    }
    words[word::KEY] as u32
}
