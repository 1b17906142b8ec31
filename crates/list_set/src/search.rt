// The search for a key, and what a change writes where it ended.
ghost use Rattle.std.specs.Prelude.{◌≡◌, ◌<◌, ◌≤◌, ◌==◌, ◌&&◌, not, [], ◌∷◌, length, slice_index_or};
ghost use Rattle.set_model.specs.Lawful.{IsLawful};
ghost use Rattle.section_work.specs.OwnWrites.{objects_of};
ghost use Rattle.list_set.specs.Linked.{IsLinked};
ghost use Rattle.list_set.specs.Windows.{EndsHere, StopsHere, AreAddWrites, AreDelWrites, ArePutWrites};
ghost use Rattle.set_model.specs.Objects.{most_objects};

use crate::key_window::{KEY, KeyWindow, walk_from};
use mv_history::{View, Words};
use set_model::word;

/// Where a search for a key ended: at the first node whose key is not below the one looked for, or
/// at 0 behind the last node. `previous` is its predecessor, the head or a node. Both have their
/// words here, so that a change is known without another read.
#[derive(Clone, Copy)]
pub struct Window {
    pub previous: u32,
    pub words: Words,
    pub node: u32,
    pub node_words: Words,
}

impl Window {
    /// Whether the node has this key.
    pub fn has(&self, key: u32) -> bool
        ensures { result ≡ (not (self.now.node == 0) && (slice_index_or self.now.node_words 2 0 == key)) }
    {
        self.node != 0 && self.node_words[word::KEY] == key as u64
    }

    /// The writes of an add of the key that was looked for, with this value, in this new node: the
    /// link of the predecessor, and the words of the node.
    pub fn add_writes(&self, head: u32, key: u32, value: u64, node: u32) -> [(u32, Words); 2]
        ensures writes { AreAddWrites head key value node self.now result }
        ensures objects { objects_of result ≡ self.now.previous ∷ node ∷ [] }
    {
        let mut words = self.words;
        words[word::NEXT] = node as u64;
        let node_words = [head as u64 + 1, 0, key as u64, self.node as u64, 0, value];
        [(self.previous, words), (node, node_words)]
    }

    /// The writes of a del of the node: the link of the predecessor, and zeros for the node.
    pub fn del_writes(&self) -> [(u32, Words); 2]
        ensures writes { AreDelWrites self.now result }
        ensures objects { objects_of result ≡ self.now.previous ∷ self.now.node ∷ [] }
    {
        let mut words = self.words;
        words[word::NEXT] = self.node_words[word::NEXT];
        [(self.previous, words), (self.node, [0; 6])]
    }

    /// The write of a put of this value: the words of the node with the value.
    pub fn put_writes(&self, value: u64) -> [(u32, Words); 1]
        ensures writes { ArePutWrites value self.now result }
        ensures objects { objects_of result ≡ self.now.node ∷ [] }
    {
        let mut words = self.node_words;
        words[word::VALUE] = value;
        [(self.node, words)]
    }
}

/// Where the key is, or belongs, in the list of the head.
///
/// It needs a lawful state and the head of a list or a bucket, 0 to 169. It reads the key and the link
/// of each object of the list up to the first node whose key is not below `key`, and then all words of
/// that node and of its predecessor. It never refuses, and takes no memory.
pub fn find<V: View>(view: &mut V, head: u32, key: u32) -> Window
    requires head_in { head < 170 }
    requires lawful { IsLawful (V.state view.old) }
    ensures window { EndsHere (V.state view.old) head key result }
    ensures as_before { V.as_before view.old view.new }
{
    find_linked(view, head, key)
}

/// Where the key is, or belongs, in the list of any head that leads with rising keys through all nodes
/// that name it, whatever else the state has.
///
/// It needs such a head, and at most 16,777,216 objects. It reads as `find` does.
pub fn find_linked<V: View>(view: &mut V, head: u32, key: u32) -> Window
    requires linked { IsLinked (V.state view.old) head }
    requires few { length (V.state view.old) ≤ most_objects }
    ensures window { EndsHere (V.state view.old) head key result }
    ensures as_before { V.as_before view.old view.new }
{
    let (_, link) = view.read_pair(head, KEY);
    let (key_window, _) = walk_from(view, head, key, head, 0, link);
    window_at(view, head, key, key_window)
}

// The window of a walk that ended here: it reads all words of both objects.
pub(crate) fn window_at<V: View>(view: &mut V, head: u32, key: u32, key_window: KeyWindow) -> Window
    requires linked { IsLinked (V.state view.old) head }
    requires few { length (V.state view.old) ≤ most_objects }
    requires stops { StopsHere (V.state view.old) head key key_window }
    ensures window { EndsHere (V.state view.old) head key result }
    ensures as_before { V.as_before view.old view.new }
{
    let KeyWindow { previous, node, .. } = key_window;
    let words = view.read(previous);
    let node_words = if node == 0 { [0; 6] } else { view.read(node) };
    Window {
        previous,
        words,
        node,
        node_words,
    }
}
