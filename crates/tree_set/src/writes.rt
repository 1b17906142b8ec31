// What a change writes where a search ended.
ghost use Rattle.std.specs.Prelude.{◌≡◌, ◌<◌, ◌≤◌, ◌==◌, if◌then◌else◌, [], ◌∷◌, slice_index_or};
ghost use Rattle.section_work.specs.OwnWrites.{objects_of};
ghost use Rattle.tree_set.specs.Descents.{ArePlantWrites, AreGrowWrites, AreBareWrites, AreCutWrites, ArePutWrites};
ghost use Rattle.tree_set.specs.Places.{redirect, inner_over};

use crate::search::Descent;
use mv_history::Words;
use set_model::word;

// The words with the link that led to one node leading to another one.
fn redirected(words: Words, old: u32, new: u64) -> Words
    ensures { result ≡ redirect words old new }
{
    let mut words = words;
    if words[word::LEFT] == old as u64 {
        words[word::LEFT] = new;
    } else {
        words[word::RIGHT] = new;
    }
    words
}

// The child of an inner node with these words that is not this one.
fn other_child(words: Words, child: u32) -> u64
    ensures { result ≡ (if slice_index_or words 3 0 == child then slice_index_or words 4 0 else slice_index_or words 3 0) }
{
    if words[word::LEFT] == child as u64 {
        words[word::RIGHT]
    } else {
        words[word::LEFT]
    }
}

// The words of an inner node over a new leaf and the leaf beside it, which has the key `other`.
fn over(root: u32, key: u32, new_leaf: u32, other: u64, leaf: u32) -> Words
    requires root_in { root < 180 }
    ensures { result ≡ inner_over root key new_leaf other leaf }
{
    let owner = root as u64 + 1;
    if (key as u64) < other {
        [owner, 2, other, new_leaf as u64, leaf as u64, 0]
    } else {
        [owner, 2, key as u64, leaf as u64, new_leaf as u64, 0]
    }
}

/// The writes of an add of the key, with this value, to the tree of this root, which is empty: the
/// link of the root, and the words of the new leaf.
pub fn tree_add_writes(root: u32, key: u32, value: u64, leaf: u32) -> [(u32, Words); 2]
    requires root_from { 170 ≤ root }
    requires root_in { root < 180 }
    ensures writes { ArePlantWrites root key value leaf result }
    ensures objects { objects_of result ≡ root ∷ leaf ∷ [] }
{
    [
        (root, [0, 0, 0, leaf as u64, 0, 0]),
        (leaf, [root as u64 + 1, 1, key as u64, 0, 0, value]),
    ]
}

impl Descent {
    /// Whether the leaf has this key.
    pub fn has(&self, key: u32) -> bool
        ensures { result ≡ (slice_index_or self.now.words 2 0 == key) }
    {
        self.words[word::KEY] == key as u64
    }

    /// The writes of an add of the key that was looked for, with this value, in these new nodes: the
    /// link of the parent, the leaf as it is, and the words of the new leaf and the new inner node.
    pub fn grow_writes(
        &self,
        root: u32,
        key: u32,
        value: u64,
        leaf: u32,
        inner: u32,
    ) -> [(u32, Words); 4]
        requires root_in { root < 180 }
        ensures writes { AreGrowWrites root key value leaf inner self.now result }
        ensures objects { objects_of result ≡ self.now.parent ∷ self.now.leaf ∷ leaf ∷ inner ∷ [] }
    {
        let parent_words = redirected(self.parent_words, self.leaf, inner as u64);
        let inner_words = over(root, key, leaf, self.words[word::KEY], self.leaf);
        [
            (self.parent, parent_words),
            (self.leaf, self.words),
            (leaf, [root as u64 + 1, 1, key as u64, 0, 0, value]),
            (inner, inner_words),
        ]
    }

    /// The writes of a del of the tree's last leaf: the link of the root, and zeros for the leaf.
    pub fn bare_writes(&self, root: u32) -> [(u32, Words); 2]
        ensures writes { AreBareWrites root self.now result }
        ensures objects { objects_of result ≡ root ∷ self.now.leaf ∷ [] }
    {
        [(root, [0; 6]), (self.leaf, [0; 6])]
    }

    /// The writes of a del of the leaf where the parent is not the root: the link of the
    /// grandparent, which leads to the leaf's sibling, and zeros for the parent and the leaf.
    pub fn tree_del_writes(&self) -> [(u32, Words); 3]
        ensures writes { AreCutWrites self.now result }
        ensures objects { objects_of result ≡ self.now.grand ∷ self.now.parent ∷ self.now.leaf ∷ [] }
    {
        let sibling = other_child(self.parent_words, self.leaf);
        let grand_words = redirected(self.grand_words, self.parent, sibling);
        [
            (self.grand, grand_words),
            (self.parent, [0; 6]),
            (self.leaf, [0; 6]),
        ]
    }

    /// The write of a put of this value: the words of the leaf with the value.
    pub fn put_writes(&self, value: u64) -> [(u32, Words); 1]
        ensures writes { ArePutWrites value self.now result }
        ensures objects { objects_of result ≡ self.now.leaf ∷ [] }
    {
        let mut words = self.words;
        words[word::VALUE] = value;
        [(self.leaf, words)]
    }
}
