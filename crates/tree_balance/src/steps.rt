// The words that a step reads and writes.
ghost use Rattle.std.specs.Prelude.{◌≡◌, ◌<◌, ◌⊎◌, true, slice_index_or};
ghost use Rattle.tree_set.specs.Places.{redirect};
ghost use Rattle.tree_balance.specs.Steps.{lowered, raised, HasInner};

use mv_history::Words;
use set_model::word;

/// A step by which a tree is rebalanced. It changes links and ranks of inner nodes alone.
#[derive(Clone, Copy)]
pub enum BalanceStep {
    /// Gives an inner node this rank.
    Rank { node: u32, rank: u64 },
    /// Lets an inner node take the place of its parent, which is an inner node too, under the
    /// grandparent, an inner node or the root.
    Rotate { grand: u32, parent: u32, child: u32 },
}

// Whether the object, with these words, is an inner node of the tree.
pub(crate) fn is_inner(root: u32, object: u32, words: Words) -> bool
    requires root_in { root < 180 }
    ensures { result ≡ true → HasInner root object words }
{
    if object < 180 {
        return false;
    }
    if words[word::OWNER] != root as u64 + 1 {
        return false;
    }
    words[word::KIND] == word::INNER
}

// Whether these words lead to the child.
pub(crate) fn is_child(words: Words, child: u32) -> bool
    ensures { result ≡ true → (slice_index_or words 3 0 ≡ child) ⊎ (slice_index_or words 4 0 ≡ child) }
{
    words[word::LEFT] == child as u64 || words[word::RIGHT] == child as u64
}

// Whether the root, or an inner node, with these words leads to the child.
pub(crate) fn is_parent(root: u32, object: u32, words: Words, child: u32) -> bool
    requires root_in { root < 180 }
    ensures { result ≡ true → ((object ≡ root) × (slice_index_or words 3 0 ≡ child))
        ⊎ (HasInner root object words × ((slice_index_or words 3 0 ≡ child) ⊎ (slice_index_or words 4 0 ≡ child))) }
{
    if object == root {
        return words[word::LEFT] == child as u64;
    }
    is_inner(root, object, words) && is_child(words, child)
}

// The words with the link that led to one node leading to another one.
pub(crate) fn redirected(words: Words, old: u32, new: u32) -> Words
    ensures { result ≡ redirect words old new }
{
    let mut words = words;
    if words[word::LEFT] == old as u64 {
        words[word::LEFT] = new as u64;
    } else {
        words[word::RIGHT] = new as u64;
    }
    words
}

// The words of the parent after a rotation.
pub(crate) fn lowered(parent: Words, child: u32, words: Words) -> Words
    ensures { result ≡ lowered parent child words }
{
    let mut parent = parent;
    if parent[word::LEFT] == child as u64 {
        parent[word::LEFT] = words[word::RIGHT];
    } else {
        parent[word::RIGHT] = words[word::LEFT];
    }
    parent
}

// The words of the child after a rotation.
pub(crate) fn raised(parent_words: Words, parent: u32, child: u32, words: Words) -> Words
    ensures { result ≡ raised parent_words parent child words }
{
    let mut words = words;
    if parent_words[word::LEFT] == child as u64 {
        words[word::RIGHT] = parent as u64;
    } else {
        words[word::LEFT] = parent as u64;
    }
    words
}
