// What a growing hash set has.
ghost use Rattle.std.specs.Prelude.{◌≡◌, ◌<◌, ◌≤◌, ℕ, length, min, MatchOption};
ghost use Rattle.set_model.specs.Catalogue.{next_key};
ghost use Rattle.list_set.specs.Windows.{EndsHere};
ghost use Rattle.grow_hash.specs.Tables.{grow_levels, most_levels};
ghost use Rattle.grow_hash.specs.Grown.{IsGrown, first_grown, grown_map};
ghost use Rattle.grow_hash.specs.GrowPlans.{head_of, IsFree};
ghost use Rattle.set_model.specs.Objects.{most_objects};

use crate::mixing::hash;
use crate::table::{bucket_of, buckets, first_node, table_of};
use list_set::{Window, find_linked, size_linked};
use mv_history::View;
use set_model::word;

// The number of the name `h0`, which is that of the set.
pub(crate) const NAME: u32 = 10;

// Where the search for a key ended, in the bucket of this head.
#[derive(Clone, Copy)]
pub(crate) struct Search {
    pub head: u32,
    pub window: Window,
}

// Searches the bucket of the key.
pub(crate) fn find<const LEVELS: u32, V: View>(view: &mut V, key: u32) -> Search
    requires lawful { IsGrown LEVELS (V.state view.old) }
    ensures head { result.head ≡ head_of LEVELS (V.state view.old) key }
    ensures window { EndsHere (V.state view.old) (head_of LEVELS (V.state view.old) key) key result.window }
    ensures as_before { V.as_before view.old view.new }
{
    let (level, place) = table_of::<LEVELS, V>(view);
    let number = hash(LEVELS, key as u64);
    let head = bucket_of(level, place, number) + 1;
    let window = find_linked(view, head, key);
    Search { head, window }
}

// The number of keys. It reads each object of each list.
pub(crate) fn size<const LEVELS: u32, V: View>(view: &mut V) -> u64
    requires lawful { IsGrown LEVELS (V.state view.old) }
    ensures size { result ≡ length (grown_map LEVELS (V.state view.old)) }
    ensures as_before { V.as_before view.old view.new }
{
    let (level, place) = table_of::<LEVELS, V>(view);
    let mut count = 0;
    for bucket in 0..buckets(level, place) {
        count += size_linked(view, bucket + 1);
    }
    count
}

// The least key that is not below this one. It searches each bucket.
pub(crate) fn next<const LEVELS: u32, V: View>(view: &mut V, key: u32) -> Option<u32>
    requires lawful { IsGrown LEVELS (V.state view.old) }
    ensures next { result ≡ next_key key (grown_map LEVELS (V.state view.old)) }
    ensures as_before { V.as_before view.old view.new }
{
    let (level, place) = table_of::<LEVELS, V>(view);
    let mut least = None;
    for bucket in 0..buckets(level, place) {
        let window = find_linked(view, bucket + 1, key);
        if window.node != 0 {
            least = Some(lesser(least, window.node_words[word::KEY] as u32));
        }
    }
    least
}

// The lesser of two keys, the first of which may be missing.
fn lesser(least: Option<u32>, key: u32) -> u32
    ensures { MatchOption least (result ≡ key) (λ other. result ≡ min other key) }
{
    match least {
        Some(other) => other.min(key),
        None => key,
    }
}

// A vacant node, if there is one. It looks from a node on that depends on the key, and once round, so that
// seats that add different keys seldom want the same node.
pub(crate) fn vacant<const LEVELS: u32, V: View>(view: &mut V, key: u32) -> Option<u32>
    requires least { grow_levels ≤ LEVELS }
    requires most { LEVELS ≤ most_levels }
    requires some { first_grown LEVELS < length (V.state view.old) }
    requires few { length (V.state view.old) ≤ most_objects }
    ensures found { MatchOption result ((o : ℕ) → IsFree LEVELS (V.state view.old) o → ⊥) (IsFree LEVELS (V.state view.old)) }
    ensures as_before { V.as_before view.old view.new }
{
    let objects = view.objects();
    let first = first_node(LEVELS);
    let from = first + key % (objects - first);
    match vacant_between::<LEVELS, V>(view, from, objects) {
        Some(object) => Some(object),
        None => vacant_between::<LEVELS, V>(view, first, from),
    }
}

// The first vacant object of a range of nodes.
fn vacant_between<const LEVELS: u32, V: View>(view: &mut V, from: u32, end: u32) -> Option<u32>
    requires nodes { first_grown LEVELS ≤ from }
    requires within { end ≤ length (V.state view.old) }
    requires few { length (V.state view.old) ≤ most_objects }
    ensures found { MatchOption result ((o : ℕ) → from ≤ o → o < end → IsFree LEVELS (V.state view.old) o → ⊥) (IsFree LEVELS (V.state view.old)) }
    ensures as_before { V.as_before view.old view.new }
{
    for object in from..end {
        if view.read(object)[word::OWNER] == 0 {
            return Some(object);
        }
    }
    None
}
