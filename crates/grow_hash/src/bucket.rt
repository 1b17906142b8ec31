// The bucket that is to be split, and what its split writes.
ghost use Rattle.std.specs.Prelude.{◌≡◌, ◌+◌, ◌<◌, ◌≤◌, if◌then◌else◌};
ghost use Rattle.grow_hash.specs.Terms.{length, take, map_at, IsLinked};
ghost use Rattle.grow_hash.specs.Tables.{most_levels, most_level, buckets_at, next_table};
ghost use Rattle.grow_hash.specs.Grown.{most_buckets};
ghost use Rattle.grow_hash.specs.BucketReads.{IsRead, ArePartedWrites, IsMoved};
ghost use Rattle.set_model.specs.Objects.{most_objects};

use crate::mixing::hash;
use crate::table::{buckets_at, next_table};
use mv_history::{View, Words};
use set_model::word;

/// How many keys a bucket has at most that is split: a section may hold 64 objects, and the table and both heads are three of them.
pub(crate) const MOST_SPLIT: u32 = 61;

// The table and both heads come first among the objects that a split writes.
const FIRST: usize = 3;

// How many objects a split writes at most.
const MOST_WRITES: usize = 64;

// The nodes of a bucket with their words, in their order, as many as a split may write, and the number of all its keys.
#[derive(Drop)]
pub(crate) struct Bucket {
    pub nodes: [(u32, Words); MOST_SPLIT as usize],
    pub keys: u32,
    ghost whole: { length nodes ≡ 61 },
}

// The split of the bucket at this place: its writes, in the order of locking, and their number.
#[derive(Drop)]
pub(crate) struct Parted {
    pub place: u32,
    pub writes: [(u32, Words); MOST_WRITES],
    pub count: usize,
    ghost whole: { length writes ≡ 64 },
    ghost few: { count ≤ 64 },
}

// Reads the bucket of this head: each of its objects once.
pub(crate) fn read_bucket<V: View>(view: &mut V, head: u32) -> Bucket
    requires linked { IsLinked (V.state view.old) head }
    requires few { length (V.state view.old) ≤ most_objects }
    ensures keys { result.keys ≡ length (map_at (V.state view.old) head) }
    ensures nodes { result.keys ≤ 61 → IsRead (V.state view.old) head (take result.keys result.nodes) 0 }
    ensures as_before { V.as_before view.old view.new }
{
    let mut nodes = [(0, [0; 6]); MOST_SPLIT as usize];
    let mut keys = 0;
    let mut node = view.read(head)[word::NEXT];
    while node != 0 {
        let object = node as u32;
        let words = view.read(object);
        if keys < MOST_SPLIT {
            nodes[keys as usize] = (object, words);
        }
        node = words[word::NEXT];
        keys += 1;
    }
    Bucket { nodes, keys }
}

// The first of the nodes that stay in their bucket and of those that go, as far as it was parted; 0 where there is none.
#[derive(Drop)]
struct Firsts {
    stay: u32,
    go: u32,
}

impl Firsts {
    // Puts the node before the others of its half, and answers which was the first there.
    fn put(&mut self, stays: bool, node: u32) -> u32
        ensures first { result ≡ (if stays then self.old.stay else self.old.go) }
        ensures stay { self.new.stay ≡ (if stays then node else self.old.stay) }
        ensures go { self.new.go ≡ (if stays then self.old.go else node) }
    {
        if stays {
            let first = self.stay;
            self.stay = node;
            first
        } else {
            let first = self.go;
            self.go = node;
            first
        }
    }
}

// The words of a node in the list of this bucket, where it leads to this node.
fn moved(words: Words, bucket: u64, next: u32) -> Words
    requires bucket { bucket < most_buckets most_levels }
    ensures { IsMoved words bucket next result }
{
    let mut words = words;
    words[word::OWNER] = bucket + 2;
    words[word::NEXT] = next as u64;
    words
}

// What the split of the bucket at this place writes, which has these nodes. It goes through them from the last on.
pub(crate) fn part(levels: u32, level: u32, place: u32, bucket: &Bucket) -> Parted
    requires most { levels ≤ most_levels }
    requires level { level < most_level levels }
    requires place { place < buckets_at level }
    requires few { bucket.now.keys ≤ 61 }
    ensures writes { ArePartedWrites levels level place (take bucket.now.keys bucket.now.nodes) (take result.count result.writes) }
    ensures place { result.place ≡ place }
{
    let buckets = buckets_at(level);
    let mut firsts = Firsts { stay: 0, go: 0 };
    let mut writes = [(0, [0; 6]); MOST_WRITES];
    let mut index = bucket.keys as usize;
    while index > 0 {
        index -= 1;
        let (node, words) = bucket.nodes[index];
        let number = hash(levels, words[word::KEY]);
        let goes_to = number % (2 * buckets) as u64;
        let next = firsts.put(goes_to == place as u64, node);
        writes[FIRST + index] = (node, moved(words, goes_to, next));
    }
    writes[0] = (0, next_table(level, place));
    writes[1] = (place + 1, [0, 0, 0, firsts.stay as u64, 0, 0]);
    writes[2] = (place + buckets + 1, [0, 0, 0, firsts.go as u64, 0, 0]);
    Parted {
        place,
        writes,
        count: FIRST + bucket.keys as usize,
    }
}
