// The table of a growing hash set.
ghost use Rattle.std.specs.Prelude.{◌≡◌, ◌+◌, ◌%◌, ◌<◌, ◌≤◌};
ghost use Rattle.grow_hash.specs.Tables.{level, split_place, grow_levels, most_levels, most_level, buckets_at, bucket_of, next_table};
ghost use Rattle.grow_hash.specs.Grown.{IsGrown, first_grown};

use mv_history::{View, Words};

// The words of object 0 that say how far the table has grown.
const LEVEL: usize = 2;

const SPLIT_PLACE: usize = 3;

/// The level of the table, 0 to `LEVELS - 4`, and its split place: the set has `16 * 2^level` buckets, and one
/// more for each bucket before the split place.
///
/// It needs a lawful state. It reads one object, never refuses, and takes no memory.
pub fn table_of<const LEVELS: u32, V: View>(view: &mut V) -> (u32, u32)
    requires lawful { IsGrown LEVELS (V.state view.old) }
    ensures level { result.0 ≡ level (V.state view.old) }
    ensures place { result.1 ≡ split_place (V.state view.old) }
    ensures as_before { V.as_before view.old view.new }
{
    let words = view.read(0);
    (words[LEVEL] as u32, words[SPLIT_PLACE] as u32)
}

// The number of buckets with which the level begins.
pub(crate) fn buckets_at(level: u32) -> u32
    requires level { level ≤ most_level most_levels }
    ensures { result ≡ buckets_at level }
{
    16 << level
}

// The words of the table once the bucket at this place is split.
pub(crate) fn next_table(level: u32, place: u32) -> Words
    requires level { level ≤ most_level most_levels }
    requires place { place < buckets_at level }
    ensures { result ≡ next_table level place }
{
    if place + 1 == buckets_at(level) {
        [0, 0, level as u64 + 1, 0, 0, 0]
    } else {
        [0, 0, level as u64, place as u64 + 1, 0, 0]
    }
}

// The number of buckets of a table.
pub(crate) fn buckets(level: u32, place: u32) -> u32
    requires level { level ≤ most_level most_levels }
    requires place { place < buckets_at level }
    ensures { result ≡ buckets_at level + place }
{
    buckets_at(level) + place
}

// The bucket of a key with this hash, where the buckets before this place are split.
pub(crate) fn bucket_of(level: u32, place: u32, hash: u64) -> u32
    requires level { level ≤ most_level most_levels }
    ensures { result ≡ bucket_of level place hash }
{
    let buckets = buckets_at(level);
    let bucket = remainder(hash, buckets);
    if bucket < place {
        remainder(hash, 2 * buckets)
    } else {
        bucket
    }
}

// The remainder of a hash.
fn remainder(hash: u64, buckets: u32) -> u32
    requires some { 0 < buckets }
    ensures { result ≡ hash % buckets }
{
    (hash % buckets as u64) as u32
}

// The greatest level.
pub(crate) fn most_level(levels: u32) -> u32
    requires least { grow_levels ≤ levels }
    ensures { result ≡ most_level levels }
{
    levels - 4
}

// The object that is the first node. Object 0 is the table, and the others are heads of buckets.
pub(crate) fn first_node(levels: u32) -> u32
    requires least { grow_levels ≤ levels }
    requires most { levels ≤ most_levels }
    ensures { result ≡ first_grown levels }
{
    let most = most_level(levels);
    let heads = buckets_at(most);
    heads + 1
}
