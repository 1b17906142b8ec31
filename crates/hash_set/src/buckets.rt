// Where the keys of a set stand.
ghost use Rattle.std.specs.Prelude.{◌≡◌, ◌<◌};
ghost use Rattle.hash_set.specs.Buckets.{bucket_at, head_of, lesser_of, is_within};

// The head of this bucket of a set.
pub fn bucket(set: u32, bucket: u32) -> u32
    requires set_in { set < 10 }
    requires bucket_in { bucket < 16 }
    ensures { result ≡ bucket_at set bucket }
{
    10 + 16 * set + bucket
}

/// The head of the bucket in which the key of a set, 0 to 9, stands. `list_set::find` looks for the
/// key there.
pub fn bucket_of(set: u32, key: u32) -> u32
    requires set_in { set < 10 }
    ensures { result ≡ head_of set key }
{
    bucket(set, key % 16)
}

// The lesser of two keys, or the one that is there.
pub fn lesser(left: Option<u32>, right: Option<u32>) -> Option<u32>
    ensures { result ≡ lesser_of left right }
{
    match (left, right) {
        (Some(left), Some(right)) => Some(if right < left { right } else { left }),
        (left, None) => left,
        (None, right) => right,
    }
}

// Whether there is a key, and it is at most this number.
pub fn is_within(key: Option<u32>, most: u64) -> bool
    ensures { result ≡ is_within key most }
{
    match key {
        Some(key) => key as u64 <= most,
        None => false,
    }
}
