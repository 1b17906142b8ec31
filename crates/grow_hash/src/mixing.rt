// The number by which a key has its bucket.
ghost use Rattle.std.specs.Prelude.{◌≡◌};
ghost use Rattle.grow_hash.specs.Mixing.{mixed};
ghost use Rattle.grow_hash.specs.Tables.{hash};

use crate::rules::GROW_LEVELS;

// The number of words of 32 bits.
const WORDS: u64 = 1 << 32;

// The key, or in a set that grows beyond the program's the mixed key.
pub(crate) fn hash(levels: u32, key: u64) -> u64
    ensures { result ≡ hash levels key }
{
    if levels > GROW_LEVELS {
        mixed(key)
    } else {
        key
    }
}

// The mixed key, by the finaliser of MurmurHash3 (Appleby, 2011, in the public domain).
fn mixed(key: u64) -> u64
    ensures { result ≡ mixed key }
{
    let first = (key ^ (key >> 16)) % WORDS * 0x85eb_ca6b % WORDS;
    let second = (first ^ (first >> 13)) % WORDS * 0xc2b2_ae35 % WORDS;
    second ^ (second >> 16)
}
