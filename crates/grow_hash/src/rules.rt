// The rules of a growing hash set.

use mv_history::Protocol;

/// The levels of the program's growing set, the least there are: it grows up to 1,024 buckets.
pub const GROW_LEVELS: u32 = 10;

/// The rules of a growing hash set of up to `2^LEVELS` buckets, for 10 to 20 `LEVELS`: they begin with `2^LEVELS + 2` to
/// 16,777,216 objects that are all zero, and each commit is an add or a del that replies yes, or the split of one bucket.
///
/// A commit is allowed exactly where
///
/// 1. the state before it and the state after it are lawful;
/// 2. an object whose owner word is the same in both states and is not 0 keeps its key;
/// 3. its tag is `[1, 10, 0, key]` or `[2, 10, 0, key]`, the add or the del of the key replies yes on
///    the catalogue of the state before, at a place that is not the last time, the catalogue of the
///    state after is the command's, and the table is as before;
/// 4. or its tag is `[7, p, 0, 0]`, p is the split place and the level is below `LEVELS - 4`, the catalogue is as
///    before, the table goes on to the next place, or after the last one to the next level, and the
///    commit writes the table, the heads of both halves and every node of bucket p.
///
/// A split writes every object of its bucket, so it meets each add and del there, which holds one:
/// the predecessor of its key. The second point is what an add needs that was made on an older
/// snapshot: the node behind its predecessor keeps its key.
///
/// With 10 `LEVELS` the bucket of a key is the key modulo their number; with more of them the key is mixed first, so
/// that keys with a common power of two don't meet in one bucket.
pub struct GrowRules<const LEVELS: u32>;

impl<const LEVELS: u32> Protocol for GrowRules<LEVELS> {
    ghost use Rattle.grow_hash.specs.Grown.{IsGrownOpening};
    ghost use Rattle.grow_hash.specs.GrowRules.{IsGrowCommit};
    ghost use Rattle.grow_hash.specs.GrowRuleLaws.{IsGrownOpening-prop, IsGrowCommit-prop};

    ghost start = { IsGrownOpening LEVELS };

    ghost allowed = { IsGrowCommit LEVELS };

    ghost one_start = { IsGrownOpening-prop LEVELS };

    ghost one_allowed = { IsGrowCommit-prop LEVELS };
}

/// Rules under which a growing hash set of up to `2^LEVELS` buckets stands, as [`GrowRules`] are: they begin in no other state than
/// those do, and allow exactly their commits. It is the bound of code that is generic over the levels.
pub trait GrowingRules<const LEVELS: u32>: Protocol {
    ghost use Rattle.std.specs.Prelude.{ℕ, List};
    ghost use Rattle.mv_history.specs.State.{State, Writes};
    ghost use Rattle.grow_hash.specs.Grown.{IsGrownOpening};
    ghost use Rattle.grow_hash.specs.GrowRules.{IsGrowCommit};

    // They begin in no state in which the set can't.
    ghost starts: { (s : State) → Self.start s → IsGrownOpening LEVELS s };

    // They allow the commits of the set,
    ghost allows: { (tag : List ℕ) (before : State) (writes : Writes) → IsGrowCommit LEVELS tag before writes → Self.allowed tag before writes };

    // and no other.
    ghost allowed_grows: { (tag : List ℕ) (before : State) (writes : Writes) → Self.allowed tag before writes → IsGrowCommit LEVELS tag before writes };
}

impl<const LEVELS: u32> GrowingRules<LEVELS> for GrowRules<LEVELS> {
    ghost starts = { λ s begins. begins };

    ghost allows = { λ tag before writes grows. grows };

    ghost allowed_grows = { λ tag before writes grows. grows };
}
