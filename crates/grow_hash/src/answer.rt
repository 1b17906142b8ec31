// What a call that tries to split a bucket answers.
use section_work::Cause;

/// What `try_split` answers.
#[derive(Clone, Copy, Debug, PartialEq, Eq)]
pub enum Split {
    /// The bucket at the split place was split, by one commit of this printed time.
    Done { time: u64 },
    /// All buckets are split: the level is the greatest one, and there are `2^LEVELS` buckets.
    Whole,
    /// The bucket at the split place has this many keys, more than the 61 that a split can write.
    Long { keys: u32 },
    /// No time is left for a commit.
    Worn,
    /// The split was given up. In a new call it may go through.
    Again(Cause),
}
