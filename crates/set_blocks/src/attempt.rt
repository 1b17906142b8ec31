// What attempts of blocks answer.
use crate::replies::Replies;
use section_work::{Cause, Place};

/// What an attempt of a block answers.
#[derive(Drop)]
pub enum BlockAttempt {
    /// The block took place there as one, with these replies.
    Done { replies: Replies, place: Place },
    /// The change that the block makes was given up. In a new attempt it may go through.
    Again(Cause),
}
