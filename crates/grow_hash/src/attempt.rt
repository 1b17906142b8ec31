// What attempts on a growing hash set answer.
use section_work::{Cause, Place};
use set_model::Reply;

/// What an attempt of a command on a growing hash set answers.
#[derive(Clone, Copy, Debug, PartialEq, Eq)]
pub enum GrowStep {
    /// The command took place there, with this reply.
    Done { reply: Reply, place: Place },
    /// The change that the command makes was given up. In a new attempt it may go through.
    Again(Cause),
}
