// What a call on a growing set tells C.
ghost use Rattle.std.specs.Prelude.{◌≡◌};
ghost use Rattle.c_answers.specs.TableReplies.{step_told, split_told, untimed};

use crate::replies::{MvrluReply, done_at, given_up};
use crate::status::Status;
use grow_hash::{GrowStep, Split};

/// The reply of an attempt of a command.
pub fn tell_step(step: GrowStep) -> MvrluReply
    ensures { result ≡ step_told step }
{
    match step {
        GrowStep::Done { reply, place } => done_at(reply, place),
        GrowStep::Again(cause) => given_up(cause),
    }
}

/// The reply of a split of a bucket.
pub fn tell_split(split: Split) -> MvrluReply
    ensures { result ≡ split_told split }
{
    match split {
        Split::Done { time } => MvrluReply {
            value: 0,
            time,
            committed: 1,
            second: 0,
            status: Status::Done.code(),
        },
        Split::Whole => untimed(Status::No, 0),
        Split::Long { keys } => untimed(Status::No, keys as u64),
        Split::Worn => untimed(Status::Worn, 0),
        Split::Again(cause) => given_up(cause),
    }
}

// A reply that tells no time.
fn untimed(status: Status, value: u64) -> MvrluReply
    ensures { result ≡ untimed status value }
{
    MvrluReply {
        value,
        time: 0,
        committed: 0,
        second: 0,
        status: status.code(),
    }
}
