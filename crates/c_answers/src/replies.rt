// What a call on the sets tells C.
ghost use Rattle.std.specs.Prelude.{◌≡◌, if◌then◌else◌};
ghost use Rattle.c_answers.specs.SetReplies.{status_of_reply, status_of_cause, value_told, second_told, culprit_of, reply_told, told_at, given_up_by};

use crate::status::Status;
use section_work::{Cause, Place, Refusal};
use set_catalog::CommandAttempt;
use set_model::Reply;

/// What a command of the sets came to.
#[repr(C)]
#[derive(Clone, Copy)]
pub struct MvrluReply {
    /// What was asked for: the value of a get, the key of a next, the number of a size, and of a pair 1 where the first
    /// set has the key, else 0. Where another seat kept the command from being done: the number of the seat that holds an
    /// object, or the time of the entry that came first. Else 0.
    pub value: u64,
    /// The time of the entry, or of the state that was read. 0 where the command was not done.
    pub time: u64,
    /// 1 where the command is the entry of this time, 0 where it read.
    pub committed: u32,
    /// Of a pair, 1 where the second set has the key. Else 0.
    pub second: u32,
    /// The status of the command.
    pub status: i32,
}

// The reply of a command that took place there.
pub(crate) fn done_at(reply: Reply, place: Place) -> MvrluReply
    ensures { result ≡ told_at reply place }
{
    let (time, committed) = match place {
        Place::Commit(time) => (time, 1),
        Place::Read(time) => (time, 0),
    };
    MvrluReply {
        value: value_of(reply),
        time,
        committed,
        second: second_of(reply),
        status: of_reply(reply).code(),
    }
}

/// The reply of an attempt.
pub fn tell_attempt(answer: CommandAttempt) -> MvrluReply
    ensures { result ≡ reply_told answer }
{
    match answer {
        CommandAttempt::Done { reply, place } => done_at(reply, place),
        CommandAttempt::Again(cause) => given_up(cause),
    }
}

// The reply of a command that was given up.
pub(crate) fn given_up(cause: Cause) -> MvrluReply
    ensures { result ≡ given_up_by cause }
{
    MvrluReply {
        value: culprit(cause),
        time: 0,
        committed: 0,
        second: 0,
        status: of_cause(cause).code(),
    }
}

fn number(holds: bool) -> u32
    ensures { result ≡ (if holds then 1 else 0) }
{
    if holds { 1 } else { 0 }
}

fn value_of(reply: Reply) -> u64
    ensures { result ≡ value_told reply }
{
    match reply {
        Reply::Both { first, second: _ } => number(first) as u64,
        Reply::Count { count } => count,
        Reply::Key { key } => key as u64,
        Reply::Value { value } => value,
        Reply::Yes | Reply::No | Reply::Full | Reply::Worn | Reply::NoKey => 0,
    }
}

fn second_of(reply: Reply) -> u32
    ensures { result ≡ second_told reply }
{
    match reply {
        Reply::Both { first: _, second } => number(second),
        _ => 0,
    }
}

// Who or what came first: the seat that holds an object, or the time of an entry.
fn culprit(cause: Cause) -> u64
    ensures { result ≡ culprit_of cause }
{
    match cause {
        Cause::Lock(Refusal::Busy { object: _, seat }) => seat as u64,
        Cause::Lock(Refusal::Stale { object: _, time }) => time,
        Cause::Rival(rival) => rival.time,
        Cause::LogFull(_) => 0,
    }
}

// The status of a reply.
fn of_reply(reply: Reply) -> Status
    ensures { result ≡ status_of_reply reply }
{
    match reply {
        Reply::Yes
        | Reply::Both { .. }
        | Reply::Count { .. }
        | Reply::Key { .. }
        | Reply::Value { .. } => Status::Done,
        Reply::No | Reply::NoKey => Status::No,
        Reply::Full => Status::Full,
        Reply::Worn => Status::Worn,
    }
}

// The status of a command that was given up.
pub(crate) fn of_cause(cause: Cause) -> Status
    ensures { result ≡ status_of_cause cause }
{
    match cause {
        Cause::Lock(Refusal::Busy { .. }) => Status::Busy,
        Cause::Lock(Refusal::Stale { .. }) => Status::Stale,
        Cause::Rival(_) => Status::Again,
        Cause::LogFull(_) => Status::Short,
    }
}
