// What a call on a seat of objects tells C. There is no answer where the seat is closed.
ghost use Rattle.std.specs.Prelude.{◌≡◌};
ghost use Rattle.c_answers.specs.Counted.{counts_in};
ghost use Rattle.c_answers.specs.ObjectsTold.{where_open, told, pair_told, live_told, object_told, next_told, refused_by, time_told};
ghost use Rattle.c_answers.specs.Statuses.{status_of_lock, status_of_room, status_of_vacant, status_of_commit, done, told_by};

use crate::counts::{MvrluCounts, counts_of};
use crate::status::{Status, of_commit, of_lock, of_misuse, of_room};
use log_reclaim::Tidy;
use mv_history::{LockAnswer, LogTable, Room};
use object_seats::{CommitResult, Misuse, Vacancy};

/// The status of a call that has nothing to tell but that it was made.
pub fn tell_made(answer: Option<Result<(), Misuse>>) -> Status
    ensures { result ≡ told_by done answer }
{
    match answer {
        None => Status::Closed,
        Some(Err(why)) => of_misuse(why),
        Some(Ok(())) => Status::Done,
    }
}

/// The status of a call that answers a value. The value is written into `value`.
#[inline(always)]
pub fn tell_value<T: Drop>(answer: Option<Result<T, Misuse>>, value: &mut T) -> Status
    ensures status { result ≡ told_by done answer }
    ensures value { value.new ≡ where_open told value.old answer }
{
    match answer {
        None => Status::Closed,
        Some(Err(why)) => of_misuse(why),
        Some(Ok(read)) => {
            *value = read;
            Status::Done
        }
    }
}

/// The status of reading two words, which are written into `words`.
pub fn tell_pair(answer: Option<Result<(u64, u64), Misuse>>, words: &mut [u64; 2]) -> Status
    ensures status { result ≡ told_by done answer }
    ensures words { words.new ≡ where_open pair_told words.old answer }
{
    match answer {
        None => Status::Closed,
        Some(Err(why)) => of_misuse(why),
        Some(Ok((first, second))) => {
            *words = [first, second];
            Status::Done
        }
    }
}

/// The status of reclaiming. How many slots are live is written into `live`.
pub fn tell_live(answer: Option<Result<Tidy, Misuse>>, live: &mut u32) -> Status
    ensures status { result ≡ told_by done answer }
    ensures live { live.new ≡ where_open live_told live.old answer }
{
    match answer {
        None => Status::Closed,
        Some(Err(why)) => of_misuse(why),
        Some(Ok(tidy)) => {
            *live = tidy.live;
            Status::Done
        }
    }
}

/// The status of counting. The counts are written into `counts`.
pub fn tell_counts(answer: Option<Result<LogTable, Misuse>>, counts: &mut MvrluCounts) -> Status
    ensures status { result ≡ told_by done answer }
    ensures counts { counts.new ≡ where_open counts_in counts.old answer }
{
    match answer {
        None => Status::Closed,
        Some(Err(why)) => of_misuse(why),
        Some(Ok(log)) => {
            *counts = counts_of(log);
            Status::Done
        }
    }
}

/// The status of making room.
pub fn tell_room(answer: Option<Result<Room, Misuse>>) -> Status
    ensures { result ≡ told_by status_of_room answer }
{
    match answer {
        None => Status::Closed,
        Some(Err(why)) => of_misuse(why),
        Some(Ok(room)) => of_room(room),
    }
}

/// The status of a try to lock. What refused it is written into `by`.
pub fn tell_lock(answer: Option<Result<LockAnswer, Misuse>>, by: &mut u64) -> Status
    ensures status { result ≡ told_by status_of_lock answer }
    ensures by { by.new ≡ refused_by by.old answer }
{
    match answer {
        None => Status::Closed,
        Some(Err(why)) => of_misuse(why),
        Some(Ok(locked)) => {
            match locked {
                LockAnswer::Busy { seat } => *by = seat as u64,
                LockAnswer::Stale { time } => *by = time,
                LockAnswer::Held | LockAnswer::SetFull | LockAnswer::LogFull => {}
            }
            of_lock(locked)
        }
    }
}

/// The status of a look for a vacant object. Where one was found it is written into `object`, and where the next look may
/// begin into `hint`.
pub fn tell_vacant(
    answer: Option<Result<Option<Vacancy>, Misuse>>,
    hint: &mut u32,
    object: &mut u32,
) -> Status
    ensures status { result ≡ told_by status_of_vacant answer }
    ensures hint { hint.new ≡ next_told hint.old answer }
    ensures object { object.new ≡ object_told object.old answer }
{
    match answer {
        None => Status::Closed,
        Some(Err(why)) => of_misuse(why),
        Some(Ok(None)) => Status::Full,
        Some(Ok(Some(found))) => {
            *hint = found.next;
            *object = found.object;
            of_lock(found.lock)
        }
    }
}

/// The status of a commit. Its time, or that of the entry that came first, is written into `time`.
pub fn tell_commit(answer: Option<Result<CommitResult, Misuse>>, time: &mut u64) -> Status
    ensures status { result ≡ told_by status_of_commit answer }
    ensures time { time.new ≡ time_told time.old answer }
{
    match answer {
        None => Status::Closed,
        Some(Err(why)) => of_misuse(why),
        Some(Ok(end)) => {
            match end {
                CommitResult::Done(at) => *time = at,
                CommitResult::Again(rival) => *time = rival.time,
                CommitResult::End => {}
            }
            of_commit(end)
        }
    }
}
