// Calls for a section.
ghost use Rattle.object_seats.specs.Positions.{IsOf, aborts_at};
ghost use Rattle.object_seats.specs.Calls.{Reads, ReadsPair, Locks, Writes, Commits, Aborts, Leaves, TellsTime};
ghost use Rattle.std.specs.Prelude.{◌≡◌};

use crate::position::{CommitResult, Misuse, Position};
use mv_history::{AnyRules, CommitAnswer, LockAnswer, Section, Tag, View, Words};
use mvrlu::Domain;

const LAST_PAIR: u32 = 4;

// The words of an object in the section's state.
#[inline(always)]
pub(crate) fn read_in(
    domain: &Domain<AnyRules>,
    position: Position,
    object: u32,
) -> (Position, Result<Words, Misuse>)
    requires of { IsOf domain.now position }
    ensures of { IsOf domain.now result.0 }
    ensures reads { Reads position object result.0 result.1 }
    ensures aborts { aborts_at result.0 ≡ aborts_at position }
{
    match position {
        Position::Outside(seat) => (Position::Outside(seat), Err(Misuse::Outside)),
        Position::Inside(section) => {
            let mut session = domain.resume(section);
            if object >= session.objects() {
                return (Position::Inside(session.park()), Err(Misuse::Object));
            }
            let words = session.read(object);
            (Position::Inside(session.park()), Ok(words))
        }
    }
}

// Two words of an object, one after the other, in the section's state.
#[inline(always)]
pub(crate) fn read_pair_in(
    domain: &Domain<AnyRules>,
    position: Position,
    object: u32,
    place: u32,
) -> (Position, Result<(u64, u64), Misuse>)
    requires of { IsOf domain.now position }
    ensures of { IsOf domain.now result.0 }
    ensures reads { ReadsPair position object place result.0 result.1 }
    ensures aborts { aborts_at result.0 ≡ aborts_at position }
{
    match position {
        Position::Outside(seat) => (Position::Outside(seat), Err(Misuse::Outside)),
        Position::Inside(section) => {
            let mut session = domain.resume(section);
            if object >= session.objects() {
                return (Position::Inside(session.park()), Err(Misuse::Object));
            }
            if place > LAST_PAIR {
                return (Position::Inside(session.park()), Err(Misuse::Place));
            }
            let pair = session.read_pair(object, place);
            (Position::Inside(session.park()), Ok(pair))
        }
    }
}

// Tries to hold an object.
pub(crate) fn lock_in(
    domain: &Domain<AnyRules>,
    position: Position,
    object: u32,
) -> (Position, Result<LockAnswer, Misuse>)
    requires of { IsOf domain.now position }
    ensures of { IsOf domain.now result.0 }
    ensures locks { Locks position object result.0 result.1 }
    ensures aborts { aborts_at result.0 ≡ aborts_at position }
{
    match position {
        Position::Outside(seat) => (Position::Outside(seat), Err(Misuse::Outside)),
        Position::Inside(section) => {
            let mut session = domain.resume(section);
            if object >= session.objects() {
                return (Position::Inside(session.park()), Err(Misuse::Object));
            }
            let answer = session.try_lock(object);
            (Position::Inside(session.park()), Ok(answer))
        }
    }
}

// Gives a held object these words.
pub(crate) fn write_in(
    domain: &Domain<AnyRules>,
    position: Position,
    object: u32,
    words: Words,
) -> (Position, Result<(), Misuse>)
    requires of { IsOf domain.now position }
    ensures of { IsOf domain.now result.0 }
    ensures writes { Writes position object words result.0 result.1 }
    ensures aborts { aborts_at result.0 ≡ aborts_at position }
{
    match position {
        Position::Outside(seat) => (Position::Outside(seat), Err(Misuse::Outside)),
        Position::Inside(section) => {
            let mut session = domain.resume(section);
            if !session.has_lock(object) {
                return (Position::Inside(session.park()), Err(Misuse::NotLocked));
            }
            session.write(object, words);
            (Position::Inside(session.park()), Ok(()))
        }
    }
}

// Tries to commit what is held.
pub(crate) fn commit_in(
    domain: &Domain<AnyRules>,
    position: Position,
    tag: Tag,
) -> (Position, Result<CommitResult, Misuse>)
    requires of { IsOf domain.now position }
    ensures of { IsOf domain.now result.0 }
    ensures commits { Commits position tag result.0 result.1 }
    ensures aborts { aborts_at result.0 ≡ aborts_at position }
{
    match position {
        Position::Outside(seat) => (Position::Outside(seat), Err(Misuse::Outside)),
        Position::Inside(section) => {
            let session = domain.resume(section);
            if session.held() == 0 {
                return (Position::Inside(session.park()), Err(Misuse::Empty));
            }
            match session.try_commit(tag) {
                CommitAnswer::Done(handle, time) => (
                    Position::Outside(handle.into_seat()),
                    Ok(CommitResult::Done(time)),
                ),
                CommitAnswer::Again(session, rival) => (
                    Position::Inside(session.park()),
                    Ok(CommitResult::Again(rival)),
                ),
                CommitAnswer::End(session) => (
                    Position::Inside(session.park()),
                    Ok(CommitResult::End),
                ),
            }
        }
    }
}

// Gives up what is held.
pub(crate) fn abort_in(
    domain: &Domain<AnyRules>,
    position: Position,
) -> (Position, Result<(), Misuse>)
    requires of { IsOf domain.now position }
    ensures of { IsOf domain.now result.0 }
    ensures aborts { Aborts position result.0 result.1 }
{
    match position {
        Position::Outside(seat) => (Position::Outside(seat), Err(Misuse::Outside)),
        Position::Inside(section) => {
            let handle = domain.resume(section).abort();
            (Position::Outside(handle.into_seat()), Ok(()))
        }
    }
}

// Leaves a section that holds nothing.
#[inline(always)]
pub(crate) fn leave_in(
    domain: &Domain<AnyRules>,
    position: Position,
) -> (Position, Result<(), Misuse>)
    requires of { IsOf domain.now position }
    ensures of { IsOf domain.now result.0 }
    ensures leaves { Leaves position result.0 result.1 }
    ensures aborts { aborts_at result.0 ≡ aborts_at position }
{
    match position {
        Position::Outside(seat) => (Position::Outside(seat), Err(Misuse::Outside)),
        Position::Inside(section) => {
            let session = domain.resume(section);
            if session.held() > 0 {
                return (Position::Inside(session.park()), Err(Misuse::Holding));
            }
            let handle = session.leave();
            (Position::Outside(handle.into_seat()), Ok(()))
        }
    }
}

// The printed time of the section's snapshot.
pub(crate) fn time_in(
    domain: &Domain<AnyRules>,
    position: Position,
) -> (Position, Result<u64, Misuse>)
    requires of { IsOf domain.now position }
    ensures of { IsOf domain.now result.0 }
    ensures tells { TellsTime position result.0 result.1 }
    ensures aborts { aborts_at result.0 ≡ aborts_at position }
{
    match position {
        Position::Outside(seat) => (Position::Outside(seat), Err(Misuse::Outside)),
        Position::Inside(section) => {
            let session = domain.resume(section);
            let time = session.at();
            (Position::Inside(session.park()), Ok(time))
        }
    }
}
