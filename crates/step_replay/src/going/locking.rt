// Behind the steps that build a version and lock its object, and those that write its words.
ghost use Rattle.std.specs.Prelude.{◌≡◌};
ghost use Rattle.replay_text.specs.replay_rules.declared.seats.Then.TheVariants.{Goes};
ghost use Rattle.replay_text.specs.replay_rules.declared.seats.NextStep.TheVariants.{Locks};
ghost use Rattle.replay_text.specs.replay_rules.GoesOn.{after_field, after_lock_head, after_locking, after_writing};

use super::walking::refusal;
use mv_history::{LockAnswer, Words};
use replay_text::replay_rules::{CallAnswer, Locking, NextStep, NotedVersion, Then};

fn lock(version: NotedVersion, at: usize, next: Locking) -> Then
    ensures { result ≡ Goes (Locks version at next) }
{
    Then::Goes(NextStep::Locks { version, at, next })
}

// The field behind one, if there is one. Only the first slot of a write set has a stamp.
fn after_field(version: NotedVersion, at: usize, field: u32) -> Then
    ensures { result ≡ after_field version at field }
{
    if field == 0 && version.first != at {
        lock(version, at, Locking::Build { field: 2 })
    } else if field < 9 {
        lock(version, at, Locking::Build { field: field + 1 })
    } else {
        lock(version, at, Locking::LockHead)
    }
}

// A lost exchange looks at the version that it found, or tries once more where the chain was cut.
fn after_lock_head(version: NotedVersion, at: usize, found: u64) -> Then
    ensures { result ≡ after_lock_head version at found }
{
    if found == version.previous {
        return Then::Ends(CallAnswer::Locked(LockAnswer::Held));
    }
    if found == 0 {
        let over = NotedVersion {
            previous: 0,
            ..version
        };
        return lock(over, at, Locking::ClearPrevious);
    }
    lock(version, at, Locking::FoundFirst { link: found })
}

pub(super) fn after_locking(version: NotedVersion, at: usize, step: Locking, found: u64) -> Then
    ensures { result ≡ after_locking step version at found }
{
    match step {
        Locking::Build { field } => after_field(version, at, field),
        Locking::LockHead => after_lock_head(version, at, found),
        Locking::ClearPrevious => lock(version, at, Locking::LockHead),
        Locking::FoundFirst { link } => lock(
            version,
            at,
            Locking::FoundStamp { link, first: found },
        ),
        Locking::FoundStamp { link, first: _ } => refusal(link, found),
    }
}

pub(super) fn after_writing(at: usize, words: Words, word: u32) -> Then
    ensures { result ≡ after_writing at words word }
{
    if word < 5 {
        return Then::Goes(NextStep::Writes {
            at,
            words,
            word: word + 1,
        });
    }
    Then::Ends(CallAnswer::Silent)
}
