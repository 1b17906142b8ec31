// Locks and writes.
ghost use Rattle.std.specs.Prelude.{OnOk, IfErr, ◌≡◌, ◌<◌, ◌∷◌};
ghost use Rattle.section_work.specs.Terms.{true, [], length, are_distinct, AreWithin, Lacks, state_of, GoesOn, LocksWith};
ghost use Rattle.section_work.specs.OwnWrites.{objects_of, with_locks};
ghost use Rattle.section_work.specs.Held.{HasRoom, HoldsMore};
ghost use Rattle.section_work.specs.Attempts.{HasSpace};
ghost use Rattle.section_work.specs.Locking.{IsRefused, Refuses, RefusesWith, Rewritten};

use crate::causes::Refusal;
use mv_history::{LockAnswer, Section, Words};

// Locks one object. On a refusal the section is as before.
fn hold<S: Section>(section: &mut S, object: u32) -> Result<(), Refusal>
    requires in_range { object < length (state_of (S.section section.old)) }
    requires room { HasRoom (S.section section.old) (object ∷ []) }
    ensures held { OnOk result
        (HoldsMore (S.section section.old) (S.section section.new) (object ∷ [])
        (with_locks (state_of (S.section section.old)) (S.section section.old).own (object ∷ []))) }
    ensures refused { IfErr result (λ refusal. IsRefused S.may_refuse S.found_held (S.section section.old) (S.section section.new) object refusal) }
{
    match section.try_lock(object) {
        LockAnswer::Held => Ok(()),
        LockAnswer::Busy { seat } => Err(Refusal::Busy { object, seat }),
        LockAnswer::Stale { time } => Err(Refusal::Stale { object, time }),
        LockAnswer::SetFull | LockAnswer::LogFull => unreachable!(),
    }
}

// Locks one object that isn't held, with these words. On a refusal the section is as before.
fn hold_with<S: Section>(section: &mut S, object: u32, words: Words) -> Result<(), Refusal>
    requires in_range { object < length (state_of (S.section section.old)) }
    requires room { HasRoom (S.section section.old) (object ∷ []) }
    requires lacks { Lacks (S.section section.old) object }
    ensures goes_on { GoesOn (S.section section.old) (S.section section.new) }
    ensures held { OnOk result (LocksWith (S.section section.old) (S.section section.new) object words) }
    ensures refused { IfErr result (λ refusal. IsRefused S.may_refuse S.found_held (S.section section.old) (S.section section.new) object refusal) }
{
    match section.try_lock_with(object, words) {
        LockAnswer::Held => Ok(()),
        LockAnswer::Busy { seat } => Err(Refusal::Busy { object, seat }),
        LockAnswer::Stale { time } => Err(Refusal::Stale { object, time }),
        LockAnswer::SetFull | LockAnswer::LogFull => unreachable!(),
    }
}

// Locks these different objects, in their order, each with the words that are to be committed, in a
// section that holds nothing. After a refusal the objects before it are held with these words, so
// that the section can only be given up.
pub(crate) fn hold_planned<S: Section>(
    section: &mut S,
    changes: &[(u32, Words)],
) -> Result<(), Refusal>
    requires space { HasSpace (length changes.now) (S.section section.old) }
    requires distinct { are_distinct changes.now ≡ true }
    requires within { AreWithin changes.now (length (state_of (S.section section.old))) }
    ensures held { OnOk result (Rewritten (S.section section.old) (S.section section.new) (objects_of changes.now) changes.now) }
    ensures own { OnOk result ((S.section section.new).own ≡ changes.now) }
    ensures refused { IfErr result
        (λ refusal. RefusesWith S.may_refuse S.found_held (S.section section.old) (S.section section.new) changes.now refusal) }
{
    for change in changes {
        hold_with(section, change.0, change.1)?;
    }
    Ok(())
}

/// Locks these different objects, in their order, and then gives them these words.
///
/// It is what a change of a section ends with that goes on after a refused lock. It needs room for those of the objects that are
/// not held yet, and takes no memory. An `Err` carries the first lock that was refused, `Busy` or
/// `Stale`. The objects before it stay held, nothing is written, and the state is as before.
pub fn rewrite<S: Section>(section: &mut S, changes: &[(u32, Words)]) -> Result<(), Refusal>
    requires distinct { are_distinct changes.now ≡ true }
    requires within { AreWithin changes.now (length (state_of (S.section section.old))) }
    requires room { HasRoom (S.section section.old) (objects_of changes.now) }
    ensures written { OnOk result (Rewritten (S.section section.old) (S.section section.new) (objects_of changes.now) changes.now) }
    ensures refused { IfErr result
        (λ refusal. Refuses S.may_refuse S.found_held (S.section section.old) (S.section section.new) (objects_of changes.now) refusal) }
{
    for lock in changes {
        hold(section, lock.0)?;
    }
    for change in changes {
        section.write(change.0, change.1);
    }
    Ok(())
}
