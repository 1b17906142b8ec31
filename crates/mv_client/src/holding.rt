// Objects that a section holds.
ghost use Rattle.std.specs.Prelude.{◌≡◌, ℕ, ◌+◌, ◌<◌, ◌≤◌, [], ◌∷◌, ◌++◌, length, OnOk, IfErr};
ghost use Rattle.mv_history.specs.Meaning.{state_of, Holds, Lacks};
ghost use Rattle.mv_history.specs.Calls.{GoesOn};
ghost use Rattle.section_work.specs.Held.{HasRoom};
ghost use Rattle.section_work.specs.Locking.{Rewritten, Refuses, Stops};
ghost use Rattle.mv_client.specs.Locks.{IsAmong, LocksOnly};

use mv_history::{Section, Words};
use section_work::{Refusal, rewrite};

/// Holds an object, and gives it these words. It needs room for the object, where that isn't held yet.
///
/// An `Err` says why the lock was refused; the section is then as before.
pub fn put<T: Section>(section: &mut T, object: u32, words: Words) -> Result<(), Refusal>
    requires in_range { object < length (state_of (T.section section.old)) }
    requires room { HasRoom (T.section section.old) (object ∷ []) }
    ensures goes_on { GoesOn (T.section section.old) (T.section section.new) }
    ensures written { OnOk result (Rewritten (T.section section.old) (T.section section.new) (object ∷ []) ((object, words) ∷ [])) }
    ensures own { OnOk result
        (Lacks (T.section section.old) object → (T.section section.new).own ≡ (T.section section.old).own ++ (object, words) ∷ []) }
    ensures refused { IfErr result (λ refusal. Refuses T.may_refuse T.found_held (T.section section.old) (T.section section.new) (object ∷ []) refusal) }
{
    rewrite(section, &[(object, words)])
}

/// Holds these objects, in their order, with the words that they have: so a commit depends on each of them. An object may be
/// held already. It needs room for as many objects, and takes no memory.
///
/// An `Err` says why the first lock was refused that was. The objects before it stay held; no words are changed.
pub fn lock_all<T: Section>(section: &mut T, objects: &[u32]) -> Result<(), Refusal>
    requires within { (o : ℕ) → IsAmong o objects.now → o < length (state_of (T.section section.old)) }
    requires spare { length objects.now ≤ (T.section section.old).seat.spare }
    requires held { length (T.section section.old).own + length objects.now ≤ (T.section section.old).seat.write_max }
    ensures locks { LocksOnly (T.section section.old) (T.section section.new) objects.now }
    ensures held { OnOk result ((o : ℕ) → IsAmong o objects.now → Holds (T.section section.new) o) }
    ensures refused { IfErr result
        (λ refusal. Stops T.may_refuse T.found_held (λ o. IsAmong o objects.now) (T.section section.old) (T.section section.new) refusal) }
{
    for object in objects {
        let words = section.read(*object);
        put(section, *object, words)?;
    }
    Ok(())
}
