// Objects with names: records of fields in the words of an object.
ghost use Rattle.std.specs.Prelude.{◌≡◌, ℕ, ◌<◌, List, [], ◌∷◌, ◌++◌, length, OnOk, IfErr};
ghost use Rattle.mv_history.specs.Meaning.{state_of, words_at, Lacks};
ghost use Rattle.mv_history.specs.Calls.{GoesOn};
ghost use Rattle.section_work.specs.Held.{HasRoom};
ghost use Rattle.section_work.specs.Locking.{Rewritten, Refuses};
ghost use Rattle.mv_client.specs.Records.{Says};

use crate::holding::put;
use mv_history::{Section, View, Words};
use section_work::Refusal;

/// What the words of an object say, as a struct with a name for each field.
///
/// A record's words are [`Record::to_words`], and reading these gives the record back, so no two records have the same
/// words. What becomes of words that no field has is for the record to say: mostly they are 0, and not looked at.
pub trait Record: Copy {
    // The words of a record, and the record that words say.
    ghost words_of: { Self → List ℕ };

    ghost record_of: { List ℕ → Self };

    // Each field has the range of its type.
    ghost is_record: { Self → Type 0 };

    // The words say a record: each field's word is one of its type.
    ghost are_words: { List ℕ → Type 0 };

    /// The words of this record.
    fn to_words(self) -> Words
        ensures words { result ≡ words_of self }
        ensures record { is_record self };

    /// The record that these words say. Only the words of fields must be of their types, so that a client
    /// needs no invariant on the other words.
    fn from_words(words: Words) -> Self
        requires { are_words words }
        ensures { result ≡ record_of words };

    ghost words: { (r : Self) → is_record r → are_words (words_of r) };

    ghost reads_back: { (r : Self) → is_record r → record_of (words_of r) ≡ r };
}

/// The record that the words of an object say, in a view. It never refuses, and takes no memory.
///
/// Where they are the words of a record, it is that record.
pub fn read_record<T: Record, V: View>(view: &mut V, object: u32) -> T
    requires in_range { object < length (V.state view.old) }
    requires words { T.are_words (words_at (V.state view.old) object) }
    ensures record { result ≡ T.record_of (words_at (V.state view.old) object) }
    ensures same { (r : T) → T.is_record r → words_at (V.state view.old) object ≡ T.words_of r → result ≡ r }
    ensures as_before { V.as_before view.old view.new }
{
    T::from_words(view.read(object))
}

/// Holds an object, and gives it the words of this record, as `put` does: the section then reads this record there. It needs
/// room for the object, where that isn't held yet.
///
/// An `Err` says why the lock was refused; the section is then as before.
pub fn put_record<T: Record, S: Section>(
    section: &mut S,
    object: u32,
    value: T,
) -> Result<(), Refusal>
    requires in_range { object < length (state_of (S.section section.old)) }
    requires room { HasRoom (S.section section.old) (object ∷ []) }
    ensures goes_on { GoesOn (S.section section.old) (S.section section.new) }
    ensures says { OnOk result (Says T.are_words T.record_of (words_at (state_of (S.section section.new)) object) value) }
    ensures written { OnOk result
        (Rewritten (S.section section.old) (S.section section.new) (object ∷ []) ((object, T.words_of value) ∷ [])) }
    ensures own { OnOk result
        (Lacks (S.section section.old) object → (S.section section.new).own ≡ (S.section section.old).own ++ (object, T.words_of value) ∷ []) }
    ensures refused { IfErr result (λ refusal. Refuses S.may_refuse S.found_held (S.section section.old) (S.section section.new) (object ∷ []) refusal) }
{
    put(section, object, value.to_words())
}
