// The calls.
ghost use Rattle.std.specs.Prelude.{true, false, ◌≡◌, ℕ, ◌+◌, ◌<◌, ◌≤◌, ◌↔◌, [], ◌∷◌, length, Some};
ghost use Rattle.mv_history.specs.Meaning.{state_of};
ghost use Rattle.set_model.specs.Catalogue.{map_of, has_key, value_of, next_key, with_key, without_key};
ghost use Rattle.set_model.specs.CatalogueOf.{catalogue_of};
ghost use Rattle.set_model.specs.Lawful.{IsLawful};
ghost use Rattle.set_model.specs.Objects.{owner};
ghost use Rattle.list_set.specs.Places.{IsAddPlace, IsDelPlace, IsPutPlace};
ghost use Rattle.section_work.specs.Held.{HasRoom};
ghost use Rattle.list_set.specs.Calls.{Adds, Takes, Puts};
ghost use Rattle.section_work.specs.Locking.{Refuses};
ghost use Rattle.section_work.specs.declared.causes.Refusal.{Refusal};
ghost use Rattle.list_set.specs.declared.answers.SetStep.TheVariants.{Yes, No, Again};
ghost use Rattle.list_set.specs.declared.answers.Removed.TheVariants.{Took, Absent, Again as DelAgain};
ghost use Rattle.hash_set.specs.Buckets.{head_of};

use crate::buckets::{bucket, bucket_of, is_within, lesser};
use list_set::{Fingers, Removed, SetStep};
use mv_history::{Section, View};

/// Whether the set has the key.
///
/// It needs a lawful state and a set, 0 to 9. It reads the objects of the key's bucket up to the
/// key, never refuses, and takes no memory.
pub fn has_in<V: View>(view: &mut V, set: u32, key: u32) -> bool
    requires set_in { set < 10 }
    requires lawful { IsLawful (V.state view.old) }
    ensures has { result ≡ has_key key (map_of (10 + set) (catalogue_of (V.state view.old))) }
    ensures as_before { V.as_before view.old view.new }
{
    has_near(view, &mut Fingers::none(), set, key)
}

/// Whether the set has the key, as `has_in` answers it, by a walk that begins at a finger of the bucket.
pub fn has_near<V: View>(view: &mut V, fingers: &mut Fingers, set: u32, key: u32) -> bool
    requires set_in { set < 10 }
    requires lawful { IsLawful (V.state view.old) }
    ensures has { result ≡ has_key key (map_of (10 + set) (catalogue_of (V.state view.old))) }
    ensures as_before { V.as_before view.old view.new }
{
    let head = bucket_of(set, key);
    list_set::has_near(view, fingers, head, key)
}

/// The value of the key in the set, or `None` exactly where the key is not there.
///
/// It needs what `has_in` needs, and reads and takes as much.
pub fn get_in<V: View>(view: &mut V, set: u32, key: u32) -> Option<u64>
    requires set_in { set < 10 }
    requires lawful { IsLawful (V.state view.old) }
    ensures value { result ≡ value_of key (map_of (10 + set) (catalogue_of (V.state view.old))) }
    ensures as_before { V.as_before view.old view.new }
{
    get_near(view, &mut Fingers::none(), set, key)
}

/// The value of the key in the set, as `get_in` answers it, by a walk that begins at a finger of the bucket.
pub fn get_near<V: View>(view: &mut V, fingers: &mut Fingers, set: u32, key: u32) -> Option<u64>
    requires set_in { set < 10 }
    requires lawful { IsLawful (V.state view.old) }
    ensures value { result ≡ value_of key (map_of (10 + set) (catalogue_of (V.state view.old))) }
    ensures as_before { V.as_before view.old view.new }
{
    let head = bucket_of(set, key);
    list_set::get_near(view, fingers, head, key)
}

/// The least key of the set that is not below `key`, or `None` where each is.
///
/// It needs a lawful state and a set, 0 to 9. It asks the buckets in the order of the least key that each
/// may have, from `key` on: that of `key`, that of the key after it, and so on. It ends before a bucket
/// that can't have a lesser key than was found, and after the sixteenth. Of a bucket it reads the objects
/// up to the first key that is not below `key`. It never refuses, and takes no memory.
pub fn next_in<V: View>(view: &mut V, set: u32, key: u32) -> Option<u32>
    requires set_in { set < 10 }
    requires lawful { IsLawful (V.state view.old) }
    ensures next { result ≡ next_key key (map_of (10 + set) (catalogue_of (V.state view.old))) }
    ensures as_before { V.as_before view.old view.new }
{
    next_near(view, &mut Fingers::none(), set, key)
}

/// The least key of the set that is not below `key`, as `next_in` answers it, by walks that begin at
/// fingers of the buckets.
pub fn next_near<V: View>(view: &mut V, fingers: &mut Fingers, set: u32, key: u32) -> Option<u32>
    requires set_in { set < 10 }
    requires lawful { IsLawful (V.state view.old) }
    ensures next { result ≡ next_key key (map_of (10 + set) (catalogue_of (V.state view.old))) }
    ensures as_before { V.as_before view.old view.new }
{
    let mut least = None;
    for i in 0..16 {
        if is_within(least, key as u64 + i as u64) {
            return least;
        }
        let head = bucket(set, (key % 16 + i) % 16);
        let next = list_set::next_near(view, fingers, head, key);
        least = lesser(least, next);
    }
    least
}

/// How many keys the set has.
///
/// It needs a lawful state and a set, 0 to 9. It reads each object of the sixteen buckets, never
/// refuses, and takes no memory.
pub fn size_in<V: View>(view: &mut V, set: u32) -> u64
    requires set_in { set < 10 }
    requires lawful { IsLawful (V.state view.old) }
    ensures size { result ≡ length (map_of (10 + set) (catalogue_of (V.state view.old))) }
    ensures as_before { V.as_before view.old view.new }
{
    let mut count = 0;
    for i in 0..16 {
        count += list_set::size_in(view, bucket(set, i));
    }
    count
}

/// Adds the key, with this value, to the set, in a vacant node.
///
/// It needs a lawful state, a set, 0 to 9, and an object from 180 on that is vacant in the section's
/// state. It locks two objects, the key's predecessor, which is the head of its bucket or a node
/// there, and the vacant node, and needs room for those of them that are not held yet: as many free
/// slots in the seat's log, and as many objects less than `write_max` held. It takes no memory.
///
/// - `No` exactly where the key is there, with whatever value; then nothing changes.
/// - `Yes`: both objects are held, and the section's state is lawful, with the key and its value
///   added. Only the predecessor's link and the words of the node changed.
/// - `Again` only where the key is not there and the lock of one of the two was refused, with
///   `Busy` or `Stale`, which the refusal carries. The predecessor, if its lock was had, stays held.
///   The section's state is as before. Over the plain store it never comes.
pub fn add_in<S: Section>(section: &mut S, set: u32, key: u32, value: u64, node: u32) -> SetStep
    requires set_in { set < 10 }
    requires lawful { IsLawful (state_of (S.section section.old)) }
    requires node_in { 180 ≤ node }
    requires in_range { node < length (state_of (S.section section.old)) }
    requires vacant { owner (state_of (S.section section.old)) node ≡ 0 }
    requires room { (previous : ℕ) → IsAddPlace (state_of (S.section section.old)) (head_of set key) key previous
        → HasRoom (S.section section.old) (previous ∷ node ∷ []) }
    ensures no { (result ≡ No) ↔ (has_key key (map_of (10 + set) (catalogue_of (state_of (S.section section.old)))) ≡ true) }
    ensures unchanged { result ≡ No → S.as_before section.old section.new }
    ensures yes { result ≡ Yes → Adds (S.section section.old) (S.section section.new) (head_of set key) key value node }
    ensures catalogue { result ≡ Yes
        → catalogue_of (state_of (S.section section.new)) ≡ with_key (10 + set) key value (catalogue_of (state_of (S.section section.old))) }
    ensures again { (refusal : Refusal) → result ≡ Again refusal
        → (previous : ℕ) × IsAddPlace (state_of (S.section section.old)) (head_of set key) key previous
        × Refuses S.may_refuse S.found_held (S.section section.old) (S.section section.new) (previous ∷ node ∷ []) refusal }
{
    let head = bucket_of(set, key);
    list_set::add_in(section, head, key, value, node)
}

/// Gives the key, which is in the set, this value.
///
/// It needs a lawful state, a set, 0 to 9, and the key in it. It locks one object, the key's node,
/// and needs room for it where it is not held yet: a free slot in the seat's log, and fewer objects
/// than `write_max` held. It takes no memory.
///
/// - `No` exactly where the key has this value already; then nothing changes.
/// - `Yes`: the node is held, and the section's state is lawful, with the key at this value. Only
///   the value in the words of the node changed.
/// - `Again` only where the key has another value and the lock of the node was refused, with `Busy`
///   or `Stale`, which the refusal carries. The section's state is as before. Over the plain store it
///   never comes.
pub fn put_in<S: Section>(section: &mut S, set: u32, key: u32, value: u64) -> SetStep
    requires set_in { set < 10 }
    requires lawful { IsLawful (state_of (S.section section.old)) }
    requires present { has_key key (map_of (10 + set) (catalogue_of (state_of (S.section section.old)))) ≡ true }
    requires room { (node : ℕ) → IsPutPlace (state_of (S.section section.old)) (head_of set key) key node
        → HasRoom (S.section section.old) (node ∷ []) }
    ensures no { (result ≡ No) ↔ (value_of key (map_of (10 + set) (catalogue_of (state_of (S.section section.old)))) ≡ Some value) }
    ensures unchanged { result ≡ No → S.as_before section.old section.new }
    ensures yes { result ≡ Yes → Puts (S.section section.old) (S.section section.new) (head_of set key) key value }
    ensures catalogue { result ≡ Yes
        → catalogue_of (state_of (S.section section.new)) ≡ with_key (10 + set) key value (catalogue_of (state_of (S.section section.old))) }
    ensures again { (refusal : Refusal) → result ≡ Again refusal → (node : ℕ) × IsPutPlace (state_of (S.section section.old)) (head_of set key) key node
        × Refuses S.may_refuse S.found_held (S.section section.old) (S.section section.new) (node ∷ []) refusal }
{
    let head = bucket_of(set, key);
    list_set::put_in(section, head, key, value)
}

/// Takes the key out of the set.
///
/// It needs a lawful state and a set, 0 to 9. It locks two objects, the key's node and its
/// predecessor, which is the head of its bucket or a node there, and needs room for those of them
/// that are not held yet: as many free slots in the seat's log, and as many objects less than
/// `write_max` held. It takes no memory.
///
/// - `Absent` exactly where the key is not there; then nothing changes.
/// - `Took`: both objects are held, and the section's state is lawful, without the key. Its node is
///   vacant, all zero, and else only the predecessor's link changed. `inner` is 0.
/// - `Again` only where the key is there and the lock of one of the two was refused, with `Busy` or
///   `Stale`, which the refusal carries. The predecessor, if its lock was had, stays held. The
///   section's state is as before. Over the plain store it never comes.
pub fn del_in<S: Section>(section: &mut S, set: u32, key: u32) -> Removed
    requires set_in { set < 10 }
    requires lawful { IsLawful (state_of (S.section section.old)) }
    requires room { (previous node : ℕ) → IsDelPlace (state_of (S.section section.old)) (head_of set key) key previous node
        → HasRoom (S.section section.old) (previous ∷ node ∷ []) }
    ensures absent { (result ≡ Absent) ↔ (has_key key (map_of (10 + set) (catalogue_of (state_of (S.section section.old)))) ≡ false) }
    ensures unchanged { result ≡ Absent → S.as_before section.old section.new }
    ensures took { (node inner : ℕ) → result ≡ Took node inner
        → (inner ≡ 0) × Takes (S.section section.old) (S.section section.new) (head_of set key) key node }
    ensures catalogue { (node inner : ℕ) → result ≡ Took node inner
        → catalogue_of (state_of (S.section section.new)) ≡ without_key (10 + set) key (catalogue_of (state_of (S.section section.old))) }
    ensures again { (refusal : Refusal) → result ≡ DelAgain refusal
        → (previous node : ℕ) × IsDelPlace (state_of (S.section section.old)) (head_of set key) key previous node
        × Refuses S.may_refuse S.found_held (S.section section.old) (S.section section.new) (previous ∷ node ∷ []) refusal }
{
    let head = bucket_of(set, key);
    list_set::del_in(section, head, key)
}
