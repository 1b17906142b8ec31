// The calls.
ghost use Rattle.std.specs.Prelude.{true, false, ◌≡◌, ℕ, ◌<◌, ◌≤◌, ◌↔◌, [], ◌∷◌, length, Some};
ghost use Rattle.mv_history.specs.Meaning.{state_of};
ghost use Rattle.set_model.specs.Catalogue.{has_key, value_of, next_key};
ghost use Rattle.set_model.specs.CatalogueOf.{map_at};
ghost use Rattle.set_model.specs.Lawful.{IsLawful};
ghost use Rattle.set_model.specs.Lists.{FitsHead};
ghost use Rattle.set_model.specs.Objects.{owner, most_objects};
ghost use Rattle.list_set.specs.Places.{IsAddPlace, IsDelPlace, IsPutPlace};
ghost use Rattle.section_work.specs.Held.{HasRoom};
ghost use Rattle.list_set.specs.Linked.{IsLinked};
ghost use Rattle.list_set.specs.Calls.{Adds, Takes, Puts};
ghost use Rattle.section_work.specs.Locking.{Refuses};
ghost use Rattle.section_work.specs.declared.causes.Refusal.{Refusal};
ghost use Rattle.list_set.specs.declared.answers.SetStep.TheVariants.{Yes, No, Again};
ghost use Rattle.list_set.specs.declared.answers.Removed.TheVariants.{Took, Absent, Again as DelAgain};

use crate::answers::{Removed, SetStep};
use crate::fingers::{Fingers, get_near, has_near, next_near};
use crate::key_window::KEY;
use crate::search::find;
use mv_history::{Section, View};
use section_work::rewrite;
use set_model::word;

/// Whether the list of this head has the key.
///
/// It needs a lawful state and the head of a list or a bucket, 0 to 169. It reads the objects of
/// the list up to the key, never refuses, and takes no memory.
pub fn has_in<V: View>(view: &mut V, head: u32, key: u32) -> bool
    requires head_in { head < 170 }
    requires lawful { IsLawful (V.state view.old) }
    ensures has { result ≡ has_key key (map_at (V.state view.old) head) }
    ensures as_before { V.as_before view.old view.new }
{
    has_near(view, &mut Fingers::none(), head, key)
}

/// The value of the key in the list of this head, or `None` exactly where the key is not there.
///
/// It needs what `has_in` needs, and reads and takes as much.
pub fn get_in<V: View>(view: &mut V, head: u32, key: u32) -> Option<u64>
    requires head_in { head < 170 }
    requires lawful { IsLawful (V.state view.old) }
    ensures value { result ≡ value_of key (map_at (V.state view.old) head) }
    ensures as_before { V.as_before view.old view.new }
{
    get_near(view, &mut Fingers::none(), head, key)
}

/// The least key of the list of this head that is not below `key`, or `None` where each is.
///
/// It needs what `has_in` needs, and reads and takes as much.
pub fn next_in<V: View>(view: &mut V, head: u32, key: u32) -> Option<u32>
    requires head_in { head < 170 }
    requires lawful { IsLawful (V.state view.old) }
    ensures next { result ≡ next_key key (map_at (V.state view.old) head) }
    ensures as_before { V.as_before view.old view.new }
{
    next_near(view, &mut Fingers::none(), head, key)
}

/// How many keys the list of this head has.
///
/// It needs a lawful state and the head of a list or a bucket, 0 to 169. It reads each object of
/// the list, never refuses, and takes no memory.
pub fn size_in<V: View>(view: &mut V, head: u32) -> u64
    requires head_in { head < 170 }
    requires lawful { IsLawful (V.state view.old) }
    ensures size { result ≡ length (map_at (V.state view.old) head) }
    ensures as_before { V.as_before view.old view.new }
{
    size_linked(view, head)
}

/// How many keys the list has of any head that leads with rising keys through all nodes that name it,
/// whatever else the state has.
///
/// It needs such a head, and at most 16,777,216 objects. It reads as `size_in` does.
pub fn size_linked<V: View>(view: &mut V, head: u32) -> u64
    requires linked { IsLinked (V.state view.old) head }
    requires few { length (V.state view.old) ≤ most_objects }
    ensures size { result ≡ length (map_at (V.state view.old) head) }
    ensures as_before { V.as_before view.old view.new }
{
    let (_, mut node) = view.read_pair(head, KEY);
    let mut count = 0;
    while node != 0 {
        let (_, next) = view.read_pair(node as u32, KEY);
        node = next;
        count += 1;
    }
    count
}

/// Adds the key, with this value, to the list of this head, in a vacant node.
///
/// It needs a lawful state, the head of a list or a bucket, 0 to 169, and an object from 180 on that
/// is vacant in the section's state. Where the head is that of bucket b, `key % 16` must be b. It
/// locks two objects, the key's predecessor, which is the head or a node of its list, and the vacant
/// node, and needs room for those of them that are not held yet: as many free slots in the seat's
/// log, and as many objects less than `write_max` held. It reads as much as `has_in`, and takes no
/// memory.
///
/// - `No` exactly where the key is there, with whatever value; then nothing changes.
/// - `Yes`: both objects are held, and the section's state is lawful, with the key and its value
///   added. Only the predecessor's link and the words of the node changed.
/// - `Again` only where the key is not there and the lock of one of the two was refused, with
///   `Busy` or `Stale`, which the refusal carries. The predecessor, if its lock was had, stays held.
///   The section's state is as before. Over the plain store it never comes.
pub fn add_in<S: Section>(section: &mut S, head: u32, key: u32, value: u64, node: u32) -> SetStep
    requires head_in { head < 170 }
    requires fits { FitsHead head key }
    requires lawful { IsLawful (state_of (S.section section.old)) }
    requires node_in { 180 ≤ node }
    requires in_range { node < length (state_of (S.section section.old)) }
    requires vacant { owner (state_of (S.section section.old)) node ≡ 0 }
    requires room { (previous : ℕ) → IsAddPlace (state_of (S.section section.old)) head key previous
        → HasRoom (S.section section.old) (previous ∷ node ∷ []) }
    ensures no { (result ≡ No) ↔ (has_key key (map_at (state_of (S.section section.old)) head) ≡ true) }
    ensures unchanged { result ≡ No → S.as_before section.old section.new }
    ensures yes { result ≡ Yes → Adds (S.section section.old) (S.section section.new) head key value node }
    ensures again { (refusal : Refusal) → result ≡ Again refusal → (previous : ℕ) × IsAddPlace (state_of (S.section section.old)) head key previous
        × Refuses S.may_refuse S.found_held (S.section section.old) (S.section section.new) (previous ∷ node ∷ []) refusal }
{
    let window = find(section, head, key);
    if window.has(key) {
        return SetStep::No;
    }
    match rewrite(section, &window.add_writes(head, key, value, node)) {
        Ok(()) => SetStep::Yes,
        Err(refusal) => SetStep::Again(refusal),
    }
}

/// Gives the key, which is in the list of this head, this value.
///
/// It needs a lawful state, the head of a list or a bucket, 0 to 169, and the key in its list. It
/// locks one object, the key's node, and needs room for it where it is not held yet: a free slot in
/// the seat's log, and fewer objects than `write_max` held. It reads as much as `has_in`, and takes
/// no memory.
///
/// - `No` exactly where the key has this value already; then nothing changes.
/// - `Yes`: the node is held, and the section's state is lawful, with the key at this value. Only
///   the value in the words of the node changed.
/// - `Again` only where the key has another value and the lock of the node was refused, with `Busy`
///   or `Stale`, which the refusal carries. The section's state is as before. Over the plain store it
///   never comes.
pub fn put_in<S: Section>(section: &mut S, head: u32, key: u32, value: u64) -> SetStep
    requires head_in { head < 170 }
    requires lawful { IsLawful (state_of (S.section section.old)) }
    requires present { has_key key (map_at (state_of (S.section section.old)) head) ≡ true }
    requires room { (node : ℕ) → IsPutPlace (state_of (S.section section.old)) head key node → HasRoom (S.section section.old) (node ∷ []) }
    ensures no { (result ≡ No) ↔ (value_of key (map_at (state_of (S.section section.old)) head) ≡ Some value) }
    ensures unchanged { result ≡ No → S.as_before section.old section.new }
    ensures yes { result ≡ Yes → Puts (S.section section.old) (S.section section.new) head key value }
    ensures again { (refusal : Refusal) → result ≡ Again refusal → (node : ℕ) × IsPutPlace (state_of (S.section section.old)) head key node
        × Refuses S.may_refuse S.found_held (S.section section.old) (S.section section.new) (node ∷ []) refusal }
{
    let window = find(section, head, key);
    if window.node_words[word::VALUE] == value {
        return SetStep::No;
    }
    match rewrite(section, &window.put_writes(value)) {
        Ok(()) => SetStep::Yes,
        Err(refusal) => SetStep::Again(refusal),
    }
}

/// Takes the key out of the list of this head.
///
/// It needs a lawful state and the head of a list or a bucket, 0 to 169. It locks two objects, the
/// key's node and its predecessor, which is the head or a node of the list, and needs room for those
/// of them that are not held yet: as many free slots in the seat's log, and as many objects less
/// than `write_max` held. It reads as much as `has_in`, and takes no memory.
///
/// It writes the node that it takes out, and not only the node before it, so that an add or a del
/// of another seat at that node meets it, and one of the two is refused.
///
/// - `Absent` exactly where the key is not there; then nothing changes.
/// - `Took`: both objects are held, and the section's state is lawful, without the key. Its node is
///   vacant, all zero, and else only the predecessor's link changed. `inner` is 0.
/// - `Again` only where the key is there and the lock of one of the two was refused, with `Busy` or
///   `Stale`, which the refusal carries. The predecessor, if its lock was had, stays held. The
///   section's state is as before. Over the plain store it never comes.
pub fn del_in<S: Section>(section: &mut S, head: u32, key: u32) -> Removed
    requires head_in { head < 170 }
    requires lawful { IsLawful (state_of (S.section section.old)) }
    requires room { (previous node : ℕ) → IsDelPlace (state_of (S.section section.old)) head key previous node
        → HasRoom (S.section section.old) (previous ∷ node ∷ []) }
    ensures absent { (result ≡ Absent) ↔ (has_key key (map_at (state_of (S.section section.old)) head) ≡ false) }
    ensures unchanged { result ≡ Absent → S.as_before section.old section.new }
    ensures took { (node inner : ℕ) → result ≡ Took node inner → (inner ≡ 0) × Takes (S.section section.old) (S.section section.new) head key node }
    ensures again { (refusal : Refusal) → result ≡ DelAgain refusal
        → (previous node : ℕ) × IsDelPlace (state_of (S.section section.old)) head key previous node
        × Refuses S.may_refuse S.found_held (S.section section.old) (S.section section.new) (previous ∷ node ∷ []) refusal }
{
    let window = find(section, head, key);
    if !window.has(key) {
        return Removed::Absent;
    }
    match rewrite(section, &window.del_writes()) {
        Ok(()) => Removed::Took {
            node: window.node,
            inner: 0,
        },
        Err(refusal) => Removed::Again(refusal),
    }
}
