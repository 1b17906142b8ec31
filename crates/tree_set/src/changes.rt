// The calls that change a tree.
ghost use Rattle.std.specs.Prelude.{true, false, ◌≡◌, ◌≢◌, ℕ, ◌<◌, ◌≤◌, ◌↔◌, [], ◌∷◌, length, Some};
ghost use Rattle.mv_history.specs.State.{Writes};
ghost use Rattle.mv_history.specs.Meaning.{state_of};
ghost use Rattle.set_model.specs.Catalogue.{map_of, has_key, value_of};
ghost use Rattle.set_model.specs.CatalogueOf.{name_of, catalogue_of};
ghost use Rattle.set_model.specs.Lawful.{IsLawful};
ghost use Rattle.set_model.specs.Objects.{owner, link};
ghost use Rattle.section_work.specs.OwnWrites.{objects_of};
ghost use Rattle.list_set.specs.Places.{put_writes};
ghost use Rattle.section_work.specs.Held.{HasRoom};
ghost use Rattle.section_work.specs.Locking.{Refuses};
ghost use Rattle.section_work.specs.declared.causes.Refusal.{Refusal};
ghost use Rattle.list_set.specs.declared.answers.SetStep.TheVariants.{Yes, No, Again};
ghost use Rattle.list_set.specs.declared.answers.Removed.TheVariants.{Took, Absent, Again as DelAgain};
ghost use Rattle.tree_set.specs.Places.{IsLeaf};
ghost use Rattle.tree_set.specs.Calls.{IsAdd, IsDel, Gains, Loses};

use crate::search::{find, find_leaf};
use crate::writes::tree_add_writes;
use list_set::{Removed, SetStep};
use mv_history::Section;
use section_work::rewrite;
use set_model::word;

/// Adds the key, with this value, to the tree of this root, in a vacant node.
///
/// It needs a lawful state, a root, 170 to 179, and an object `leaf` from 180 on that is vacant in
/// the section's state. For a tree that is not empty it needs another vacant object `inner`; for an
/// empty tree, as `empty_in` tells, `inner` is not used, and 0 will do. It reads the objects from the
/// root down to one leaf, each once, and takes no memory.
///
/// In an empty tree it locks the root and the new leaf. Else it locks the leaf where the search for
/// the key ends, that leaf's parent, which is the root or an inner node, and the two vacant nodes:
/// the new leaf stands beside the one that was there, under the new inner node, whose dividing key
/// is the larger of the two keys. It needs room for those of these objects that are not held yet:
/// as many free slots in the seat's log, and as many objects less than `write_max` held.
///
/// - `No` exactly where the key is there, with whatever value; then nothing changes.
/// - `Yes`: the objects are held, and the section's state is lawful, with the key and its value
///   added. Only the link that led to the old leaf, or the root's, and the words of the new nodes
///   changed.
/// - `Again` only where the key is not there and the lock of one of the objects was refused, with
///   `Busy` or `Stale`, which the refusal carries. Those before it, in the order parent, old leaf, new
///   leaf, new inner node, stay held. The section's state is as before. Over the plain store it
///   never comes.
pub fn add_in<S: Section>(
    section: &mut S,
    root: u32,
    key: u32,
    value: u64,
    leaf: u32,
    inner: u32,
) -> SetStep
    requires root_from { 170 ≤ root }
    requires root_in { root < 180 }
    requires lawful { IsLawful (state_of (S.section section.old)) }
    requires leaf_from { 180 ≤ leaf }
    requires leaf_in { leaf < length (state_of (S.section section.old)) }
    requires leaf_vacant { owner (state_of (S.section section.old)) leaf ≡ 0 }
    requires inner_vacant { link (state_of (S.section section.old)) root ≢ 0
        → (180 ≤ inner) × (inner < length (state_of (S.section section.old))) × (owner (state_of (S.section section.old)) inner ≡ 0)
        × (leaf ≢ inner) }
    requires room { (writes : Writes) → IsAdd (state_of (S.section section.old)) root key value leaf inner writes
        → HasRoom (S.section section.old) (objects_of writes) }
    ensures no { (result ≡ No) ↔ (has_key key (map_of (name_of root) (catalogue_of (state_of (S.section section.old)))) ≡ true) }
    ensures unchanged { result ≡ No → S.as_before section.old section.new }
    ensures yes { result ≡ Yes → (writes : Writes) × IsAdd (state_of (S.section section.old)) root key value leaf inner writes
        × Gains (S.section section.old) (S.section section.new) root key value writes }
    ensures again { (refusal : Refusal) → result ≡ Again refusal
        → (writes : Writes) × IsAdd (state_of (S.section section.old)) root key value leaf inner writes
        × Refuses S.may_refuse S.found_held (S.section section.old) (S.section section.new) (objects_of writes) refusal }
{
    let Some(descent) = find(section, root, key) else {
        return match rewrite(section, &tree_add_writes(root, key, value, leaf)) {
            Ok(()) => SetStep::Yes,
            Err(refusal) => SetStep::Again(refusal),
        };
    };
    if descent.has(key) {
        return SetStep::No;
    }
    match rewrite(section, &descent.grow_writes(root, key, value, leaf, inner)) {
        Ok(()) => SetStep::Yes,
        Err(refusal) => SetStep::Again(refusal),
    }
}

/// Gives the key, which is in the tree of this root, this value.
///
/// It needs a lawful state, a root, 170 to 179, and the key in its tree. It locks one object, the
/// key's leaf, and needs room for it where it is not held yet: a free slot in the seat's log, and
/// fewer objects than `write_max` held. It reads as much as `add_in`, and takes no memory.
///
/// - `No` exactly where the key has this value already; then nothing changes.
/// - `Yes`: the leaf is held, and the section's state is lawful, with the key at this value. Only
///   the value in the words of the leaf changed.
/// - `Again` only where the key has another value and the lock of the leaf was refused, with `Busy`
///   or `Stale`, which the refusal carries. The section's state is as before. Over the plain store it
///   never comes.
pub fn put_in<S: Section>(section: &mut S, root: u32, key: u32, value: u64) -> SetStep
    requires root_from { 170 ≤ root }
    requires root_in { root < 180 }
    requires lawful { IsLawful (state_of (S.section section.old)) }
    requires present { has_key key (map_of (name_of root) (catalogue_of (state_of (S.section section.old)))) ≡ true }
    requires room { (leaf : ℕ) → IsLeaf (state_of (S.section section.old)) root key leaf → HasRoom (S.section section.old) (leaf ∷ []) }
    ensures no { (result ≡ No) ↔ (value_of key (map_of (name_of root) (catalogue_of (state_of (S.section section.old)))) ≡ Some value) }
    ensures unchanged { result ≡ No → S.as_before section.old section.new }
    ensures yes { result ≡ Yes → (leaf : ℕ) × IsLeaf (state_of (S.section section.old)) root key leaf
        × Gains (S.section section.old) (S.section section.new) root key value (put_writes (state_of (S.section section.old)) leaf value) }
    ensures again { (refusal : Refusal) → result ≡ Again refusal → (leaf : ℕ) × IsLeaf (state_of (S.section section.old)) root key leaf
        × Refuses S.may_refuse S.found_held (S.section section.old) (S.section section.new) (leaf ∷ []) refusal }
{
    let descent = find_leaf(section, root, key);
    if descent.words[word::VALUE] == value {
        return SetStep::No;
    }
    match rewrite(section, &descent.put_writes(value)) {
        Ok(()) => SetStep::Yes,
        Err(refusal) => SetStep::Again(refusal),
    }
}

/// Takes the key out of the tree of this root.
///
/// It needs a lawful state and a root, 170 to 179. It reads as much as `add_in`, and takes no memory.
/// Where the key is the tree's last one it locks the root and the leaf. Else it locks the leaf, its parent, and the parent's
/// parent, which is the root or an inner node and leads to the leaf's sibling afterwards. It needs
/// room for those of these objects that are not held yet: as many free slots in the seat's log, and
/// as many objects less than `write_max` held.
///
/// It writes the nodes that it takes out, and not only the one above them, so that an add or a del
/// of another seat at them meets it, and one of the two is refused.
///
/// - `Absent` exactly where the key is not there; then nothing changes.
/// - `Took`: the objects are held, and the section's state is lawful, without the key. `node`, the
///   leaf, is vacant, all zero, and so is `inner`, its parent; `inner` is 0 where the key was the
///   last one. Else only the link to the parent, or the root's, changed.
/// - `Again` only where the key is there and the lock of one of the objects was refused, with `Busy`
///   or `Stale`, which the refusal carries. Those above it stay held. The section's state is as before.
///   Over the plain store it never comes.
pub fn del_in<S: Section>(section: &mut S, root: u32, key: u32) -> Removed
    requires root_from { 170 ≤ root }
    requires root_in { root < 180 }
    requires lawful { IsLawful (state_of (S.section section.old)) }
    requires room { (leaf inner : ℕ) (writes : Writes) → IsDel (state_of (S.section section.old)) root key leaf inner writes
        → HasRoom (S.section section.old) (objects_of writes) }
    ensures absent { (result ≡ Absent) ↔ (has_key key (map_of (name_of root) (catalogue_of (state_of (S.section section.old)))) ≡ false) }
    ensures unchanged { result ≡ Absent → S.as_before section.old section.new }
    ensures took { (node inner : ℕ) → result ≡ Took node inner
        → (writes : Writes) × IsDel (state_of (S.section section.old)) root key node inner writes
        × Loses (S.section section.old) (S.section section.new) root key writes }
    ensures again { (refusal : Refusal) → result ≡ DelAgain refusal
        → (leaf inner : ℕ) × (writes : Writes) × IsDel (state_of (S.section section.old)) root key leaf inner writes
        × Refuses S.may_refuse S.found_held (S.section section.old) (S.section section.new) (objects_of writes) refusal }
{
    let Some(descent) = find(section, root, key) else {
        return Removed::Absent;
    };
    if !descent.has(key) {
        return Removed::Absent;
    }
    if descent.parent == root {
        return match rewrite(section, &descent.bare_writes(root)) {
            Ok(()) => Removed::Took {
                node: descent.leaf,
                inner: 0,
            },
            Err(refusal) => Removed::Again(refusal),
        };
    }
    match rewrite(section, &descent.tree_del_writes()) {
        Ok(()) => Removed::Took {
            node: descent.leaf,
            inner: descent.parent,
        },
        Err(refusal) => Removed::Again(refusal),
    }
}
