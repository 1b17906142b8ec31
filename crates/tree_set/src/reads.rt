// The calls that read.
ghost use Rattle.std.specs.Prelude.{true, ◌≡◌, ◌<◌, ◌≤◌, ◌↔◌, []};
ghost use Rattle.set_model.specs.Catalogue.{map_of, has_key, value_of, next_key};
ghost use Rattle.set_model.specs.CatalogueOf.{name_of, catalogue_of};
ghost use Rattle.set_model.specs.Lawful.{IsLawful};

use crate::search::{find, least_key};
use mv_history::View;
use set_model::word;

/// Whether the tree of this root has the key.
///
/// It needs a lawful state and a root, 170 to 179. It reads the objects from the root down to one
/// leaf, never refuses, and takes no memory.
pub fn has_in<V: View>(view: &mut V, root: u32, key: u32) -> bool
    requires root_from { 170 ≤ root }
    requires root_in { root < 180 }
    requires lawful { IsLawful (V.state view.old) }
    ensures has { result ≡ has_key key (map_of (name_of root) (catalogue_of (V.state view.old))) }
    ensures as_before { V.as_before view.old view.new }
{
    let Some(descent) = find(view, root, key) else {
        return false;
    };
    descent.words[word::KEY] == key as u64
}

/// The value of the key in the tree of this root, or `None` exactly where the key is not there.
///
/// It needs what `has_in` needs, and reads and takes as much.
pub fn get_in<V: View>(view: &mut V, root: u32, key: u32) -> Option<u64>
    requires root_from { 170 ≤ root }
    requires root_in { root < 180 }
    requires lawful { IsLawful (V.state view.old) }
    ensures value { result ≡ value_of key (map_of (name_of root) (catalogue_of (V.state view.old))) }
    ensures as_before { V.as_before view.old view.new }
{
    let descent = find(view, root, key)?;
    if descent.words[word::KEY] == key as u64 {
        Some(descent.words[word::VALUE])
    } else {
        None
    }
}

/// The least key of the tree of this root that is not below `key`, or `None` where each is.
///
/// It needs what `has_in` needs. It reads the objects from the root down to one leaf, and where that
/// one's key is below `key` those down to the leftmost leaf right of it. It never refuses, and takes
/// no memory.
pub fn next_in<V: View>(view: &mut V, root: u32, key: u32) -> Option<u32>
    requires root_from { 170 ≤ root }
    requires root_in { root < 180 }
    requires lawful { IsLawful (V.state view.old) }
    ensures next { result ≡ next_key key (map_of (name_of root) (catalogue_of (V.state view.old))) }
    ensures as_before { V.as_before view.old view.new }
{
    let descent = find(view, root, key)?;
    if descent.words[word::KEY] >= key as u64 {
        return Some(descent.words[word::KEY] as u32);
    }
    if descent.right == 0 {
        return None;
    }
    Some(least_key(view, root, descent.right))
}

/// Whether the tree of this root has no key.
///
/// It needs what `has_in` needs, reads the root alone, never refuses, and takes no memory.
pub fn empty_in<V: View>(view: &mut V, root: u32) -> bool
    requires root_from { 170 ≤ root }
    requires root_in { root < 180 }
    requires lawful { IsLawful (V.state view.old) }
    ensures empty { (result ≡ true) ↔ (map_of (name_of root) (catalogue_of (V.state view.old)) ≡ []) }
    ensures as_before { V.as_before view.old view.new }
{
    view.read(root)[word::NEXT] == 0
}
