// The sets by their names: lists, hash tables and trees.
ghost use Rattle.std.specs.Prelude.{◌≡◌, length};
ghost use Rattle.set_model.specs.Catalogue.{map_of, has_key, value_of, next_key};
ghost use Rattle.set_model.specs.CatalogueOf.{catalogue_of};
ghost use Rattle.set_model.specs.Lawful.{IsLawful};

use crate::names::{Set, set_of};
use hash_set::list_set;
use hash_set::list_set::Fingers;
use mv_history::View;
use set_model::Name;
use tree_balance::tree_set;

// Whether the set has the key. In a list or a bucket it begins at a finger.
pub fn has<V: View>(view: &mut V, fingers: &mut Fingers, name: Name, key: u32) -> bool
    requires lawful { IsLawful (V.state view.old) }
    ensures has { result ≡ has_key key (map_of name (catalogue_of (V.state view.old))) }
    ensures as_before { V.as_before view.old view.new }
{
    match set_of(name) {
        Set::List(head) => list_set::has_near(view, fingers, head, key),
        Set::Table(set) => hash_set::has_near(view, fingers, set, key),
        Set::Tree(root) => tree_set::has_in(view, root, key),
    }
}

// The value of the key in the set, or none. In a list or a bucket it begins at a finger.
pub fn value<V: View>(view: &mut V, fingers: &mut Fingers, name: Name, key: u32) -> Option<u64>
    requires lawful { IsLawful (V.state view.old) }
    ensures value { result ≡ value_of key (map_of name (catalogue_of (V.state view.old))) }
    ensures as_before { V.as_before view.old view.new }
{
    match set_of(name) {
        Set::List(head) => list_set::get_near(view, fingers, head, key),
        Set::Table(set) => hash_set::get_near(view, fingers, set, key),
        Set::Tree(root) => tree_set::get_in(view, root, key),
    }
}

// The least key of the set that is not below this one, or none. In a list or a bucket it begins at a finger.
pub fn next<V: View>(view: &mut V, fingers: &mut Fingers, name: Name, key: u32) -> Option<u32>
    requires lawful { IsLawful (V.state view.old) }
    ensures next { result ≡ next_key key (map_of name (catalogue_of (V.state view.old))) }
    ensures as_before { V.as_before view.old view.new }
{
    match set_of(name) {
        Set::List(head) => list_set::next_near(view, fingers, head, key),
        Set::Table(set) => hash_set::next_near(view, fingers, set, key),
        Set::Tree(root) => tree_set::next_in(view, root, key),
    }
}

// How many keys the set has. A count in a tree has a long table among its locals, which is to cost other commands nothing.
#[inline(never)]
pub fn size<V: View>(view: &mut V, name: Name) -> u64
    requires lawful { IsLawful (V.state view.old) }
    ensures size { result ≡ length (map_of name (catalogue_of (V.state view.old))) }
    ensures as_before { V.as_before view.old view.new }
{
    match set_of(name) {
        Set::List(head) => list_set::size_in(view, head),
        Set::Table(set) => hash_set::size_in(view, set),
        Set::Tree(root) => tree_set::size_in(view, root),
    }
}
