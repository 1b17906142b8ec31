// How many keys a tree has.
ghost use Rattle.std.specs.Prelude.{◌≡◌, ◌<◌, ◌≤◌, ◌++◌, drop, length, if◌then◌else◌, IfSome};
ghost use Rattle.set_model.specs.Catalogue.{Map, map_of};
ghost use Rattle.set_model.specs.CatalogueOf.{name_of, is_key_at, catalogue_of};
ghost use Rattle.set_model.specs.Lawful.{IsLawful};
ghost use Rattle.tree_set.specs.Leaves.{Passes, AfterCount};

use crate::leaves::Leaves;
use mv_history::{View, Words};
use set_model::word;

// The places of the table with which a count begins: a longer one takes more time to clear than a
// small tree takes to walk over.
const FEW_PENDING: usize = 64;

// The places of the table with which it goes on where that one is full: 8 KB of the stack. Only a tree that moves
// made fills it, since an add keeps its way short.
const MANY_PENDING: usize = 2_048;

const FIRST_NODE: u32 = 180;

/// How many keys the tree of this root has.
///
/// It needs a lawful state and a root, 170 to 179. It reads the root and each node of the tree, and
/// one of them again where more than 64 right links are pending at one time: for n keys at most
/// 2n + 1 reads. Where more than 2,048 are, it reads each node of the state as well. It never refuses,
/// and takes no memory.
pub fn size_in<V: View>(view: &mut V, root: u32) -> u64
    requires root_from { 170 ≤ root }
    requires root_in { root < 180 }
    requires lawful { IsLawful (V.state view.old) }
    ensures size { result ≡ length (map_of (name_of root) (catalogue_of (V.state view.old))) }
    ensures as_before { V.as_before view.old view.new }
{
    let mut leaves = Leaves::of(view, root);
    let mut pending = [0; FEW_PENDING];
    let count = count_on(view, &mut leaves, &mut pending);
    if leaves.is_over() {
        return count;
    }
    match count_rest(view, leaves, &pending) {
        Some(rest) => count + rest,
        None => count_nodes(view, root),
    }
}

// How many leaves the walk passes until it is over or the table is full.
fn count_on<V: View>(view: &mut V, leaves: &mut Leaves, pending: &mut [u32]) -> u64
    requires lawful { IsLawful (V.state view.old) }
    requires walk { (m : Map) × Passes (V.state view.old) pending.old leaves.old m }
    ensures counted { (m : Map) → Passes (V.state view.old) pending.old leaves.old m → AfterCount (V.state view.old) pending.new leaves.new m result }
    ensures places { length pending.new ≡ length pending.old }
    ensures as_before { V.as_before view.old view.new }
{
    let mut count = 0;
    while let Some(_) = leaves.next(view, pending) {
        count += 1;
    }
    count
}

// How many leaves are left to a walk with these links pending. None where more of them are pending at one time
// than the longer table has places.
fn count_rest<V: View>(view: &mut V, leaves: Leaves, pending: &[u32]) -> Option<u64>
    requires lawful { IsLawful (V.state view.old) }
    requires walk { (m : Map) × Passes (V.state view.old) pending.now leaves m }
    requires few { length pending.now ≤ 2048 }
    ensures counted { (m : Map) → Passes (V.state view.old) pending.now leaves m → IfSome result (λ n. n ≡ length m) }
    ensures as_before { V.as_before view.old view.new }
{
    let mut leaves = leaves;
    let mut many = [0; MANY_PENDING];
    copy_links(pending, &mut many);
    let count = count_on(view, &mut leaves, &mut many);
    if leaves.is_over() {
        return Some(count);
    }
    None
}

// How many leaves the tree of this root has, by all nodes of the state.
fn count_nodes<V: View>(view: &mut V, root: u32) -> u64
    requires root_from { 170 ≤ root }
    requires root_in { root < 180 }
    requires lawful { IsLawful (V.state view.old) }
    ensures count { result ≡ length (map_of (name_of root) (catalogue_of (V.state view.old))) }
    ensures as_before { V.as_before view.old view.new }
{
    let mut count = 0;
    for object in FIRST_NODE..view.objects() {
        count += one_if_leaf(view.read(object), root);
    }
    count
}

// 1 where these are the words of a leaf of this root's tree, and else 0.
fn one_if_leaf(words: Words, root: u32) -> u64
    ensures { result ≡ (if is_key_at root words then 1 else 0) }
{
    if words[word::OWNER] == root as u64 + 1 && words[word::KIND] != word::INNER {
        1
    } else {
        0
    }
}

// Copies links to the first places of a longer table.
fn copy_links(links: &[u32], table: &mut [u32])
    requires longer { length links.now ≤ length table.old }
    ensures copied { table.new ≡ links.now ++ drop (length links.now) table.old }
    ensures places { length table.new ≡ length table.old }
{
    table[..links.len()].copy_from_slice(links);
}
