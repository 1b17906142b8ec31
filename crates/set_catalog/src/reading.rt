// The whole catalogue of a view.
ghost use Rattle.std.specs.Prelude.{◌≡◌, ◌+◌, ◌*◌, ◌<◌, ◌≤◌, length, IfOk, OnOk};
ghost use Rattle.set_model.specs.CatalogueOf.{catalogue_of};
ghost use Rattle.set_model.specs.Lawful.{IsLawful};
ghost use Rattle.set_catalog.specs.Readings.{HasHeads};

use crate::names::{FIRST_NODE, FIRST_ROOT, name_of};
use mv_history::View;
use set_model::{Catalogue, word};
use std::alloc::{AllocError, Global};
use tree_balance::tree_set::Leaves;

/// Reads the catalogue of a lawful state: the keys of all sets, with their values.
///
/// It reads the 180 heads, and each node that is not vacant once: for a list or a table of n keys n
/// nodes, for a tree of n keys `2n - 1`. The error is want of memory: beside the catalogue it takes
/// 4 bytes for each two objects, for the links of a walk over a tree, which it gives back.
pub fn read_all<V: View>(alloc: Global, view: &mut V) -> Result<Catalogue, AllocError>
    requires lawful { IsLawful (V.state view.old) }
    ensures catalogue { IfOk result (λ all. all ≡ catalogue_of (V.state view.old)) }
    ensures as_before { V.as_before view.old view.new }
{
    let mut all = Catalogue::new(alloc)?;
    for head in 0..FIRST_ROOT {
        read_list(view, head, &mut all)?;
    }
    let places = view.objects() as usize / 2 + 1;
    let mut pending = vec![in alloc; 0; places]?;
    read_trees(view, &mut pending, &mut all)?;
    Ok(all)
}

// Reads the list or the bucket of this head.
fn read_list<V: View>(view: &mut V, head: u32, all: &mut Catalogue) -> Result<(), AllocError>
    requires head_in { head < 170 }
    requires lawful { IsLawful (V.state view.old) }
    requires before { HasHeads (V.state view.old) head all.old }
    ensures read { OnOk result (HasHeads (V.state view.old) (head + 1) all.new) }
    ensures as_before { V.as_before view.old view.new }
{
    let name = name_of(head);
    let mut node = view.read(head)[word::NEXT];
    while node != 0 {
        let [_, _, key, next, _, value] = view.read(node as u32);
        all.insert(name, key as u32, value)?;
        node = next;
    }
    Ok(())
}

// Reads all trees, with a table for the walks' links.
fn read_trees<V: View>(
    view: &mut V,
    pending: &mut [u32],
    all: &mut Catalogue,
) -> Result<(), AllocError>
    requires lawful { IsLawful (V.state view.old) }
    requires places { length (V.state view.old) ≤ 2 * length pending.old }
    requires before { HasHeads (V.state view.old) 170 all.old }
    ensures read { OnOk result (HasHeads (V.state view.old) 180 all.new) }
    ensures as_before { V.as_before view.old view.new }
{
    for root in FIRST_ROOT..FIRST_NODE {
        read_tree(view, root, pending, all)?;
    }
    Ok(())
}

// Reads the tree of this root, with a table for the walk's links.
fn read_tree<V: View>(
    view: &mut V,
    root: u32,
    pending: &mut [u32],
    all: &mut Catalogue,
) -> Result<(), AllocError>
    requires root_from { 170 ≤ root }
    requires root_in { root < 180 }
    requires lawful { IsLawful (V.state view.old) }
    requires places { length (V.state view.old) ≤ 2 * length pending.old }
    requires before { HasHeads (V.state view.old) root all.old }
    ensures read { OnOk result (HasHeads (V.state view.old) (root + 1) all.new) }
    ensures places { length pending.new ≡ length pending.old }
    ensures as_before { V.as_before view.old view.new }
{
    let name = name_of(root);
    let mut leaves = Leaves::of(view, root);
    while let Some(leaf) = leaves.next(view, pending) {
        all.insert(name, leaf.key, leaf.value)?;
    }
    Ok(())
}
