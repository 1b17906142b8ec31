// The whole catalogue of a view.
ghost use Rattle.std.specs.Prelude.{◌≡◌, IfOk};
ghost use Rattle.grow_hash.specs.Grown.{IsGrown, grown_catalogue};

use crate::search::NAME;
use crate::table::first_node;
use mv_history::View;
use set_model::Catalogue;
use std::alloc::{AllocError, Global};

/// Reads the catalogue of a growing hash set: its keys, with their values, in `h0`, and nothing else.
///
/// It needs a lawful state, and reads each node once. The error is want of memory.
pub fn read_grown<const LEVELS: u32, V: View>(
    alloc: Global,
    view: &mut V,
) -> Result<Catalogue, AllocError>
    requires lawful { IsGrown LEVELS (V.state view.old) }
    ensures catalogue { IfOk result (λ all. all ≡ grown_catalogue LEVELS (V.state view.old)) }
    ensures as_before { V.as_before view.old view.new }
{
    let mut all = Catalogue::new(alloc)?;
    let first = first_node(LEVELS);
    for object in (first..view.objects()).rev() {
        let [owner, _, key, _, _, value] = view.read(object);
        if owner != 0 {
            all.insert(NAME, key as u32, value)?;
        }
    }
    Ok(all)
}
