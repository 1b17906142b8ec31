// Holding what a reply depends on.
ghost use Rattle.std.specs.Prelude.{◌≡◌, ◌+◌, ◌<◌, ◌≤◌, take};
ghost use Rattle.mv_history.specs.State.{written};
ghost use Rattle.set_model.specs.Lawful.{IsLawful};
ghost use Rattle.set_catalog.specs.Plans.{head_of};
ghost use Rattle.set_blocks.specs.Holds.{HoldsKey, HoldsValue};

use crate::overlay::Overlay;
use mv_history::View;
use set_model::{Name, word};

// The first object that is the root of a tree.
const FIRST_ROOT: u32 = 170;

// The head under which the key stands in the set of the name.
fn head_of(name: Name, key: u32) -> u32
    ensures head { result ≡ head_of name key }
    ensures low { result < 180 }
{
    match name.index() {
        index @ 0..10 => index,
        index @ 10..20 => 10 + 16 * (index - 10) + key % 16,
        index => index + 150,
    }
}

/// Whether the set of the name has the key, with what shows it held.
pub fn hold_key<V: View>(overlay: &mut Overlay<V>, name: Name, key: u32) -> bool
    requires lawful { IsLawful (written (V.state overlay.old.view) (take overlay.old.count overlay.old.writes)) }
    requires room { overlay.old.count + 1 ≤ 40 }
    ensures told { HoldsKey (written (V.state overlay.old.view) (take overlay.old.count overlay.old.writes)) name key result
        (take overlay.old.count overlay.old.writes) (take overlay.new.count overlay.new.writes) }
    ensures view { V.as_before overlay.old.view overlay.new.view }
    ensures count { overlay.new.count ≤ overlay.old.count + 1 }
{
    let head = head_of(name, key);
    if head < FIRST_ROOT {
        let window = list_set::find(overlay, head, key);
        overlay.write(&[(window.previous, window.words)]);
        return window.has(key);
    }
    match tree_set::find(overlay, head, key) {
        None => {
            let words = overlay.read(head);
            overlay.write(&[(head, words)]);
            false
        }
        Some(descent) => {
            overlay.write(&[(descent.leaf, descent.words)]);
            descent.has(key)
        }
    }
}

/// The value of the key in the set of the name, or none where it is not there, with what shows it held.
pub fn hold_value<V: View>(overlay: &mut Overlay<V>, name: Name, key: u32) -> Option<u64>
    requires lawful { IsLawful (written (V.state overlay.old.view) (take overlay.old.count overlay.old.writes)) }
    requires room { overlay.old.count + 2 ≤ 40 }
    ensures told { HoldsValue (written (V.state overlay.old.view) (take overlay.old.count overlay.old.writes)) name key result
        (take overlay.old.count overlay.old.writes) (take overlay.new.count overlay.new.writes) }
    ensures view { V.as_before overlay.old.view overlay.new.view }
    ensures count { overlay.new.count ≤ overlay.old.count + 2 }
{
    let head = head_of(name, key);
    if head < FIRST_ROOT {
        let window = list_set::find(overlay, head, key);
        if !window.has(key) {
            overlay.write(&[(window.previous, window.words)]);
            return None;
        }
        overlay.write(&[
            (window.previous, window.words),
            (window.node, window.node_words),
        ]);
        return Some(window.node_words[word::VALUE]);
    }
    let Some(descent) = tree_set::find(overlay, head, key) else {
        let words = overlay.read(head);
        overlay.write(&[(head, words)]);
        return None;
    };
    overlay.write(&[(descent.leaf, descent.words)]);
    if descent.has(key) {
        return Some(descent.words[word::VALUE]);
    }
    None
}
