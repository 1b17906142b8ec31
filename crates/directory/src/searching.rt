// The search for a user along a shelf.
ghost use Rattle.std.specs.Prelude.{◌≡◌, ◌≢◌, ℕ, ◌<◌, ◌≤◌, Some, None};
ghost use Rattle.directory.specs.declared.rules.TheConstants.{OBJECTS as objects, SHELVES as shelves};
ghost use Rattle.directory.specs.Ring.{IsDirectory, IsOn, IsBefore, next_of};

use crate::layout::DirectoryNode;
use crate::rules::{OBJECTS, SHELVES};
use mv_client::read_record;
use mv_history::View;

/// The object before a user on a shelf: the shelf itself, or a user there. There is none where the user isn't on the shelf.
pub fn find_before<V: View>(view: &mut V, shelf: u32, user: u32) -> Option<u32>
    requires shelf { shelf < shelves }
    requires user { shelves ≤ user }
    requires directory { IsDirectory (V.state view.old) }
    ensures found { (before : ℕ) → result ≡ Some before → IsBefore (V.state view.old) shelf before user }
    ensures absent { result ≡ None → IsOn (V.state view.old) shelf user → ⊥ }
    ensures as_before { V.as_before view.old view.new }
{
    let mut at = shelf;
    for _nth in 0..OBJECTS {
        let node: DirectoryNode = read_record(view, at);
        let next = node.next;
        if next == user {
            return Some(at);
        }
        if next < SHELVES {
            return None;
        }
        at = next;
    }
    unreachable!()
}
