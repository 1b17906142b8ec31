// Readers, and the law of the directory.
ghost use Rattle.std.specs.Prelude.{◌≡◌, ℕ, ◌<◌, ◌≤◌};
ghost use Rattle.directory.specs.declared.rules.TheConstants.{OBJECTS as objects, SHELVES as shelves};
ghost use Rattle.mv_history.specs.State.{state_at};
ghost use Rattle.mv_history.specs.Calls.{Continues};
ghost use Rattle.mv_history.specs.Meaning.{words_at};
ghost use Rattle.directory.specs.Layout.{details_of};
ghost use Rattle.directory.specs.Ring.{IsDirectory, IsOn, IsPlaced};
ghost use Rattle.directory.specs.Reads.{IsSeen};

use crate::layout::DirectoryNode;
use crate::rules::Directory;
use crate::searching::find_before;
use mv_client::{begin, read_record};
use mv_history::{Section, Store, View};

/// Where a user was seen.
#[derive(Clone, Copy, Debug, PartialEq, Eq)]
pub struct Seen {
    /// The printed time of the state that was read.
    pub time: u64,
    /// The shelf on which the user was.
    pub shelf: u32,
    /// The user's id.
    pub id: u64,
}

/// The shelf on which a user is, in a view of a directory: there is always one.
pub fn shelf_of<V: View>(view: &mut V, user: u32) -> u32
    requires user { shelves ≤ user }
    requires below { user < objects }
    requires directory { IsDirectory (V.state view.old) }
    ensures on { IsOn (V.state view.old) result user }
    ensures as_before { V.as_before view.old view.new }
{
    match find_before(view, 0, user) {
        Some(_) => 0,
        None => 1,
    }
}

/// Looks a user up in one section, and gives the store back with what was seen. It never refuses.
///
/// At every interleaving the user is on exactly one shelf of the state that is read.
pub fn look_up<S: Store<Rules = Directory>>(store: S, user: u32) -> (S, Seen)
    requires user { shelves ≤ user }
    requires below { user < objects }
    ensures seen { IsSeen S.took (S.seat_of store) (S.seat_of result.0) user result.1 }
    ensures continues { Continues (S.seat_of store) (S.seat_of result.0) }
{
    let mut section = begin(store);
    let time = section.at();
    let shelf = shelf_of(&mut section, user);
    let node: DirectoryNode = read_record(&mut section, user);
    let id = node.id;
    (section.leave(), Seen { time, shelf, id })
}

/// The law of the directory, for who proves something over it: at every time that a store has seen, each user is on exactly
/// one shelf, and what its words say beside the link is what they said at the opening.
pub fn keeps_directory<S: Store<Rules = Directory>>(store: &S)
    ensures placed { let here = S.seat_of store.now in
        (t user : ℕ) → shelves ≤ user → user < objects → IsPlaced (state_at here.start here.seen t) user }
    ensures details { let here = S.seat_of store.now in
        (t o : ℕ) → details_of (words_at (state_at here.start here.seen t) o) ≡ details_of (words_at here.start o) }
{}
