// A move of a user, as a unit of work.
ghost use Rattle.std.specs.Prelude.{◌≡◌, ◌≤◌, ◌<◌};
ghost use Rattle.directory.specs.declared.rules.TheConstants.{OBJECTS as objects, SHELVES as shelves};
ghost use Rattle.mv_history.specs.Calls.{Continues};
ghost use Rattle.section_work.specs.Causes.{causes};
ghost use Rattle.section_work.specs.Attempts.{Attempted};
ghost use Rattle.directory.specs.Layout.{words_of, with_link};
ghost use Rattle.directory.specs.Moves.{move_meaning};

use crate::layout::DirectoryNode;
use crate::rules::Directory;
use crate::searching::find_before;
use mv_client::{Record, read_record};
use mv_history::{Store, Tag, View, Words};
use section_work::{Attempt, Decision, Work, attempt_work};

/// What a move comes to in a state.
#[derive(Clone, Copy, Debug, Drop, PartialEq, Eq)]
pub enum Whereabouts {
    /// The user is on the other shelf.
    Away,
    /// The user is on the shelf already.
    There,
    /// The user is on the other shelf, but no time is left.
    Late,
}

// A move of a user to a shelf.
#[derive(Drop)]
pub(crate) struct Move {
    pub user: u32,
    pub shelf: u32,
}

// The words of this node, with this link.
fn linked(node: DirectoryNode, next: u32) -> Words
    ensures { result ≡ words_of (with_link node next) }
{
    DirectoryNode { next, ..node }.to_words()
}

impl Work for Move {
    ghost use Rattle.std.specs.Prelude.{◌∷◌, [], slice_index, ⊤};
    ghost use Rattle.directory.specs.Moves.{IsMoving, move_meaning, tag_of_plan};
    ghost use Rattle.directory.specs.MoveLaws.{makes_move};

    type Rules = Directory;

    type Reply = Whereabouts;

    type WriteSet = [(u32, Words); 3];

    type Memo = ();

    ghost accepts = { λ w. IsMoving w.user w.shelf };

    ghost means = { λ w. move_meaning w.user w.shelf };

    ghost tag_of = { λ w plan. tag_of_plan w.user w.shelf plan };

    ghost writes_of = { λ memo plan. plan };

    ghost knows = { λ memo s. ⊤ };

    ghost notes = { λ w before after s. ⊤ };

    fn decide<V: View>(
        &self,
        _memo: &mut (),
        view: V,
        _time: u64,
    ) -> (V, Decision<Whereabouts, [(u32, Words); 3]>) {
        let mut view = view;
        let Some(before) = find_before(&mut view, 1 - self.shelf, self.user) else {
            return (view, Decision::Settled(Whereabouts::There));
        };
        let source: DirectoryNode = read_record(&mut view, before);
        let node: DirectoryNode = read_record(&mut view, self.user);
        let target: DirectoryNode = read_record(&mut view, self.shelf);
        let plan = [
            (before, linked(source, node.next)),
            (self.user, linked(node, target.next)),
            (self.shelf, linked(target, self.user)),
        ];
        let reply = Whereabouts::Away;
        (view, Decision::Change { plan, reply })
    }

    fn writes<'a>(_memo: &'a (), plan: &'a [(u32, Words); 3]) -> &'a [(u32, Words)] {
        plan
    }

    // The tag says which move it is: the rules compare the writes with it.
    fn tag(&self, plan: &[(u32, Words); 3]) -> Tag {
        [plan[0].0 as u64, self.user as u64, self.shelf as u64, 0]
    }

    fn at_last(&self, _reply: Whereabouts) -> Whereabouts {
        Whereabouts::Late
    }

    ghost knows_on = { λ memo s t on known. tt };

    ghost makes = { λ w s before tag ws reply accepts plan drifts allowed. makes_move w.user w.shelf s before tag ws plan allowed };
}

/// Attempts to take a user to the front of a shelf, from the other one, in one section, and gives the store back.
///
/// It makes one commit or none, takes no memory, and never waits or tries again.
///
/// - `Done` at a `Place::Commit`: the move is the commit of this printed time, and the user stands in front there.
/// - `Done` at a `Place::Read`, `There`: the user was on the shelf already at this time. `Late`: no time is left.
/// - `Again`: something was in the way, and nothing was changed.
pub fn move_user<S: Store<Rules = Directory>>(
    store: S,
    user: u32,
    shelf: u32,
) -> (S, Attempt<Whereabouts>)
    requires user { shelves ≤ user }
    requires below { user < objects }
    requires shelf { shelf < shelves }
    requires three { 3 ≤ (S.seat_of store).write_max }
    ensures attempted { let shows = causes S.Open.may_refuse S.Open.has_trail S.took S.holds_back S.Open.found_held S.Open.loaded in
        Attempted shows (move_meaning user shelf) (S.seat_of store) (S.seat_of result.0) result.1 }
    ensures continues { Continues (S.seat_of store) (S.seat_of result.0) }
{
    let work = Move { user, shelf };
    let mut nothing = ();
    attempt_work(store, &work, &mut nothing)
}
