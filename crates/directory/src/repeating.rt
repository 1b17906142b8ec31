// Moves until so many are made.
ghost use Rattle.std.specs.Prelude.{◌≡◌, ◌<◌, ◌≤◌};
ghost use Rattle.directory.specs.declared.rules.TheConstants.{OBJECTS as objects, SHELVES as shelves};
ghost use Rattle.mv_client.specs.Updates.{Repeated};

use crate::moving::{Whereabouts, move_user};
use crate::rules::Directory;
use mv_history::Store;
use section_work::{Attempt, Place};
use std::sync::Wait;
use std::thread;

/// Makes so many moves of a user, to and fro, each as often attempted as it takes, and gives the store back with how many were
/// made. There are fewer only where the store's last time has been reached.
///
/// Where another thread has moved the user, the next move goes back. It may go on for ever where others always come first, so it
/// takes a `Wait`.
pub fn make_moves<R: Wait, S: Store<Rules = Directory>>(
    rt: &R,
    store: S,
    user: u32,
    moves: u32,
) -> (S, u32)
    requires user { shelves ≤ user }
    requires below { user < objects }
    requires three { 3 ≤ (S.seat_of store).write_max }
    ensures { Repeated (S.seat_of store) (S.seat_of result.0) moves result.1 }
{
    let mut store = store;
    let mut shelf = 0;
    let mut made = 0;
    for _ in rt.forever() {
        if made == moves {
            break;
        }
        let (next, attempt) = move_user(store, user, shelf);
        store = next;
        match attempt {
            Attempt::Done { reply, place } => match place {
                Place::Commit(_) => {
                    made += 1;
                    shelf = 1 - shelf;
                }
                Place::Read(_) => match reply {
                    Whereabouts::Late => return (store, made),
                    // The user is there already.
                    Whereabouts::There | Whereabouts::Away => shelf = 1 - shelf,
                },
            },
            Attempt::Again(_) => thread::yield_now(),
        }
    }
    (store, made)
}
