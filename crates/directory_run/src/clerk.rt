// What one thread does.
ghost use Rattle.std.specs.Prelude.{◌≡◌};
ghost use Rattle.directory_run.specs.Runs.{IsReady, Served};

use directory::{Directory, Seen, look_up, make_moves};
use domain_run::Task;
use mv_history::Store;
use std::sync::Wait;

/// What one thread is to do over the directory: move this user to and fro so often, and then look it up.
#[derive(Clone, Copy, Debug, PartialEq, Eq)]
pub struct ClerkOrder {
    /// The user, 2 to 9.
    pub user: u32,
    pub moves: u32,
}

/// One thread over the directory: what it is asked for, and what it did.
#[derive(Drop)]
pub struct Clerk {
    /// What it is asked for.
    pub asked: ClerkOrder,
    /// The moves that it made.
    pub moved: u32,
    /// Where it saw the user then.
    pub seen: Seen,
}

/// A clerk that has done nothing.
pub fn idle_clerk(asked: ClerkOrder) -> Clerk
    ensures { result.asked ≡ asked }
{
    let seen = Seen {
        time: 0,
        shelf: 0,
        id: 0,
    };
    Clerk {
        asked,
        moved: 0,
        seen,
    }
}

impl Task<Directory> for Clerk {
    ghost use Rattle.directory_run.specs.Runs.{IsReady, Served};
    ghost use Rattle.mv_history.specs.Calls.{Continues};

    ghost ready = { λ seat clerk. IsReady seat clerk };

    ghost did = { λ took before after old new. Served took before after old new };

    fn run<R: Wait, S: Store<Rules = Directory>>(self, rt: &R, store: S) -> (Clerk, S)
        requires { IsReady (S.seat_of store) self }
        ensures continues { Continues (S.seat_of store) (S.seat_of result.1) }
        ensures did { Served S.took (S.seat_of store) (S.seat_of result.1) self result.0 }
    {
        let asked = self.asked;
        let (store, moved) = make_moves(rt, store, asked.user, asked.moves);
        let (store, seen) = look_up(store, asked.user);
        (Clerk { asked, moved, seen }, store)
    }
}
