// What one thread does.
ghost use Rattle.std.specs.Prelude.{◌≡◌, map, All, IfOk};
ghost use Rattle.accounts_run.specs.Runs.{HasRoom, IsNew, asked_of};

use accounts::{Accounts, Moved, SumAt, make_transfers, read_sums};
use domain_run::Task;
use mv_history::Store;
use std::alloc::{AllocError, Global};
use std::sync::Wait;

/// What one thread is to do over the accounts: make so many transfers, and then read so many sums.
#[derive(Clone, Copy, Debug, PartialEq, Eq)]
pub struct TellerOrder {
    pub transfers: u32,
    pub sums: u32,
}

/// One thread over the accounts: what it is asked for, and what it did.
#[derive(Drop)]
pub struct Teller {
    /// What it is asked for.
    pub asked: TellerOrder,
    /// The transfers that it made.
    pub moved: Moved,
    /// The sums that it read, in order.
    pub read: Vec<SumAt>,
}

// A teller that has done nothing, with room for its sums.
fn with_room(alloc: Global, asked: TellerOrder) -> Result<Teller, AllocError>
    ensures { IfOk result (IsNew asked) }
{
    let read = Vec::with_capacity(alloc, asked.sums as usize)?;
    let moved = Moved {
        transfers: 0,
        refused: 0,
    };
    Ok(Teller { asked, moved, read })
}

/// A teller for each, with room for its sums, that has done nothing. The error is want of memory.
pub fn tellers(alloc: Global, asked: &[TellerOrder]) -> Result<Vec<Teller>, AllocError>
    ensures asked { IfOk result (λ tellers. map asked_of tellers.items ≡ asked.now) }
    ensures new { IfOk result (λ tellers. All HasRoom tellers.items) }
{
    let mut tellers = Vec::new(alloc);
    for one in asked {
        let teller = with_room(alloc, *one)?;
        tellers.push(teller)?;
    }
    Ok(tellers)
}

impl Task<Accounts> for Teller {
    ghost use Rattle.accounts_run.specs.Runs.{IsReady, Served};
    ghost use Rattle.mv_history.specs.Calls.{Continues};

    ghost ready = { λ seat teller. IsReady seat teller };

    ghost did = { λ took before after old new. Served took before after old new };

    fn run<R: Wait, S: Store<Rules = Accounts>>(self, rt: &R, store: S) -> (Teller, S)
        requires { IsReady (S.seat_of store) self }
        ensures continues { Continues (S.seat_of store) (S.seat_of result.1) }
        ensures did { Served S.took (S.seat_of store) (S.seat_of result.1) self result.0 }
    {
        let Teller {
            asked,
            moved: _,
            mut read,
        } = self;
        let (store, moved) = make_transfers(rt, store, asked.transfers);
        let store = read_sums(store, asked.sums, &mut read);
        (Teller { asked, moved, read }, store)
    }
}
