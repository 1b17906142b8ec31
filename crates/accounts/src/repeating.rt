// Transfers until so many are done, and sums one after another.
ghost use Rattle.std.specs.Prelude.{◌≡◌, ◌≢◌, ◌<◌, ◌≤◌, [], vec_capacity};
ghost use Rattle.accounts.specs.declared.rules.TheConstants.{ACCOUNTS as how_many};
ghost use Rattle.accounts.specs.Repeats.{Moves, Reads};

use crate::attempt::{TransferAttempt, transfer};
use crate::reading::{SumAt, sum};
use crate::rules::{ACCOUNTS, Accounts};
use mv_history::Store;
use std::sync::Wait;

// The greatest amount of these transfers.
const MOST: u32 = 20;

/// The transfers that were made, and how many attempts were refused on the way, which differs from
/// run to run.
#[derive(Clone, Copy, Debug, PartialEq, Eq)]
pub struct Moved {
    pub transfers: u32,
    pub refused: u64,
}

/// Makes so many transfers, each as often attempted as it takes, and gives the store back. There
/// are fewer only where the store's last time has been reached.
///
/// This is how to try again: a refused attempt left nothing behind, so the next is a new section on
/// a newer snapshot. It may go on for ever where others always come first, so it takes a `Wait`.
pub fn make_transfers<R: Wait, S: Store<Rules = Accounts>>(
    rt: &R,
    store: S,
    transfers: u32,
) -> (S, Moved)
    requires two { 2 ≤ (S.seat_of store).write_max }
    ensures { Moves (S.seat_of store) (S.seat_of result.0) transfers result.1.transfers }
{
    let mut store = store;
    let mut turn = store.seat();
    let mut made = 0;
    let mut refused: u64 = 0;
    for _ in rt.forever() {
        if made == transfers {
            break;
        }
        let (from, to) = accounts_of(turn);
        let (next, attempt) = transfer(store, from, to, (1 + turn % MOST) as u64);
        store = next;
        match attempt {
            TransferAttempt::Done { .. } => {
                made += 1;
                turn = turn.wrapping_add(1);
            }
            // Another transfer is due: this account may stay short.
            TransferAttempt::Short { .. } => turn = turn.wrapping_add(1),
            TransferAttempt::Refused(_) => refused = refused.saturating_add(1),
            TransferAttempt::End => break,
        }
    }
    let moved = Moved {
        transfers: made,
        refused,
    };
    (store, moved)
}

// The two accounts of a turn: each pair has one.
fn accounts_of(turn: u32) -> (u32, u32)
    ensures from { result.0 < how_many }
    ensures to { result.1 < how_many }
    ensures other { result.0 ≢ result.1 }
{
    let from = turn % ACCOUNTS;
    let step = 1 + turn / ACCOUNTS % (ACCOUNTS - 1);
    (from, (from + step) % ACCOUNTS)
}

/// Reads so many sums, each in a section of its own, appends each to the row, and gives the store back.
/// There is room for them.
pub fn read_sums<S: Store<Rules = Accounts>>(store: S, sums: u32, read: &mut Vec<SumAt>) -> S
    requires empty { read.old.items ≡ [] }
    requires room { sums ≤ vec_capacity read.old }
    ensures { Reads S.took (S.seat_of store) (S.seat_of result) sums read.new.items }
{
    let mut store = store;
    for _nth in 0..sums {
        let (next, sum) = sum(store);
        store = next;
        read.push_reserved(sum);
    }
    store
}
