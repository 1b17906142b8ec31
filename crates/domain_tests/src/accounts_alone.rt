// The accounts over a plain store, which has one seat, and so no rival.
ghost use Rattle.std.specs.Prelude.{◌≡◌, ◌≢◌, ◌<◌, IfOk, length};
ghost use Rattle.plain_store.specs.Meaning.{seat_of};

use crate::comparing::assert_same;
use accounts::{
    Accounts, Moved, SumAt, TransferAttempt, make_transfers, opening, read_sums, sum, transfer,
};
use mv_history::Words;
use plain_store::PlainStore;
use std::alloc::{AllocError, Global};
use std::sync::Wait;
use std::test::Fail;

// Eight accounts with 100 each, at the time 40, with room for so many transfers.
fn open(alloc: Global, room: u32) -> Result<PlainStore<Accounts>, AllocError>
    ensures objects { IfOk result (λ s. length (seat_of s).start ≡ 8) }
    ensures write_max { IfOk result (λ s. (seat_of s).write_max ≡ 16) }
{
    let start = opening(100);
    PlainStore::new(alloc, &start, 40, room)
}

// A transfer, after which the store has as many accounts.
fn attempt(
    store: PlainStore<Accounts>,
    from: u32,
    to: u32,
    amount: u64,
) -> (PlainStore<Accounts>, TransferAttempt)
    requires from { from < 8 }
    requires to { to < 8 }
    requires other { from ≢ to }
    requires some { 0 < amount }
    requires objects { length (seat_of store).start ≡ 8 }
    requires write_max { (seat_of store).write_max ≡ 16 }
    ensures objects { length (seat_of result.0).start ≡ 8 }
    ensures write_max { (seat_of result.0).write_max ≡ 16 }
{
    transfer(store, from, to, amount)
}

// The answers of four transfers: one is done, one is short, one takes all that an account has, and one
// comes after the last time.
fn four_attempts(store: PlainStore<Accounts>) -> (PlainStore<Accounts>, [TransferAttempt; 4])
    requires objects { length (seat_of store).start ≡ 8 }
    requires write_max { (seat_of store).write_max ≡ 16 }
    ensures objects { length (seat_of result.0).start ≡ 8 }
{
    let (store, done) = attempt(store, 0, 1, 30);
    let (store, short) = attempt(store, 0, 1, 71);
    let (store, whole) = attempt(store, 1, 7, 130);
    let (store, end) = attempt(store, 2, 3, 1);
    (store, [done, short, whole, end])
}

// Accounts 0, 1, 2 and 7.
fn some_accounts(store: &PlainStore<Accounts>) -> [Words; 4]
    requires objects { length (seat_of store.now).start ≡ 8 }
{
    [
        store.state(0),
        store.state(1),
        store.state(2),
        store.state(7),
    ]
}

// The sum of all accounts, at this time.
fn of_all(time: u64) -> SumAt {
    SumAt { time, total: 800 }
}

// What four transfers are answered, some of the accounts after them, and the sum of all.
fn attempts_alone(alloc: Global) -> Result<([TransferAttempt; 4], [Words; 4], SumAt), AllocError> {
    let (store, attempts) = four_attempts(open(alloc, 2)?);
    let accounts = some_accounts(&store);
    let (_store, sum) = sum(store);
    Ok((attempts, accounts, sum))
}

#[test]
fn each_answer_of_an_attempt(rt: HostRuntime) -> Result<(), Fail> {
    let (attempts, accounts, sum) = attempts_alone(rt.alloc())?;
    let (time, balance) = (41, 70);
    let wanted = [
        TransferAttempt::Done { time },
        TransferAttempt::Short { time, balance },
        TransferAttempt::Done { time: 42 },
        TransferAttempt::End,
    ];
    assert_same(&rt, &attempts, &wanted, "attempts");
    let balances = [
        [70, 0, 0, 0, 0, 0],
        [0; 6],
        [100, 0, 0, 0, 0, 0],
        [230, 0, 0, 0, 0, 0],
    ];
    assert_same(&rt, &accounts, &balances, "accounts");
    assert_same(&rt, &sum, &of_all(42), "sum");
    Ok(())
}

// What 60 transfers in a store with room for so many come to, and three sums after them.
fn transfers_alone(
    rt: &impl Wait,
    alloc: Global,
    room: u32,
) -> Result<(Moved, Vec<SumAt>), AllocError> {
    let mut sums = Vec::with_capacity(alloc, 3)?;
    let (store, moved) = make_transfers(rt, open(alloc, room)?, 60);
    let _store = read_sums(store, 3, &mut sums);
    Ok((moved, sums))
}

#[test]
fn transfers_and_sums_of_one_seat(rt: HostRuntime) -> Result<(), Fail> {
    let (moved, sums) = transfers_alone(&rt, rt.alloc(), 60)?;
    let (transfers, refused) = (60, 0);
    assert_same(&rt, &moved, &Moved { transfers, refused }, "transfers");
    let wanted = Vec::from_slice(rt.alloc(), &[of_all(100); 3])?;
    assert_same(&rt, &sums, &wanted, "sums");
    Ok(())
}

#[test]
fn fewer_transfers_where_time_runs_out(rt: HostRuntime) -> Result<(), Fail> {
    let (moved, _) = transfers_alone(&rt, rt.alloc(), 30)?;
    assert_same(&rt, &moved.transfers, &30, "transfers");
    Ok(())
}
