// The sum of all accounts, and the law that it never changes.
ghost use Rattle.std.specs.Prelude.{◌≡◌, ◌^◌, ◌<◌};
ghost use Rattle.accounts.specs.Terms.{ℕ, length, state_at, Continues};
ghost use Rattle.accounts.specs.declared.rules.TheConstants.{ACCOUNTS as how_many};
ghost use Rattle.accounts.specs.Repeats.{IsSum};
ghost use Rattle.accounts.specs.Rules.{total as total_of};

use crate::layout::Account;
use crate::rules::{ACCOUNTS, Accounts};
use mv_client::read_record;
use mv_history::{Section, Store, View};

/// A sum of all accounts.
#[derive(Clone, Copy, Debug, PartialEq, Eq)]
pub struct SumAt {
    /// The printed time of the state whose sum it is.
    pub time: u64,
    /// The sum of all balances.
    pub total: u64,
}

/// The sum of all accounts of a view: of a section, or of the state at the close.
///
/// A view means one state, so nothing that others commit meanwhile comes between two reads.
pub fn total<V: View>(view: &mut V) -> u64
    requires accounts { length (V.state view.old) ≡ how_many }
    requires fits { total_of (V.state view.old) < 2 ^ 64 }
    ensures total { result ≡ total_of (V.state view.old) }
    ensures as_before { V.as_before view.old view.new }
{
    let mut sum = 0;
    for number in 0..ACCOUNTS {
        let account: Account = read_record(view, number);
        sum += account.balance;
    }
    sum
}

/// Reads all accounts in one section, and gives the store back with their sum and its time. It never refuses.
///
/// At every interleaving the sum is the one that the store opened with.
pub fn sum<S: Store<Rules = Accounts>>(store: S) -> (S, SumAt)
    ensures sum { result.1.total ≡ total_of (S.seat_of store).start }
    ensures read { IsSum S.took (S.seat_of store) (S.seat_of result.0) result.1 }
    ensures continues { Continues (S.seat_of store) (S.seat_of result.0) }
    ensures mine { (S.seat_of result.0).mine ≡ (S.seat_of store).mine }
{
    let mut section = store.enter();
    let time = section.at();
    let sum = total(&mut section);
    (section.leave(), SumAt { time, total: sum })
}

/// The law of the accounts, for who proves something over them: at every time that a store has
/// seen, the sum is the opening sum.
pub fn keeps_total<S: Store<Rules = Accounts>>(store: &S)
    ensures { let here = S.seat_of store.now in (t : ℕ) → total_of (state_at here.start here.seen t) ≡ total_of here.start }
{}
