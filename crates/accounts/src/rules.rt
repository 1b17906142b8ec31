// The rules of the accounts.
ghost use Rattle.std.specs.Prelude.{◌≡◌, ◌*◌};
ghost use Rattle.accounts.specs.Rules.{IsOpening, total};

use crate::layout::Account;
use mv_client::Record;
use mv_history::{Protocol, Words};

/// How many accounts there are. Account `a`, 0 to 7, is the object `a`.
pub const ACCOUNTS: u32 = 8;

/// The rules of the accounts, which every commit of a store over them keeps.
///
/// An account's balance is the first of its object's words; a transfer leaves the others zero. A
/// store may open with any balances whose sum is below 2^64. Each commit is a transfer: it takes an
/// amount from one account that has as much, and gives it to another.
///
/// The meaning of the rules is in `specs/Rules.antt`. A store can't look at it; it is what a client
/// proves of each of its commits, and what it may rely on in everything that it reads.
pub struct Accounts;

impl Protocol for Accounts {
    ghost use Rattle.accounts.specs.Rules.{IsOpening, IsTransfer};
    ghost use Rattle.accounts.specs.RuleLaws.{IsOpening-prop, IsTransfer-prop};

    ghost start = { IsOpening };

    ghost allowed = { IsTransfer };

    ghost one_start = { IsOpening-prop };

    ghost one_allowed = { IsTransfer-prop };
}

/// An opening state in which each account has this balance.
pub fn opening(balance: u32) -> [Words; ACCOUNTS as usize]
    ensures lawful { IsOpening result }
    ensures total { total result ≡ 8 * balance }
{
    let account = Account {
        balance: balance as u64,
    };
    [account.to_words(); ACCOUNTS as usize]
}
