// One transfer, as one section of a store.
ghost use Rattle.std.specs.Prelude.{◌≡◌, ◌≢◌, ◌<◌, ◌≤◌, [], ◌∷◌};
ghost use Rattle.accounts.specs.declared.rules.TheConstants.{ACCOUNTS as how_many};
ghost use Rattle.section_work.specs.Causes.{causes};
ghost use Rattle.accounts.specs.Attempts.{Attempted, attempt_of};

use crate::rules::Accounts;
use crate::transfer_work::{Funds, Transfer};
use mv_history::Store;
use section_work::{Attempt, Cause, Place, attempt_work};

/// What an attempt of a transfer comes to.
#[derive(Clone, Copy, Debug, PartialEq, Eq)]
pub enum TransferAttempt {
    /// The transfer is the commit of this printed time.
    Done { time: u64 },
    /// At this printed time the account had only this balance, which is less than the amount.
    Short { time: u64, balance: u64 },
    /// Something was in the way, and nothing was changed. Another attempt may be done.
    Refused(Cause),
    /// The store's last time has been reached, so no transfer can be made any more.
    End,
}

/// Attempts to move an amount, which isn't 0, between two accounts, in one section, and gives the store back.
///
/// It makes one commit or none, and takes no memory. It never waits and never tries again: whether
/// and when to do so is the caller's to say.
///
/// It locks both accounts, and so whatever others commit meanwhile leaves their balances as the
/// section read them. That is what makes the commit fit: allowed on every state that may come to
/// stand just before it. An account that is short is answered so even where the log has no room.
/// A full log is told of the seat that `prepare` left, since no clause of a store says that leaving a section
/// frees nothing.
pub fn transfer<S: Store<Rules = Accounts>>(
    store: S,
    from: u32,
    to: u32,
    amount: u64,
) -> (S, TransferAttempt)
    requires from { from < how_many }
    requires to { to < how_many }
    requires other { from ≢ to }
    requires some { 0 < amount }
    requires two { 2 ≤ (S.seat_of store).write_max }
    ensures { let shows = causes S.Open.may_refuse S.Open.has_trail S.took S.holds_back S.Open.found_held S.Open.loaded in
        Attempted shows (S.seat_of store) (S.seat_of result.0) (from ∷ to ∷ amount ∷ 0 ∷ []) result.1 }
{
    let work = Transfer { from, to, amount };
    let mut nothing = ();
    let (store, attempt) = attempt_work(store, &work, &mut nothing);
    match attempt {
        Attempt::Done { reply, place } => {
            let answered = answer(reply, place);
            (store, answered)
        }
        Attempt::Again(cause) => (store, TransferAttempt::Refused(cause)),
    }
}

// What a transfer that was found so at its place comes to.
fn answer(found: Funds, place: Place) -> TransferAttempt
    ensures { result ≡ attempt_of found place }
{
    match place {
        Place::Commit(time) => TransferAttempt::Done { time },
        Place::Read(time) => match found {
            Funds::Short { balance } => TransferAttempt::Short { time, balance },
            Funds::Enough | Funds::Late => TransferAttempt::End,
        },
    }
}
