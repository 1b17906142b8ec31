// What a transfer reads and writes, as a unit of work.
use crate::layout::Account;
use crate::rules::Accounts;
use mv_client::{Record, read_record};
use mv_history::{Tag, View, Words};
use section_work::{Decision, Work};

/// What a transfer comes to in a state.
#[derive(Clone, Copy, Debug, Drop, PartialEq, Eq)]
pub(crate) enum Funds {
    /// The account has the amount.
    Enough,
    /// The account has only this balance, which is less than the amount.
    Short { balance: u64 },
    /// The account has the amount, but no time is left.
    Late,
}

/// A transfer of an amount, which isn't 0, between two accounts.
#[derive(Drop)]
pub(crate) struct Transfer {
    pub from: u32,
    pub to: u32,
    pub amount: u64,
}

impl Work for Transfer {
    ghost use Rattle.std.specs.Prelude.{⊤};
    ghost use Rattle.accounts.specs.Transfers.{IsBetween, transfer_tag, transfer_meaning};
    ghost use Rattle.accounts.specs.TransferLaws.{makes_transfer};

    type Rules = Accounts;

    type Reply = Funds;

    type WriteSet = [(u32, Words); 2];

    type Memo = ();

    ghost accepts = { λ w. IsBetween w.from w.to w.amount };

    ghost means = { λ w. transfer_meaning (transfer_tag w.from w.to w.amount) };

    ghost tag_of = { λ w plan. transfer_tag w.from w.to w.amount };

    ghost writes_of = { λ memo plan. plan };

    ghost knows = { λ memo s. ⊤ };

    ghost notes = { λ w before after s. ⊤ };

    fn decide<V: View>(
        &self,
        _memo: &mut (),
        view: V,
        _time: u64,
    ) -> (V, Decision<Funds, [(u32, Words); 2]>) {
        let mut view = view;
        let payer: Account = read_record(&mut view, self.from);
        let balance = payer.balance;
        if balance < self.amount {
            return (view, Decision::Settled(Funds::Short { balance }));
        }
        let payee: Account = read_record(&mut view, self.to);
        let left = Account {
            balance: balance - self.amount,
        };
        let gained = Account {
            balance: payee.balance + self.amount,
        };
        let plan = [(self.from, left.to_words()), (self.to, gained.to_words())];
        let reply = Funds::Enough;
        (view, Decision::Change { plan, reply })
    }

    fn writes<'a>(_memo: &'a (), plan: &'a [(u32, Words); 2]) -> &'a [(u32, Words)] {
        plan
    }

    // The tag says which transfer it is: the rules compare the writes with it.
    fn tag(&self, _plan: &[(u32, Words); 2]) -> Tag {
        [self.from as u64, self.to as u64, self.amount, 0]
    }

    fn at_last(&self, _reply: Funds) -> Funds {
        Funds::Late
    }

    ghost knows_on = { λ memo s t on known. tt };

    ghost makes = { λ w s before tag ws reply accepts plan drifts allowed.
        makes_transfer (transfer_tag w.from w.to w.amount) s before tag ws plan allowed };
}
