// What the object of an account says.
use mv_client::Record;
use mv_history::Words;

/// An account, as its object's words say it: the balance is the first, and the others are 0.
#[derive(Clone, Copy, Debug, PartialEq, Eq)]
pub struct Account {
    pub balance: u64,
}

// Which of the words is the balance.
const BALANCE: usize = 0;

impl Record for Account {
    ghost use Rattle.std.specs.Prelude.{◌^◌, ◌<◌, ⊤, refl};
    ghost use Rattle.accounts.specs.Layout.{words_of as account_words, account_in};

    ghost words_of = { account_words };

    ghost record_of = { account_in };

    ghost is_record = { λ account. account.balance < 2 ^ 64 };

    ghost are_words = { λ words. ⊤ };

    fn to_words(self) -> Words {
        let mut words = [0; 6];
        words[BALANCE] = self.balance;
        words
    }

    fn from_words(words: Words) -> Account {
        Account {
            balance: words[BALANCE],
        }
    }

    ghost words = { λ account is. tt };

    ghost reads_back = { λ account is. refl };
}
