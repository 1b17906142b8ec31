//! Eight accounts over a store of many versions: rules of its own, proved, for a caller to copy.
//!
//! # The model
//!
//! An account is an object that says a balance ([`Account`]). The store may be any whose rules are
//! [`Accounts`]: one section moves an amount between two accounts, another reads them all, in as many
//! threads as the store has seats.
//!
//! # The contract
//!
//! Every sum that a section reads is the sum that the store opened with, at every interleaving:
//! [`sum`], [`read_sums`]. [`keeps_total`] says it of each state of the history, and so it holds of
//! the last one too. A sum is that of the state of a time that is told, which a section of its own took. A
//! transfer moves some amount, and is one commit or none, and each refusal has its cause.
//!
//! # How it is made
//!
//! 1. *Rules.* `Accounts` is a `Protocol`: which opening states there may be, and which commits
//!    (`specs/Rules.antt`). What an account's words say is a `Record` of `mv_client`, and the rules speak of
//!    its fields (`specs/Layout.antt`). A commit's tag says which transfer it is, so that the rules can compare
//!    its writes with it.
//! 2. *What the rules keep.* A transfer keeps the sum, so each allowed history does
//!    (`proofs/Totals.antt`). A store's law says that what it has seen is allowed.
//! 3. *Fit.* `try_commit` asks that the commit stays allowed whatever others commit meanwhile to what
//!    isn't held. A transfer depends on two balances and locks both, so it does: `words-drifts` of
//!    `mv_history` is all that `proofs/Fits.antt` needs.
//! 4. *One attempt.* A transfer is a `Work` of `section_work`: it decides in a view, and says what it
//!    writes, with which tag. `attempt_work` makes room, enters, lets it decide, locks, writes and
//!    commits, and [`transfer`] answers by what that leaves.
//! 5. *Trying again.* No call of a store attempts a section again. [`make_transfers`] attempts each transfer until it is
//!    done, and takes a `Wait`, since others may always come first.
//! 6. *Threads.* These calls take any store, so a thread of its own may make them: `accounts_run` runs them
//!    over a domain.
//!
//! # Its place
//!
//! It stands on the traits of `mv_history`, and on `section_work` for its section. Moving amounts
//! between accounts while others read all of them is the example with which snapshot isolation is
//! mostly explained (Berenson and others, "A Critique of ANSI SQL Isolation Levels", SIGMOD 1995).
#![tactic(auto)]

mod attempt;
mod layout;
mod reading;
mod repeating;
mod rules;
mod transfer_work;

pub use attempt::{TransferAttempt, transfer};
pub use layout::Account;
pub use reading::{SumAt, keeps_total, sum, total};
pub use repeating::{Moved, make_transfers, read_sums};
pub use rules::{ACCOUNTS, Accounts, opening};
