//! The accounts over a domain: threads move amounts while others read sums, and all meet. A client to copy.
//!
//! # The model
//!
//! A domain of eight accounts has one seat for each [`Teller`]. Each teller runs in a thread of its own: it makes
//! transfers, and then reads sums. When all have ended the seats meet, and their one history of commits is whole.
//!
//! # The contract
//!
//! [`run_in_domain`] (`IsRunOf`), at every interleaving:
//!
//! - each commit of the history is a transfer, and each transfer that a teller counts is one of the commits of its number;
//!   there are no others. A teller made fewer than it was asked for only where the last time was reached;
//! - each sum that a teller read is that of the state of the history at the time that is told, and each was read in a
//!   section of its own, entered behind the one before, between the new seat of the teller's number and the one that
//!   met. The closing tells of that seat with its steps, so no sum is told that wasn't read;
//! - each of these sums, and that of the last state, is the opening sum.
//!
//! Which transfers are made isn't said, only that each follows the rules: a clause on turns would repeat the
//! loop. The number of refused attempts differs from run to run, so no clause gives it.
//!
//! # How it is made
//!
//! 1. *A task.* `Teller` implements `Task<Accounts>`: what it needs of its seat, and what it did (`specs/Runs.antt`), for
//!    any store of these rules. Its method calls `make_transfers` and `read_sums` of `accounts`.
//! 2. *A run.* `domain_run::run` opens the domain, runs each task on a seat of its own in a thread, and lets all meet.
//! 3. *The whole.* Its contract says what each task did on its seat, and how that seat stands in the whole history. One
//!    file, `proofs/Serving.antt`, draws from it what is said above.
//!
//! # Its place
//!
//! It stands on `accounts` and `domain_run`; `accounts_main` is its program.
#![tactic(auto)]

mod running;
mod teller;

pub use running::run_in_domain;
pub use teller::{Teller, TellerOrder, tellers};
