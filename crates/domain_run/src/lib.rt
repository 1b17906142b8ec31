//! Running tasks over a domain: each task has a seat and a thread of its own, and then all seats meet.
//!
//! # The model
//!
//! A [`Task`] is what one thread does with one store. It is written once for any store of its rules, and says what it
//! needs of the seat ahead (`ready`) and what it did, from the seat before to the seat after (`did`).
//!
//! # The contract
//!
//! [`run`] opens a domain and runs a task on each seat; [`run_on`] does so on a domain that is open. Both answer the
//! closing of the domain and the tasks as their runs left them. There is one history of it all (`IsRun`):
//!
//! - it is legal, and allowed by the rules from the opening state;
//! - the k-th task did what it says, once, from the new seat of number k to a seat that met. All that this seat had seen is
//!   a beginning of the history, and its commits and rests are those of its number in it;
//! - each entry is of one of the seats;
//! - the closing's tables are those of the seats that met, by number.
//!
//! So what a task says of its seat holds of the whole history, at every interleaving. A run that isn't begun, for numbers
//! out of range or for want of memory, hands back all that it was given, as it was.
//!
//! # How it is made
//!
//! All memory is taken before a handle is made, since a handle can't be let go. The domain is lent to its seats in their order
//! (`domain_loan`), each handle goes into a worker with its task (`workers.rt`), each of these runs in a thread, and the seats
//! are taken back. A method that takes any `S: Store` is what a `Task` needs: one that takes a
//! handle can't be written outside this crate.
//!
//! # Its place
//!
//! It stands on `domain_loan` and `mvrlu`. A client writes one `impl Task` and its relation; `accounts_run` is one to copy.
#![tactic(auto)]

mod running;
mod sizes;
mod task;
mod workers;

pub use running::{run, run_on};
pub use sizes::config_of;
pub use task::Task;
