//! The directory over a domain: threads move users between the shelves while others look them up, and all meet.
//!
//! # The model
//!
//! Each [`Clerk`] is one thread: it moves its user to and fro, and then looks it up. Several may have the same user. When all have
//! ended the seats meet, and their one history of commits is whole.
//!
//! # The contract
//!
//! [`run_in_domain`], at every interleaving (`specs/Runs.antt`):
//!
//! - each move that a clerk tells is one of the commits of its number, and there are no others; there are fewer than it was asked
//!   for only where the last time was reached;
//! - in the state of the time that a clerk tells, its user is on the shelf that it tells, with that id, and on no other shelf.
//!   It saw that in a section which its seat entered behind its moves; the closing tells of that seat with its steps, so
//!   nothing is told that wasn't looked up;
//! - in the last state each user is on exactly one shelf.
//!
//! # Its place
//!
//! A clerk is a task of `domain_run`, and `run_over` of `client_run` runs them. It stands on `directory`; `directory_main` is its
//! program.
#![tactic(auto)]

mod clerk;
mod running;

pub use clerk::{Clerk, ClerkOrder, idle_clerk};
pub use running::run_in_domain;
