//! How a call of the program ends: its status, what is left of its domain, and its line on standard error.
//!
//! # Model
//!
//! A call ends in one of five ways ([`Finish`]): the whole text was written, the words are out of form or have a number that
//! is out of its range, reading the files stopped (`Stop` of `script_files`), or writing failed. Each way has a status
//! (`status_of` in specs/Status.antt) and a line on standard error (`line_of`). What is left of the domain that was run,
//! with its one history, is a [`LeftDomain`].
//!
//! # Contract
//!
//! [`status`] and [`into_closed`] are these functions. [`send`] offers bytes until all are taken or a write fails, and what a
//! sink took is then the front of them (`Sent`). [`report`] sends the line of an end so. Making the line takes no memory.
//!
//! Where files are told and no call of theirs failed, what the files say decides whether reading stops, and with which
//! status (proofs/Stops.antt).
//!
//! # Place
//!
//! It stands on `script_files` for why reading stops, on `run_words` for the numbers of the words, and on `mvrlu` for the
//! closing of a domain. `mvrlu_run` ends each of its calls by it.
//! Crates above name `script_files`, `set_blocks` and `mvrlu` through this crate.
#![tactic(auto)]

mod finish;
mod line;
mod sending;
mod statuses;

pub use finish::{Finish, LeftDomain, Ran};
pub use line::report;
pub use mvrlu;
pub use script_files;
pub use script_files::set_blocks;
pub use sending::send;
pub use statuses::{into_closed, status};
