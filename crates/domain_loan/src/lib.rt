//! The loan of a domain to its seats, and back, for whoever runs something on each of them.
//!
//! # Model
//!
//! A domain that is lent has a handle for each of its seats, in their order. What was run went from the
//! seats before to the seats after, and these are given back. Once all have met, there is one history of it
//! all, and the closing has the table of each seat's log (`HaveMet` in `specs/Met.antt`).
//!
//! # Contract
//!
//! - `lend_all` answers a handle for each seat and what is left to give them back, or, for want of memory,
//!   the seats.
//! - `take_back` answers the seats.
//! - `meet_all` answers the closing of the domain: its history is legal, and allowed by the rules from the
//!   opening state; all that each seat had seen is a beginning of it; each entry is of one of the seats; it
//!   tells which seats met, with their steps, and these are they; and its tables are theirs, in their order.
//!
//! All memory is taken before a handle is made, since a handle can't be let go.
//!
//! # Place
//!
//! It stands on `mvrlu`. `domain_run` runs tasks over it, and the program its scripts.
#![tactic(auto)]

mod lending;

pub use lending::{Left, lend_all, meet_all, take_back};
