//! Worked cases of a domain, over the public calls of `mvrlu` alone: opening one, with each fault of its
//! numbers; sections of its seats, what holds their logs, and their meeting, by schedules; and that its
//! seats, handles and sections may go to threads; and over those of `object_seats`, `set_seats` and `grow_seats`. The
//! accounts of `accounts` run here too, over a plain store, and the updates and records of `mv_client`.
//!
//! **The model.** A schedule is a value: its name, the numbers of a domain, its turns, each with the number
//! of a seat, its move, and the answer that is wanted, and the closing that is wanted. An interpreter plays
//! it in a new domain, on one thread, with a client for each seat, which is its handle or its session.
//!
//! **The contract.** Every move leaves a client's seat the seat that it was (`IsSameSeat`), so any schedule
//! may be played, and its seats can meet. A move that isn't one of the client as it stands is `Skipped`.
//! What the calls answer is compared at run time: `played` answers what was first otherwise.
#![tactic(auto)]

#[cfg(test)]
mod accounts_alone;
#[cfg(test)]
mod client_records;
#[cfg(test)]
mod client_updates;
mod clients;
#[cfg(test)]
mod comparing;
#[cfg(test)]
mod lending;
#[cfg(test)]
mod log_rows;
#[cfg(test)]
mod moves;
#[cfg(test)]
mod opening;
#[cfg(test)]
mod owned_closing;
#[cfg(test)]
mod owned_rows;
#[cfg(test)]
mod owned_seats;
#[cfg(test)]
mod owned_sets;
#[cfg(test)]
mod owned_tables;
#[cfg(test)]
mod playing;
#[cfg(test)]
mod section_rows;
#[cfg(test)]
mod sends;

#[cfg(test)]
pub use moves::{Answer, Move};
#[cfg(test)]
pub use playing::{Otherwise, SMALL, Schedule, Turn, play_schedules, played};
