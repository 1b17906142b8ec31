//! Tests of the runtime that cross its crates, on passes.
//!
//! **The model.** A schedule is a value: its name, the numbers of a domain, and its turns, part by part,
//! each turn with the number of a seat, its move, and the answer that is wanted. An interpreter plays it
//! in a new domain, with one client for each seat, which has the pass, the log and the stage of that seat.
//! Moves call the crates below as a section would. A lock, an `enter`, a walk, a write-back and a rest may
//! also be made by their parts, each of which is a move, so that other seats have their turns in between,
//! or the seat makes no further move. Schedules in which a seat stops within such a part stand in
//! `tests/plans/stops`, and are run as plans alone. A walk or a write-back that is under way is kept by its client, and
//! is let go with any other move of that client; the section of a write-back stays open until it is left.
//!
//! **The contract.** `AreReady`, that each client stands where its stage says, and the walk or
//! write-back that it keeps where its view says, holds in a new domain and after every move: so any
//! schedule may be played, and each call in it is made where its contract allows. A move that isn't one
//! of the client's stage is `Skipped`. What the calls answer is compared at run time: `played` answers the first turn that was
//! answered otherwise.
//!
//! **The tests.** Each file of them is a table of schedules and one loop over it. `lock_rows` has locks
//! and `commit_rows` commits of two and three seats, with lost exchanges of CLOCK and commits that
//! stopped, and `read_rows` what sections read under them, by whole reads and by the looks of a walk.
//! `mark_rows` has marks and watermarks, `reclaim_rows` rounds and tidies, and what holds a log,
//! `back_rows` write-backs by their parts, and `rest_rows` rests, with a help of a word whose commit is
//! gone by then and whose slot is built anew. `enter_stop_rows` and `stop_rows` stop a seat after parts of
//! a call and have another one enter, read, lock, commit and tidy, `version_stop_rows` does so where the
//! objects have versions, and `back_stop_rows` within a write-back. `lost_lock_rows` has locks whose
//! exchange of HEAD is lost or won after others moved, and stops after a whole one, and `lock_with_rows`
//! has locks with words of the caller's. `join_rows` joins
//! the passes of a domain, and has what CLOCK is then; `close_rows` closes it, and has its last words.
//! `reads` counts steps, which are known in proofs alone, in the contracts of its functions: sections of a
//! domain in which nobody has committed have the opening time, and read the opening words in the masters,
//! one after another and where they overlap. Such a section enters by three steps, finds the master by
//! one, reads its six words by six and leaves by one.
//!
//! `first_rests`, `first_sections`, `first_walks` and `first_logs` are cases of one crate each: clock
//! words and rests, entering and leaving, walks and reads, and what a log notes.
//!
//! Each schedule is one order of whole calls and stops, on one thread. The crate stands above all
//! crates that it crosses.
#![tactic(auto)]

#[cfg(test)]
mod back_rows;
#[cfg(test)]
mod back_stop_rows;
mod clients;
#[cfg(test)]
mod close_rows;
#[cfg(test)]
mod closing;
#[cfg(test)]
mod commit_rows;
#[cfg(test)]
mod commits;
#[cfg(test)]
mod comparing;
#[cfg(test)]
mod enter_stop_rows;
#[cfg(test)]
mod filled_logs;
#[cfg(test)]
mod first_domains;
#[cfg(test)]
mod first_logs;
#[cfg(test)]
mod first_rests;
#[cfg(test)]
mod first_sections;
#[cfg(test)]
mod first_walks;
#[cfg(test)]
mod inside;
#[cfg(test)]
mod join_rows;
#[cfg(test)]
mod joining;
#[cfg(test)]
mod lock_rows;
#[cfg(test)]
mod lock_with_rows;
#[cfg(test)]
mod lost_lock_rows;
#[cfg(test)]
mod mark_rows;
#[cfg(test)]
mod moves;
#[cfg(test)]
mod opening;
#[cfg(test)]
mod outside;
#[cfg(test)]
mod parts;
#[cfg(test)]
mod playing;
#[cfg(test)]
mod read_rows;
#[cfg(test)]
mod reads;
#[cfg(test)]
mod reclaim_rows;
#[cfg(test)]
mod rest_rows;
#[cfg(test)]
mod stop_rows;
#[cfg(test)]
mod version_stop_rows;
#[cfg(test)]
mod walks;
#[cfg(test)]
mod write_backs;

pub use clients::{Client, Stage};
#[cfg(test)]
pub use closing::{LastWords, closed_after};
#[cfg(test)]
pub use moves::{Answer, Move};
#[cfg(test)]
pub use playing::{Otherwise, SMALL, Schedule, Turn, play_schedules, played};
