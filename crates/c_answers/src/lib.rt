//! What calls of C say and are told: commands by their numbers, and statuses, replies and counts by the answers of seats.
//!
//! **The model.** A `Status` is one meaning, with one number (`code_of` in specs/Statuses). A reply of C (`MvrluReply`) is made of the
//! reply of a command and of the place where it took place, or of the cause for which it was given up. A command of C is numbers: of the
//! command itself (`MvrluCommand`), of its sets and its key.
//!
//! **The contract.** Each function is one definition of specs/, for all values: which command numbers say, or which status tells that they
//! say none (`commands`, `block_of`); which status and which reply tell an answer (`tell_attempt`, `tell_step`, `tell_split`, `tell_block`,
//! `counts_of`, `tell_closed`); and for seats of objects what is written for the caller beside the status, where a closed seat or a misuse
//! writes nothing (`tell_value`, `tell_lock`, `tell_commit` and the others).
//!
//! **Its place.** `mvrlu_c` takes a handle apart, makes the call on its seat and hands on what is told here, with these definitions in its
//! own contracts. It stands on `object_seats`, `set_blocks` and `grow_hash`, whose answers it tells. It makes no call on a seat, and no
//! function here has a pointer. What is `repr(C)` is declared by `mvrlu.h` as well.
#![tactic(auto)]

mod blocks;
mod closing;
pub mod commands;
mod counts;
mod objects;
mod replies;
mod status;
mod table_replies;

pub use blocks::{MvrluCommand, block_of, tell_block};
pub use closing::tell_closed;
pub use counts::{MvrluCounts, counts_of};
pub use objects::{
    tell_commit, tell_counts, tell_live, tell_lock, tell_made, tell_pair, tell_room, tell_vacant,
    tell_value,
};
pub use replies::{MvrluReply, tell_attempt};
pub use status::Status;
pub use table_replies::{tell_split, tell_step};
