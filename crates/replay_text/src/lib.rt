//! The lines of a replay, as text.
//!
//! **Model.** A line of a replay is that of a step, of a call that ends, of a call that is skipped, of a seat that has no call
//! left, or the last one. `specs/Lines.antt` of `replay_rules` says as functions which bytes each of them is.
//!
//! **Contract.** Each call appends one line to a text. Where it answers no error, the text grew by exactly that line; the error
//! is want of memory.
//!
//! **Place.** It stands on `replay_rules` for the types of a run and the bytes of its lines, and on `mv_history` and
//! `commit_abort` for what calls answer. `step_replay` writes the text of a plan's run by it, and names `replay_rules` through it.
#![tactic(auto)]

mod writing;

pub use replay_rules;
pub use writing::{write_answer, write_end, write_idle, write_skip, write_step};
