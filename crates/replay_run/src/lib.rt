//! The replay of a plan: it reads the schedule of steps of one file, replays it, and makes the text of its replay.
//!
//! # Model
//!
//! A plan is what the file's bytes are in the grammar of `step_replay`. No domain is run, and no thread is started: the plan's
//! turns are made one after another.
//!
//! # Contract
//!
//! [`make_replay`] answers `text_of_plan` of the plan that the file was read as (`IsTextOfPlan` in specs/ReplayRuns.antt), a
//! function of the file's bytes alone. The plan's turns make the steps of the core alone, at states of its rule. Else it
//! answers why reading stopped (`AnyStop`), or want of memory.
//!
//! # Place
//!
//! It stands on `script_files` for reading and on `step_replay` for the replay. `mvrlu_run` calls it for `replay`.
#![tactic(auto)]

mod replaying;

pub use replaying::make_replay;
