//! The program: it does what the words of the command line ask for, over files and streams, and writes the text.
//!
//! # Model
//!
//! A call meets the words of the command line and an outside: texts by name, with how often and of which names a call
//! failed; the bytes written and a count of faults; and the same of standard error. It ends in one of the ways of
//! `run_ends`, each with its status and its line on standard error; which cause each has is in `specs/Outcome.antt`.
//!
//! A run over a domain has one history: that of its domain, which is known whole once all seats have met. The [`Closing`] that
//! is left has it, and `run_program` answers that closing, so its contract speaks of the run's own history and of no other.
//!
//! # Contract
//!
//! Status 0: the output grew by exactly the text that the words ask for (`IsTextFor` in `specs/Told.antt`). What the text of each
//! kind of run is, and that its domain is left, is said where that kind is: `IsTextOfScripts` and `IsTextOfWork` in
//! `script_run`, `IsTextOfPool` in `pool_run`, `IsTextOfBlocks` in `block_run`, `IsTextOfGrown` in `grow_run`, and
//! `IsTextOfPlan` in `replay_run`, which leaves no domain. Each other status has its cause, and where the texts are told and
//! no call failed the scripts alone decide, but for want of memory (`IsComplete`). A gate is called around each command; no
//! clause speaks of it, since it tells nothing.
//!
//! A read's place isn't below any commit that its seat had seen when the command began (`fresh_read` in script_domain's
//! proofs), since each seat went along a chain of the attempts of its lines.
//!
//! Status 5 names the first file of the words of which opening or reading failed in this call; of a name that stands
//! twice, its first place.
//!
//! # Place
//!
//! It stands on `run_words` for the words, on a crate for each kind of run, on `script_gen` for generated scripts, on
//! `run_ends` for how a call ends, and on `host_io` for writing. The thin program `mvrlu_main` calls it with the
//! system's files and streams.
//!
//! [`Closing`]: mvrlu::Closing
#![tactic(auto)]

mod program;
mod texts;

pub use program::run_program;
pub use run_ends::{LeftDomain, Ran};
