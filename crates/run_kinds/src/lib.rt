//! Kinds of run over a domain: what each is, in one record of one shape, how the domain of a run is opened, and how the text of
//! what it tells is made.
//!
//! # Model
//!
//! A run has one history: that of its domain, which is known whole once all seats have met. Its lines are one for each command,
//! with its place, a commit or a read at a printed time, and its reply there. A kind of run is one record (`Kind` in
//! specs/Kinds.antt): the numbers of its domain; what makes lines, an end and tables one run of a history; and the text of
//! them.
//!
//! The history that is left is that of a run, and each seat went along a chain, whose links are the attempts of its lines,
//! from the one with which a domain of these very numbers was opened, to the one that met (`IsRunAlong`). The closing tells
//! which seats met, with all their steps, so each step that a chain names was made; and its tables are those that the meeting
//! took of these seats. So no other counts are printed.
//!
//! # Contract
//!
//! [`open_run`] opens the domain of a run: with all the numbers that it is to have, and objects that are all zero.
//! [`ran_or_met`] lets the seats meet where a run was refused for want of memory. What a run tells is a [`RunAnswer`], and [`tell`] makes
//! the text of one on the sets, with the lines in their order. Lemmas: what a run hands back can meet (proofs/Opened.antt); the
//! domain is left of a run along the chains of its seats, once its sets are read (proofs/Along.antt); and the text of the lines
//! in their order is that of the run (proofs/InOrder.antt).
//!
//! # Place
//!
//! `script_run`, `block_run`, `pool_run` and `grow_run` stand on it side by side, and each adds its kind of run.
//! It stands on `mvrlu` for the domain, on `domain_lines` for lines in its history, on `run_report` for their text, and on
//! `run_words` for the numbers.
//! Crates above name `domain_lines`, `domain_loan` and `mvrlu` through this crate.
#![tactic(auto)]

mod opening;
mod telling;

pub use domain_lines;
pub use domain_loan;
pub use mvrlu;
pub use opening::{USUAL, WRITE_MAX, open_run, ran_or_met};
pub use telling::{FromRun, RunAnswer, tell};
