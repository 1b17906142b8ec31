//! The replay of a given schedule of steps: plans as text, and the machine on which a plan's steps are made.
//!
//! **Model.** A plan is the numbers of a domain, calls, each of a seat, and a schedule, which is a list of
//! seats. As text it is lines of words, as a script is: `specs/PlanTexts.antt` says as a function on bytes which
//! plan a text is, or its first faulty line and what is wrong with that line first. The run of a plan is the function
//! that `replay_rules` says, with its states, its steps and the text that it gives.
//!
//! **Contract.** `parse_plan` answers exactly the plan of a text, or its first fault; want of memory is the
//! one free answer. All numbers of a plan are in their ranges.
//!
//! `replay` answers exactly `text_of_plan`, the text of the run: a function of the plan alone. By `turns_make_one_step` each
//! turn makes at most one step, whose line has the word that was at its place just before, and no word changes but by the
//! write that such a line says. Each turn's step is one of the core's, by the seat whose turn it is, and its condition holds
//! of that seat's view where it is made. Behind each turn the words are those of the state that the steps so far make, in the
//! order of the schedule, which is one of the core's rule, and each call that ends answers what the contract of the same call
//! of the runtime says (the clause ruled, and `runs_are_ruled` for every schedule).
//!
//! `write_step` is the line of a step, also for who makes steps on a `Machine` without a plan.
//!
//! A `Machine` keeps the words of a domain at run time, and the steps behind which it is are known to the proof
//! alone. Each of its calls is one step, whose condition holds of its seat's view there: it answers the word that is
//! there just before, and the machine is then at the state that the step makes. By `replays_are_ruled` each such state is
//! one of the core's rule, with all points of it. `replay` has its words on one.
//!
//! **Place.** It stands on `replay_rules` for what a plan's run is and for the laws of all runs, which it names through
//! `replay_text`; on `replay_text`, which writes the lines of a run; on `script_parser` for the words of a line and their numbers,
//! on `mv_layout` for the numbers and the places of a domain, on `mv_core` for the rule, and on `mv_history` and `commit_abort`
//! for the words of an object and the answers' types. The program's `replay` stands on it. Crates above name `replay_rules`
//! through this crate.
#![tactic(auto)]

mod access;
mod body;
mod calls;
mod drafts;
mod going;
mod heads;
mod laws;
mod learning;
mod machine;
mod notes;
mod numbers;
mod places;
mod schedule;
mod turns;

pub use drafts::parse_plan;
pub use laws::replays_are_ruled;
pub use machine::Machine;
pub use places::{place_cell, place_number};
pub use replay_text::replay_rules::{
    Access, Call, CallOf, MOST_STEPS, Plan, PlanFault, PlanKind, runs_are_ruled, turns_go_on,
    turns_make_one_step,
};
pub use replay_text::{replay_rules, write_step};
pub use schedule::replay;
