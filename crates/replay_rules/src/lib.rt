//! What the replay of a plan is, and what holds of it for every plan and every schedule.
//!
//! **Model.** A plan is the numbers of a domain, calls, each of a seat, and a schedule, which is a list of seats
//! (`specs/Plans.antt`; `specs/FitPlans.antt` has the ranges of its numbers).
//!
//! A state of a domain is its words, its history and the view of each seat, and a step of a seat makes of one
//! state the next, by `mv_core`'s own definition of the step's kind (`specs/States.antt`): its condition, the
//! word that it is of, what it writes of what it finds there, and the view after it. The states of a replay
//! are those that steps make of a new domain whose objects are all zeros.
//!
//! The run of a plan is a function (`specs/Runs.antt`). A seat has the versions of its log, what it is at, and the next
//! step of the call that it is in; `specs/Tasks.antt` says of each step the word that it is of and what it does with it, and
//! `specs/Learns.antt`, `specs/GoesOn.antt` and `specs/Sweeps.antt` what its seat knows and does next, in the order of the
//! runtime's crates. A turn looks at the seat's calls, skips those whose condition is false, answers those that need no step,
//! and makes one step. The turns of the schedule, one after another, give the text.
//!
//! **Contract.** The crate has the types of that function and its laws; it makes nothing. By `turns_make_one_step` each
//! turn makes at most one step, whose line has the word that was at its place just before, and no word changes but by the
//! write that such a line says. By `runs_are_ruled` each turn's step is one of the core's, by the seat whose turn it is, and its
//! condition holds of that seat's view where it is made; behind each turn the words are those of the state that the steps so far
//! make, in the order of the schedule, which is one of the core's rule: what each seat notes of its log stands for its view
//! there, as the log of a runtime's seat stands for its pass. `turns_go_on` says the same of one turn, from whatever steps its
//! words come.
//!
//! By `runs_are_ruled`, too, each call that ends answers what the contract of the same call of the runtime says of the seat's
//! view before the call's first step and behind its last; `specs/Answers.antt` says what that is for each call. A call is skipped
//! only where by its seat's view it may not begin (`specs/Skips.antt`), and each step is one of a call of its seat
//! (`specs/CallTasks.antt`), of the core's kind of such a step (`specs/Kinds.antt`). The calls of a seat are those of the plan,
//! in their order (`specs/InPlans.antt`).
//!
//! **Place.** It stands on `mv_layout` for the numbers and the places of a domain, on `mv_core` for the kinds of step and the
//! rule, on `reader_marks`, `version_chain`, `object_lock`, `commit_abort` and `log_reclaim` for what the calls of the runtime
//! answer, and on `mv_history` for the words of an object and the answers' types. `step_replay` runs plans by it.
#![tactic(auto)]

mod laws;
mod plan;
mod seats;

pub use laws::{runs_are_ruled, turns_go_on, turns_make_one_step};
pub use plan::{Call, CallOf, MOST_STEPS, Plan, PlanFault, PlanKind};
pub use seats::{
    Access, CallAnswer, Edit, Ending, Entering, Helping, Leaving, Locking, NextStep, NotedVersion,
    Reclaimed, Scanned, State, Sweep, Sweeping, Test, Then, Walking, WriteBackEnd,
};
