//! Worked cases of the replay, over the public calls of `step_replay`: plans as they are read, the text of
//! runs, and accesses of the machine; and of the packing, the places and the cells of the words of `mv_layout`.
//!
//! **The model.** A case is a text of a plan, and the plan, the fault or the run's text that is wanted.
//!
//! **The contract.** That each call here is allowed is proved; what it answers is compared at run time.
//!
//! **Its place.** It stands on `step_replay` and `mv_layout`, and no crate stands on it. The tests are in a crate of their
//! own, since a check of a crate's tests proves all of that crate once more.
#![tactic(auto)]

#[cfg(test)]
mod expected;
#[cfg(test)]
mod machines;
#[cfg(test)]
mod places;
#[cfg(test)]
mod plans;
#[cfg(test)]
mod texts;
