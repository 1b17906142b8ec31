//! A counter of four threads: what a further kind of run takes, over `section_work`, `work_runner` and `domain_run` alone.
//!
//! **The model.** The count is the first word of the one object. A `Count` is a work whose plan is one write,
//! and a counter is one thread's task: it counts so often.
//!
//! **The contract.** That each call here is allowed is proved; what the threads count is compared at run time.
//!
//! **Its place.** It stands on what any client stands on, and no crate stands on it.
#![tactic(auto)]

#[cfg(test)]
mod counter;
#[cfg(test)]
mod counting;
mod told;
