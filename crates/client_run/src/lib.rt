//! Tasks over a domain that is as large as what is given, and laws of what they tell.
//!
//! # The contract
//!
//! [`run_over`] is `domain_run::run` with a seat for each task, an object for each of the opening state, and logs for the
//! commits of `write_max` objects. In `proofs/Told.antt`, for clients: what each task did on its seat (`ran_at`); where each
//! tells how many commits it made, all that is told is all that the history has (`told_by_all`), and what each commit raises by
//! one has been raised as often (`raised_by_all`); what each commit keeps holds at each time (`kept_at`, `kept_last`); and where
//! a task found no time left, the domain has none (`worn_over`, `each_told`).
//!
//! # Its place
//!
//! It stands on `domain_run` and `mv_client`. `counter` is a client of it.
#![tactic(auto)]

mod running;

pub use running::run_over;
