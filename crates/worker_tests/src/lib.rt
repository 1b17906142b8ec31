//! Worked cases of the workers, the pool and a run over a domain, of files and sinks, and of the order and the
//! text of runs, over their public calls.
//!
//! **The model.** A case has scripts, the stores or the domain that they run on, and the lines, counts and
//! refusals that are wanted. A gate holds one command until another seat's is done.
//!
//! **The contract.** That each call here is allowed is proved; what it answers is compared at run time.
//!
//! **Its place.** It stands on `script_workers`, `command_pool`, `script_domain`, `host_io` and
//! `run_report`, and no crate stands on it. The tests are in a crate of their own, since a check of a
//! crate's tests proves all of that crate once more.
#![tactic(auto)]

#[cfg(test)]
mod comparing;
#[cfg(test)]
mod domains;
#[cfg(test)]
mod outside;
#[cfg(test)]
mod parts;
#[cfg(test)]
mod pools;
#[cfg(test)]
mod reports;
#[cfg(test)]
mod scripts;
