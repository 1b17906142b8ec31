//! Walking the version chain of an object down to the version that a section reads, and reading it.
//!
//! Each object has a HEAD, which names the newest version in some seat's log, and each version has
//! a PREV, which names the one below it; link 0 is the object's master copy. A version's write set
//! has a stamp: the time of its commit, or unset while it is held or its commit isn't finished. A
//! section reads the first version on the way down whose stamp is a time not above its own, and
//! the master where there is none: the version chains and the timestamps of MV-RLU (Kim, Mathew,
//! Kashyap, Ramanathan and Min, ASPLOS 2019, sections 3 and 4), after read-log-update
//! (Matveev, Shavit, Felber and Marlier, SOSP 2015).
//!
//! **The model.** The state of a section is that of the history which its seat has seen, at the
//! section's time. A pass says in its view where its walk stands: at a version, with the FIRST and
//! STAMP that it found there, or at a master. The rule of `mv_core` gives this its meaning: a
//! version where a walk may stand, and whose stamp is a time not above the section's, has the
//! object's words of that state, and so has a master where a walk stands.
//!
//! **The contract.** What `find` names, read by the matching reader, is the state of the section's
//! time at that object. `walk_step` goes on exactly where the version that it looks at has a stamp
//! that is unset or above the section's time. No call waits, refuses or takes memory, and none
//! loops without bound: each version below one that was passed has a smaller commit time, so that
//! `find` makes at most `6 + 3 * (length of seen after the call - at)` steps, where `at` is the
//! length of the section's snapshot. A reader makes six, one of two words two, and one of four words four. The trail
//! grows by as many records.
//!
//! All calls need a pass inside a section, in its open phase, past its help, with no write-back
//! under way. They change where the walk stands, and what the seat has seen is only longer; all
//! else that the view says stays.
//!
//! The crate stands on `mv_core` for its steps and on `mv_layout` for what a stamp says.
#![tactic(auto)]

mod reading;
mod walking;

pub use reading::{
    read_master, read_master_four, read_master_pair, read_version, read_version_four,
    read_version_pair,
};
pub use walking::{FoundVersion, Walk, find, walk_start, walk_step};
