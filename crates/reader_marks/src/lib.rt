//! Sections and their marks: how a seat enters a section and leaves it, and how it finds a time that
//! no section is below.
//!
//! A section reads the state of one time, so nobody may reclaim what that state needs while the
//! section lasts. Each seat has a MARK, which is 0 outside a section, and else says a time not above
//! the section's. Entering takes a low bound first, stores it as the mark, and only then takes the
//! time of the section: whoever reads the mark meanwhile finds a bound that the section keeps. The
//! marks are the `local clock` words of RLU (Matveev, Shavit, Felber and Marlier, SOSP 2015, section
//! 3), which MV-RLU (Kim, Mathew, Kashyap, Ramanathan and Min, ASPLOS 2019, section 3.6) reads for
//! its watermark of reclamation.
//!
//! **The model.** A pass is outside a section or in one, with its time, and knows the prefix of the
//! history that it has seen. A section that has helped the commit of its clock word is past its
//! help: every live commit up to its time is stamped.
//!
//! **The contract.** `enter` makes at most six steps, one of which loads the time of the section
//! that it begins from CLOCK; all that the seat had seen is in the section's snapshot, nothing is
//! held, and the section is past its help. `leave` makes one step, and adds no entry. `scan` loads
//! CLOCK and the mark of each other seat, and raises the shared word GRACE by the least of their
//! times, `low`: no section of any seat has a time below it, now or later. Its watermark is the
//! greater of `low` and the time found in GRACE, since another seat's scan may have found a later
//! one. Its contract has the mark that it found of each seat and the exact steps, of which the
//! raise of GRACE is the last. `known` takes the watermark that stands in GRACE, by one load. After
//! both the pass's own watermark is at least the answered time, which is what freeing a slot and
//! writing a version back ask for. No call takes memory, waits or refuses.
//!
//! An `enter` is made of `enter_low`, `enter_mark` and `enter_time`, of one step each, and of the help
//! of the word that the last of them found. A caller may stop after each, or let others move in between.
//!
//! The crate stands on `mv_core` for its steps, `commit_clock` for the help, and `mv_layout` for
//! the packing of clock words.
//! Crates above name `commit_clock` and `mv_core` through this crate.
#![tactic(auto)]

mod scanning;
mod sections;

pub use commit_clock;
pub use commit_clock::mv_core;
pub use scanning::{Watermark, known, scan, scan_clock};
pub use sections::{enter, enter_clock, enter_low, enter_mark, enter_time, leave};
