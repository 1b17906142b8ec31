//! The outside of the program: files by name, sinks of bytes and gates, as traits, and over the system.
//!
//! # Model
//!
//! [`Files`] stands for texts by name, for the name of the text that is open and what is left of it, and for its faults:
//! how often a call failed, and of which names, in the order of the calls.
//! [`Sink`] stands for the bytes written to it and a count of faults. Texts and bytes are optional in the model:
//! memory tells them, and a system's files and streams don't. A count of faults never falls, and a call fails only
//! where it rose. It ends at `2^64 - 1`, and where it stands there it counts as risen. The names of the faults are told by
//! all files, and have no end; they stand in clauses alone, and take no memory. Files are steady where no
//! call fails that asks for a text that is there; what is steady tells its texts, and no call changes either.
//!
//! # Contract
//!
//! A read puts the next bytes of the open text into the buffer, and a write takes the first bytes of the piece, at
//! least one, or fails and takes none. [`CallRecord`] is what clauses see of the calls of files: the name that was opened
//! last, and the names of those that failed.
//!
//! # Place
//!
//! The program is generic over these traits, and its contract speaks of their models. `memory_io` has forms of
//! them in memory. Only `main` makes [`RealFiles`],
//! [`RealOut`] and [`RealErr`]. These are proved against the traits, but they tell no content: that they move the
//! bytes they were given is trusted.
#![tactic(auto)]

mod gate;
mod outside;
mod real;
mod told;

pub use gate::{Gate, OpenGate};
pub use outside::{Failed, Files, Sink};
pub use real::{RealErr, RealFiles, RealOut};
pub use told::CallRecord;
