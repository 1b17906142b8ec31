//! The outside of the program in memory: files and sinks that fail where they are told to.
//!
//! # Model
//!
//! [`MemFiles`] has texts by name ([`MemText`]), and [`MemSink`] the bytes that were written, with a room for them.
//! Their calls count from 1, and each call whose number is listed fails (`specs/Memory.antt`). They tell their texts
//! and bytes; files are steady exactly where no call is to fail.
//!
//! # Contract
//!
//! They keep the contracts of `host_io`'s `Files` and `Sink`. They fail exactly where they are told to, where no
//! text has the name, or where the room is spent, and are exact in all else, so a program can be tried against every
//! failure in turn.
//!
//! # Place
//!
//! It stands on `host_io` alone. Tests of the program stand on it.
#![tactic(auto)]

mod memory;

pub use memory::{MemFiles, MemSink, MemText};
