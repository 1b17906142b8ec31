//! Scripts of blocks as text, and what their blocks are.
//!
//! # Model
//!
//! The lines are those of a script (`script_parser`). A line `begin` opens a block, and a line `end`
//! closes it; the commands of the lines in between are the block's. A command outside is a block of
//! one. `specs/BlockGrammar.antt` says this as a function on bytes, which stands on the grammar of
//! scripts for everything else.
//!
//! # Contract
//!
//! `parse_blocks` answers exactly the blocks of a script, or its first faulty line and what is wrong
//! with it first; want of memory is the one free answer. A script without `begin` and `end` is one of
//! blocks of one command (`plain_scripts_are_blocks_of_one`).
//!
//! # Place
//!
//! It stands on `set_blocks`, whose blocks it makes, and on `script_parser`, whose reading of a line
//! it uses. The program reads its files of blocks by it.
//! Crates above name `set_blocks` through this crate.
#![tactic(auto)]

mod faults;
mod laws;
mod line;
mod parsing;
mod progress;

pub use faults::{BlockFault, BlockKind};
pub use laws::plain_scripts_are_blocks_of_one;
pub use parsing::parse_blocks;
pub use set_blocks;
