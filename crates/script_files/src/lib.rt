//! The scripts of files: reading them one after another, parsing them side by side, and why reading stops.
//!
//! # Model
//!
//! Files are texts by name (`Files` of `host_io`), and the names say which are read, in this order. A file is read as a
//! script of commands, of the sets or of a growing set, as a script of blocks, or as a plan (`Reading` in
//! specs/Scripts.antt). Each of these has its grammar, a function of the text's bytes, which says the script or the first
//! faulty line.
//!
//! # Contract
//!
//! [`read_scripts`], [`read_block_scripts`] and [`read_plan`] answer the scripts of all files: where the texts are told,
//! those of these names are these scripts, each within its limits (`AllScripts`). A [`Stop`] is the first reason in the
//! order of the files why one has none (`AnyStop`): it can't be opened or read, has too many bytes, or has a first faulty
//! line, and those before it are scripts; or there is no memory. Where the files are steady, a call fails only at a name
//! without a text (`NoneFails`).
//!
//! A file of which a call failed is told by the first place of its name among all names.
//!
//! # Place
//!
//! All files are read into memory, one after another, and then the bytes of each are parsed in a thread of its own where one
//! can be made. The answer is decided by the results in the order of the files, so it is that of the first faulty file.
//! It stands on `host_io` for reading, and on `script_parser`, `grow_script`, `block_parser` and `step_replay` for the
//! grammars. `script_run`, `block_run`, `pool_run`, `grow_run` and `replay_run` read their files by it.
//! Crates above name `block_parser`, `set_blocks`, `step_replay` and `replay_rules` through this crate.
#![tactic(auto)]

mod block_scripts;
mod parsing;
mod plans;
mod reading;
mod scripts;
mod stop;

pub use block_parser;
pub use block_parser::set_blocks;
pub use block_scripts::read_block_scripts;
pub use plans::read_plan;
pub use scripts::{Grammar, read_scripts};
pub use step_replay;
pub use step_replay::replay_rules;
pub use stop::{MOST_BYTES, Stop};
