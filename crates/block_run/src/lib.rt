//! Runs of scripts of blocks: it reads the scripts of files, runs them over a domain, one worker for each script, and makes the text
//! of the run.
//!
//! # Model
//!
//! A run of blocks is a kind of run over a domain (`block_runs` in specs/BlockRuns.antt, by `Kind` of `run_kinds`): script i is
//! done by seat i, each block is one entry or one read, and its lines stand there (`BlocksRunOf` of `block_domain`).
//!
//! # Contract
//!
//! [`make_blocks`] answers the text of a run of what the files were read as, and the closing of its domain (`IsTextOfBlocks`):
//! each file was a valid script of blocks, and the text is that of some lines and final maps, and of the closing's tables. Each
//! block stands in the history of that closing, which has no other commits, and each seat went along the chain of its blocks
//! (`IsRunAlong`). Else it answers why reading stopped (`AnyStop`), or want of memory.
//!
//! # Place
//!
//! It stands on `script_files` for reading, on `run_kinds` for the domain and the text, on `block_domain` for the run over it, and on
//! `set_catalog` for the sets that are left. `mvrlu_run` calls it for `block`.
#![tactic(auto)]

mod blocking;

pub use blocking::make_blocks;
