//! A run of a pool: it reads the commands of one file, lets the seats of a domain do them, whichever takes the next, and makes the
//! text of the run.
//!
//! # Model
//!
//! A pool is a kind of run over a domain (`pool_runs` in specs/PoolRuns.antt, by `Kind` of `run_kinds`): each command is done by
//! one of so many seats, and its line has that seat and the command's number in the file (`PoolOf` of `pool_domain`).
//!
//! # Contract
//!
//! [`make_pool`] answers the text of a pool over what the file was read as, and the closing of its domain (`IsTextOfPool`): the
//! file was a valid script, and the text is that of some lines and final maps, and of the closing's tables. Each line
//! stands in the history of that closing, which has no other commits, and each seat went along the chain of the commands that it
//! took (`IsRunAlong`). Else it answers why reading stopped (`AnyStop`), or want of memory.
//!
//! # Place
//!
//! It stands on `script_files` for reading, on `run_kinds` for the domain and the text, on `pool_domain` for the pool over it, and on
//! `set_catalog` for the sets that are left. `mvrlu_run` calls it for `pool`.
#![tactic(auto)]

mod pooling;

pub use pooling::make_pool;
