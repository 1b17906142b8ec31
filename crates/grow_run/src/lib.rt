//! Runs of scripts on a growing hash set: it reads the scripts of files, runs them over a domain, one worker for each script, and
//! makes the text of the run.
//!
//! # Model
//!
//! A run on a growing set is a kind of run over a domain (`grow_runs` in specs/GrowRuns.antt, by `Kind` of `run_kinds`): script i is
//! done by seat i. The commits of the history are those of lines and of splits: a seat has one split at most behind each
//! second add of its script that replied yes, ahead of its next line (`GrowRunOf` of `grow_report`). The text has a line
//! on the buckets and the splits ahead of the tables.
//!
//! # Contract
//!
//! [`make_grown`] answers the text of a run of what the files were read as, and the closing of its domain (`IsTextOfGrown`): each
//! file was a valid script of a growing set, and the text is that of some lines, of the final set and its splits, and of the
//! closing's tables. Each line stands in the history of that closing, each commit of which is a line or a split that was due, and
//! each seat went along the chain of its lines (`IsRunAlong`). Else it answers why reading stopped (`AnyStop`), or want of
//! memory.
//!
//! # Place
//!
//! It stands on `script_files` for reading, on `run_kinds` for the domain, on `grow_domain` for the run over it, on
//! `grow_hash` for the set that is left, and on `grow_report` for the order and the text of the lines. `mvrlu_run` calls it
//! for `grow`.
#![tactic(auto)]

mod growing;

pub use growing::make_grown;
