//! Runs of scripts of set commands: it reads the scripts of files, runs them over a domain, one worker for each script, and makes
//! the text of the run. It also runs the four generated scripts of a number, and sums their run up.
//!
//! # Model
//!
//! A run of scripts is a kind of run over a domain (`runs` in specs/ScriptRuns.antt, by `Kind` of `run_kinds`): script i is done by
//! seat i, a command has one line, and each line stands in the one history of the domain that is left (`RunOf` of
//! `run_report`).
//!
//! # Contract
//!
//! [`make_run`] answers the text of a run of what the files were read as, and the closing of its domain (`IsTextOfScripts`):
//! each file was a valid script, and the text is that of some lines and final maps, and of the closing's tables. Each line stands
//! in the history of that closing, which has no other commits; in their order, replayed one after another, the lines give every
//! reply and end in the printed sets. The domain has all the numbers that it was to have, and each seat went along the chain of
//! its lines (`IsRunAlong`). Else it answers why reading stopped (`AnyStop`), or want of memory.
//!
//! [`work_text`] answers the summary of a run of generated scripts, which is that of the scripts one after another where no
//! reply is `worn` (`IsTextOfWork`).
//!
//! # Place
//!
//! It stands on `script_files` for reading, on `run_kinds` for the domain and the text, on `script_domain` for the run over it, on
//! `set_catalog` for the sets that are left, on `script_gen` for generated scripts, and on `run_report` for their summary.
//! `mvrlu_run` calls it for `run` and `work`.
#![tactic(auto)]

mod generated;
mod running;
mod texts;

pub use texts::{make_run, work_text};
