//! Runs of the generated scripts: what they count doesn't depend on how their seats run.
//!
//! **Model.** The scripts of four seats are replayed one after another, from empty maps, and counted: how many commands
//! reply `yes`, how many `no`, how many change a map, and the maps that are left (`specs/OneAfterAnother.antt`).
//!
//! **Contract.** [`a_run_counts_as_one_after_another`] says that a legal run (`LegalRun` of `run_report`) of scripts that
//! are generated for their seats (`IsGenerated` of `script_gen`) counts the same and leaves the same maps, whatever its
//! interleaving, where no reply is `worn`; so its summary is the same text. A command that comes at the last time is
//! refused as `worn`, which no one-after-another replay tells; hence the condition.
//!
//! **Why.** A generated command is an add, a del, a has or a move of one key, and the keys of two seats differ.
//!
//! 1. No command is ever `full`: keys are below 256, so a map takes at most 256 nodes in a list or in buckets and 511 in a
//!    tree, which is 10,230 for all 30 (`proofs/small`).
//! 2. So what a command replies and changes rests on the values of its own key alone, and it changes no other key
//!    (`proofs/small/Steps.antt`, over the columns of `proofs/columns`).
//! 3. Two commands of different keys may be replayed in either order, and the commands of one seat ahead of all others
//!    (`proofs/sifted`).
//! 4. In the order of a legal run's lines the commands of each seat are its script, and what the lines count is what is
//!    counted of the commands in that order (`proofs/told`).
//!
//! **Place.** It stands on `script_gen` and `run_report`, and has no code that runs.
#![tactic(auto)]

mod laws;

pub use laws::{a_run_counts_as_one_after_another, counting_by_example};
