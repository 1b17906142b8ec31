//! Set commands, what their replies mean, and the states that stand for a catalogue.
//!
//! **Model.** A catalogue is 30 maps, one for each name, from keys to values; a map is the list of
//! its keys, rising, each with its value (`specs/Catalogue.antt`). A command has a reply on a
//! catalogue, and leaves one (`specs/Replies.antt`). A state of six-word objects is lawful where
//! its heads lead through lists of nodes with rising keys and every other node is vacant
//! (`specs/Lawful.antt`); then it stands for the catalogue of its nodes (`specs/CatalogueOf.antt`).
//! It does so in one way at most.
//!
//! **Rules.** `SetRules` are the rules of the sets: which states a store begins with, and which commits
//! it takes (`specs/Rules.antt`). What of a section's writes stays allowed while others commit is
//! proved once over the ways to change a map (`proofs/Ways.antt`, `proofs/TwoWays.antt`), and for
//! each add, put, del and move over any of these (`proofs/Fits.antt`).
//!
//! **Contract.** `Catalogue` is such a catalogue in memory, and each call says which maps it leaves.
//!
//! **Place.** It stands on `mv_history`, whose states it speaks of, and on `section_work` for what
//! locks and writes leave of a section. `list_set` changes lawful
//! states, `run_report` replays commands over catalogues, and `script_parser` reads commands.
//! The lemmas in `proofs/` on lists, maps and states are for the crates above.
#![tactic(auto)]

mod catalogue;
mod commands;
mod objects;
mod rules;
mod script;
mod tags;
pub mod word;

pub use catalogue::Catalogue;
pub use commands::{Command, Name, Reply};
pub use objects::MOST_OBJECTS;
pub use rules::SetRules;
pub use script::MOST_COMMANDS;
