//! A seat's notes of its own log: building versions in it, noting what became of them, and freeing
//! the oldest ones.
//!
//! Each seat has a log, a ring of slots in which it builds the versions that it writes: the
//! per-thread circular logs of MV-RLU (Kim, Mathew, Kashyap, Ramanathan and Min, ASPLOS 2019,
//! sections 3 and 4), after the write logs of read-log-update (Matveev, Shavit, Felber and Marlier,
//! SOSP 2015). Other seats read the words of its slots in the table; the owner keeps notes besides,
//! and so locks, commits and reclaims with no load of its own words.
//!
//! **The model.** Clauses see a `Log` as what it has noted (`Noted` in specs/Notes.antt): the live
//! versions from the oldest on, each a `Note`; how many of the last of them are held; the version
//! that is being built, if there is one; how many versions were freed before the oldest; and the
//! counts of write-backs, commits, aborts and rests. Positions rise without a gap, and a write set
//! is a run of them. *The log stands for the pass* (`Stands` in specs/Stands.antt) says that all of
//! this is so in the pass's view: each live version is in the slot of its position as it is noted,
//! no other slot has a version, the slot of a built version holds what is noted of it, and the
//! counts are those of the view. Every position that was ever in a chain is of a write of a commit,
//! held, or of an abort, so where the log counts no abort they are as many as the writes of the
//! seat's commits and what it holds.
//!
//! **The contract.** `build`, `clear_previous`, `put_word` and `put_words` store words of the own
//! log, by the steps of `mv_core`: they need that the log stands for the pass, and keep it, and each
//! says the exact view and the exact notes afterwards. `build` makes ten steps at most, `put_words`
//! six and the others one; each finds the cell of the version's slot once.
//! A built version isn't in a chain yet. Given up, its slot is free again though the view still has
//! it as being built, and the next `build` stores all its words anew at the same position.
//! `free_oldest` frees the oldest write set, exactly where each of its versions is noted to be dead
//! from a time not above a watermark that the pass knows: it stores STAMP 0 into each of its slots,
//! and answers how many. `table` answers the counts, which are those of the pass.
//! `drop_built`, `retire` and the calls that begin with `note_` make no step: they note exactly what
//! they are told, and their caller shows again that the log stands for the pass. The lemmas for
//! that are in proofs/: `Beginning` for a new domain, `Stays` and `PlainSteps` for steps that leave
//! the own log alone, `Stays` for a won lock, `Ended` with `Commits` and `Aborts` for the end of a
//! write set, `Retired` for a load of SUPER, `CutLogs` for a write-back and `Rested` for a rest. No
//! call waits or refuses; `new_log` alone takes memory, once, and refuses for want of it only.
//!
//! The crate stands on `mv_core` for its steps, on `reader_marks` for watermarks, and on `mv_layout`
//! for the packing of stamps.
//! Crates above name `reader_marks`, `commit_clock` and `mv_core` through this crate.
#![tactic(auto)]

mod building;
mod counts;
mod freeing;
mod log;
mod notes;
mod version;
mod writing;

pub use building::{build, clear_previous, put_word};
pub use counts::table;
pub use freeing::free_oldest;
pub use log::Log;
pub use notes::{
    drop_built, held, live, new_log, note, note_abort, note_commit, note_cut, note_held, note_rest,
    retire, room,
};
pub use reader_marks;
pub use reader_marks::{commit_clock, mv_core};
pub use version::Note;
pub use writing::put_words;
