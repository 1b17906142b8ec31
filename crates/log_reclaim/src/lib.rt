//! Reclaiming the slots of a seat's own log.
//!
//! A version is dead once no section can need it any more: when its object was written again and no
//! section is older than that write, or when it was taken out of its chain and every section that
//! began before has ended. A seat frees the slots of its own log alone, from the oldest write set on,
//! and only when every version of the set is dead. So that a log empties although nobody writes its
//! objects again, the newest version of an object is written back into the object's master words,
//! and its chain is cut. MV-RLU (Kim, Mathew, Kashyap, Ramanathan and Min, ASPLOS 2019, section 3.6)
//! does this by a watermark that a thread of its own finds, in log capacity steps; here each seat
//! scans the marks itself, inside its own calls, and shares what it finds in one word, GRACE.
//!
//! **The model.** A log's notes stand for the pass (`Stands` of `seat_log`) before and after each
//! call but while a write-back is under way. Each live version outside a section is committed or
//! aborted, and has a time of death or none yet. A watermark is a time that no section is below, now
//! or later; the pass knows it.
//!
//! **The contract.** `back_start`, `back_word` and `back_finish` write one version back: in a section
//! of their own, only where HEAD names that very version, all six words, and then one exchange of
//! HEAD from the version to 0. `round` frees what the watermark in GRACE allows, scans for a
//! watermark of its own, finds out of each version without a time of death why it has none, with
//! write-backs or without, and frees again from the oldest write set on. `tidy` is a round with
//! write-backs, one try of a rest where a version is dead only from a time above the clock, and a
//! round without. Both answer how many slots they freed, how many are live, and who holds the oldest
//! write set, if one is left, with a cause in the call's own steps. In a domain of one seat whose
//! last time isn't reached `tidy` leaves the log empty. `round` never exchanges CLOCK, and `tidy` at
//! most once, won or lost. Bounds on steps are told of the trail too, since the calls of the domain have no
//! count of steps. No call takes memory, waits, or tries again. `back_finish` is made of
//! `back_cut`, and then of `back_death` and `back_end`, or of a `leave`; each makes one step, and others may
//! move in between.
//!
//! The crate stands on `mv_core` for its steps, on `reader_marks` for sections and watermarks, on
//! `commit_clock` for the rest, on `seat_log` for the notes, and on `mv_layout` for the packing.
#![tactic(auto)]

mod rounds;
mod settling;
mod tidying;
mod writing_back;

pub use rounds::{Tidy, round};
pub use tidying::tidy;
pub use writing_back::{
    BackEnd, NoBack, StartedWriteBack, back_cut, back_death, back_end, back_finish, back_start,
    back_word,
};
