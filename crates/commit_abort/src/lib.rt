//! Ending a section that holds something: committing what it holds, finishing a commit that was
//! named, or giving it up.
//!
//! In MV-RLU (Kim, Mathew, Kashyap, Ramanathan and Min, ASPLOS 2019, section 3) a section's new
//! versions stand on top of their chains without a time, and become visible together when their
//! write set gets its commit time; an abort takes them out of the chains again. Here a commit counts
//! from the one exchange of CLOCK that names it, which also gives it its place in the history; its
//! stamp is set afterwards, by its own seat or by any that helps, so that nobody waits for a commit
//! whose maker stopped. Read-log-update (Matveev, Shavit, Felber and Marlier, SOSP 2015), which
//! keeps two versions of an object, has to wait at a commit for all older readers.
//!
//! **The model.** What a section holds are the versions of its log that are held, in the order of
//! locking. A commit of them is an entry of the history, with the seat's number, the section's
//! snapshot, the tag and exactly these writes, and joins the seat's own commits in the pass's view.
//! The log's notes stand for the pass (`Stands` of `seat_log`) before and after each call; between
//! the exchange of CLOCK and the end of `finish` they don't, since the view has the versions as
//! committed and the notes still have them as held.
//!
//! **The contract.** `commit` loads CLOCK, helps the commit that is named there, and tries one
//! exchange of CLOCK. `Done` says that it was won: the entry of that time, the next after the word
//! loaded, is this commit, all that the seat had seen is before it, and the section has ended.
//! `Again` says that it was lost: another seat made the entry of the rival's time after this call
//! had loaded the clock. `End` comes where the word loaded has the last time, and then no exchange
//! is tried. After `Again` and `End` the section holds what it held, and the log is unchanged. No
//! call tries twice.
//!
//! `finish` needs that the pass's last step was its own won exchange. It exchanges the stamp of the
//! write set for its time, stores that time into SUPER of each version that a version of the set
//! links to, and ends the section by storing 0 into MARK. `abort` stores the link below into HEAD of
//! each held object, loads CLOCK, from whose time on the versions given up are needed by nobody, and
//! ends the section; it makes and tries no entry. Neither refuses.
//!
//! `finish` is made of `finish_start`, of a `finish_step` for each version of the write set and of
//! `finish_end`, and `abort` of an `abort_step` for each held object, of `abort_death` and of
//! `abort_end`. Each makes one step at most; a caller may stop after each, or let others move in between.
//!
//! With `held` versions `commit` makes at most `held + 8` steps, and `finish` and `abort` at most
//! `held + 2`. No call waits or takes memory.
//!
//! The crate stands on `mv_core` for its steps, on `commit_clock` for the help and the exchange of
//! CLOCK, on `seat_log` for what is held, and on `mv_layout` for the packing of clock words and
//! stamps.
#![tactic(auto)]

mod aborting;
mod committing;
mod finishing;

pub use aborting::{abort, abort_death, abort_end, abort_step};
pub use committing::{Ended, commit};
pub use finishing::{finish, finish_end, finish_start, finish_step};
