//! One unit of work as one section of any store: decided there, committed as one entry, and answered.
//!
//! # The model
//!
//! A work is a value that says what it reads as a reply, what it writes and what its commits mean
//! (`Work`). Its meaning is one record (`specs/Works.antt`): how many objects it locks at most, in
//! which states it changes something, which tag, writes and reply it plans there, which reply it has
//! where it changes nothing, and what a commit of it makes of the state just before. An attempt makes
//! room in the seat's log, enters one section, and lets the work decide in it. What changes nothing
//! leaves the section again. What is planned is locked, each object with its words, and given to one
//! `try_commit`. At the last time, where no commit is left, a second look answers.
//!
//! # The contract
//!
//! - `Done` at `Place::Commit(t)`: the entry of time t is the seat's last commit. Its snapshot is that
//!   of a section which the call entered, its tag and its writes are what is planned there, with this
//!   reply, and it made of the state just before t what the work means.
//! - `Done` at `Place::Read(t)`: no commit was made. Time t is that of a section that the call entered,
//!   the work changes nothing there, and the reply is that of the state there.
//! - `Again`: the work would change something in the section that the call entered, which is not at the
//!   last time, and no commit was made. The cause is the one lock or commit that was refused there, of
//!   what is planned, or that the log had no room (`Cause`). What only a store can show of a cause it
//!   defines itself (`specs/Causes.antt`).
//! - The calls of an attempt are said one after another (`specs/Steps.antt`): one `prepare`, one `enter`,
//!   and reads. Then it leaves; or it locks with the words to be committed and tries to commit. After a
//!   refused lock the section, which holds such words, is given up. A second section is entered only
//!   where that found no time left. What changes nothing locks nothing and gives nothing up.
//! - An attempt has at most one exchange on CLOCK for a commit in its trail.
//! - What is remembered from one section to the next (`Work::Memo`) stays right for the seat, and is
//!   what one look, or two, did to it. A long plan may stand in it, in memory that each look uses again
//!   (`Work::writes`).
//!
//! `rewrite` locks different objects in their order and then writes them, or answers the first lock
//! that was refused (`specs/Locking.antt`); the calls end with it that go on after a refusal, with the
//! state as it was. A section reads a
//! snapshot and a commit checks only what it holds (snapshot isolation), so a work shows that what it
//! plans is fit: allowed on every state to which others may lead that write nothing of it.
//!
//! No call takes memory but what the work takes.
//!
//! # Its place
//!
//! It stands on the traits of `mv_history` alone, and knows no store and no set. Lists, trees, commands
//! and whoever else does one thing in one section stand on it.
#![tactic(auto)]

mod attempting;
mod causes;
mod locking;
mod place;
mod work;

pub use attempting::{Attempt, attempt_work};
pub use causes::{Cause, Refusal};
pub use locking::rewrite;
pub use place::Place;
pub use work::{Decision, Work};
