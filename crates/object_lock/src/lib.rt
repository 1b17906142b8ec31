//! Locking an object for a section, and writing what it holds.
//!
//! A section that is to write an object first puts a version of its own on top of the object's
//! chain, whose stamp is unset: that is a lock, as in `try_lock` of MV-RLU (Kim, Mathew, Kashyap,
//! Ramanathan and Min, ASPLOS 2019, section 3) and of read-log-update (Matveev, Shavit, Felber and
//! Marlier, SOSP 2015). Only one exchange of HEAD can be won over the version that the section reads,
//! so that of two sections that write one object from the same state at most one commits.
//!
//! **The model.** What a section holds are the versions of its log that are held, in the order of
//! locking: `own_of` of its log, a list of objects with their words. The log's notes stand for the
//! pass (`Stands` of `seat_log`), and say the same.
//!
//! A held version may have any words, since no fact of the rule speaks of them. What the loads of
//! HEAD and STAMP tell of the own log (`IsOwnTop`, `IsOwnTime`) comes with them: as a condition it
//! would ask the caller of `lock` for what only the rule knows.
//!
//! **The contract.** `lock` answers one of `LockAnswer`. `Held` for a new object adds the object to
//! what is held, with the words of the state that the section reads, and takes one free slot. A
//! refusal leaves what is held and how many slots are free, and has its cause: `Busy` in the last
//! three steps of the call, which found HEAD naming another log's version and its stamp unset;
//! `Stale` in a later commit of the object, which was seen. That no commit after the
//! section's time writes what it holds is known of every pass (`KnownSection` of `mv_core`). It makes
//! at most 24 steps, waits for nothing and takes no memory; the trail has a record for each step,
//! and none is an exchange on CLOCK. At most two are exchanges of HEAD, the second only after the first
//! found a chain that was cut. `lock_with` does the same with words of the caller's in place of the
//! object's, so that it makes at most 18 steps, and an object that is held already gets them as by `write`.
//! `lock_new` is either of them, for a caller who knows that the object isn't held. `write` gives a held
//! object other words, in what is held alone, in six steps; it never refuses.
//!
//! `lock` is `lock_start`, which does all before the first exchange of HEAD, and then `lock_end`. A
//! caller may stop between them, where a version is built and nobody else sees it (`IsStarted`): what
//! others do there may lose the exchange, or leave HEAD as it was found, and then the exchange is won.
//!
//! The crate stands on `version_chain`, which reads what is on top; on `seat_log`, which builds a
//! version and notes it; and on `mv_core`, whose exchange of HEAD alone can lock.
//! `mvrlu` names both, `reader_marks` and `mv_core` through this crate.
#![tactic(auto)]

mod locking;
mod top;
mod writing;

pub use locking::{StartedLock, lock, lock_end, lock_new, lock_start, lock_with};
pub use seat_log;
pub use seat_log::{mv_core, reader_marks};
pub use version_chain;
pub use writing::{holds, write};
