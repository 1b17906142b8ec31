//! The plain store: the traits of `mv_history` over a list of objects, for one seat.
//!
//! # Model
//!
//! [`PlainStore`] has the words of its objects and a time. Nobody else commits, so its state is that of
//! its whole history, and so is the snapshot of each [`PlainSection`], which keeps the new words of up
//! to 16 objects beside. The opening state and the history are there for clauses alone
//! (`specs/Plain.antt`), and take no memory.
//!
//! # Contract
//!
//! - It keeps the contracts of `mv_history`'s `Store`, `Section` and `View`, and its history is legal and
//!   allowed by the client's rules.
//! - Nothing shows that it may refuse for want of room or for another seat ([`PlainStore::new`]), so it
//!   answers no `Busy`, `Stale`, `LogFull`, `Again` or `Short`. It refuses a full write set and the last
//!   time.
//! - It makes no rests and no steps, and tells no trail.
//!
//! # Place
//!
//! It stands on `mv_history` alone. It is slow and simple: clients are tried over it, and a store of
//! another kind is compared with it.
#![tactic(auto)]

mod history;
mod section;
mod store;

pub use section::PlainSection;
pub use store::PlainStore;
