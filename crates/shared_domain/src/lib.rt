//! A domain that its seats share, and that meets with the last of them.
//!
//! A `Share` owns a part of a domain and borrows nothing, so a seat can be kept beside it wherever a value
//! can, as behind a pointer. It lends the domain for each call. Beside the domain there is a place for each
//! of its seats. A share that is closed puts its seat there; the last one of the domain finds all of them
//! and lets them meet.
//!
//! **The model.** A share means its domain (`domain_of`). A place holds no seat, or one that is of the
//! domain that the place was made for.
//!
//! **The contract.** `Share::close` is given a seat of its own domain. Where it answers a closing, all seats
//! of the domain met, each once, and the law of the whole holds of them (`HasMet`). Else another share is
//! left, or a seat of the domain was let go, and the answer tells which. It takes no memory: the row in which the
//! seats meet was taken at opening.
//!
//! No clause says that a share is the last one, nor that each closed seat stands in its place: the counts of
//! `Arc` and of `counted_slot` are seen by no clause. Tests show both.
//!
//! It stands on `mvrlu` and on `counted_slot`.
#![tactic(auto)]

mod exclusive;
mod gathering;
mod place;
mod share;

pub use gathering::Closed;
pub use share::Share;
