//! A store that does works one after another: the runner of any unit of work.
//!
//! # The model
//!
//! An item is a [`Work`](section_work::Work) of `section_work`, and is done by attempts. [`Doing`] has a store, which is a seat
//! of one history of commits (`mv_history`), and what the works remember from one section to the next.
//!
//! # The contract
//!
//! `Doing` is a `Runner` of `item_workers`. The link of a work (`LinkedWork`) says that behind attempts that made no commit
//! there was one of this very work that was done, with this reply and place: what it leaves is what `section_work` says of an
//! attempt. So a read is of a section that this attempt entered, whose snapshot holds all that the seat had seen when the work
//! was begun: nothing is answered from memory.
//!
//! # Its place
//!
//! It stands on `section_work` and `item_workers`. Whoever has a `Work` of its own needs no more to run lists of it on threads.
//! The workers of commands, of blocks and of a growing set have runners of their own, for contracts of their own words.
#![tactic(auto)]

mod doing;

pub use doing::Doing;
