//! Workers that do their items in order, each in a thread of its own, and try each item until it is done.
//!
//! # The model
//!
//! A [`Runner`] has a store, which is a seat of one history of commits (`mv_history`), and does items on it, each by
//! attempts. What it keeps from one item to the next is the runner's to say: the seat, and what else the next item depends on
//! (`Kept`). So is what it means that an item is done between two such states, its *link*. A worker has its items from a
//! [`Source`], which gives each with a number: a list of the worker's own ([`Own`]), or one that workers share. In a list of
//! its own a number is one above all that the items before it have (an item has as many as its *width*). What was done is an
//! [`Answer`], with the seat and the number.
//!
//! # The contract
//!
//! - [`run_item`] leaves the link of the item, from what was kept when it began to what is kept then. So no attempt of another
//!   item lies between.
//! - [`run_from`] and [`run_sources`] leave a chain (`IsServed`): one link for each item that the source gave, in the order in
//!   which it gave them, until it had none to give. Each begins at what was kept, and so at the very seat, when the one before
//!   it was done; the first at what a runner of the store begins with (`first`). Each answer has the seat and the number that
//!   the source gave.
//! - [`run_lists`] is that with each list as a source: so it leaves one link for each item, in the order of the list
//!   (`DidAll`), since [`Own`] gives each item once, in order.
//!
//! Nothing is said of what other seats do meanwhile: this holds at every interleaving. Each item is tried until it is done,
//! so a run ends only where others let it, and takes a `Wait`. A thread gives its processor away behind each attempt that
//! was given up, so that a seat which holds what others want comes to its end. No clause speaks of the gate's calls.
//!
//! All memory is taken before the workers start. Want of it is the one error, and leaves the stores untouched.
//!
//! What goes to a thread is judged by the type of its argument, which names all its parts: so [`run_lists`]
//! and [`run_sources`] bound store, memory, items and answers each, by `Send` or `Sync`.
//!
//! # How it is proved
//!
//! A link is of one item, so a chain grows by one link where an item is done, a chain over all that a list's source gave is one
//! over the list, and what the workers leave is a chain for each store (`proofs/Serves.antt`). Stores and sources move into
//! workers and out of them one at a time (`proofs/Moving.antt`).
//!
//! # Its place
//!
//! It stands on `mv_history` for what a seat is, and on `host_io` for the gate. Crates above say what an item is, how
//! one attempt of it is made and what its link is, and make lines of the answers.
#![tactic(auto)]

mod loading;
mod runner;
mod running;
mod source;
mod threads;

pub use loading::take_first;
pub use runner::{Answer, Runner, Tried};
pub use running::{run_from, run_item};
pub use source::{Given, Own, Source};
pub use threads::{run_lists, run_sources};
