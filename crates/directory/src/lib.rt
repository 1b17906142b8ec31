//! A directory of eight users on two shelves, over a store of many versions: linked objects. A crate to copy.
//!
//! # The model
//!
//! Objects 0 and 1 are the shelves, of the archived users and of the active ones; objects 2 to 9 are users. Each says a [`DirectoryNode`]: a
//! link, and beside it the details, as a user's id. The links form one ring: shelf 0, the users on it, shelf 1, the users on it, and
//! back to shelf 0. So each shelf is a linked list that ends at a shelf.
//!
//! A move takes one user, wherever it stands, to the front of the other shelf. It is one commit of three objects: the one before
//! the user, the user, and the shelf. Readers walk along the links in a section of their own.
//!
//! # The contract
//!
//! - [`look_up`]: at every interleaving the user is found on a shelf of the state that the section reads, whose time is told.
//! - [`keeps_directory`]: at every time that a store has seen, each user is on exactly one shelf (`IsPlaced`), and the details of
//!   each object are the opening ones.
//! - [`move_user`]: a move is one commit, which puts the user in front, of a section that the call entered; or the user was there
//!   already at a time that is told; or no time is left; or it was given up for the cause that is told. An attempt is given up
//!   only where the user was on the other shelf in the section that the call entered.
//! - [`find_before`]: the object before a user, and none only where the user isn't on the shelf.
//!
//! # How it is made
//!
//! 1. *Rules.* A [`DirectoryNode`] is a `Record` of `mv_client` (`specs/Layout.antt`): code reads and writes it by the names of its fields.
//!    `Directory` allows moves alone (`specs/Moves.antt`), which change links. They speak of the three objects that a move writes,
//!    and so a move is fit: `fit_by_held` of `mv_client`.
//! 2. *What the rules keep.* Each object has a place of its own in one ring, and leads to the next (`IsRing` of `mv_client`). A move
//!    takes one out and puts it in elsewhere (`proofs/Keeps.antt`, by `LinkedMoves` of `mv_client`); `keeps_in` and `keeps_at` of
//!    `mv_client` do the rest.
//! 3. *What a ring gives.* Each user is on exactly one shelf (`proofs/Placed.antt`, by `Linked` of `mv_client`).
//! 4. *A walk* along a shelf ends, since each step is a place further (`LinkedWalks` of `mv_client`).
//! 5. *One attempt.* A move is a `Work` of `section_work`.
//!
//! # Its place
//!
//! It stands on `mv_client` and `section_work`, over any store.
#![tactic(auto)]

mod layout;
mod moving;
mod reading;
mod repeating;
mod rules;
mod searching;

pub use layout::DirectoryNode;
pub use moving::{Whereabouts, move_user};
pub use reading::{Seen, keeps_directory, look_up, shelf_of};
pub use repeating::make_moves;
pub use rules::{Directory, ENTRIES, OBJECTS, SHELVES, opening};
pub use searching::find_before;
