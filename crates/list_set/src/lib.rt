//! Sets as sorted linked lists, over the objects of any view or section.
//!
//! # The model
//!
//! The heads are objects 0 to 169: those of the lists `l0` to `l9`, and those of the sixteen buckets
//! of each hash table. A state is lawful where each head leads through nodes with strictly rising
//! keys, in a bucket of its remainder alone, and each node is vacant or in the list of the head that
//! it names (`set_model::specs::Lawful`). A lawful state stands for a catalogue
//! (`set_model::specs::CatalogueOf`): the map of a list's name has the keys of its nodes with their
//! values, and the map of a hash table's name those of its sixteen buckets. `map_at` is the map of
//! one head alone. These definitions fold over the nodes and follow no link, so a clause about them
//! says nothing of how a list is walked.
//!
//! # The contract
//!
//! `has_in`, `get_in`, `next_in` and `size_in` answer of the map of their head alone: whether the
//! key is there, its value, the least key that is not below one, and how many there are. `add_in`
//! puts a key with its value into the catalogue, `put_in` gives a key that is there another value,
//! and `del_in` takes a key out. A changing call also says which objects it locks and how it writes
//! them, as a function of the state and its arguments (`specs/Places.antt`):
//! whoever commits needs that to show the commit fit on every state to which others' commits may
//! have led. A refusal carries the one lock that was refused, and leaves the state as it was.
//!
//! Each call of a key makes one walk, which reads the key and the link of each object up to the key. A
//! call that only asks is answered by that, and by the value of one node. `find` reads all words of the
//! two objects between which the walk ended too, and answers a `Window`, which says whether the key is
//! there and gives the writes of an add, a del or a put with no other read. A changing call decides by
//! that window alone, and ends with `section_work::rewrite`, which locks some objects in order and then
//! writes them. Who decides before anything is locked takes the window and its writes, and then calls
//! `rewrite`.
//!
//! `find_near`, `has_near`, `get_near` and `next_near` answer as `find`, `has_in`, `get_in` and `next_in`
//! do, and begin their walks at a finger (`Fingers`): a node where an earlier search of the same seat
//! ended. Whether the node is still in the list they read in their own view, where each node with the
//! head's number as its owner is in the head's list, whatever else has changed. So a finger is never
//! trusted, and takes part in no commit.
//!
//! `find_linked` and `size_linked` ask only that the head leads with rising keys through all nodes that
//! name it (`specs/Linked.antt`), so they serve other states than the sets' too.
//!
//! The calls never commit and never retry, and take no memory.
//!
//! # Why these locks are enough
//!
//! A section reads a snapshot, and a commit checks only what it holds (snapshot isolation), so two
//! sections that hold nothing in common both commit, whatever they read. An add depends on its
//! predecessor alone: what could part the two is an add or a del right behind the predecessor,
//! which holds the predecessor too, or a del of the predecessor, which writes it. That is why a del
//! locks and writes the node that it takes out, and not only the node before it. A put depends on
//! its node alone, which stays in its list until someone writes it. RLU (Matveev,
//! Shavit, Felber and Marlier, SOSP 2015) and MV-RLU (Kim, Mathew, Kashyap, Ramanathan and Min,
//! ASPLOS 2019) are introduced and measured with such lists.
//!
//! # Its place
//!
//! It stands on `mv_history`, whose traits `View` and `Section` it is generic over, on `section_work`,
//! whose `rewrite` locks and writes, and on `set_model`, which has the definitions. It knows no store.
#![tactic(auto)]

mod answers;
mod fingers;
mod key_window;
mod lists;
mod search;

pub use answers::{Removed, SetStep};
pub use fingers::{Fingers, find_near, get_near, has_near, next_near};
pub use lists::{add_in, del_in, get_in, has_in, next_in, put_in, size_in, size_linked};
pub use search::{Window, find, find_linked};
