//! Sets as leaf-oriented search trees, over the objects of any view or section.
//!
//! # The model
//!
//! The keys of a tree are in its leaves, and an inner node divides those of its two children: the
//! keys to its left are below its dividing key, those to its right are not. A state is lawful where
//! each root, 170 to 179, leads nowhere or to such a tree, and each node is vacant or in the list or
//! the tree of the head that it names (`set_model::specs::Lawful`, `set_model::specs::Trees`). A
//! lawful state stands for a catalogue (`set_model::specs::CatalogueOf`), in which the map of the
//! tree's name, 20 to 29, has the keys of its leaves with their values. The definition folds over
//! the nodes and follows no link, so a clause about it says nothing of how a tree is walked.
//!
//! # The contract
//!
//! Each call speaks of that catalogue alone: `has_in`, `get_in`, `next_in`, `size_in` and `empty_in`
//! answer what the map says, `add_in` puts a key with its value there, `put_in` gives a key another
//! value, and `del_in` takes a key out. A changing call also says which objects it locks and what it
//! writes there, as a function of the state and its arguments (`specs/Places.antt`,
//! `specs/Calls.antt`): whoever commits needs that to show the commit fit on every state to which
//! others' commits may have led. A refusal carries the one lock that was refused, and leaves the
//! state as it was.
//!
//! Each call of a key makes one walk: `find` reads the objects from the root down to one leaf, four
//! words of each, since the other two are known of a tree's node, and answers a `Descent`, which says
//! whether the key is there and gives the writes of an add, a del or a put with no other read;
//! `tree_add_writes` are those of an add to an empty tree. A changing call decides by that descent alone,
//! and ends with `section_work::rewrite`.
//!
//! The calls never commit and never retry, and take no memory. They don't recurse, so that a tree of
//! one long branch takes no more stack than any other.
//!
//! # Why these locks are enough
//!
//! A section reads a snapshot, and a commit checks only what it holds (snapshot isolation). The law
//! on which the tree rests is that a commit that does not write a leaf keeps every search that ends
//! there: an add makes only searches that ended at its leaf end elsewhere, and a del only those that
//! ended at the leaf that it takes out (`proofs/Growing.antt`, `proofs/Cutting.antt`). So an add
//! holds the leaf where its search ends, whose words it keeps, and that leaf's parent, whose link it
//! changes. A del holds the leaf, its parent and its grandparent, and writes the two that it takes
//! out, so that whoever works there meets it. A put depends on the leaf alone.
//!
//! # Its place
//!
//! It stands on `list_set`, whose answers it gives, on `section_work`, whose `rewrite` it ends with, on
//! `set_model`, which has the definitions, and on `mv_history`, whose traits `View` and `Section` it
//! is generic over. It knows no store. `proofs/TreeWays.antt` hands each change on to whoever commits it, as a
//! way to change the map of a name (`set_model/proofs/Ways.antt`). RLU (Matveev, Shavit, Felber and
//! Marlier, SOSP 2015) and MV-RLU (Kim, Mathew, Kashyap, Ramanathan and Min, ASPLOS 2019) are
//! measured with search trees too.
#![tactic(auto)]

mod changes;
mod leaves;
mod nodes;
mod reads;
mod search;
mod sizes;
mod writes;

pub use changes::{add_in, del_in, put_in};
pub use leaves::{Leaf, Leaves};
pub use reads::{empty_in, get_in, has_in, next_in};
pub use search::{Descent, find};
pub use sizes::size_in;
pub use writes::tree_add_writes;
