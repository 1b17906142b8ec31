//! Sets as hash tables of sixteen sorted linked lists, over the objects of any view or section.
//!
//! # The model
//!
//! The set of number i, 0 to 9, is the name 10 + i of the catalogue, `h`i of scripts. Its sixteen
//! buckets are lists: that of bucket b has the head 10 + 16 * i + b, and a key stands in the bucket
//! `key % 16`. A lawful state has in each bucket keys of that remainder alone, with rising keys
//! (`set_model::specs::Lawful`), so the map of the name has exactly the keys of its buckets.
//!
//! # The contract
//!
//! Each call speaks of the catalogue's map of that name, and so of all sixteen buckets. What a call
//! that changes something locks and writes is what `list_set` says of it at the key's bucket: two
//! objects for an add or a del, and the key's node alone for a put. The calls never commit and never
//! retry, and take no memory.
//!
//! A call of a key makes one walk, along the key's bucket. `bucket_of` tells its head, for who
//! searches there first and changes later.
//!
//! `next_in` asks one bucket after another, since the next key may stand in any of them: a hash table
//! has no order of its own. A bucket's keys have one remainder, so the key itself could stand in its own
//! bucket, the one after it in the next bucket, and so on. It asks in that order, and ends once no bucket
//! that is left can have a lesser key than was found.
//!
//! `has_near`, `get_near` and `next_near` answer as `has_in`, `get_in` and `next_in` do, by walks that begin
//! at fingers (`list_set::Fingers`).
//!
//! # Its place
//!
//! It stands on `list_set`, whose calls it makes and whose answers it gives. MV-RLU (Kim, Mathew,
//! Kashyap, Ramanathan and Min, ASPLOS 2019), as RLU (Matveev, Shavit, Felber and Marlier, SOSP
//! 2015) before it, is measured with a hash table of such lists. Crates above name
//! `list_set` through this crate.
#![tactic(auto)]

mod buckets;
mod tables;

pub use buckets::bucket_of;
pub use list_set;
pub use tables::{
    add_in, del_in, get_in, get_near, has_in, has_near, next_in, next_near, put_in, size_in,
};
