//! Seats of a growing hash set that own a share of their domain.
//!
//! A `GrowSeat` borrows nothing: it stands by itself outside any section, and can be kept wherever a value can, as
//! behind a pointer. Each call lends the domain to the seat, makes one section, and takes the seat back. The memory of
//! the domain is given back with the last of its seats.
//!
//! **The model.** A domain of the set is under the rules of a growing set of up to 2^20 buckets (`grow_hash::GrowRules`, with
//! `TABLE_LEVELS`), in which a key is mixed before it has its bucket. Each command, and each split of a bucket, is one section
//! and one commit at most. A seat means what its seat of `mvrlu` means: nothing is remembered from one call to the next.
//!
//! **The contract.** `Calls` in specs/ says what each call leaves. An attempt of a command or of a split is that of
//! `grow_hash` over the domain's own seats, with the causes of `mvrlu`: one entry, with the reply of the catalogue just
//! before it; or a read of a section that the call entered, with the reply of the catalogue there; or given up for a cause,
//! and no entry. A split leaves the catalogue, and makes one bucket more. No call takes memory but opening. The last seat of
//! a domain that is closed, or let go, lets all of them meet, and the law of the whole holds of them.
//!
//! **Its place.** It stands on `grow_hash`, `shared_domain` and `mvrlu`. It is for the growing set what `set_seats` is for the
//! thirty sets.
#![tactic(auto)]

mod command;
mod opening;
mod outside;
mod seat;

pub use command::GrowCommand;
pub use opening::{GrownFault, OpenGrown, TABLE_LEVELS, open_grow_seats};
pub use seat::GrowSeat;
