//! Seats of the thirty sets that own a share of their domain.
//!
//! A `SetSeat` borrows nothing: it stands by itself outside any section, and can be kept wherever a value can, as
//! behind a pointer. Each call lends the domain to the seat, makes one section, and takes the seat back. The memory of
//! the domain is given back with the last of its seats.
//!
//! **The model.** A domain of the sets is under the rules of blocks (`set_blocks::BlockRules`). A block of 1 to 8
//! commands is one section and one commit at most, and so is a single command, which is the block of one. A seat means what
//! its seat of `mvrlu` means; beside it stands what is remembered of its sections, on which no answer depends.
//!
//! **The contract.** `Calls` in specs/ says what each call leaves. An attempt of a command or of a block is that of
//! `set_blocks` over the domain's own seats, with the causes of `mvrlu`: one entry, with the replies of the catalogue just
//! before it; or a read of a section that the call entered, with the replies of the catalogue there; or given up for a cause,
//! and no entry. A single command is found with the hints, the fingers and the known shortage of its seat, as
//! `set_catalog` finds it. A walk (`Walks`) writes the entries of one set from a key on, all of the state of a section that the call
//! entered, and makes and tries no entry. The last seat of a domain that is
//! closed, or let go, lets all of them meet, and the law of the whole holds of them.
//!
//! What is known of vacant nodes isn't carried over the seat's own commit, so a look is made once more. A
//! block's tag doesn't tell whether it was a command or a block of one.
//!
//! It stands on `set_blocks`, `shared_domain` and `mvrlu`, and on `section_work`, by which a command is done as one section.
#![tactic(auto)]

mod opening;
mod outside;
mod seat;
mod single;
mod walk;

pub use opening::{OpenSets, SetsFault, open_set_seats};
pub use seat::SetSeat;
pub use walk::{KeyValue, Walked};
