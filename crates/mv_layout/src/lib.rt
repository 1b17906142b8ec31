//! Where each shared word of a domain stands, and how numbers are packed into words.
//!
//! A multi-version domain keeps all its shared state in one table of 64-bit words: the clock, the
//! watermark of reclamation (GRACE), one mark for each seat, a head and six master words for each
//! object, and ten words for each slot of each seat's circular log. A seat is a thread's place.
//! The log and the version chain are those of MV-RLU (Kim, Mathew, Kashyap, Ramanathan and Min,
//! ASPLOS 2019, sections 3 and 4); the packing is this crate's own.
//!
//! **The model.** `SharedWord` names a word by what it is, `Memory` gives each named word what it holds,
//! and `Shows` says that a table's words are that memory. Whoever proves facts about the table
//! speaks of a `Memory` alone: a write to one named word leaves every other as it was, since
//! distinct words lie in distinct cells.
//!
//! A word has two numbers. Its place is its name as a number: trails speak of it, and texts print it;
//! places run from 0 without a gap. Its cell is where it lies in the running table, which has gaps, so
//! that words that different processors write often are never in one line of 64 bytes: CLOCK, GRACE
//! and the marks are two lines apart, an object has one line, and a slot two. Nothing is ever written
//! in a gap.
//!
//! **The contract.** `Config::check` answers a fault exactly where its field is out of range and
//! all fields before it are in range. Each packing call has an exact word, and unpacking gives
//! back what was packed. Each place is exact, in range, and that of one word alone, and so is each cell.
//!
//! | Word | Packed as |
//! |---|---|
//! | CLOCK | `time * 2^19 + seat * 2^13 + slot` of the last entry; slot 8191: a rest, or none yet |
//! | HEAD, PREV | 0: the master, else `(seat + 1) * 2^57 + position` |
//! | STAMP | `2^63 + position` of the write set's first slot while unset, else the commit time |
//! | MARK | 0 outside a section, else `1 + low` |
//!
//! The crate stands on nothing; `mv_core` alone holds a table that is laid out so.
#![tactic(auto)]

mod cells;
mod config;
mod packing;
mod places;
mod slots;

pub use cells::{
    CLOCK_CELL, DATA_OFFSET, FIRST_OFFSET, GRACE_CELL, PREV_OFFSET, STAMP_OFFSET, SUPER_OFFSET,
    cells_differ, head_cell, head_cell_from, mark_cell, master_cell, slot_cell, slot_cell_from,
    total_cells,
};
pub use config::{Config, ConfigFault, LAST, WIDTH};
pub use packing::{
    NO_SLOT, clock_seat, clock_slot, clock_time, clock_word, is_unset, link_position, link_seat,
    link_word, links_unpack, mark_low, mark_word, unset_position, unset_stamp,
};
pub use places::{
    SharedWord, head_place, mark_place, master_place, places_differ, slot_place, total_words,
};
pub use slots::slot_of_position;
