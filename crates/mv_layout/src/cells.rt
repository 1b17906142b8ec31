// Where each word lies in the running table.
ghost use Rattle.std.specs.Prelude.{◌≡◌, ◌<◌};
ghost use Rattle.mv_layout.specs.Limits.{Checked};
ghost use Rattle.mv_layout.specs.Places.{IsPlace};
ghost use Rattle.mv_layout.specs.Cells.{cells, cell_of};
ghost use Rattle.mv_layout.specs.declared.config.Config.{Config};
ghost use Rattle.mv_layout.specs.declared.places.SharedWord.{SharedWord};
ghost use Rattle.mv_layout.specs.declared.places.SharedWord.TheVariants.{Clock, Grace, Mark, Head, Master, First};

use crate::config::Config;

/// The cell of CLOCK.
pub const CLOCK_CELL: u32 = 6;

/// The cell of GRACE, two lines behind that of CLOCK.
pub const GRACE_CELL: u32 = 22;

/// The offset of FIRST in a slot: the slot's own cell.
pub const FIRST_OFFSET: u32 = 0;

/// The offset of STAMP in a slot.
pub const STAMP_OFFSET: u32 = 1;

/// The offset of PREV in a slot.
pub const PREV_OFFSET: u32 = 2;

/// The offset of SUPER in a slot.
pub const SUPER_OFFSET: u32 = 3;

/// The offset of data word 0 in a slot; the others follow.
pub const DATA_OFFSET: u32 = 4;

/// How many cells the running table of a domain has, at most 138,413,094.
pub fn total_cells(config: &Config) -> u64
    requires { Checked config.now }
    ensures { result ≡ cells config.now }
{
    38 + 16 * config.seats as u64
        + 8 * config.objects as u64
        + 16 * (config.seats as u64 * config.slots as u64)
}

/// The cell of the mark of a seat, the seat below `seats`. Marks are two lines of 64 bytes apart, so
/// that two seats that enter and leave never write one line, wherever the table's block begins.
pub fn mark_cell(config: &Config, seat: u32) -> u32
    requires checked { Checked config.now }
    requires range { IsPlace config.now (Mark seat) }
    ensures { result ≡ cell_of config.now (Mark seat) }
{
    38 + 16 * seat
}

/// The cell of the head of an object, the object below `objects`. The object's master words follow, in
/// the same line of 64 bytes where the table's block begins 16 bytes behind a line, as a large block
/// of the C library does.
pub fn head_cell(config: &Config, object: u32) -> u32
    requires checked { Checked config.now }
    requires range { IsPlace config.now (Head object) }
    ensures { result ≡ cell_of config.now (Head object) }
{
    38 + 16 * config.seats + 8 * object
}

/// The cell of a master word of an object, the word below `WIDTH`.
pub fn master_cell(config: &Config, object: u32, word: u32) -> u32
    requires checked { Checked config.now }
    requires range { IsPlace config.now (Master object word) }
    ensures { result ≡ cell_of config.now (Master object word) }
{
    38 + 16 * config.seats + 8 * object + 1 + word
}

/// The cell at which a slot of a seat's log begins. Each word of the slot stands at its offset from
/// there, from `FIRST_OFFSET` to `DATA_OFFSET + 5`; the last two data words are in the next line.
pub fn slot_cell(config: &Config, seat: u32, slot: u32) -> u32
    requires checked { Checked config.now }
    requires range { IsPlace config.now (First seat slot) }
    ensures { result ≡ cell_of config.now (First seat slot) }
{
    38 + 16 * config.seats + 8 * config.objects + 16 * (seat * config.slots + slot)
}

/// The cell of the head of an object, as `head_cell` gives it, where `first` is that of object 0.
pub fn head_cell_from(config: &Config, first: u32, object: u32) -> u32
    requires checked { Checked config.now }
    requires first { first ≡ cell_of config.now (Head 0) }
    requires range { IsPlace config.now (Head object) }
    ensures { result ≡ cell_of config.now (Head object) }
{
    let _ = config;
    first + 8 * object
}

/// The cell at which a slot of a seat's log begins, as `slot_cell` gives it, where `first` is that of
/// slot 0 of seat 0.
pub fn slot_cell_from(config: &Config, first: u32, seat: u32, slot: u32) -> u32
    requires checked { Checked config.now }
    requires first { first ≡ cell_of config.now (First 0 0) }
    requires range { IsPlace config.now (First seat slot) }
    ensures { result ≡ cell_of config.now (First seat slot) }
{
    first + 16 * (seat * config.slots + slot)
}

/// The law of cells: each word's cell is within the running table, and two words of one cell are one.
pub fn cells_differ()
    ensures within { (c : Config) (p : SharedWord) → Checked c → IsPlace c p → cell_of c p < cells c }
    ensures apart { (c : Config) (p q : SharedWord) → Checked c → IsPlace c p → IsPlace c q → cell_of c p ≡ cell_of c q → p ≡ q }
{}
