// The words of a domain by name: where each lies, and the number that a text prints.
ghost use Rattle.std.specs.Prelude.{◌≡◌, ◌<◌, true};
ghost use Rattle.mv_layout.specs.Limits.{Checked};
ghost use Rattle.mv_layout.specs.Places.{IsPlace, place_of};
ghost use Rattle.mv_layout.specs.Cells.{cell_of, cells};
ghost use Rattle.replay_text.specs.replay_rules.Runs.{is_place};

use mv_layout::{
    CLOCK_CELL, Config, DATA_OFFSET, FIRST_OFFSET, GRACE_CELL, PREV_OFFSET, STAMP_OFFSET,
    SUPER_OFFSET, SharedWord, head_cell, head_place, mark_cell, mark_place, master_cell,
    master_place, slot_cell, slot_place,
};

/// The cell of a word of the domain, below the table's size.
pub fn place_cell(config: &Config, place: SharedWord) -> u32
    requires checked { Checked config.now }
    requires range { IsPlace config.now place }
    ensures { result ≡ cell_of config.now place }
{
    match place {
        SharedWord::Clock => CLOCK_CELL,
        SharedWord::Grace => GRACE_CELL,
        SharedWord::Mark(seat) => mark_cell(config, seat),
        SharedWord::Head(object) => head_cell(config, object),
        SharedWord::Master(object, word) => master_cell(config, object, word),
        SharedWord::First(seat, slot) => slot_cell(config, seat, slot) + FIRST_OFFSET,
        SharedWord::Stamp(seat, slot) => slot_cell(config, seat, slot) + STAMP_OFFSET,
        SharedWord::Prev(seat, slot) => slot_cell(config, seat, slot) + PREV_OFFSET,
        SharedWord::Super(seat, slot) => slot_cell(config, seat, slot) + SUPER_OFFSET,
        SharedWord::Data(seat, slot, word) => slot_cell(config, seat, slot) + DATA_OFFSET + word,
    }
}

/// The number of a word of the domain, by which a text speaks of it.
pub fn place_number(config: &Config, place: SharedWord) -> u32
    requires checked { Checked config.now }
    requires range { IsPlace config.now place }
    ensures { result ≡ place_of config.now place }
{
    match place {
        SharedWord::Clock => 0,
        SharedWord::Grace => 1,
        SharedWord::Mark(seat) => mark_place(config, seat),
        SharedWord::Head(object) => head_place(config, object),
        SharedWord::Master(object, word) => master_place(config, object, word),
        SharedWord::First(seat, slot) => slot_place(config, seat, slot) + FIRST_OFFSET,
        SharedWord::Stamp(seat, slot) => slot_place(config, seat, slot) + STAMP_OFFSET,
        SharedWord::Prev(seat, slot) => slot_place(config, seat, slot) + PREV_OFFSET,
        SharedWord::Super(seat, slot) => slot_place(config, seat, slot) + SUPER_OFFSET,
        SharedWord::Data(seat, slot, word) => slot_place(config, seat, slot) + DATA_OFFSET + word,
    }
}

/// Whether a word is one of the domain.
pub fn is_place(config: &Config, place: SharedWord) -> bool
    ensures is { result ≡ is_place config.now place }
    ensures range { result ≡ true → IsPlace config.now place }
{
    match place {
        SharedWord::Clock | SharedWord::Grace => true,
        SharedWord::Mark(seat) => seat < config.seats,
        SharedWord::Head(object) => object < config.objects,
        SharedWord::Master(object, word) => object < config.objects && word < 6,
        SharedWord::First(seat, slot) => seat < config.seats && slot < config.slots,
        SharedWord::Stamp(seat, slot) => seat < config.seats && slot < config.slots,
        SharedWord::Prev(seat, slot) => seat < config.seats && slot < config.slots,
        SharedWord::Super(seat, slot) => seat < config.seats && slot < config.slots,
        SharedWord::Data(seat, slot, word) => seat < config.seats
            && slot < config.slots
            && word < 6,
    }
}
