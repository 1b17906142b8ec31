// The words of a domain by name, and where each stands in the table.
ghost use Rattle.std.specs.Prelude.{◌≡◌, ◌<◌};
ghost use Rattle.mv_layout.specs.Limits.{Checked};
ghost use Rattle.mv_layout.specs.Places.{total, place_of, IsPlace};
ghost use Rattle.mv_layout.specs.declared.config.Config.{Config};
ghost use Rattle.mv_layout.specs.declared.places.SharedWord.{SharedWord};
ghost use Rattle.mv_layout.specs.declared.places.SharedWord.TheVariants.{Mark, Head, Master, First};

use crate::config::Config;

/// A word of the domain, by name. An object has `WIDTH` master words, and so has a slot data words.
pub enum SharedWord {
    /// The time, seat and slot of the last entry.
    Clock,
    /// A time that is never above any section's time.
    Grace,
    /// The mark of a seat.
    Mark(u32),
    /// The top of an object's version chain.
    Head(u32),
    /// A master word: object, word.
    Master(u32, u32),
    /// The position of the write set's first slot: seat, slot.
    First(u32, u32),
    /// The stamp: seat, slot.
    Stamp(u32, u32),
    /// The next older version: seat, slot.
    Prev(u32, u32),
    /// The time of the next write of the object, or 0: seat, slot.
    Super(u32, u32),
    /// A data word: seat, slot, word.
    Data(u32, u32, u32),
}

/// How many words a domain has, at most 120,062,018: its places, which have no gaps. The table that runs
/// has `total_cells`.
pub fn total_words(config: &Config) -> u64
    requires { Checked config.now }
    ensures { result ≡ total config.now }
{
    2 + config.seats as u64
        + 7 * config.objects as u64
        + 10 * (config.seats as u64 * config.slots as u64)
}

/// Where the mark of a seat stands, the seat below `seats`.
pub fn mark_place(config: &Config, seat: u32) -> u32
    requires checked { Checked config.now }
    requires range { IsPlace config.now (Mark seat) }
    ensures { result ≡ place_of config.now (Mark seat) }
{
    2 + seat
}

/// Where the head of an object stands, the object below `objects`.
pub fn head_place(config: &Config, object: u32) -> u32
    requires checked { Checked config.now }
    requires range { IsPlace config.now (Head object) }
    ensures { result ≡ place_of config.now (Head object) }
{
    2 + config.seats + 7 * object
}

/// Where a master word of an object stands, the word below `WIDTH`.
pub fn master_place(config: &Config, object: u32, word: u32) -> u32
    requires checked { Checked config.now }
    requires range { IsPlace config.now (Master object word) }
    ensures { result ≡ place_of config.now (Master object word) }
{
    2 + config.seats + 7 * object + 1 + word
}

/// Where a slot of a seat's log begins, with its FIRST. STAMP, PREV and SUPER follow, and then the
/// six data words.
pub fn slot_place(config: &Config, seat: u32, slot: u32) -> u32
    requires checked { Checked config.now }
    requires range { IsPlace config.now (First seat slot) }
    ensures { result ≡ place_of config.now (First seat slot) }
{
    2 + config.seats + 7 * config.objects + 10 * (seat * config.slots + slot)
}

/// The law of places: each word's place is within the table, and two words at one place are one.
pub fn places_differ()
    ensures within { (c : Config) (p : SharedWord) → Checked c → IsPlace c p → place_of c p < total c }
    ensures apart { (c : Config) (p q : SharedWord) → Checked c → IsPlace c p → IsPlace c q → place_of c p ≡ place_of c q → p ≡ q }
{}
