// Packing numbers into words. `2^13` is 8,192, `2^19` is 524,288, `2^57` is 144,115,188,075,855,872
// and `2^63` is 9,223,372,036,854,775,808.
ghost use Rattle.std.specs.Prelude.{◌≡◌, ℕ, ◌+◌, ◌-◌, ◌^◌, ◌<◌, ◌≤◌, IsTrue, ◌↔◌};
ghost use Rattle.mv_layout.specs.Words.{clock_of, clock_time_of, clock_seat_of, clock_slot_of, link_of, link_seat_of, link_position_of, IsLink};
ghost use Rattle.mv_layout.specs.Words.{unset_of, unset_position_of, IsUnset};

use crate::config::LAST;

/// The slot of a clock word that names a rest, or no entry yet.
pub const NO_SLOT: u32 = 8191;

/// The clock word of an entry: its time, 0 to `LAST`, its seat, below 64, and its slot, 0 to 8191.
/// The slot is the first one of the commit's write set, or `NO_SLOT`.
#[tactic(auto, using(crate::proofs::Unpacking::time_back, crate::proofs::Unpacking::seat_back, crate::proofs::Unpacking::slot_back))]
pub fn clock_word(time: u64, seat: u32, slot: u32) -> u64
    requires time { time ≤ LAST }
    requires seat { seat < 64 }
    requires slot { slot ≤ 8191 }
    ensures word { result ≡ clock_of time seat slot }
    ensures time { clock_time_of result ≡ time }
    ensures seat { clock_seat_of result ≡ seat }
    ensures slot { clock_slot_of result ≡ slot }
{
    time * 524_288 + seat as u64 * 8_192 + slot as u64
}

/// The time of a clock word.
pub fn clock_time(word: u64) -> u64
    ensures { result ≡ clock_time_of word }
{
    word / 524_288
}

/// The seat of a clock word, below 64.
pub fn clock_seat(word: u64) -> u32
    ensures { result ≡ clock_seat_of word }
{
    (word / 8_192 % 64) as u32
}

/// The slot of a clock word, 0 to 8191.
pub fn clock_slot(word: u64) -> u32
    ensures { result ≡ clock_slot_of word }
{
    (word % 8_192) as u32
}

/// The link to a position, below `2^57`, of the log of a seat, below 64. It is never 0.
pub fn link_word(seat: u32, position: u64) -> u64
    requires seat { seat < 64 }
    requires position { position < 2 ^ 57 }
    ensures word { result ≡ link_of seat position }
    ensures link { IsLink result }
    ensures seat { link_seat_of result ≡ seat }
    ensures position { link_position_of result ≡ position }
{
    (seat as u64 + 1) * 144_115_188_075_855_872 + position
}

/// The seat of a packed link, below 64.
pub fn link_seat(word: u64) -> u32
    requires { IsLink word }
    ensures { result ≡ link_seat_of word }
{
    (word / 144_115_188_075_855_872 - 1) as u32
}

/// The position of a packed link, below `2^57`.
pub fn link_position(word: u64) -> u64
    requires { IsLink word }
    ensures { result ≡ link_position_of word }
{
    word % 144_115_188_075_855_872
}

/// The law of links: each packed link is that of its seat, below 64, and its position, below `2^57`.
#[tactic(auto, using(crate::proofs::Unpacking::link_is, crate::proofs::Unpacking::link_seat_small, crate::proofs::Unpacking::link_position_small))]
pub fn links_unpack()
    ensures seat { (word : ℕ) → IsLink word → link_seat_of word < 64 }
    ensures position { (word : ℕ) → IsLink word → link_position_of word < 2 ^ 57 }
    ensures word { (word : ℕ) → IsLink word → word ≡ link_of (link_seat_of word) (link_position_of word) }
{}

/// The unset stamp of a write set whose first position is this, below `2^57`.
pub fn unset_stamp(position: u64) -> u64
    requires { position < 2 ^ 57 }
    ensures word { result ≡ unset_of position }
    ensures unset { IsUnset result }
    ensures position { unset_position_of result ≡ position }
{
    9_223_372_036_854_775_808 + position
}

/// Whether a stamp is unset. Else it is a commit time, or 0 in a free slot.
pub fn is_unset(word: u64) -> bool
    ensures { IsTrue result ↔ IsUnset word }
{
    word >= 9_223_372_036_854_775_808
}

/// The first position of an unset stamp.
pub fn unset_position(word: u64) -> u64
    requires { IsUnset word }
    ensures { result ≡ unset_position_of word }
{
    word - 9_223_372_036_854_775_808
}

/// The mark of a section whose low time is this, 0 to `LAST`. It is never 0.
pub fn mark_word(low: u64) -> u64
    requires { low ≤ LAST }
    ensures { result ≡ 1 + low }
{
    1 + low
}

/// The low time of a mark above 0.
pub fn mark_low(word: u64) -> u64
    requires { 0 < word }
    ensures { 1 + result ≡ word }
{
    word - 1
}
