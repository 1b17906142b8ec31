// The slot of a position of a log.
ghost use Rattle.std.specs.Prelude.{◌≡◌, ◌%◌, ◌<◌};
ghost use Rattle.mv_layout.specs.Limits.{Checked};

use crate::config::Config;

/// The slot of a position of a log, which is the position modulo `slots`. Where `slots` is a power of
/// two a mask finds it, without a division.
#[tactic(auto, using(crate::proofs::Masks::mask_is_rest))]
pub fn slot_of_position(config: &Config, position: u64) -> u32
    requires checked { Checked config.now }
    ensures value { result ≡ position % config.now.slots }
    ensures range { result < config.now.slots }
{
    let slots = config.slots as u64;
    if slots & (slots - 1) == 0 {
        (position & (slots - 1)) as u32
    } else {
        (position % slots) as u32
    }
}
