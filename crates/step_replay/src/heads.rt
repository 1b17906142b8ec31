// The first four lines of a plan: the numbers of its domain.
ghost use Rattle.std.specs.Prelude.{◌≡◌, ◌≤◌, IfOk};
ghost use Rattle.script_parser.specs.Grammar.{words_in};
ghost use Rattle.replay_text.specs.replay_rules.Plans.{config_of};
ghost use Rattle.step_replay.specs.PlanTexts.{head_taken};
ghost use Rattle.step_replay.specs.FitDrafts.{AreFitHeads};
ghost use Rattle.replay_text.specs.replay_rules.FitPlans.{IsFitConfig};

use crate::numbers::read_single;
use mv_layout::{Config, LAST};
use replay_text::replay_rules::PlanKind;
use script_parser::same_word;

// How many objects a section may hold.
const WRITE_MAX: u32 = 16;

/// Which of the four lines comes next, and what those before it say.
#[derive(Clone, Copy)]
pub enum Heads {
    Seats,
    Objects {
        seats: u32,
    },
    Slots {
        seats: u32,
        objects: u32,
    },
    Base {
        seats: u32,
        objects: u32,
        slots: u32,
    },
    /// None: all four are there.
    Whole(Config),
}

// The numbers of a domain with these seats, objects and slots and this opening time.
fn config_of(seats: u32, objects: u32, slots: u32, base: u64) -> Config
    requires { 64 ≤ slots }
    ensures { result ≡ config_of seats objects slots base }
{
    Config {
        seats,
        objects,
        slots,
        write_max: WRITE_MAX,
        low: slots / 2,
        high: slots - WRITE_MAX,
        base,
    }
}

/// What the four lines say with one more, of this first word and the bytes behind it. `Err` is `Word`, then `Count`, then
/// `Number`. It is `Word` where all four are there.
pub fn next_heads(heads: Heads, word: &[u8], rest: &[u8]) -> Result<Heads, PlanKind>
    requires fit { AreFitHeads heads }
    ensures is { result ≡ head_taken heads word.now (words_in rest.now) }
    ensures fit { IfOk result AreFitHeads }
{
    match heads {
        Heads::Seats if same_word(word, b"seats") => {
            let seats = read_single(rest, 1, 64)? as u32;
            Ok(Heads::Objects { seats })
        }
        Heads::Objects { seats } if same_word(word, b"objects") => {
            let objects = read_single(rest, 1, 1024)? as u32;
            Ok(Heads::Slots { seats, objects })
        }
        Heads::Slots { seats, objects } if same_word(word, b"slots") => {
            let slots = read_single(rest, 64, 256)? as u32;
            Ok(Heads::Base {
                seats,
                objects,
                slots,
            })
        }
        Heads::Base {
            seats,
            objects,
            slots,
        } if same_word(word, b"base") => {
            let base = read_single(rest, 0, LAST)?;
            Ok(Heads::Whole(config_of(seats, objects, slots, base)))
        }
        _ => Err(PlanKind::Word),
    }
}
