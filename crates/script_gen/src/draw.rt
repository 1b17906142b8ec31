// The drawing of one command from a generator's words.
ghost use Rattle.std.specs.Prelude.{◌≡◌, ◌<◌, ◌%◌, ℕ, suc, ◌∷◌};
ghost use Rattle.rand_core.specs.Steps.{first_words};
ghost use Rattle.rand_pcg.specs.Pcg.{pcg32};
ghost use Rattle.script_gen.specs.Script.{command_of, commands_of, first_name, second_name, key_of};

use rand_core::utils::NextWord;
use rand_pcg::Lcg64Xsh32;
use set_model::{Command, Name};

// How many sets there are.
const NAMES: u32 = 30;

// How many keys a seat has.
const KEYS: u32 = 64;

// How many seats have keys of their own.
const SEATS: u32 = 4;

// How many numbers the first word is brought down to: each is something to do.
const ACTIONS: u32 = 8;

/// The four words of a command, in the order in which they are drawn.
#[derive(Drop)]
pub struct DrawnWords {
    /// What it does.
    pub action: u32,
    /// Its set.
    pub name: u32,
    /// The second set of a move.
    pub other: u32,
    /// Its key.
    pub key: u32,
}

// Draws the next command of a seat's script, with the next four words of its generator.
pub(crate) fn draw(rng: &mut Lcg64Xsh32, seat: u32) -> Command
    requires { seat < 4 }
    ensures { (k : ℕ) → commands_of seat (first_words pcg32 (suc (suc (suc (suc k)))) rng.old)
        ≡ result ∷ commands_of seat (first_words pcg32 k rng.new) }
{
    let words = DrawnWords {
        action: rng.next_word(),
        name: rng.next_word(),
        other: rng.next_word(),
        key: rng.next_word(),
    };
    words.command(seat)
}

impl DrawnWords {
    /// The command of these words in a seat's script; the seat is 0 to 3.
    pub fn command(&self, seat: u32) -> Command
        requires { seat < 4 }
        ensures { result ≡ command_of seat self.now.action self.now.name self.now.other self.now.key }
    {
        let name = self.name % NAMES;
        let key = SEATS * (self.key % KEYS) + seat;
        match self.action % ACTIONS {
            0..4 => Command::Add {
                name: set_name(name),
                key,
            },
            4 | 5 => Command::Del {
                name: set_name(name),
                key,
            },
            6 => Command::Has {
                name: set_name(name),
                key,
            },
            _ => Command::Move {
                source: set_name(name),
                target: set_name((name + 1 + self.other % (NAMES - 1)) % NAMES),
                key,
            },
        }
    }
}

// The name of this index.
fn set_name(index: u32) -> Name
    requires { index < 30 }
    ensures { result ≡ index }
{
    Name::new(index).unwrap()
}
