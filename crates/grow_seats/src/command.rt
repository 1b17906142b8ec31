// A command on a growing set.
ghost use Rattle.std.specs.Prelude.{◌≡◌};
ghost use Rattle.grow_hash.specs.GrowPlans.{IsOfGrown};
ghost use Rattle.grow_hash.specs.Grown.{grown_name};
ghost use Rattle.grow_seats.specs.Commands.{as_command};

use set_model::{Command, Name};

/// A command on a growing set.
#[derive(Clone, Copy)]
pub enum GrowCommand {
    /// Puts the key into the set. `No`: the set has it already.
    Add { key: u32 },
    /// Takes the key out of the set. `No`: it isn't there.
    Del { key: u32 },
    /// Asks whether the set has the key.
    Has { key: u32 },
    /// Asks for the least key of the set that is not below this one. It searches each bucket.
    Next { key: u32 },
    /// Asks how many keys the set has. It reads each key.
    Size,
}

// The name of the set, `h0`.
fn h0() -> Name
    ensures { result ≡ grown_name }
{
    match Name::new(10) {
        Some(name) => name,
        None => unreachable!(),
    }
}

impl GrowCommand {
    /// The command of the catalogue that it is.
    pub(crate) fn command(self) -> Command
        ensures command { result ≡ as_command self }
        ensures grown { IsOfGrown result }
    {
        let name = h0();
        match self {
            GrowCommand::Add { key } => Command::Add { name, key },
            GrowCommand::Del { key } => Command::Del { name, key },
            GrowCommand::Has { key } => Command::Has { name, key },
            GrowCommand::Next { key } => Command::Next { name, key },
            GrowCommand::Size => Command::Size { name },
        }
    }
}
