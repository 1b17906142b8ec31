// The tags of the sets' commits: four numbers that stand for a command.
ghost use Rattle.std.specs.Prelude.{◌≡◌};
ghost use Rattle.set_model.specs.Tags.{tag_of};

use crate::commands::Command;
use mv_history::Tag;

// The first number of a tag: what the commit does.
const ADD: u64 = 1;

const DEL: u64 = 2;

const MOVE: u64 = 3;

const PUT: u64 = 4;

impl Command {
    /// The tag of a commit that makes this command: what it does, its names or its name and value, and its key. Of a command
    /// that changes nothing it is all zero, which stands for no command.
    pub fn tag(&self) -> Tag
        ensures { result ≡ tag_of self.now }
    {
        match *self {
            Command::Add { name, key } => [ADD, name.index() as u64, 0, key as u64],
            Command::Del { name, key } => [DEL, name.index() as u64, 0, key as u64],
            Command::Move {
                source,
                target,
                key,
            } => [
                MOVE,
                source.index() as u64,
                target.index() as u64,
                key as u64,
            ],
            Command::Put { name, key, value } => [PUT, name.index() as u64, value, key as u64],
            _ => [0; 4],
        }
    }
}
