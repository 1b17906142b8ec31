// Commands that are done as one.
ghost use Rattle.std.specs.Prelude.{◌≡◌, [], ◌∷◌, MatchOption, IfOk};
ghost use Rattle.std.specs.List.{list_any};
ghost use Rattle.set_blocks.specs.Blocks.{stands_alone, IsBlock};

use set_model::Command;
use std::alloc::{AllocError, Global};
use std::marker::Model;

/// How many commands a block may have.
pub const MOST_IN_BLOCK: usize = 8;

/// 1 to `MOST_IN_BLOCK` commands that are done as one; a `size` and a `next` are alone. It is seen as the list of its
/// commands, in order.
#[derive(Drop)]
pub struct Block {
    commands: Vec<Command>,
}

impl Model for Block {
    ghost use Rattle.set_blocks.specs.Terms.{List, Command};
    ghost use Rattle.set_blocks.specs.Blocks.{IsBlock};

    ghost Value = { List Command };

    ghost view = { λ b. b.commands.items };

    ghost invariant = { λ b. IsBlock b.commands.items };
}

impl Block {
    /// The block of these commands. None exactly where there are none or more than `MOST_IN_BLOCK`, or where there is
    /// more than one and a `size` or a `next` is among them.
    pub fn new(commands: Vec<Command>) -> Option<Block>
        ensures { MatchOption result (IsBlock commands.items → ⊥) (λ block. (block ≡ commands.items) × IsBlock commands.items) }
    {
        let count = commands.len();
        if count == 0 || count > MOST_IN_BLOCK {
            return None;
        }
        if count > 1 && has_alone(&commands) {
            return None;
        }
        Some(Block { commands })
    }

    /// The block of one command. The error is want of memory.
    pub fn of_one(alloc: Global, command: Command) -> Result<Block, AllocError>
        ensures { IfOk result (λ block. block ≡ command ∷ []) }
    {
        let mut commands = Vec::new(alloc);
        commands.push(command)?;
        Ok(Block { commands })
    }

    /// Its commands, in order.
    pub fn commands(&self) -> &[Command]
        ensures commands { result.now ≡ self.now }
        ensures block { IsBlock self.now }
    {
        &self.commands
    }
}

/// Whether the command is a `size` or a `next`, which read a whole set.
pub fn stands_alone(command: &Command) -> bool
    ensures { result ≡ stands_alone command.now }
{
    matches!(command, Command::Size { .. } | Command::Next { .. })
}

/// Whether such a command is among these.
pub(crate) fn has_alone(commands: &[Command]) -> bool
    ensures { result ≡ list_any stands_alone commands.now }
{
    commands.iter().any(stands_alone)
}
