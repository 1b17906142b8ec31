// What is read of a script so far.
ghost use Rattle.std.specs.Prelude.{◌≡◌, ◌≤◌, [], None, MatchResult};
ghost use Rattle.block_parser.specs.BlockGrammar.{with_command, with_next, with_begin, with_end, with_said, closed, Refuses};

use crate::faults::{BlockFault, BlockKind};
use crate::line::Said;
use script_parser::FaultKind;
use set_blocks::{Block, MOST_IN_BLOCK, stands_alone};
use set_model::{Command, MOST_COMMANDS};
use std::alloc::Global;
use std::marker::Model;

/// The blocks that ended, and the commands of the block that has begun, if one has. `count` is the number of all commands.
#[derive(Drop)]
pub struct Progress {
    blocks: Vec<Block>,
    begun: Option<Vec<Command>>,
    count: usize,
}

impl Model for Progress {
    ghost use Rattle.block_parser.specs.BlockGrammar.{ReadSoFar, read_so_far, IsCounted};

    ghost Value = { ReadSoFar };

    ghost view = { λ p. read_so_far p.blocks.items p.begun };

    ghost invariant = { λ p. IsCounted (read_so_far p.blocks.items p.begun) p.count };
}

impl Progress {
    /// Nothing yet.
    pub fn new(alloc: Global) -> Progress
        ensures { result ≡ record { blocks = []; begun = None } }
    {
        Progress {
            blocks: Vec::new(alloc),
            begun: None,
            count: 0,
        }
    }

    /// Goes on by what a line says, which has this number.
    pub fn with(self, alloc: Global, line: u32, said: Said) -> Result<Progress, BlockFault>
        ensures { MatchResult result (λ more. with_said self line said ≡ Ok more) (Refuses (with_said self line said)) }
    {
        match said {
            Said::Nothing => Ok(self),
            Said::Says(command) => self.with_command(alloc, line, command),
            Said::Begin => self.with_begin(alloc, line),
            Said::End => self.with_end(line),
        }
    }

    // A command is the next one of the block that has begun, or a block of one.
    fn with_command(
        self,
        alloc: Global,
        line: u32,
        command: Command,
    ) -> Result<Progress, BlockFault>
        ensures { MatchResult result (λ more. with_command self line command ≡ Ok more) (Refuses (with_command self line command)) }
    {
        let Progress {
            mut blocks,
            begun,
            count,
        } = self;
        if count >= MOST_COMMANDS {
            return Err(fault(line, BlockKind::Line(FaultKind::Many)));
        }
        let begun = match begun {
            None => {
                let block = Block::of_one(alloc, command).map_err(|_| BlockFault::Memory)?;
                blocks.push(block).map_err(|_| BlockFault::Memory)?;
                None
            }
            Some(commands) => Some(with_next(commands, line, command)?),
        };
        Ok(Progress {
            blocks,
            begun,
            count: count + 1,
        })
    }

    // Outside a block, one begins.
    fn with_begin(self, alloc: Global, line: u32) -> Result<Progress, BlockFault>
        ensures { MatchResult result (λ more. with_begin self line ≡ Ok more) (Refuses (with_begin self line)) }
    {
        let Progress {
            blocks,
            begun,
            count,
        } = self;
        if begun.is_some() {
            return Err(fault(line, BlockKind::Nested));
        }
        Ok(Progress {
            blocks,
            begun: Some(Vec::new(alloc)),
            count,
        })
    }

    // Inside a block, it ends.
    fn with_end(self, line: u32) -> Result<Progress, BlockFault>
        ensures { MatchResult result (λ more. with_end self line ≡ Ok more) (Refuses (with_end self line)) }
    {
        let Progress {
            mut blocks,
            begun,
            count,
        } = self;
        let Some(commands) = begun else {
            return Err(fault(line, BlockKind::Stray));
        };
        let Some(block) = Block::new(commands) else {
            return Err(fault(line, BlockKind::Empty));
        };
        blocks.push(block).map_err(|_| BlockFault::Memory)?;
        Ok(Progress {
            blocks,
            begun: None,
            count,
        })
    }

    /// The blocks, where the script ends and this is its last line.
    pub fn finish(self, last: u32) -> Result<Vec<Block>, BlockFault>
        ensures { MatchResult result (λ blocks. closed self last ≡ Ok blocks.items) (Refuses (closed self last)) }
    {
        let Progress {
            blocks,
            begun,
            count: _,
        } = self;
        match begun {
            None => Ok(blocks),
            Some(_) => Err(fault(last, BlockKind::Unended)),
        }
    }
}

// What is wrong with this line.
fn fault(line: u32, kind: BlockKind) -> BlockFault
    ensures { result ≡ BlockFault.At line kind }
{
    BlockFault::At { line, kind }
}

// The commands of a block with one more, which stands in this line.
fn with_next(
    commands: Vec<Command>,
    line: u32,
    command: Command,
) -> Result<Vec<Command>, BlockFault>
    ensures { MatchResult result (λ more. with_next commands.items line command ≡ Ok more.items)
        (Refuses (with_next commands.items line command)) }
{
    let mut commands = commands;
    if commands.len() >= MOST_IN_BLOCK {
        return Err(fault(line, BlockKind::Long));
    }
    if stands_alone(&command) {
        return Err(fault(line, BlockKind::Apart));
    }
    commands.push(command).map_err(|_| BlockFault::Memory)?;
    Ok(commands)
}
