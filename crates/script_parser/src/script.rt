// The commands of a whole script.
ghost use Rattle.std.specs.Prelude.{◌≡◌, ◌-◌, ◌≤◌, ◌<◌, ◌^◌, IfOk, MatchResult, length};
ghost use Rattle.script_parser.specs.Grammar.{reading_in, format_after, with_reading, parsed, Refuses};

use crate::faults::{FaultKind, ScriptFault};
use crate::format::Format;
use crate::opening::read_line;
use set_model::{Command, MOST_COMMANDS};
use std::alloc::Global;

/// The commands of a script, in the order of its lines.
///
/// `Err(At { line, kind })` is the first line, counted from 1 with the skipped ones, that is
/// outside the grammar or whose command is one more than `MOST_COMMANDS`, and what is wrong with
/// it first: `Word`, `Count`, `Format`, `Name`, `Key`, `Value`, `Same`, `Many`. `Err(Memory)` is
/// want of memory. The text has fewer than 4294967295 bytes, so that a line's number fits. What follows
/// the last LF counts as a line, also where it is empty.
pub fn parse(alloc: Global, bytes: &[u8]) -> Result<Vec<Command>, ScriptFault>
    requires { length bytes.now < 2 ^ 32 - 1 }
    ensures exact { MatchResult result (λ commands. parsed bytes.now ≡ Ok commands.items) (Refuses (parsed bytes.now)) }
    ensures few { IfOk result (λ commands. length commands.items ≤ MOST_COMMANDS) }
{
    let mut commands = Vec::new(alloc);
    let mut format = None;
    let mut number = 0;
    for line in bytes.split(|byte| *byte == b'\n') {
        number += 1;
        take_line(&mut commands, &mut format, number, line)?;
    }
    Ok(commands)
}

// Puts the command of a line behind those of the lines before, and notes the script's format.
// The line has this number.
#[inline(always)]
fn take_line(
    commands: &mut Vec<Command>,
    format: &mut Option<Format>,
    number: u32,
    line: &[u8],
) -> Result<(), ScriptFault>
    ensures read { MatchResult result
        (λ _. with_reading commands.old.items number (reading_in format.old line.now) ≡ Ok commands.new.items)
        (Refuses (with_reading commands.old.items number (reading_in format.old line.now))) }
    ensures format { IfOk result (λ _. format.new ≡ format_after format.old line.now) }
{
    let command = match read_line(line, format) {
        Err(kind) => return Err(ScriptFault::At { line: number, kind }),
        Ok(None) => return Ok(()),
        Ok(Some(command)) => command,
    };
    if commands.len() >= MOST_COMMANDS {
        return Err(ScriptFault::At {
            line: number,
            kind: FaultKind::Many,
        });
    }
    commands.push(command).map_err(|_| ScriptFault::Memory)
}
