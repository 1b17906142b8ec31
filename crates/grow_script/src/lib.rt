//! Scripts of a growing hash set as text.
//!
//! # The model
//!
//! A script is one of format 1 (`set_model`) whose commands are `add`, `del`, `has`, `size` and
//! `next` on `h0`. The first line with words may be `format 1`; `format` and any other one word
//! there is an unknown format. `move` and `pair` are unknown commands, and every name but `h0` is
//! unknown. A line's faults come in the order of `set_model`: its command, the number of its
//! words, the format, its name, its key; then that it is one command too many.
//!
//! `specs/GrowGrammar.antt` says this as a function on bytes, over the one of `set_model`.
//!
//! # The contract
//!
//! [`parse_grow`] answers just that, and each of its commands is one of the five and names the set.
//!
//! # Its place
//!
//! It stands on the grammar of `set_model`. Its commands are those that `grow_hash` takes.
#![tactic(auto)]

mod line;

ghost use Rattle.std.specs.Prelude.{◌≡◌, ◌-◌, ◌≤◌, ◌<◌, ◌^◌, ◌||◌, true, All, IfOk, MatchResult, length};
ghost use Rattle.script_parser.specs.Grammar.{with_reading, words_of, Refuses};
ghost use Rattle.grow_script.specs.GrowGrammar.{grow_reading, has_words, is_of_set, parsed_grow};

use line::read_line;
use script_parser::{FaultKind, ScriptFault};
use set_model::{Command, MOST_COMMANDS};
use std::alloc::Global;

/// The commands of a script of a growing hash set, in the order of its lines.
///
/// `Err(At { line, kind })` is the first line, counted from 1 with the skipped ones, that is
/// outside the grammar or whose command is one more than `MOST_COMMANDS`, and what is wrong with
/// it first: `Word`, `Count`, `Format`, `Name`, `Key`, `Many`. `Err(Memory)` is want of memory. The
/// text has fewer than 4294967295 bytes, so that a line's number fits.
pub fn parse_grow(alloc: Global, bytes: &[u8]) -> Result<Vec<Command>, ScriptFault>
    requires { length bytes.now < 2 ^ 32 - 1 }
    ensures exact { MatchResult result (λ commands. parsed_grow bytes.now ≡ Ok commands.items) (Refuses (parsed_grow bytes.now)) }
    ensures few { IfOk result (λ commands. length commands.items ≤ MOST_COMMANDS) }
    ensures growing { IfOk result (λ commands. All (λ command. is_of_set command ≡ true) commands.items) }
{
    let mut commands = Vec::new(alloc);
    let mut begun = false;
    let mut number = 0;
    for line in bytes.split(|byte| *byte == b'\n') {
        number += 1;
        take_line(&mut commands, &mut begun, number, line)?;
    }
    Ok(commands)
}

// Puts the command of a line behind those of the lines before, and notes whether a line has had
// words. The line has this number.
fn take_line(
    commands: &mut Vec<Command>,
    begun: &mut bool,
    number: u32,
    line: &[u8],
) -> Result<(), ScriptFault>
    requires few { length commands.old.items ≤ MOST_COMMANDS }
    requires growing { All (λ command. is_of_set command ≡ true) commands.old.items }
    ensures few { IfOk result (λ _. length commands.new.items ≤ MOST_COMMANDS) }
    ensures growing { IfOk result (λ _. All (λ command. is_of_set command ≡ true) commands.new.items) }
    ensures read { MatchResult result
        (λ _. with_reading commands.old.items number (grow_reading begun.old line.now) ≡ Ok commands.new.items)
        (Refuses (with_reading commands.old.items number (grow_reading begun.old line.now))) }
    ensures begun { IfOk result (λ _. begun.new ≡ (begun.old || has_words (words_of line.now))) }
{
    let command = match read_line(line, begun) {
        Err(kind) => return Err(ScriptFault::At { line: number, kind }),
        Ok(None) => return Ok(()),
        Ok(Some(command)) => command,
    };
    if commands.len() >= MOST_COMMANDS {
        return Err(ScriptFault::At {
            line: number,
            kind: FaultKind::Many,
        });
    }
    commands.push(command).map_err(|_| ScriptFault::Memory)
}
