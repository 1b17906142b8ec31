// The blocks of a whole script.
ghost use Rattle.std.specs.Prelude.{◌≡◌, ◌-◌, ◌<◌, ◌^◌, length, IfOk, MatchResult};
ghost use Rattle.block_parser.specs.BlockGrammar.{with_reading, line_said, parsed_blocks, last_line, Refuses};
ghost use Rattle.script_parser.specs.Grammar.{format_after, lines_of};

use crate::faults::{BlockFault, BlockKind};
use crate::line::read_said;
use crate::progress::Progress;
use script_parser::Format;
use set_blocks::Block;
use std::alloc::Global;

/// The blocks of a script, in the order of its lines.
///
/// `Err(At { line, kind })` is the first line, counted from 1 with the skipped ones, that is faulty, and what is wrong
/// with it first: what is wrong with the line by itself, which is `Line`; then, of a command, `Line(Many)` where it is one
/// more than `MOST_COMMANDS`, `Long` where it is the ninth of its block, and `Apart`; of a `begin`, `Nested`; of an `end`,
/// `Stray` and `Empty`. Where no line is faulty and the script ends inside a block, it is `Unended` at the last line.
/// `Err(Memory)` is want of memory. The text has fewer than 4294967295 bytes, so that a line's number fits.
pub fn parse_blocks(alloc: Global, bytes: &[u8]) -> Result<Vec<Block>, BlockFault>
    requires { length bytes.now < 2 ^ 32 - 1 }
    ensures { MatchResult result (λ blocks. parsed_blocks bytes.now ≡ Ok blocks.items) (Refuses (parsed_blocks bytes.now)) }
{
    let mut progress = Progress::new(alloc);
    let mut format = None;
    let mut number = 0;
    for line in bytes.split(|byte| *byte == b'\n') {
        number += 1;
        progress = take_line(progress, alloc, &mut format, number, line)?;
    }
    progress.finish(last_line(bytes, number))
}

// The number of the last line, where the text has so many parts between its LFs. An empty rest behind the
// last LF is no line here.
fn last_line(bytes: &[u8], parts: u32) -> u32
    requires { parts ≡ length (lines_of bytes.now) }
    ensures { result ≡ last_line bytes.now }
{
    if bytes.ends_with(b"\n") {
        parts - 1
    } else {
        parts
    }
}

// Goes on by a line, which has this number, and notes the script's format.
fn take_line(
    progress: Progress,
    alloc: Global,
    format: &mut Option<Format>,
    number: u32,
    line: &[u8],
) -> Result<Progress, BlockFault>
    ensures read { MatchResult result
        (λ more. with_reading progress number (line_said format.old line.now) ≡ Ok more)
        (Refuses (with_reading progress number (line_said format.old line.now))) }
    ensures format { IfOk result (λ _. format.new ≡ format_after format.old line.now) }
{
    match read_said(line, format) {
        Err(kind) => Err(BlockFault::At {
            line: number,
            kind: BlockKind::Line(kind),
        }),
        Ok(said) => progress.with(alloc, number, said),
    }
}
