// One line of a script of blocks.
ghost use Rattle.std.specs.Prelude.{◌≡◌, IfOk};
ghost use Rattle.script_parser.specs.Grammar.{words_of, format_after};
ghost use Rattle.block_parser.specs.BlockGrammar.{bracket_of, bracket_in, line_said};

use script_parser::{FaultKind, Format, first_word, read_line, strip_carriage_return};
use set_model::Command;

/// What a line says.
#[derive(Clone, Copy, Drop)]
pub enum Said {
    /// It has no words, or is the one on the script's format.
    Nothing,
    /// To do this command.
    Says(Command),
    /// To begin a block.
    Begin,
    /// To end it.
    End,
}

// What a line says of blocks by its first word, where it does.
fn bracket_of(word: &[u8]) -> Option<Said>
    ensures { result ≡ bracket_of word.now }
{
    match word {
        b"begin" => Some(Said::Begin),
        b"end" => Some(Said::End),
        _ => None,
    }
}

// What a line says of blocks, where it does. `Err` is `Count`, where further words stand there.
fn read_bracket(line: &[u8]) -> Result<Option<Said>, FaultKind>
    ensures { result ≡ bracket_in (words_of line.now) }
{
    let Some((word, rest)) = first_word(strip_carriage_return(line)) else {
        return Ok(None);
    };
    let Some(said) = bracket_of(word) else {
        return Ok(None);
    };
    match first_word(rest) {
        None => Ok(Some(said)),
        Some(_) => Err(FaultKind::Count),
    }
}

/// Reads a line of a script of blocks, given without its LF, and notes the script's format.
pub fn read_said(line: &[u8], format: &mut Option<Format>) -> Result<Said, FaultKind>
    ensures is { result ≡ line_said format.old line.now }
    ensures format { IfOk result (λ _. format.new ≡ format_after format.old line.now) }
{
    if let Some(said) = read_bracket(line)? {
        if format.is_none() {
            *format = Format::new(1);
        }
        return Ok(said);
    }
    match read_line(line, format)? {
        None => Ok(Said::Nothing),
        Some(command) => Ok(Said::Says(command)),
    }
}
