// The first line of a script that has words: it may name the script's format.
ghost use Rattle.std.specs.Prelude.{◌≡◌, MatchResult, IfOk};
ghost use Rattle.script_parser.specs.Grammar.{words_in, is_format_word, format_of, first_read, first_format, reading_in, format_after, words_of};

use crate::faults::FaultKind;
use crate::format::Format;
use crate::line::parse_line;
use crate::words::{first_word, read_one, same_word, strip_carriage_return};
use set_model::Command;

// The format that the bytes behind `format` name. `Err` is `Count`, then `Format`.
fn read_format(bytes: &[u8]) -> Result<Format, FaultKind>
    ensures { result ≡ format_of (words_in bytes.now) }
{
    match read_one(bytes)? {
        b"1" => Ok(Format::plain()),
        b"2" => Ok(Format::valued()),
        _ => Err(FaultKind::Format),
    }
}

// Whether the word is the first one of a line on the format.
fn is_format_word(word: &[u8]) -> bool
    ensures { result ≡ is_format_word word.now }
{
    same_word(word, b"format")
}

// Reads a line before which no line has words, and answers its command and the format behind it.
fn read_first(line: &[u8]) -> Result<(Option<Command>, Option<Format>), FaultKind>
    ensures { MatchResult result
        (λ read. (first_read (words_of line.now) ≡ Ok read.0) × (first_format (words_of line.now) ≡ read.1))
        (λ kind. first_read (words_of line.now) ≡ Err kind) }
{
    let Some((word, rest)) = first_word(strip_carriage_return(line)) else {
        return Ok((None, None));
    };
    if is_format_word(word) {
        let format = read_format(rest)?;
        return Ok((None, Some(format)));
    }
    let command = parse_line(line, &Format::plain())?;
    Ok((command, Some(Format::plain())))
}

/// Reads a line of a script, given without its LF, and notes the script's format, which is none as long as no line has
/// words: its command, and `None` for a line without words and for the one on the format. Takes no memory.
///
/// `Err` tells what is wrong first, as of [`crate::parse`], but that it is never `Many`; the format is then not to be used.
#[inline(always)]
pub fn read_line(line: &[u8], format: &mut Option<Format>) -> Result<Option<Command>, FaultKind>
    ensures is { result ≡ reading_in format.old line.now }
    ensures format { IfOk result (λ _. format.new ≡ format_after format.old line.now) }
{
    if let Some(known) = format {
        return parse_line(line, known);
    }
    let (command, found) = read_first(line)?;
    *format = found;
    Ok(command)
}
