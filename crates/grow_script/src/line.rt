//! One line of a script of a growing hash set.
ghost use Rattle.std.specs.Prelude.{◌≡◌, ◌||◌, IfOk, MatchOption, ⊤, true};
ghost use Rattle.script_parser.specs.Grammar.{words_in, words_of};
ghost use Rattle.grow_script.specs.GrowGrammar.{is_on_two, is_of_set, names_set, is_misnamed, grow_command, grow_format, grow_first, grow_reading, has_words};

use script_parser::{FaultKind, Format, first_word, parse_line, strip_carriage_return};
use set_model::Command;

/// Reads a line of a script of a growing hash set, given without its LF, and notes whether a line has had words: its command,
/// and `None` for a line without words and for the one on the format.
///
/// `Err` tells what is wrong first, as of [`crate::parse_grow`], but that it is never `Many`.
pub fn read_line(line: &[u8], begun: &mut bool) -> Result<Option<Command>, FaultKind>
    ensures is { result ≡ grow_reading begun.old line.now }
    ensures growing { IfOk result (λ read. MatchOption read ⊤ (λ command. is_of_set command ≡ true)) }
    ensures begun { begun.new ≡ (begun.old || has_words (words_of line.now)) }
{
    if *begun {
        return read_command(line);
    }
    *begun = has_words(line);
    read_first(line)
}

// Whether a line has words.
fn has_words(line: &[u8]) -> bool
    ensures { result ≡ has_words (words_of line.now) }
{
    first_word(strip_carriage_return(line)).is_some()
}

// Reads a line before which no line has words.
fn read_first(line: &[u8]) -> Result<Option<Command>, FaultKind>
    ensures { result ≡ grow_first (words_of line.now) }
{
    let Some((word, rest)) = first_word(strip_carriage_return(line)) else {
        return Ok(None);
    };
    if matches!(word, b"format") {
        return read_format(rest);
    }
    read_command(line)
}

// Reads the bytes behind `format`, which name format 1. `Err` is `Count`, then `Format`.
fn read_format(bytes: &[u8]) -> Result<Option<Command>, FaultKind>
    ensures { result ≡ grow_format (words_in bytes.now) }
{
    let (word, rest) = first_word(bytes).ok_or(FaultKind::Count)?;
    if first_word(rest).is_some() {
        return Err(FaultKind::Count);
    }
    match word {
        b"1" => Ok(None),
        _ => Err(FaultKind::Format),
    }
}

// Reads a line as one of a script of format 1, but that `move`, `pair` and any other name than `h0` are unknown.
#[tactic(auto, unfolding(crate::specs::GrowGrammar::grow_command))]
fn read_command(line: &[u8]) -> Result<Option<Command>, FaultKind>
    ensures { result ≡ grow_command (words_of line.now) }
{
    let Some((word, rest)) = first_word(strip_carriage_return(line)) else {
        return Ok(None);
    };
    if is_on_two(word) {
        return Err(FaultKind::Word);
    }
    let Some(plain) = Format::new(1) else {
        unreachable!()
    };
    let reading = parse_line(line, &plain);
    if is_misnamed(rest, &reading) {
        return Err(FaultKind::Name);
    }
    reading
}

// The index of the name `h0`.
const SET: u32 = 10;

// Whether a word is one of the two commands on two sets.
fn is_on_two(word: &[u8]) -> bool
    ensures { result ≡ is_on_two word.now }
{
    matches!(word, b"move" | b"pair")
}

// Whether a line, with these bytes behind its first word, was read past a name that is not the set's: up to a command, or
// up to its key.
fn is_misnamed(rest: &[u8], reading: &Result<Option<Command>, FaultKind>) -> bool
    ensures { result ≡ is_misnamed (words_in rest.now) reading.now }
{
    match reading {
        Ok(Some(command)) => !is_of_set(command),
        Err(FaultKind::Key) => !names_set(rest),
        _ => false,
    }
}

// Whether a command is one of the five on one key or none, and names the set.
fn is_of_set(command: &Command) -> bool
    ensures { result ≡ is_of_set command.now }
{
    match command {
        Command::Add { name, .. }
        | Command::Del { name, .. }
        | Command::Has { name, .. }
        | Command::Size { name }
        | Command::Next { name, .. } => name.index() == SET,
        _ => false,
    }
}

// Whether the bytes behind a command begin with the name of the set.
fn names_set(bytes: &[u8]) -> bool
    ensures { result ≡ names_set (words_in bytes.now) }
{
    match first_word(bytes) {
        Some((word, _)) => matches!(word, b"h0"),
        None => false,
    }
}
