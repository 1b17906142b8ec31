// One line of a script: its command, or what is wrong with it first.
ghost use Rattle.std.specs.Prelude.{◌≡◌, ◌≢◌, IfErr, MatchResult};
ghost use Rattle.script_parser.specs.Grammar.{words_in, verb_of, name_of, set_of, set_key_of, set_key_value_of, sets_key_of, command_with, line_read};

use crate::faults::FaultKind;
use crate::format::Format;
use crate::numbers::{read_key, read_value};
use crate::plain::read_plain;
use crate::words::{first_word, read_one, read_three, read_two, same_word, strip_carriage_return};
use set_model::{Command, Name};

/// What a command does.
#[derive(Clone, Copy, Drop)]
pub enum Verb {
    Add,
    Put,
    Del,
    Has,
    Get,
    Move,
    Pair,
    Size,
    Next,
}

// What the first word of a line says to do. `Err` is `Word`, for any other word, and for `put` and `get` in format 1.
#[inline(always)]
pub fn read_verb(word: &[u8], format: &Format) -> Result<Verb, FaultKind>
    ensures { result ≡ verb_of format.now word.now }
{
    let has_values = format.has_values();
    if same_word(word, b"add") {
        Ok(Verb::Add)
    } else if same_word(word, b"put") && has_values {
        Ok(Verb::Put)
    } else if same_word(word, b"del") {
        Ok(Verb::Del)
    } else if same_word(word, b"has") {
        Ok(Verb::Has)
    } else if same_word(word, b"get") && has_values {
        Ok(Verb::Get)
    } else if same_word(word, b"move") {
        Ok(Verb::Move)
    } else if same_word(word, b"pair") {
        Ok(Verb::Pair)
    } else if same_word(word, b"size") {
        Ok(Verb::Size)
    } else if same_word(word, b"next") {
        Ok(Verb::Next)
    } else {
        Err(FaultKind::Word)
    }
}

// The set of this name. `Err` is `Name`, for any other word than the 30 names.
#[inline(always)]
pub fn read_name(word: &[u8]) -> Result<Name, FaultKind>
    ensures { result ≡ name_of word.now }
{
    let (first, digit) = match word {
        [b'l', digit @ b'0'..=b'9'] => (0, *digit),
        [b'h', digit @ b'0'..=b'9'] => (10, *digit),
        [b't', digit @ b'0'..=b'9'] => (20, *digit),
        _ => return Err(FaultKind::Name),
    };
    Name::new(first + u32::from(digit - b'0')).ok_or(FaultKind::Name)
}

// The name that the bytes are. `Err` is `Count`, then `Name`.
fn read_set(bytes: &[u8]) -> Result<Name, FaultKind>
    ensures { result ≡ set_of (words_in bytes.now) }
{
    let name = read_one(bytes)?;
    read_name(name)
}

// The name and the key that the bytes are. `Err` is `Count`, then `Name`, then `Key`.
fn read_set_key(bytes: &[u8]) -> Result<(Name, u32), FaultKind>
    ensures { result ≡ set_key_of (words_in bytes.now) }
{
    let (name, key) = read_two(bytes)?;
    let name = read_name(name)?;
    let key = read_key(key)?;
    Ok((name, key))
}

// The name, the key and the value that the bytes are. `Err` is `Count`, then `Name`, `Key` and `Value`.
fn read_set_key_value(bytes: &[u8]) -> Result<(Name, u32, u64), FaultKind>
    ensures { result ≡ set_key_value_of (words_in bytes.now) }
{
    let (name, key, value) = read_three(bytes)?;
    let name = read_name(name)?;
    let key = read_key(key)?;
    let value = read_value(value)?;
    Ok((name, key, value))
}

// The two names and the key that the bytes are. `Err` is `Count`, then `Name`, then `Key`.
fn read_sets_key(bytes: &[u8]) -> Result<(Name, Name, u32), FaultKind>
    ensures { result ≡ sets_key_of (words_in bytes.now) }
{
    let (first, second, key) = read_three(bytes)?;
    let first = read_name(first)?;
    let second = read_name(second)?;
    let key = read_key(key)?;
    Ok((first, second, key))
}

// The move that the bytes are. `Err` is that of the names and the key, then `Same`.
fn read_move(bytes: &[u8]) -> Result<Command, FaultKind>
    ensures { result ≡ command_with Verb.Move (words_in bytes.now) }
{
    let (source, target, key) = read_sets_key(bytes)?;
    if source.index() == target.index() {
        return Err(FaultKind::Same);
    }
    Ok(Command::Move {
        source,
        target,
        key,
    })
}

// The command that does this, with what the bytes say.
fn read_command(verb: Verb, bytes: &[u8]) -> Result<Command, FaultKind>
    ensures { result ≡ command_with verb (words_in bytes.now) }
{
    match verb {
        Verb::Add => read_set_key(bytes).map(|(name, key)| Command::Add { name, key }),
        Verb::Put => {
            read_set_key_value(bytes).map(|(name, key, value)| Command::Put { name, key, value })
        }
        Verb::Del => read_set_key(bytes).map(|(name, key)| Command::Del { name, key }),
        Verb::Has => read_set_key(bytes).map(|(name, key)| Command::Has { name, key }),
        Verb::Get => read_set_key(bytes).map(|(name, key)| Command::Get { name, key }),
        Verb::Move => read_move(bytes),
        Verb::Pair => {
            read_sets_key(bytes).map(|(first, second, key)| Command::Pair { first, second, key })
        }
        Verb::Size => read_set(bytes).map(|name| Command::Size { name }),
        Verb::Next => read_set_key(bytes).map(|(name, key)| Command::Next { name, key }),
    }
}

/// Reads one line of a script of this format, given without its LF: its command, and `None` for a line without words.
/// Takes no memory.
///
/// `Err` tells what is wrong first, in the order `Word`, `Count`, `Name`, `Key`, `Value`, `Same`. It is never `Many` or
/// `Format`, since these depend on the lines before: a line that begins with `format` is a `Word` here.
#[inline(always)]
#[tactic(auto, unfolding(crate::specs::Grammar::command_of))]
pub fn parse_line(line: &[u8], format: &Format) -> Result<Option<Command>, FaultKind>
    ensures is { result ≡ line_read format.now line.now }
    ensures other { IfErr result (λ kind. (kind ≢ FaultKind.Many) × (kind ≢ FaultKind.Format)) }
{
    let bytes = strip_carriage_return(line);
    if let Some(command) = read_plain(bytes, format) {
        return Ok(Some(command));
    }
    let Some((word, rest)) = first_word(bytes) else {
        return Ok(None);
    };
    let verb = read_verb(word, format)?;
    let command = read_command(verb, rest)?;
    Ok(Some(command))
}
