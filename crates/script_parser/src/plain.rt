// Lines in their plainest form, with one space between the words and nothing else, read without a search for the words' ends.
ghost use Rattle.std.specs.Prelude.{◌≡◌, ◌++◌, ◌∷◌, ⊤, Ok, Some, MatchOption};
ghost use Rattle.script_parser.specs.Grammar.{words_in, set_key_of, sets_key_of, command_with, command_of};
ghost use Rattle.script_parser.specs.declared.line.Verb.{Verb};

use crate::format::Format;
use crate::line::{Verb, read_name, read_verb};
use crate::numbers::read_key;
use set_model::{Command, Name};

// The first three bytes or the first four, where a space stands behind them, and the bytes behind that space. Else `None`.
#[inline(always)]
fn split_verb(line: &[u8]) -> Option<(&[u8], &[u8])>
    ensures { MatchOption result ⊤ (λ two. line.now ≡ two.0.now ++ 32 ∷ two.1.now) }
{
    match line {
        [_, _, _, b' ', rest @ ..] => Some((&line[..3], rest)),
        [_, _, _, _, b' ', rest @ ..] => Some((&line[..4], rest)),
        _ => None,
    }
}

// A name and a key. `None` where the bytes are anything else, or these in another form.
#[inline(always)]
fn plain_set_key(bytes: &[u8]) -> Option<(Name, u32)>
    ensures { MatchOption result ⊤ (λ two. set_key_of (words_in bytes.now) ≡ Ok two) }
{
    let [_, _, b' ', rest @ ..] = bytes else {
        return None;
    };
    let name = read_name(&bytes[..2]).ok()?;
    let key = read_key(rest).ok()?;
    Some((name, key))
}

// Two names and a key. `None` where the bytes are anything else, or these in another form.
#[inline(always)]
fn plain_sets_key(bytes: &[u8]) -> Option<(Name, Name, u32)>
    ensures { MatchOption result ⊤ (λ three. sets_key_of (words_in bytes.now) ≡ Ok three) }
{
    let [_, _, b' ', rest @ ..] = bytes else {
        return None;
    };
    let first = read_name(&bytes[..2]).ok()?;
    let (second, key) = plain_set_key(rest)?;
    Some((first, second, key))
}

// A move to another set. `None` where the bytes are anything else, or one in another form.
#[inline(always)]
fn plain_move(bytes: &[u8]) -> Option<Command>
    ensures { MatchOption result ⊤ (λ command. command_with Verb.Move (words_in bytes.now) ≡ Ok command) }
{
    let (source, target, key) = plain_sets_key(bytes)?;
    if source.index() == target.index() {
        return None;
    }
    Some(Command::Move {
        source,
        target,
        key,
    })
}

// The command that does this, where it has one or two names and a key, which are all that the bytes are. Else `None`.
#[inline(always)]
fn plain_command(verb: Verb, bytes: &[u8]) -> Option<Command>
    ensures { MatchOption result ⊤ (λ command. command_with verb (words_in bytes.now) ≡ Ok command) }
{
    match verb {
        Verb::Add => plain_set_key(bytes).map(|(name, key)| Command::Add { name, key }),
        Verb::Del => plain_set_key(bytes).map(|(name, key)| Command::Del { name, key }),
        Verb::Has => plain_set_key(bytes).map(|(name, key)| Command::Has { name, key }),
        Verb::Get => plain_set_key(bytes).map(|(name, key)| Command::Get { name, key }),
        Verb::Next => plain_set_key(bytes).map(|(name, key)| Command::Next { name, key }),
        Verb::Move => plain_move(bytes),
        Verb::Pair => {
            plain_sets_key(bytes).map(|(first, second, key)| Command::Pair { first, second, key })
        }
        Verb::Put | Verb::Size => None,
    }
}

/// The command of a line in this form, given without a CR at its end. `None` where it's any other line, with a command or
/// without one, and where its command is a `put` or a `size`. Takes no memory.
#[inline(always)]
pub fn read_plain(line: &[u8], format: &Format) -> Option<Command>
    ensures { MatchOption result ⊤ (λ command. command_of format.now (words_in line.now) ≡ Ok (Some command)) }
{
    let (word, rest) = split_verb(line)?;
    let verb = read_verb(word, format).ok()?;
    plain_command(verb, rest)
}
