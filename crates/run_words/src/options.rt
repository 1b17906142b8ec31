// The options before the first FILE.
ghost use Rattle.std.specs.Prelude.{◌≡◌, ◌<◌, map, string_bytes, None, Some, MatchOption, OnSome};
ghost use Rattle.run_words.specs.Words.{add_option, flag_of, none_given, options_of};

use crate::numbers::read_number;

/// An option of `run`.
#[derive(Clone, Copy, Drop)]
pub enum Flag {
    Objects,
    Slots,
    Base,
}

/// The options that were given so far, with their numbers.
#[derive(Clone, Copy, Drop)]
pub struct GivenOptions {
    pub objects: Option<u128>,
    pub slots: Option<u128>,
    pub base: Option<u128>,
}

// The option that the word is.
fn read_flag(word: &str) -> Option<Flag>
    ensures { result ≡ flag_of word.now }
{
    match word {
        "--objects" => Some(Flag::Objects),
        "--slots" => Some(Flag::Slots),
        "--base" => Some(Flag::Base),
        _ => None,
    }
}

// The options with one more, where it wasn't given yet.
fn with(given: GivenOptions, flag: Flag, number: u128) -> Option<GivenOptions>
    ensures { result ≡ add_option flag number given }
{
    match flag {
        Flag::Objects if given.objects.is_none() => Some(GivenOptions {
            objects: Some(number),
            ..given
        }),
        Flag::Slots if given.slots.is_none() => Some(GivenOptions {
            slots: Some(number),
            ..given
        }),
        Flag::Base if given.base.is_none() => Some(GivenOptions {
            base: Some(number),
            ..given
        }),
        _ => None,
    }
}

/// The options that the words begin with, and the words behind them. `None` where an option comes twice or its value
/// isn't 1 to 20 decimal digits.
pub fn read_options(words: &[String]) -> Option<(GivenOptions, &[String])>
    ensures { MatchOption result (options_of none_given (map string_bytes words.now) ≡ None)
        (λ r. options_of none_given (map string_bytes words.now) ≡ Some (r.0, map string_bytes r.1.now)) }
{
    let mut given = GivenOptions {
        objects: None,
        slots: None,
        base: None,
    };
    let mut rest = words;
    while let [word, value, more @ ..] = rest {
        let Some(flag) = read_flag(word.as_str()) else {
            break;
        };
        let number = read_number(value.as_str())?;
        given = with(given, flag, number)?;
        rest = more;
    }
    Some((given, rest))
}
