// The numbers among the words.
ghost use Rattle.std.specs.Prelude.{◌≡◌, ◌≤◌, IfOk, MatchOption, None, Some, string_bytes, true};
ghost use Rattle.std.specs.Char.{is_ascii_digit};
ghost use Rattle.std.specs.List.{list_all};
ghost use Rattle.std.specs.Str.Parse.{digits_value};
ghost use Rattle.script_parser.specs.Grammar.{is_numeral};
ghost use Rattle.run_words.specs.Words.{number_of, within};

use crate::request::{BadWords, Limit};

// How many digits a number may have.
const MOST_DIGITS: usize = 20;

fn has_only_digits(word: &[u8]) -> bool
    ensures { result ≡ list_all is_ascii_digit word.now }
{
    for byte in word {
        if !byte.is_ascii_digit() {
            return false;
        }
    }
    true
}

// Whether the word is 1 to 20 decimal digits.
fn is_numeral(word: &[u8]) -> bool
    ensures { result ≡ is_numeral 20 word.now }
{
    if word.is_empty() || word.len() > MOST_DIGITS {
        return false;
    }
    has_only_digits(word)
}

// The number that the digits stand for.
fn value(word: &[u8]) -> u128
    requires { is_numeral 20 word.now ≡ true }
    ensures { result ≡ digits_value 10 word.now }
{
    let mut number = 0;
    for digit in word {
        number = number * 10 + u128::from(*digit - b'0');
    }
    number
}

/// The number of a word, where it is 1 to 20 decimal digits.
pub fn read_number(word: &str) -> Option<u128>
    ensures { result ≡ number_of word.now }
{
    let word = word.as_bytes();
    if is_numeral(word) {
        Some(value(word))
    } else {
        None
    }
}

/// The number, where it is in its range.
pub fn within(limit: Limit, least: u64, most: u64, number: u128) -> Result<u64, BadWords>
    ensures is { result ≡ within limit least most number }
    ensures low { IfOk result (λ n. least ≤ n) }
    ensures high { IfOk result (λ n. n ≤ most) }
{
    if number < least as u128 || number > most as u128 {
        return Err(BadWords::Beyond(limit));
    }
    Ok(number as u64)
}
