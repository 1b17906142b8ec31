// The numbers of a line: keys and values.
ghost use Rattle.std.specs.Prelude.{◌≡◌, true};
ghost use Rattle.std.specs.List.{list_all};
ghost use Rattle.std.specs.Char.{is_ascii_digit};
ghost use Rattle.std.specs.Str.Parse.{digits_value};
ghost use Rattle.script_parser.specs.Grammar.{is_numeral, key_of, value_of};

use crate::faults::FaultKind;

// How many digits a key and a value may have.
const KEY_DIGITS: usize = 10;

const VALUE_DIGITS: usize = 20;

fn has_only_digits(word: &[u8]) -> bool
    ensures { result ≡ list_all is_ascii_digit word.now }
{
    word.iter().all(u8::is_ascii_digit)
}

// Whether the word is 1 to `most` decimal digits.
fn is_numeral(word: &[u8], most: usize) -> bool
    ensures { result ≡ is_numeral most word.now }
{
    if word.is_empty() || word.len() > most {
        return false;
    }
    has_only_digits(word)
}

// The number that the digits stand for.
fn number_of(word: &[u8]) -> u128
    requires { is_numeral 20 word.now ≡ true }
    ensures { result ≡ digits_value 10 word.now }
{
    let mut number = 0;
    for digit in word {
        number = number * 10 + u128::from(*digit - b'0');
    }
    number
}

/// The key. `Err` is `Key`, for what is no numeral, and above 4294967295.
#[inline(always)]
pub fn read_key(word: &[u8]) -> Result<u32, FaultKind>
    ensures { result ≡ key_of word.now }
{
    if !is_numeral(word, KEY_DIGITS) {
        return Err(FaultKind::Key);
    }
    u32::try_from(number_of(word)).map_err(|_| FaultKind::Key)
}

/// The value. `Err` is `Value`, for what is no numeral, and above 18446744073709551615.
pub fn read_value(word: &[u8]) -> Result<u64, FaultKind>
    ensures { result ≡ value_of word.now }
{
    if !is_numeral(word, VALUE_DIGITS) {
        return Err(FaultKind::Value);
    }
    u64::try_from(number_of(word)).map_err(|_| FaultKind::Value)
}
