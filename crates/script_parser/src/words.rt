// The words of a line: what stands between its blanks, up to a comment.
ghost use Rattle.std.specs.Prelude.{◌≡◌, ◌≤◌, [], ◌∷◌, MatchOption, MatchResult, length, drop};
ghost use Rattle.std.specs.List.{position_or_len, prefix_len};
ghost use Rattle.std.specs.Str.{bytes_eq};
ghost use Rattle.std.specs.Str.Lines.{strip_carriage_return};
ghost use Rattle.script_parser.specs.Grammar.{is_blank, words_in, one_of, two_of, three_of};

use crate::faults::FaultKind;

// Whether the byte separates words: a space or a tab.
fn is_blank(byte: u8) -> bool
    ensures { result ≡ is_blank byte }
{
    byte == b' ' || byte == b'\t'
}

// How many bytes stand before the first blank.
fn word_length(bytes: &[u8]) -> usize
    ensures is { result ≡ position_or_len is_blank bytes.now }
    ensures within { result ≤ length bytes.now }
{
    bytes.iter().take_while(|byte| !is_blank(**byte)).count()
}

// How many blanks stand in front.
fn blank_length(bytes: &[u8]) -> usize
    ensures is { result ≡ prefix_len is_blank bytes.now }
    ensures within { result ≤ length bytes.now }
{
    bytes.iter().take_while(|byte| is_blank(**byte)).count()
}

// The bytes from the first that is no blank.
fn skip_blanks(bytes: &[u8]) -> &[u8]
    ensures { result.now ≡ drop (prefix_len is_blank bytes.now) bytes.now }
{
    &bytes[blank_length(bytes)..]
}

/// The line without the one CR at its end, where there is one.
pub fn strip_carriage_return(line: &[u8]) -> &[u8]
    ensures { result.now ≡ strip_carriage_return line.now }
{
    match line {
        [front @ .., b'\r'] => front,
        _ => line,
    }
}

/// Whether two words are the same.
pub fn same_word(word: &[u8], other: &[u8]) -> bool
    ensures { result ≡ bytes_eq word.now other.now }
{
    word == other
}

/// The first word and the bytes behind it. `None` where the bytes end, or a comment begins,
/// before any word.
pub fn first_word(bytes: &[u8]) -> Option<(&[u8], &[u8])>
    ensures { MatchOption result (words_in bytes.now ≡ []) (λ found. words_in bytes.now ≡ found.0.now ∷ words_in found.1.now) }
{
    let rest = skip_blanks(bytes);
    let first = *rest.first()?;
    if first == b'#' {
        return None;
    }
    Some(rest.split_at(word_length(rest)))
}

/// The one word of the bytes. `Err` is `Count`, for fewer and for more.
pub fn read_one(bytes: &[u8]) -> Result<&[u8], FaultKind>
    ensures { MatchResult result (λ word. one_of (words_in bytes.now) ≡ Ok word.now) (λ kind. one_of (words_in bytes.now) ≡ Err kind) }
{
    let (word, rest) = first_word(bytes).ok_or(FaultKind::Count)?;
    match first_word(rest) {
        None => Ok(word),
        Some(_) => Err(FaultKind::Count),
    }
}

/// The two words of the bytes. `Err` is `Count`, for fewer and for more.
pub fn read_two(bytes: &[u8]) -> Result<(&[u8], &[u8]), FaultKind>
    ensures { MatchResult result (λ two. two_of (words_in bytes.now) ≡ Ok (two.0.now, two.1.now)) (λ kind. two_of (words_in bytes.now) ≡ Err kind) }
{
    let (first, rest) = first_word(bytes).ok_or(FaultKind::Count)?;
    let second = read_one(rest)?;
    Ok((first, second))
}

/// The three words of the bytes. `Err` is `Count`, for fewer and for more.
pub fn read_three(bytes: &[u8]) -> Result<(&[u8], &[u8], &[u8]), FaultKind>
    ensures { MatchResult result (λ three. three_of (words_in bytes.now) ≡ Ok (three.0.now, three.1.now, three.2.now))
        (λ kind. three_of (words_in bytes.now) ≡ Err kind) }
{
    let (first, rest) = first_word(bytes).ok_or(FaultKind::Count)?;
    let (second, third) = read_two(rest)?;
    Ok((first, second, third))
}
