// The numbers of a line.
ghost use Rattle.std.specs.Prelude.{◌≡◌, ◌≤◌, ◌==◌, IfOk, MatchResult, Ok, Err, length};
ghost use Rattle.script_parser.specs.Grammar.{words_in};
ghost use Rattle.replay_text.specs.replay_rules.FitPlans.{AreSixWords};
ghost use Rattle.step_replay.specs.PlanTexts.{number_in, next_number, single, numbers_of_six};

use mv_history::Words;
use replay_text::replay_rules::PlanKind;
use script_parser::{first_word, read_value};

/// The number of a word, within these bounds. `Err` is `Number`.
pub fn read_number(word: &[u8], least: u64, most: u64) -> Result<u64, PlanKind>
    ensures is { result ≡ number_in least most word.now }
    ensures low { IfOk result (λ number. least ≤ number) }
    ensures high { IfOk result (λ number. number ≤ most) }
{
    match read_value(word) {
        Ok(number) if least <= number && number <= most => Ok(number),
        _ => Err(PlanKind::Number),
    }
}

/// The number of the first word, within these bounds, and the bytes behind it. `Err` is `Count` where there is no
/// word, then `Number`.
pub fn next_number(bytes: &[u8], least: u64, most: u64) -> Result<(u64, &[u8]), PlanKind>
    ensures is { MatchResult result (λ next. next_number least most (words_in bytes.now) ≡ Ok (next.0, words_in next.1.now))
        (λ kind. next_number least most (words_in bytes.now) ≡ Err kind) }
    ensures low { IfOk result (λ next. least ≤ next.0) }
    ensures high { IfOk result (λ next. next.0 ≤ most) }
{
    let Some((word, rest)) = first_word(bytes) else {
        return Err(PlanKind::Count);
    };
    let number = read_number(word, least, most)?;
    Ok((number, rest))
}

/// Whether the bytes are so many words.
pub fn are_words(bytes: &[u8], count: u32) -> bool
    ensures { result ≡ (length (words_in bytes.now) == count) }
{
    let mut rest = bytes;
    for _ in 0..count {
        let Some((_, more)) = first_word(rest) else {
            return false;
        };
        rest = more;
    }
    first_word(rest).is_none()
}

/// The number of the one word that the bytes are, within these bounds. `Err` is `Count`, then `Number`.
pub fn read_single(bytes: &[u8], least: u64, most: u64) -> Result<u64, PlanKind>
    ensures is { result ≡ single least most (words_in bytes.now) }
    ensures low { IfOk result (λ number. least ≤ number) }
    ensures high { IfOk result (λ number. number ≤ most) }
{
    if !are_words(bytes, 1) {
        return Err(PlanKind::Count);
    }
    let (number, _) = next_number(bytes, least, most)?;
    Ok(number)
}

/// The numbers of the first six words, each of 64 bits.
pub fn read_six(bytes: &[u8]) -> Result<Words, PlanKind>
    ensures is { result ≡ numbers_of_six (words_in bytes.now) }
    ensures fit { IfOk result AreSixWords }
{
    let (first, rest) = next_number(bytes, 0, u64::MAX)?;
    let (second, rest) = next_number(rest, 0, u64::MAX)?;
    let (third, rest) = next_number(rest, 0, u64::MAX)?;
    let (fourth, rest) = next_number(rest, 0, u64::MAX)?;
    let (fifth, rest) = next_number(rest, 0, u64::MAX)?;
    let (sixth, _) = next_number(rest, 0, u64::MAX)?;
    Ok([first, second, third, fourth, fifth, sixth])
}
