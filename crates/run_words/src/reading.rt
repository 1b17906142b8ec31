// Reading the words.
ghost use Rattle.std.specs.Prelude.{◌≡◌, ◌≤◌, length, map, string_bytes, Ok, Err, IfOk, MatchResult};
ghost use Rattle.std.specs.List.{list_all};
ghost use Rattle.run_words.specs.Words.{asked, asks_of, are_files, few_files, IsFit, is_file, block_asked, gen_asked, grow_asked, pool_asked};
ghost use Rattle.run_words.specs.Words.{replay_asked, run_asked, work_asked};

use crate::numbers::{read_number, within};
use crate::options::read_options;
use crate::request::{BadWords, Limit, Options, Request};

// The most files of a run.
const MOST_FILES: usize = 64;

// The most seats of a pool.
const MOST_SEATS: u64 = 8;

/// What the words ask for, exactly by `asked`; its numbers are in their ranges. An error is the first reason why they
/// ask for nothing.
pub fn read_words(words: &[String]) -> Result<Request<'_>, BadWords>
    ensures asked { MatchResult result (λ request. asked (map string_bytes words.now) ≡ Ok (asks_of request))
        (λ refusal. asked (map string_bytes words.now) ≡ Err refusal) }
    ensures fit { IfOk result IsFit }
{
    let [first, rest @ ..] = words else {
        return Err(BadWords::Form);
    };
    match first.as_str() {
        "run" => read_run(rest),
        "gen" => read_gen(rest),
        "work" => read_work(rest),
        "block" => read_block(rest),
        "pool" => read_pool(rest),
        "grow" => read_grow(rest),
        "replay" => read_replay(rest),
        _ => Err(BadWords::Form),
    }
}

// What the words behind `run` ask for.
fn read_run(words: &[String]) -> Result<Request<'_>, BadWords>
    ensures asked { MatchResult result (λ request. run_asked (map string_bytes words.now) ≡ Ok (asks_of request))
        (λ refusal. run_asked (map string_bytes words.now) ≡ Err refusal) }
    ensures fit { IfOk result IsFit }
{
    let Some((given, files)) = read_options(words) else {
        return Err(BadWords::Form);
    };
    if !are_files(files) {
        return Err(BadWords::Form);
    }
    let objects = match within(Limit::Objects, 181, 65_535, given.objects.unwrap_or(4096)) {
        Ok(objects) => objects,
        Err(refusal) => return Err(refusal),
    };
    let slots = match within(Limit::Slots, 64, 4096, given.slots.unwrap_or(1024)) {
        Ok(slots) => slots,
        Err(refusal) => return Err(refusal),
    };
    let base = match within(Limit::Base, 0, 35_184_372_088_831, given.base.unwrap_or(0)) {
        Ok(base) => base,
        Err(refusal) => return Err(refusal),
    };
    if files.len() > MOST_FILES {
        return Err(BadWords::Beyond(Limit::Files));
    }
    let options = Options {
        objects: objects as u32,
        slots: slots as u32,
        base,
    };
    Ok(Request::Run { options, files })
}

// What the words behind `block` ask for.
fn read_block(words: &[String]) -> Result<Request<'_>, BadWords>
    ensures asked { MatchResult result (λ request. block_asked (map string_bytes words.now) ≡ Ok (asks_of request))
        (λ refusal. block_asked (map string_bytes words.now) ≡ Err refusal) }
    ensures fit { IfOk result IsFit }
{
    let files = read_files(words)?;
    Ok(Request::Block { files })
}

// What the words behind `grow` ask for.
fn read_grow(words: &[String]) -> Result<Request<'_>, BadWords>
    ensures asked { MatchResult result (λ request. grow_asked (map string_bytes words.now) ≡ Ok (asks_of request))
        (λ refusal. grow_asked (map string_bytes words.now) ≡ Err refusal) }
    ensures fit { IfOk result IsFit }
{
    let files = read_files(words)?;
    Ok(Request::Grow { files })
}

// The words, where they may be the files of a run.
fn read_files(words: &[String]) -> Result<&[String], BadWords>
    ensures read { MatchResult result (λ files. few_files (map string_bytes words.now) ≡ Ok (map string_bytes files.now))
        (λ refusal. few_files (map string_bytes words.now) ≡ Err refusal) }
    ensures fit { IfOk result (λ files. (1 ≤ length files.now) × (length files.now ≤ 64)) }
{
    if !are_files(words) {
        return Err(BadWords::Form);
    }
    if words.len() > MOST_FILES {
        return Err(BadWords::Beyond(Limit::Files));
    }
    Ok(words)
}

// What the words behind `pool` ask for.
fn read_pool(words: &[String]) -> Result<Request<'_>, BadWords>
    ensures asked { MatchResult result (λ request. pool_asked (map string_bytes words.now) ≡ Ok (asks_of request))
        (λ refusal. pool_asked (map string_bytes words.now) ≡ Err refusal) }
    ensures fit { IfOk result IsFit }
{
    let [seats, files @ ..] = words else {
        return Err(BadWords::Form);
    };
    let [file] = files else {
        return Err(BadWords::Form);
    };
    let Some(seats) = read_number(seats.as_str()) else {
        return Err(BadWords::Form);
    };
    if !is_file(file.as_str()) {
        return Err(BadWords::Form);
    }
    match within(Limit::Seats, 1, MOST_SEATS, seats) {
        Ok(seats) => Ok(Request::Pool {
            seats: seats as u32,
            files,
        }),
        Err(refusal) => Err(refusal),
    }
}

// What the words behind `replay` ask for.
fn read_replay(words: &[String]) -> Result<Request<'_>, BadWords>
    ensures asked { MatchResult result (λ request. replay_asked (map string_bytes words.now) ≡ Ok (asks_of request))
        (λ refusal. replay_asked (map string_bytes words.now) ≡ Err refusal) }
    ensures fit { IfOk result IsFit }
{
    let [file] = words else {
        return Err(BadWords::Form);
    };
    if !is_file(file.as_str()) {
        return Err(BadWords::Form);
    }
    Ok(Request::Replay { files: words })
}

// Whether there is a word, and each may be a FILE.
fn are_files(words: &[String]) -> bool
    ensures { result ≡ are_files (map string_bytes words.now) }
{
    if words.is_empty() {
        return false;
    }
    for word in words {
        if !is_file(word.as_str()) {
            return false;
        }
    }
    true
}

// Whether a word may be a FILE: it isn't empty and doesn't begin with `-`.
fn is_file(word: &str) -> bool
    ensures { result ≡ is_file word.now }
{
    match word.as_bytes() {
        [] => false,
        [first, ..] => *first != b'-',
    }
}

// What the words behind `gen` ask for.
fn read_gen<'w>(words: &[String]) -> Result<Request<'w>, BadWords>
    ensures asked { MatchResult result (λ request. gen_asked (map string_bytes words.now) ≡ Ok (asks_of request))
        (λ refusal. gen_asked (map string_bytes words.now) ≡ Err refusal) }
    ensures fit { IfOk result IsFit }
{
    let [number, seat] = words else {
        return Err(BadWords::Form);
    };
    let Some(number) = read_number(number.as_str()) else {
        return Err(BadWords::Form);
    };
    let Some(seat) = read_number(seat.as_str()) else {
        return Err(BadWords::Form);
    };
    let number = within(Limit::Number, 0, u64::MAX, number)?;
    let seat = within(Limit::Seat, 0, 3, seat)?;
    Ok(Request::Gen {
        number,
        seat: seat as u32,
    })
}

// What the words behind `work` ask for.
fn read_work<'w>(words: &[String]) -> Result<Request<'w>, BadWords>
    ensures asked { MatchResult result (λ request. work_asked (map string_bytes words.now) ≡ Ok (asks_of request))
        (λ refusal. work_asked (map string_bytes words.now) ≡ Err refusal) }
    ensures fit { IfOk result IsFit }
{
    let [number] = words else {
        return Err(BadWords::Form);
    };
    let Some(number) = read_number(number.as_str()) else {
        return Err(BadWords::Form);
    };
    let number = within(Limit::Number, 0, u64::MAX, number)?;
    Ok(Request::Work { number })
}
