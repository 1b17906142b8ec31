// Lines, each appended to a text.
ghost use Rattle.std.specs.Prelude.{◌≡◌, ◌==◌, ◌++◌, codes, decimal, if◌then◌else◌, OnOk, string_bytes};
ghost use Rattle.replay_rules.specs.Lines.{name_of, spaced, idle_line, skip_line, end_line, text_of_access, step_line, text_of_words, text_of_lock};
ghost use Rattle.replay_rules.specs.Lines.{text_of_commit, text_of_holder};
ghost use Rattle.replay_rules.specs.Lines.{text_of_held, text_of_answer, answer_line};

use commit_abort::Ended;
use mv_history::{Holder, LockAnswer, Words};
use replay_rules::{Access, Call, CallAnswer, Reclaimed};
use std::alloc::AllocError;
use std::fmt::Write;

// The name of a call.
fn name_of(call: Call) -> &'static str
    ensures { result.now ≡ name_of call }
{
    match call {
        Call::Enter => "enter",
        Call::Read { object: _ } => "read",
        Call::Lock { object: _ } => "lock",
        Call::Write {
            object: _,
            words: _,
        } => "write",
        Call::Commit => "commit",
        Call::Abort => "abort",
        Call::Leave => "leave",
        Call::Tidy => "tidy",
    }
}

/// A turn of a seat that has no call left.
pub fn write_idle(text: &mut String, seat: u32) -> Result<(), AllocError>
    ensures { OnOk result (string_bytes text.new ≡ string_bytes text.old ++ idle_line seat) }
{
    writeln!(text, "{seat} idle")
}

/// A call whose condition is false.
pub fn write_skip(text: &mut String, seat: u32, call: Call) -> Result<(), AllocError>
    ensures { OnOk result (string_bytes text.new ≡ string_bytes text.old ++ skip_line seat call) }
{
    writeln!(text, "{seat} skip {}", name_of(call))
}

/// The last line.
pub fn write_end(text: &mut String, time: u64) -> Result<(), AllocError>
    ensures { OnOk result (string_bytes text.new ≡ string_bytes text.old ++ end_line time) }
{
    writeln!(text, "end {time}")
}

/// A step: its number, its seat, what it does, the number of the word, the word found, and the word that it offers.
pub fn write_step(
    text: &mut String,
    made: u64,
    seat: u32,
    access: Access,
    place: u32,
    found: u64,
) -> Result<(), AllocError>
    ensures { OnOk result (string_bytes text.new ≡ string_bytes text.old ++ step_line made seat access place found) }
{
    write!(text, "{made} {seat} ")?;
    write_deed(text, access, place, found)?;
    text.push_str("\n")
}

// What a step does, the number of the word, the word found, and the word that it offers.
fn write_deed(text: &mut String, access: Access, place: u32, found: u64) -> Result<(), AllocError>
    ensures { OnOk result (string_bytes text.new ≡ string_bytes text.old ++ text_of_access access place found) }
{
    match access {
        Access::Load => write_access(text, "load ", place, found),
        Access::Store { new } => write_access(text, "store ", place, new),
        Access::Swap { old, new } => {
            write_access(text, "swap ", place, found)?;
            write_spaced(text, new)?;
            text.push_str(outcome_of(found, old))
        }
        Access::Raise { by } => {
            write_access(text, "max ", place, found)?;
            write_spaced(text, by)
        }
    }
}

// Whether an exchange of the word `old` wins where this one is found.
fn outcome_of(found: u64, old: u64) -> &'static str
    ensures { result.now ≡ (if found == old then codes " won" else codes " lost") }
{
    if found == old { " won" } else { " lost" }
}

// What is done, the number of the word, and a word's value.
fn write_access(text: &mut String, what: &str, place: u32, word: u64) -> Result<(), AllocError>
    ensures { OnOk result (string_bytes text.new ≡ string_bytes text.old ++ what.now ++ decimal place ++ spaced word) }
{
    write!(text, "{what}{place} {word}")
}

// A number behind a blank.
fn write_spaced(text: &mut String, number: u64) -> Result<(), AllocError>
    ensures { OnOk result (string_bytes text.new ≡ string_bytes text.old ++ spaced number) }
{
    write!(text, " {number}")
}

// A name, and a number behind a blank.
fn write_named(text: &mut String, name: &str, number: u64) -> Result<(), AllocError>
    ensures { OnOk result (string_bytes text.new ≡ string_bytes text.old ++ name.now ++ spaced number) }
{
    write!(text, "{name} {number}")
}

fn write_words(text: &mut String, words: Words) -> Result<(), AllocError>
    ensures { OnOk result (string_bytes text.new ≡ string_bytes text.old ++ text_of_words words) }
{
    write_spaced(text, words[0])?;
    write_spaced(text, words[1])?;
    write_spaced(text, words[2])?;
    write_spaced(text, words[3])?;
    write_spaced(text, words[4])?;
    write_spaced(text, words[5])
}

fn write_lock(text: &mut String, answer: LockAnswer) -> Result<(), AllocError>
    ensures { OnOk result (string_bytes text.new ≡ string_bytes text.old ++ text_of_lock answer) }
{
    match answer {
        LockAnswer::Held => text.push_str(" held"),
        LockAnswer::Busy { seat } => write_named(text, " busy", seat.into()),
        LockAnswer::Stale { time } => write_named(text, " stale", time),
        LockAnswer::SetFull => text.push_str(" setfull"),
        LockAnswer::LogFull => text.push_str(" logfull"),
    }
}

fn write_commit(text: &mut String, ended: Ended) -> Result<(), AllocError>
    ensures { OnOk result (string_bytes text.new ≡ string_bytes text.old ++ text_of_commit ended) }
{
    match ended {
        Ended::Done(time) => write_named(text, " done", time),
        Ended::Again(rival) => {
            write_named(text, " again", rival.seat.into())?;
            write_spaced(text, rival.time)
        }
        Ended::End => text.push_str(" end"),
    }
}

fn write_holder(text: &mut String, holder: Holder) -> Result<(), AllocError>
    ensures { OnOk result (string_bytes text.new ≡ string_bytes text.old ++ text_of_holder holder) }
{
    match holder {
        Holder::Mark { seat, low } => {
            write_named(text, " mark", seat.into())?;
            write_spaced(text, low)
        }
        Holder::Above { object, seat } => {
            write_named(text, " above", object.into())?;
            write_spaced(text, seat.into())
        }
        Holder::Fresh { time } => write_named(text, " fresh", time),
        Holder::End => text.push_str(" end"),
    }
}

fn write_tidy(text: &mut String, tidy: &Reclaimed) -> Result<(), AllocError>
    ensures { OnOk result (string_bytes text.new ≡ string_bytes text.old ++ spaced tidy.now.freed ++ spaced tidy.now.live ++ text_of_held tidy.now.held) }
{
    write!(text, " {} {}", tidy.freed, tidy.live)?;
    match tidy.held {
        Some(holder) => write_holder(text, holder),
        None => Ok(()),
    }
}

fn write_what(text: &mut String, answer: &CallAnswer) -> Result<(), AllocError>
    ensures { OnOk result (string_bytes text.new ≡ string_bytes text.old ++ text_of_answer answer.now) }
{
    match answer {
        CallAnswer::Silent => Ok(()),
        CallAnswer::AtTime(time) => write_spaced(text, *time),
        CallAnswer::SixWords(words) => write_words(text, *words),
        CallAnswer::Locked(answer) => write_lock(text, *answer),
        CallAnswer::Committed(ended) => write_commit(text, *ended),
        CallAnswer::Tidied(tidy) => write_tidy(text, tidy),
    }
}

/// A call that ends, and its answer.
pub fn write_answer(
    text: &mut String,
    seat: u32,
    call: Call,
    answer: &CallAnswer,
) -> Result<(), AllocError>
    ensures { OnOk result (string_bytes text.new ≡ string_bytes text.old ++ answer_line seat call answer.now) }
{
    write!(text, "{seat} {}", name_of(call))?;
    write_what(text, answer)?;
    text.push_str("\n")
}
