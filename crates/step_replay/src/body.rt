// The lines behind the first four: calls, and steps.
ghost use Rattle.std.specs.Prelude.{◌≡◌, ◌≤◌, ◌<◌, All, IfOk, MatchResult, Ok, length};
ghost use Rattle.script_parser.specs.Grammar.{words_in};
ghost use Rattle.step_replay.specs.PlanTexts.{verb_of, other_verb_of, words_behind, call_with, call_of, seats_after, steps_taken, at_line, Refuses};
ghost use Rattle.replay_text.specs.replay_rules.FitPlans.{IsFitConfig, IsFitCall, IsFitCallOf, AreFitSteps};

use crate::numbers::{are_words, next_number, read_number, read_six};
use mv_layout::Config;
use replay_text::replay_rules::{Call, CallOf, MOST_STEPS, PlanFault, PlanKind};
use script_parser::{first_word, same_word};

/// What a call does.
#[derive(Clone, Copy)]
pub enum CallVerb {
    Enter,
    Read,
    Lock,
    Write,
    Commit,
    Abort,
    Leave,
    Tidy,
}

// The call of this name, which isn't `commit`. `Err` is `Word`, for any other word.
fn read_other_verb(name: &[u8]) -> Result<CallVerb, PlanKind>
    ensures { result ≡ other_verb_of name.now }
{
    if same_word(name, b"enter") {
        Ok(CallVerb::Enter)
    } else if same_word(name, b"read") {
        Ok(CallVerb::Read)
    } else if same_word(name, b"lock") {
        Ok(CallVerb::Lock)
    } else if same_word(name, b"write") {
        Ok(CallVerb::Write)
    } else if same_word(name, b"abort") {
        Ok(CallVerb::Abort)
    } else if same_word(name, b"leave") {
        Ok(CallVerb::Leave)
    } else if same_word(name, b"tidy") {
        Ok(CallVerb::Tidy)
    } else {
        Err(PlanKind::Word)
    }
}

// The call of this name. `Err` is `Word`, for any other word.
fn read_verb(name: &[u8]) -> Result<CallVerb, PlanKind>
    ensures { result ≡ verb_of name.now }
{
    if same_word(name, b"commit") {
        return Ok(CallVerb::Commit);
    }
    read_other_verb(name)
}

// How many words stand behind the name of a call: an object, and what is written.
fn words_behind(verb: CallVerb) -> u32
    ensures { result ≡ words_behind verb }
{
    match verb {
        CallVerb::Read | CallVerb::Lock => 1,
        CallVerb::Write => 7,
        CallVerb::Enter | CallVerb::Commit | CallVerb::Abort | CallVerb::Leave | CallVerb::Tidy =>
            0,
    }
}

// The call that does this, with what the bytes say.
fn read_rest(verb: CallVerb, config: &Config, bytes: &[u8]) -> Result<Call, PlanKind>
    requires fit { IsFitConfig config.now }
    ensures is { result ≡ call_with verb config.now (words_in bytes.now) }
    ensures fit { IfOk result (IsFitCall config.now) }
{
    match verb {
        CallVerb::Enter => Ok(Call::Enter),
        CallVerb::Read => {
            let (object, _) = next_number(bytes, 0, config.objects as u64 - 1)?;
            Ok(Call::Read {
                object: object as u32,
            })
        }
        CallVerb::Lock => {
            let (object, _) = next_number(bytes, 0, config.objects as u64 - 1)?;
            Ok(Call::Lock {
                object: object as u32,
            })
        }
        CallVerb::Write => {
            let (object, rest) = next_number(bytes, 0, config.objects as u64 - 1)?;
            let words = read_six(rest)?;
            Ok(Call::Write {
                object: object as u32,
                words,
            })
        }
        CallVerb::Commit => Ok(Call::Commit),
        CallVerb::Abort => Ok(Call::Abort),
        CallVerb::Leave => Ok(Call::Leave),
        CallVerb::Tidy => Ok(Call::Tidy),
    }
}

/// The call of a seat, by the bytes behind `seat`. `Err` is `Word`, then `Count`, then `Number`.
pub fn read_call(config: &Config, bytes: &[u8]) -> Result<CallOf, PlanKind>
    requires fit { IsFitConfig config.now }
    ensures is { result ≡ call_of config.now (words_in bytes.now) }
    ensures fit { IfOk result (IsFitCallOf config.now) }
{
    let Some((seat, rest)) = first_word(bytes) else {
        return Err(PlanKind::Count);
    };
    let Some((name, rest)) = first_word(rest) else {
        return Err(PlanKind::Count);
    };
    let verb = read_verb(name)?;
    if !are_words(rest, words_behind(verb)) {
        return Err(PlanKind::Count);
    }
    let seat = read_number(seat, 0, config.seats as u64 - 1)?;
    let call = read_rest(verb, config, rest)?;
    Ok(CallOf {
        seat: seat as u32,
        call,
    })
}

// Puts the seats that the bytes are behind the steps. The line has this number.
fn push_seats(steps: &mut Vec<u32>, seats: u32, line: u32, bytes: &[u8]) -> Result<(), PlanFault>
    requires some { 1 ≤ seats }
    requires fit { All (λ seat. seat < seats) steps.old.items }
    ensures is { MatchResult result (λ _. seats_after seats steps.old.items (words_in bytes.now) ≡ Ok steps.new.items)
        (Refuses (at_line line (seats_after seats steps.old.items (words_in bytes.now)))) }
    ensures fit { All (λ seat. seat < seats) steps.new.items }
{
    let mut rest = bytes;
    while let Some((word, more)) = first_word(rest) {
        let seat = match read_number(word, 0, seats as u64 - 1) {
            Ok(seat) => seat,
            Err(kind) => return Err(PlanFault::At { line, kind }),
        };
        steps.push(seat as u32).map_err(|_| PlanFault::Memory)?;
        rest = more;
    }
    Ok(())
}

/// Puts the seats behind `step` behind the steps so far. The line has this number.
pub fn take_steps(
    steps: &mut Vec<u32>,
    seats: u32,
    line: u32,
    bytes: &[u8],
) -> Result<(), PlanFault>
    requires some { 1 ≤ seats }
    requires fit { All (λ seat. seat < seats) steps.old.items }
    ensures is { MatchResult result (λ _. steps_taken seats steps.old.items (words_in bytes.now) ≡ Ok steps.new.items)
        (Refuses (at_line line (steps_taken seats steps.old.items (words_in bytes.now)))) }
    ensures fit { IfOk result (λ _. AreFitSteps seats steps.new.items) }
{
    if first_word(bytes).is_none() {
        return Err(PlanFault::At {
            line,
            kind: PlanKind::Count,
        });
    }
    push_seats(steps, seats, line, bytes)?;
    if steps.len() > MOST_STEPS {
        return Err(PlanFault::At {
            line,
            kind: PlanKind::Many,
        });
    }
    Ok(())
}
