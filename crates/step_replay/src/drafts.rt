// Plans as text.
//
// The lines and the words of a plan are those of a script: a line ends with LF, which the last may lack, and one CR
// at its end is dropped; words are separated by spaces and tabs; a word that begins with `#` begins a comment; a line
// without words is skipped.
//
// The first four lines with words are `seats N` (1 to 64), `objects N` (1 to 1024), `slots N` (64 to 256) and
// `base N` (0 to `LAST`). Behind them stand, in any order, `step` with one or more seats, and `seat S` with a call:
// `enter`, `read O`, `lock O`, `write O` with six words, `commit`, `abort`, `leave` and `tidy`. A number is 1 to 20
// decimal digits.
ghost use Rattle.std.specs.Prelude.{◌≡◌, ◌-◌, ◌<◌, ◌^◌, ◌∷◌, IfOk, MatchResult, Ok, length};
ghost use Rattle.script_parser.specs.Grammar.{lines_of, words_of, words_in};
ghost use Rattle.step_replay.specs.PlanTexts.{line_taken, last_line, said_of, at_line, planned, Refuses};
ghost use Rattle.replay_text.specs.replay_rules.Plans.{plan_of};
ghost use Rattle.step_replay.specs.FitDrafts.{IsFitSaid};
ghost use Rattle.replay_text.specs.replay_rules.FitPlans.{IsFitPlan};

use crate::body::{read_call, take_steps};
use crate::heads::{Heads, next_heads};
use replay_text::replay_rules::{CallOf, Plan, PlanFault, PlanKind};
use script_parser::{first_word, same_word, strip_carriage_return};
use std::alloc::Global;

/// What the lines so far say.
#[derive(Drop)]
pub struct Draft {
    pub heads: Heads,
    pub calls: Vec<CallOf>,
    pub steps: Vec<u32>,
}

impl Draft {
    // Takes the words of a line: the first one, and the bytes behind it. The line has this number.
    fn take_words(&mut self, number: u32, word: &[u8], rest: &[u8]) -> Result<(), PlanFault>
        requires fit { IsFitSaid (said_of self.old) }
        ensures is { MatchResult result (λ _. line_taken (said_of self.old) (word.now ∷ words_in rest.now) ≡ Ok (said_of self.new))
            (Refuses (at_line number (line_taken (said_of self.old) (word.now ∷ words_in rest.now)))) }
        ensures fit { IfOk result (λ _. IsFitSaid (said_of self.new)) }
    {
        let Heads::Whole(config) = self.heads else {
            self.heads = match next_heads(self.heads, word, rest) {
                Ok(heads) => heads,
                Err(kind) => return Err(PlanFault::At { line: number, kind }),
            };
            return Ok(());
        };
        if same_word(word, b"seat") {
            let call = match read_call(&config, rest) {
                Ok(call) => call,
                Err(kind) => return Err(PlanFault::At { line: number, kind }),
            };
            self.calls.push(call).map_err(|_| PlanFault::Memory)
        } else if same_word(word, b"step") {
            take_steps(&mut self.steps, config.seats, number, rest)
        } else {
            Err(PlanFault::At {
                line: number,
                kind: PlanKind::Word,
            })
        }
    }

    // Takes a line, given without its LF. It has this number.
    fn take_line(&mut self, number: u32, line: &[u8]) -> Result<(), PlanFault>
        requires fit { IsFitSaid (said_of self.old) }
        ensures is { MatchResult result (λ _. line_taken (said_of self.old) (words_of line.now) ≡ Ok (said_of self.new))
            (Refuses (at_line number (line_taken (said_of self.old) (words_of line.now)))) }
        ensures fit { IfOk result (λ _. IsFitSaid (said_of self.new)) }
    {
        match first_word(strip_carriage_return(line)) {
            Some((word, rest)) => self.take_words(number, word, rest),
            None => Ok(()),
        }
    }
}

// The number of the last line of a text that LF cuts into so many parts, at least one: an empty part behind the last
// LF is no line.
fn last_line(bytes: &[u8], parts: u32) -> u32
    requires { parts ≡ length (lines_of bytes.now) }
    ensures { result ≡ last_line bytes.now }
{
    match bytes {
        [.., b'\n'] => parts - 1,
        _ => parts,
    }
}

/// The plan of a text.
///
/// `Err(At { line, kind })` is the first faulty line, counted from 1 with the skipped ones, and what is wrong with it
/// first: `Word`, `Count`, `Number`, `Many`. A text that ends before its four first lines are there has the fault
/// `Word` at its last line, or at line 1 where it is empty. `Err(Memory)` is want of memory. The text has fewer than
/// 4294967295 bytes, so that a line's number fits.
pub fn parse_plan(alloc: Global, bytes: &[u8]) -> Result<Plan, PlanFault>
    requires { length bytes.now < 2 ^ 32 - 1 }
    ensures exact { MatchResult result (λ plan. planned bytes.now ≡ Ok (plan_of plan)) (Refuses (planned bytes.now)) }
    ensures fit { IfOk result (λ plan. IsFitPlan (plan_of plan)) }
{
    let mut draft = Draft {
        heads: Heads::Seats,
        calls: Vec::new(alloc),
        steps: Vec::new(alloc),
    };
    let mut number = 0;
    for line in bytes.split(|byte| *byte == b'\n') {
        number += 1;
        draft.take_line(number, line)?;
    }
    let Heads::Whole(config) = draft.heads else {
        return Err(PlanFault::At {
            line: last_line(bytes, number),
            kind: PlanKind::Word,
        });
    };
    Ok(Plan {
        config,
        calls: draft.calls,
        steps: draft.steps,
    })
}
