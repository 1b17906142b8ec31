// The replay of a plan.
ghost use Rattle.std.specs.Prelude.{◌≡◌, ◌+◌, ◌≤◌, ◌<◌, ◌^◌, OnOk, IfOk, length, map};
ghost use Rattle.mv_layout.specs.Limits.{Checked};
ghost use Rattle.replay_text.specs.replay_rules.Plans.{plan_of};
ghost use Rattle.replay_text.specs.replay_rules.FitPlans.{IsFitPlan};
ghost use Rattle.replay_text.specs.replay_rules.Runs.{new_seats, text_of_plan};
ghost use Rattle.step_replay.specs.Shown.{seats_of};
ghost use Rattle.replay_text.specs.replay_rules.RuledRuns.{IsRuledPlan};

use crate::machine::Machine;
use crate::turns::{ReplaySeat, Tape, new_seat};
use mv_layout::{SharedWord, clock_time};
use replay_text::replay_rules::{CallOf, Plan};
use replay_text::write_end;
use std::alloc::{AllocError, Global};

// So many seats that have made no call.
fn new_seats(alloc: Global, calls: &[CallOf], count: u32) -> Result<Vec<ReplaySeat>, AllocError>
    ensures { IfOk result (λ seats. seats_of calls.now seats.items ≡ new_seats calls.now 0 count) }
{
    let mut seats = Vec::new(alloc);
    for seat in 0..count {
        seats.push(new_seat(alloc, calls, seat))?;
    }
    Ok(seats)
}

/// The text of the replay of a plan, which is one that `parse_plan` gives. The steps that the text prints are steps of the core,
/// made in the order of the schedule, and behind each turn the words are those of the state that the steps so far make. Each
/// answer that the text prints is what the contract of the same call of the runtime says of the views of the call's seat before
/// its first step and behind its last, as `runs_are_ruled` says it.
pub fn replay(alloc: Global, plan: &Plan) -> Result<Vec<u8>, AllocError>
    requires fit { IsFitPlan (plan_of plan.now) }
    ensures exact { IfOk result (λ text. text.items ≡ text_of_plan (plan_of plan.now)) }
    ensures ruled { IfOk result (λ _. IsRuledPlan (plan_of plan.now)) }
{
    let config = &plan.config;
    let mut tape = Tape {
        machine: Machine::new(alloc, config)?,
        made: 0,
        text: String::new(alloc),
    };
    let mut seats = new_seats(alloc, &plan.calls, config.seats)?;
    for seat in &plan.steps {
        seats[*seat as usize].turn(config, &mut tape, &plan.calls)?;
    }
    let time = clock_time(tape.machine.load(SharedWord::Clock));
    write_end(&mut tape.text, time)?;
    Ok(tape.text.into_bytes())
}
