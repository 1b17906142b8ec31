// The calls of C on one seat of the sets.
ghost use Rattle.std.specs.Prelude.{◌≡◌, ◌≢◌, ◌<◌, ◌≤◌, ◌⊎◌, IfOk, IfErr};
ghost use Rattle.mvrlu.specs.Meant.{seat_of};
ghost use Rattle.set_model.specs.declared.commands.Command.TheVariants as command;
ghost use Rattle.set_seats.specs.Calls.{Tidies, Counts};
ghost use Rattle.mvrlu_c.specs.OnHandle.{IsRefused};
ghost use Rattle.mvrlu_c.specs.SetsTold.{Answers, TellsCommand, TellsSeat, live_told};
ghost use Rattle.c_answers.specs.Counted.{counts_told};
ghost use Rattle.c_answers.specs.Statuses.{done};
ghost use Rattle.c_answers.specs.declared.status.Status.TheVariants.{BadSet, SameSet};

use crate::handle::on_open;
use crate::sets_handle::MvrluSets;
use c_answers::{MvrluCounts, MvrluReply, Status, commands, counts_of, tell_attempt};
use set_model::Command;
use set_seats::SetSeat;
use std::alloc::Global;

// Attempts a command on a seat in the hands of C, and tells what it came to; or why there is no command.
fn attempt(
    alloc: Global,
    sets: &mut MvrluSets,
    issued: Result<Command, Status>,
    reply: &mut MvrluReply,
) -> i32
    ensures tells { IfOk issued (λ command. TellsCommand command sets.old sets.new reply.old reply.new result) }
    ensures refused { IfErr issued (λ why. IsRefused why sets.old sets.new reply.old reply.new result) }
{
    let command = match issued {
        Ok(command) => command,
        Err(why) => return why.code(),
    };
    let answer = on_open(
        alloc,
        sets,
        command,
        |seat: SetSeat, command: Command|
            ensures { Answers command seat result.0 result.1 }
        { seat.attempt(&command) },
    );
    match answer {
        None => Status::Closed.code(),
        Some(answer) => {
            *reply = tell_attempt(answer);
            reply.status
        }
    }
}

/// Puts the key into the set, with value 0. `NO`: the set has it already, with whatever value.
#[unsafe(no_mangle)]
pub extern "C" fn mvrlu_raw_sets_add(
    alloc: Global,
    sets: &mut MvrluSets,
    set: u32,
    key: u32,
    reply: &mut MvrluReply,
) -> i32
    ensures bad { 30 ≤ set → IsRefused BadSet sets.old sets.new reply.old reply.new result }
    ensures tells { set < 30 → TellsCommand (command.Add set key) sets.old sets.new reply.old reply.new result }
{
    attempt(alloc, sets, commands::add(set, key), reply)
}

/// Gives the key this value in the set, whether or not it is there. `NO`: it has this value already.
#[unsafe(no_mangle)]
pub extern "C" fn mvrlu_raw_sets_put(
    alloc: Global,
    sets: &mut MvrluSets,
    set: u32,
    key: u32,
    value: u64,
    reply: &mut MvrluReply,
) -> i32
    ensures bad { 30 ≤ set → IsRefused BadSet sets.old sets.new reply.old reply.new result }
    ensures tells { set < 30 → TellsCommand (command.Put set key value) sets.old sets.new reply.old reply.new result }
{
    attempt(alloc, sets, commands::put(set, key, value), reply)
}

/// Takes the key out of the set. `NO`: it isn't there.
#[unsafe(no_mangle)]
pub extern "C" fn mvrlu_raw_sets_del(
    alloc: Global,
    sets: &mut MvrluSets,
    set: u32,
    key: u32,
    reply: &mut MvrluReply,
) -> i32
    ensures bad { 30 ≤ set → IsRefused BadSet sets.old sets.new reply.old reply.new result }
    ensures tells { set < 30 → TellsCommand (command.Del set key) sets.old sets.new reply.old reply.new result }
{
    attempt(alloc, sets, commands::del(set, key), reply)
}

/// Asks whether the set has the key: `OK`, or `NO`.
#[unsafe(no_mangle)]
pub extern "C" fn mvrlu_raw_sets_has(
    alloc: Global,
    sets: &mut MvrluSets,
    set: u32,
    key: u32,
    reply: &mut MvrluReply,
) -> i32
    ensures bad { 30 ≤ set → IsRefused BadSet sets.old sets.new reply.old reply.new result }
    ensures tells { set < 30 → TellsCommand (command.Has set key) sets.old sets.new reply.old reply.new result }
{
    attempt(alloc, sets, commands::has(set, key), reply)
}

/// Asks for the value of the key in the set. `NO`: it isn't there.
#[unsafe(no_mangle)]
pub extern "C" fn mvrlu_raw_sets_get(
    alloc: Global,
    sets: &mut MvrluSets,
    set: u32,
    key: u32,
    reply: &mut MvrluReply,
) -> i32
    ensures bad { 30 ≤ set → IsRefused BadSet sets.old sets.new reply.old reply.new result }
    ensures tells { set < 30 → TellsCommand (command.Get set key) sets.old sets.new reply.old reply.new result }
{
    attempt(alloc, sets, commands::get(set, key), reply)
}

/// Asks for the least key of the set that is not below this one. `NO`: there is none.
#[unsafe(no_mangle)]
pub extern "C" fn mvrlu_raw_sets_next(
    alloc: Global,
    sets: &mut MvrluSets,
    set: u32,
    key: u32,
    reply: &mut MvrluReply,
) -> i32
    ensures bad { 30 ≤ set → IsRefused BadSet sets.old sets.new reply.old reply.new result }
    ensures tells { set < 30 → TellsCommand (command.Next set key) sets.old sets.new reply.old reply.new result }
{
    attempt(alloc, sets, commands::next(set, key), reply)
}

/// Asks how many keys the set has.
#[unsafe(no_mangle)]
pub extern "C" fn mvrlu_raw_sets_size(
    alloc: Global,
    sets: &mut MvrluSets,
    set: u32,
    reply: &mut MvrluReply,
) -> i32
    ensures bad { 30 ≤ set → IsRefused BadSet sets.old sets.new reply.old reply.new result }
    ensures tells { set < 30 → TellsCommand (command.Size set) sets.old sets.new reply.old reply.new result }
{
    attempt(alloc, sets, commands::size(set), reply)
}

/// Takes the key out of one set and puts it into another, with its value. `NO`: the one lacks it, or the other has it.
#[unsafe(no_mangle)]
pub extern "C" fn mvrlu_raw_sets_move(
    alloc: Global,
    sets: &mut MvrluSets,
    source: u32,
    target: u32,
    key: u32,
    reply: &mut MvrluReply,
) -> i32
    ensures bad { (30 ≤ source) ⊎ (30 ≤ target) → IsRefused BadSet sets.old sets.new reply.old reply.new result }
    ensures same { source < 30 → source ≡ target → IsRefused SameSet sets.old sets.new reply.old reply.new result }
    ensures tells { source < 30 → target < 30 → source ≢ target
        → TellsCommand (command.Move source target key) sets.old sets.new reply.old reply.new result }
{
    attempt(alloc, sets, commands::move_key(source, target, key), reply)
}

/// Asks of each of two sets whether it has the key.
#[unsafe(no_mangle)]
pub extern "C" fn mvrlu_raw_sets_pair(
    alloc: Global,
    sets: &mut MvrluSets,
    first: u32,
    second: u32,
    key: u32,
    reply: &mut MvrluReply,
) -> i32
    ensures bad { (30 ≤ first) ⊎ (30 ≤ second) → IsRefused BadSet sets.old sets.new reply.old reply.new result }
    ensures tells { first < 30 → second < 30 → TellsCommand (command.Pair first second key) sets.old sets.new reply.old reply.new result }
{
    attempt(alloc, sets, commands::pair(first, second, key), reply)
}

/// Reclaims what it can of the seat's log, and tells how many slots are live afterwards.
#[unsafe(no_mangle)]
pub extern "C" fn mvrlu_raw_sets_tidy(alloc: Global, sets: &mut MvrluSets, live: &mut u32) -> i32
    ensures tells { TellsSeat (λ s t a. Tidies s.seat t.seat a) done live_told sets.old sets.new live.old live.new result }
{
    let answer = on_open(
        alloc,
        sets,
        (),
        |seat: SetSeat, _none: ()|
            ensures { Tidies seat.seat result.0.seat result.1 }
        { seat.tidy() },
    );
    match answer {
        None => Status::Closed.code(),
        Some(tidy) => {
            *live = tidy.live;
            Status::Done.code()
        }
    }
}

/// Tells the counts of the seat's log.
#[unsafe(no_mangle)]
pub extern "C" fn mvrlu_raw_sets_counts(
    alloc: Global,
    sets: &mut MvrluSets,
    counts: &mut MvrluCounts,
) -> i32
    ensures tells { TellsSeat (λ s t a. Counts s.seat a × (seat_of t.seat ≡ seat_of s.seat)) done counts_told sets.old sets.new
        counts.old counts.new result }
{
    let answer = on_open(
        alloc,
        sets,
        (),
        |seat: SetSeat, _none: ()|
            ensures { Counts seat.seat result.1 × (seat_of result.0.seat ≡ seat_of seat.seat) }
        { seat.count() },
    );
    match answer {
        None => Status::Closed.code(),
        Some(table) => {
            *counts = counts_of(table);
            Status::Done.code()
        }
    }
}
