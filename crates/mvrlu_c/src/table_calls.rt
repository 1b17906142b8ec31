// The calls of C on one seat of a growing set.
ghost use Rattle.std.specs.Prelude.{◌≡◌};
ghost use Rattle.mvrlu.specs.Meant.{seat_of};
ghost use Rattle.grow_seats.specs.Calls.{Tidies, Counts};
ghost use Rattle.grow_seats.specs.declared.command.GrowCommand.TheVariants as command;
ghost use Rattle.mvrlu_c.specs.SetsTold.{live_told};
ghost use Rattle.c_answers.specs.Counted.{counts_told};
ghost use Rattle.mvrlu_c.specs.TableTold.{Answers, AnswersSplit, TellsCommand, TellsSplit, TellsSeat};
ghost use Rattle.c_answers.specs.Statuses.{done};

use crate::handle::on_open;
use crate::table_handle::MvrluTable;
use c_answers::{MvrluCounts, MvrluReply, Status, counts_of, tell_split, tell_step};
use grow_seats::{GrowCommand, GrowSeat};
use std::alloc::Global;

// Attempts a command on a seat in the hands of C, and tells what it came to.
fn attempt(
    alloc: Global,
    table: &mut MvrluTable,
    command: GrowCommand,
    reply: &mut MvrluReply,
) -> i32
    ensures tells { TellsCommand command table.old table.new reply.old reply.new result }
{
    let answer = on_open(
        alloc,
        table,
        command,
        |seat: GrowSeat, command: GrowCommand|
            ensures { Answers command seat result.0 result.1 }
        { seat.attempt(command) },
    );
    match answer {
        None => Status::Closed.code(),
        Some(answer) => {
            *reply = tell_step(answer);
            reply.status
        }
    }
}

/// Puts the key into the set. `NO`: the set has it already.
#[unsafe(no_mangle)]
pub extern "C" fn mvrlu_raw_table_add(
    alloc: Global,
    table: &mut MvrluTable,
    key: u32,
    reply: &mut MvrluReply,
) -> i32
    ensures tells { TellsCommand (command.Add key) table.old table.new reply.old reply.new result }
{
    attempt(alloc, table, GrowCommand::Add { key }, reply)
}

/// Takes the key out of the set. `NO`: it isn't there.
#[unsafe(no_mangle)]
pub extern "C" fn mvrlu_raw_table_del(
    alloc: Global,
    table: &mut MvrluTable,
    key: u32,
    reply: &mut MvrluReply,
) -> i32
    ensures tells { TellsCommand (command.Del key) table.old table.new reply.old reply.new result }
{
    attempt(alloc, table, GrowCommand::Del { key }, reply)
}

/// Asks whether the set has the key: `OK`, or `NO`.
#[unsafe(no_mangle)]
pub extern "C" fn mvrlu_raw_table_has(
    alloc: Global,
    table: &mut MvrluTable,
    key: u32,
    reply: &mut MvrluReply,
) -> i32
    ensures tells { TellsCommand (command.Has key) table.old table.new reply.old reply.new result }
{
    attempt(alloc, table, GrowCommand::Has { key }, reply)
}

/// Asks for the least key of the set that is not below this one. `NO`: there is none. It searches each bucket.
#[unsafe(no_mangle)]
pub extern "C" fn mvrlu_raw_table_next(
    alloc: Global,
    table: &mut MvrluTable,
    key: u32,
    reply: &mut MvrluReply,
) -> i32
    ensures tells { TellsCommand (command.Next key) table.old table.new reply.old reply.new result }
{
    attempt(alloc, table, GrowCommand::Next { key }, reply)
}

/// Asks how many keys the set has. It reads each of them.
#[unsafe(no_mangle)]
pub extern "C" fn mvrlu_raw_table_size(
    alloc: Global,
    table: &mut MvrluTable,
    reply: &mut MvrluReply,
) -> i32
    ensures tells { TellsCommand command.Size table.old table.new reply.old reply.new result }
{
    attempt(alloc, table, GrowCommand::Size, reply)
}

// Tries a split on a seat in the hands of C, and tells what it came to.
fn split(alloc: Global, table: &mut MvrluTable, reply: &mut MvrluReply) -> i32
    ensures tells { TellsSplit table.old table.new reply.old reply.new result }
{
    let answer = on_open(
        alloc,
        table,
        (),
        |seat: GrowSeat, _none: ()|
            ensures { AnswersSplit seat result.0 result.1 }
        { seat.split() },
    );
    match answer {
        None => Status::Closed.code(),
        Some(answer) => {
            *reply = tell_split(answer);
            reply.status
        }
    }
}

/// Tries to split the bucket that is next, by one commit at most. `NO`: all buckets are split, or it has more than 61 keys.
#[unsafe(no_mangle)]
pub extern "C" fn mvrlu_raw_table_split(
    alloc: Global,
    table: &mut MvrluTable,
    reply: &mut MvrluReply,
) -> i32
    ensures tells { TellsSplit table.old table.new reply.old reply.new result }
{
    split(alloc, table, reply)
}

/// Reclaims what it can of the seat's log, and tells how many slots are live afterwards.
#[unsafe(no_mangle)]
pub extern "C" fn mvrlu_raw_table_tidy(alloc: Global, table: &mut MvrluTable, live: &mut u32) -> i32
    ensures tells { TellsSeat (λ s t a. Tidies s.seat t.seat a) done live_told table.old table.new live.old live.new result }
{
    let answer = on_open(
        alloc,
        table,
        (),
        |seat: GrowSeat, _none: ()|
            ensures { Tidies seat.seat result.0.seat result.1 }
        { seat.tidy() },
    );
    match answer {
        None => Status::Closed.code(),
        Some(tidy) => {
            *live = tidy.live;
            Status::Done.code()
        }
    }
}

/// Tells the counts of the seat's log.
#[unsafe(no_mangle)]
pub extern "C" fn mvrlu_raw_table_counts(
    alloc: Global,
    table: &mut MvrluTable,
    counts: &mut MvrluCounts,
) -> i32
    ensures tells { TellsSeat (λ s t a. Counts s.seat a × (seat_of t.seat ≡ seat_of s.seat)) done counts_told table.old table.new
        counts.old counts.new result }
{
    let answer = on_open(
        alloc,
        table,
        (),
        |seat: GrowSeat, _none: ()|
            ensures { Counts seat.seat result.1 × (seat_of result.0.seat ≡ seat_of seat.seat) }
        { seat.count() },
    );
    match answer {
        None => Status::Closed.code(),
        Some(log) => {
            *counts = counts_of(log);
            Status::Done.code()
        }
    }
}
