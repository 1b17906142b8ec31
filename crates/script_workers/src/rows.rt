// The lines of a run, of commands or of blocks: the room for them, and how they are made of answers.
ghost use Rattle.std.specs.Prelude.{◌≡◌, ◌≤◌, ◌<◌, ◌+◌, ◌^◌, ◌++◌, [], length, map, sum_by, All, IfOk, vec_capacity};
ghost use Rattle.std.specs.List.{flat_map};
ghost use Rattle.script_workers.specs.Lines.{line_of, row_of, lines_at, row_in, block_row, AllFit, FitsNumbers};
ghost use Rattle.script_workers.specs.Workers.{command_count, count_of};

use item_workers::Answer;
use run_report::Line;
use section_work::Place;
use set_blocks::{Block, Replies};
use set_model::{Command, Reply};
use std::alloc::{AllocError, Global};

// Takes the memory for a line of each command.
pub(crate) fn lines_room(alloc: Global, scripts: &[Vec<Command>]) -> Result<Vec<Line>, AllocError>
    ensures { IfOk result (λ lines. (lines.items ≡ []) × (sum_by command_count scripts.now ≤ vec_capacity lines)) }
{
    Vec::with_capacity(alloc, count_commands(scripts)?)
}

// The number of all commands. There is no memory for the lines of more than a `usize` counts.
fn count_commands(scripts: &[Vec<Command>]) -> Result<usize, AllocError>
    ensures { IfOk result (λ count. count ≡ sum_by command_count scripts.now) }
{
    let mut count: usize = 0;
    for script in scripts {
        count = count.checked_add(script.len()).ok_or(AllocError)?;
    }
    Ok(count)
}

/// Makes a line of each answer, in their order, for which there is room.
pub fn make_lines(rows: &[Vec<Answer<(Place, Reply)>>], lines: &mut Vec<Line>)
    requires empty { lines.old.items ≡ [] }
    requires room { length (flat_map row_of rows.now) ≤ vec_capacity lines.old }
    ensures { lines.new.items ≡ flat_map row_of rows.now }
{
    for row in rows {
        put_row(lines, row);
    }
}

// Appends a line for each answer of a row.
fn put_row(lines: &mut Vec<Line>, row: &[Answer<(Place, Reply)>])
    requires { length lines.old.items + length row.now ≤ vec_capacity lines.old }
    ensures items { lines.new.items ≡ lines.old.items ++ map line_of row.now }
    ensures capacity { vec_capacity lines.new ≡ vec_capacity lines.old }
{
    for answer in row {
        let (place, reply) = answer.done;
        lines.push_reserved(Line {
            seat: answer.seat,
            number: answer.number,
            place,
            reply,
        });
    }
}

// Takes the memory for a line of each command of all blocks.
pub(crate) fn block_room(alloc: Global, scripts: &[Vec<Block>]) -> Result<Vec<Line>, AllocError>
    ensures { IfOk result (λ lines. (lines.items ≡ []) × (sum_by count_of scripts.now ≤ vec_capacity lines)) }
{
    Vec::with_capacity(alloc, count_in_all(scripts)?)
}

// The number of commands in all blocks of all scripts.
fn count_in_all(scripts: &[Vec<Block>]) -> Result<usize, AllocError>
    ensures { IfOk result (λ count. count ≡ sum_by count_of scripts.now) }
{
    let mut count: usize = 0;
    for script in scripts {
        count = count.checked_add(count_in(script)?).ok_or(AllocError)?;
    }
    Ok(count)
}

// The number of commands in all blocks of a script.
fn count_in(script: &[Block]) -> Result<usize, AllocError>
    ensures { IfOk result (λ count. count ≡ sum_by length script.now) }
{
    let mut count: usize = 0;
    for block in script {
        count = count.checked_add(block.commands().len()).ok_or(AllocError)?;
    }
    Ok(count)
}

// Makes the lines of each answer of blocks, for which there is room.
pub(crate) fn make_block_lines(rows: &[Vec<Answer<(Place, Replies)>>], lines: &mut Vec<Line>)
    requires empty { lines.old.items ≡ [] }
    requires few { All AllFit rows.now }
    requires room { length (flat_map block_row rows.now) ≤ vec_capacity lines.old }
    ensures { lines.new.items ≡ flat_map block_row rows.now }
{
    for row in rows {
        put_blocks(lines, row);
    }
}

// Appends the lines of each answer of a row.
fn put_blocks(lines: &mut Vec<Line>, row: &[Answer<(Place, Replies)>])
    requires few { All FitsNumbers row.now }
    requires room { length lines.old.items + length (row_in row.now) ≤ vec_capacity lines.old }
    ensures items { lines.new.items ≡ lines.old.items ++ row_in row.now }
    ensures capacity { vec_capacity lines.new ≡ vec_capacity lines.old }
{
    for answer in row {
        let done = &answer.done;
        put_block(lines, answer.seat, answer.number, done.0, &done.1);
    }
}

// Puts a line for each reply behind those that are there, numbered on from this number, all at one place. There is room
// for them.
fn put_block(lines: &mut Vec<Line>, seat: u32, first: u32, place: Place, replies: &Replies)
    requires room { length lines.old.items + length replies.now ≤ vec_capacity lines.old }
    requires few { first + length replies.now < 2 ^ 32 }
    ensures items { lines.new.items ≡ lines.old.items ++ lines_at seat first place replies.now }
    ensures capacity { vec_capacity lines.new ≡ vec_capacity lines.old }
{
    for index in 0..replies.len() {
        lines.push_reserved(Line {
            seat,
            number: first + index,
            place,
            reply: replies.get(index),
        });
    }
}
