// A block of commands of C, and what it tells C.
ghost use Rattle.std.specs.Prelude.{◌≡◌, ◌+◌, ◌≤◌, ◌++◌, length, map, drop, replicate, Contains, IfOk, IfErr, Ok, Err, vec_len, vec_capacity};
ghost use Rattle.c_answers.specs.SetReplies.{told_at};
ghost use Rattle.c_answers.specs.Commands.{IsBlockOf, IsNoBlock, command_said, move_said, pair_said};
ghost use Rattle.c_answers.specs.Blocks.{AsMany, block_told, status_of_all, status_of_block};

use crate::commands::named;
use crate::replies::{MvrluReply, done_at, given_up, of_cause};
use crate::status::Status;
use section_work::Place;
use set_blocks::{Block, BlockAttempt, Replies};
use set_model::{Command, Name, Reply};
use std::alloc::{AllocError, Global};

/// A command of a block.
#[repr(C)]
#[derive(Clone, Copy)]
pub struct MvrluCommand {
    /// Which command: 1 add, 2 del, 3 move, 4 put, 5 has, 6 get, 7 pair, 8 size, 9 next.
    pub op: u32,
    /// The set, 0 to 29. Of a move the one that the key is taken out of.
    pub set: u32,
    /// Of a move the set that the key is put into, and of a pair the second one.
    pub other: u32,
    /// The key.
    pub key: u32,
    /// Of a put the value.
    pub value: u64,
}

const MOST: usize = 8;

// What a caller's command says.
fn said(given: &MvrluCommand) -> Result<Command, Status>
    ensures { result ≡ command_said given.now }
{
    let MvrluCommand {
        op,
        set,
        other,
        key,
        value,
    } = *given;
    let name = match named(set) {
        Ok(name) => name,
        Err(why) => return Err(why),
    };
    match op {
        1 => Ok(Command::Add { name, key }),
        2 => Ok(Command::Del { name, key }),
        3 => said_move(name, other, key),
        4 => Ok(Command::Put { name, key, value }),
        5 => Ok(Command::Has { name, key }),
        6 => Ok(Command::Get { name, key }),
        7 => said_pair(name, other, key),
        8 => Ok(Command::Size { name }),
        9 => Ok(Command::Next { name, key }),
        _ => Err(Status::BadCommand),
    }
}

fn said_move(source: Name, other: u32, key: u32) -> Result<Command, Status>
    ensures { result ≡ move_said source other key }
{
    match named(other) {
        Err(why) => Err(why),
        Ok(target) if target.index() == source.index() => Err(Status::SameSet),
        Ok(target) => Ok(Command::Move {
            source,
            target,
            key,
        }),
    }
}

fn said_pair(first: Name, other: u32, key: u32) -> Result<Command, Status>
    ensures { result ≡ pair_said first other key }
{
    match named(other) {
        Err(why) => Err(why),
        Ok(second) => Ok(Command::Pair { first, second, key }),
    }
}

// Puts what these say behind the commands, for all of which there is room.
fn read_into(given: &[MvrluCommand], mut commands: Vec<Command>) -> Result<Vec<Command>, Status>
    requires room { vec_len commands + length given.now ≤ vec_capacity commands }
    ensures read { IfOk result (λ all. map Ok all.items ≡ map Ok commands.items ++ map command_said given.now) }
    ensures fault { IfErr result (λ why. Contains (map command_said given.now) (Err why)) }
{
    match given.split_first() {
        None => Ok(commands),
        Some((first, others)) => match said(first) {
            Err(why) => Err(why),
            Ok(command) => {
                commands.push_reserved(command);
                read_into(others, commands)
            }
        },
    }
}

/// The block of the caller's commands, or why they are none.
pub fn block_of(alloc: Global, given: &[MvrluCommand]) -> Result<Block, Status>
    ensures block { IfOk result (λ block. IsBlockOf given.now block) }
    ensures fault { IfErr result (λ why. IsNoBlock given.now why) }
{
    if given.len() > MOST {
        return Err(Status::BadBlock);
    }
    let commands = match Vec::with_capacity(alloc, given.len()) {
        Ok(commands) => commands,
        Err(AllocError) => return Err(Status::NoMemory),
    };
    match read_into(given, commands) {
        Err(why) => Err(why),
        Ok(commands) => match Block::new(commands) {
            Some(block) => Ok(block),
            None => Err(Status::BadBlock),
        },
    }
}

// Writes each reply from this index on.
fn tell_each(replies: &mut [MvrluReply], said: &Replies, place: Place, from: u32)
    requires as_many { length replies.old + from ≡ length said.now }
    ensures { replies.new ≡ map (λ r. told_at r place) (drop from said.now) }
{
    let few = said.len();
    prove!(few <= 8);
    if let Some((first, others)) = replies.split_first_mut() {
        *first = done_at(said.get(from), place);
        tell_each(others, said, place, from + 1);
    }
}

// Writes the same into each reply.
fn tell_all(replies: &mut [MvrluReply], reply: MvrluReply)
    ensures { replies.new ≡ replicate (length replies.old) reply }
{
    if let Some((first, others)) = replies.split_first_mut() {
        *first = reply;
        tell_all(others, reply);
    }
}

// The status of a block that took place: where one of its commands is full all are, and where no time is left for its
// change all are worn.
fn of_whole(said: &Replies) -> Status
    ensures { result ≡ status_of_all said.now }
{
    if said.len() == 0 {
        return Status::Done;
    }
    match said.get(0) {
        Reply::Full => Status::Full,
        Reply::Worn => Status::Worn,
        _ => Status::Done,
    }
}

/// Tells what a block came to, with a reply for each of its commands.
pub fn tell_block(answer: BlockAttempt, replies: &mut [MvrluReply]) -> Status
    requires as_many { AsMany answer (length replies.old) }
    ensures status { result ≡ status_of_block answer }
    ensures replies { replies.new ≡ block_told answer (length replies.old) }
{
    match answer {
        BlockAttempt::Done {
            replies: said,
            place,
        } => {
            tell_each(replies, &said, place, 0);
            of_whole(&said)
        }
        BlockAttempt::Again(cause) => {
            tell_all(replies, given_up(cause));
            of_cause(cause)
        }
    }
}
