// The run of a pool.
ghost use Rattle.std.specs.Prelude.{◌≡◌, ◌≤◌, ◌+◌, [], length, map, All as Each, IfOk, IfErr, vec_capacity};
ghost use Rattle.crossbeam_queue.specs.Passes.{view, IsPassOf, ruled_capacity};
ghost use Rattle.script_workers.specs.Terms.{MOST_COMMANDS, causes, most_locks};
ghost use Rattle.command_pool.specs.Pool.{PoolRan, PoolLinked};
ghost use Rattle.command_pool.specs.Queue.{hand, all_parts};

use crate::lending::{share_out, take_back};
use crate::queue::{All, Hand, Queue, fill};
use crate::turns::PoolSource;
use crossbeam_queue::Pass;
use host_io::Gate;
use item_workers::run_sources;
use mv_history::Store;
use run_report::Line;
use script_workers::{Hinted, make_lines};
use set_model::{Command, SetRules};
use std::alloc::{AllocError, Global};
use std::sync::Wait;
use std::thread::Threads;

/// Does each command once, on any of the stores, each store in a thread of its own that takes the next command from a
/// queue, and gives the stores back in their order, with a line for each command. The lines stand by store, in the order
/// of the stores, and of each store by rising number. Where a thread can't be started, this thread does its work.
///
/// Each command is tried until it is done, which may go on for ever where others always come first. The gate is called
/// with the seat and the command's number, ahead of the command's first attempt and once it is done.
///
/// Of each seat there is a chain (`PoolLinked`): each command that it took begins at the very seat at which the one before it
/// was done, and its place is that of its own attempt. So a read is of a section that was entered for it, whose snapshot holds
/// all that its seat had seen.
///
/// There are 1 to 8 stores, which may each hold the five objects that a move locks, and at most `MOST_COMMANDS` commands.
/// Where the stores have different numbers, a number of a seat names the store that did a command.
///
/// The error is want of memory. It comes before the first command is tried, and hands the stores back as they were.
pub fn run_pool<R: Threads + Wait + Sync, S: Store<Rules = SetRules> + Send, G: Gate>(
    rt: &R,
    alloc: Global,
    stores: Vec<S>,
    commands: &[Command],
    gate: &G,
) -> Result<(Vec<S>, Vec<Line>), (Vec<S>, AllocError)>
where
    S::Open: Send,
    requires some { 1 ≤ length stores.items }
    requires few { length stores.items ≤ 8 }
    requires short { length commands.now ≤ MOST_COMMANDS }
    requires most { Each (λ store. most_locks ≤ (S.seat_of store).write_max) stores.items }
    ensures pool { IfOk result (λ done. PoolRan (map S.seat_of stores.items) (map S.seat_of done.0.items) commands.now done.1.items) }
    ensures linked { let shows = causes S.Open.may_refuse S.Open.has_trail S.took S.holds_back S.Open.found_held S.Open.loaded in
        IfOk result (λ done. PoolLinked shows (map S.seat_of stores.items) (map S.seat_of done.0.items) commands.now done.1.items) }
    ensures err { IfErr result (λ refused. refused.0.items ≡ stores.items) }
{
    let seats = stores.len();
    let (queue, mut pass, mut turns, mut lines) = match make_room(alloc, seats, commands.len()) {
        Ok(room) => room,
        Err(error) => return Err((stores, error)),
    };
    fill(rt, &queue, &mut pass, (commands.len() + seats) as u32);
    share_out(&queue, &mut pass, commands, seats, &mut turns);
    match run_sources::<R, Hinted<S>, PoolSource<'_>, G>(rt, alloc, stores, turns, gate) {
        Ok((stores, turns, rows)) => {
            take_back(&queue, &mut pass, turns);
            queue.learn_as::<All>(&mut pass);
            make_lines(&rows, &mut lines);
            Ok((stores, lines))
        }
        Err((stores, _, error)) => Err((stores, error)),
    }
}

// A queue for the numbers of the commands and an end mark for each worker, with its pass, and room for the turns and the lines.
fn make_room<'s>(
    alloc: Global,
    seats: usize,
    commands: usize,
) -> Result<(Queue, Pass<u32, Hand>, Vec<PoolSource<'s>>, Vec<Line>), AllocError>
    requires some { 1 ≤ seats }
    requires few { (seats ≤ 8) × (commands ≤ 65536) }
    ensures queue { IfOk result (λ made. (commands + seats ≤ ruled_capacity made.0) × IsPassOf made.0 made.1) }
    ensures pass { IfOk result (λ made. view made.1 ≡ hand all_parts 0 []) }
    ensures turns { IfOk result (λ made. (made.2.items ≡ []) × (seats ≤ vec_capacity made.2)) }
    ensures lines { IfOk result (λ made. (made.3.items ≡ []) × (commands ≤ vec_capacity made.3)) }
{
    let (queue, pass) = Queue::ruled(alloc, commands + seats)?;
    let turns = Vec::with_capacity(alloc, seats)?;
    let lines = Vec::with_capacity(alloc, commands)?;
    Ok((queue, pass, turns, lines))
}
