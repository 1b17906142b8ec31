// The runs of scripts: of commands, of blocks, or on a growing set, each script by a worker of its own.
ghost use Rattle.std.specs.Prelude.{◌≡◌, ◌≤◌, length, map, All, IfOk, IfErr};
ghost use Rattle.grow_hash.specs.GrowPlans.{IsOfGrown};
ghost use Rattle.grow_hash.specs.SplitCalls.{most_writes};
ghost use Rattle.grow_report.specs.Turns.{AllRanGrow};
ghost use Rattle.script_workers.specs.Terms.{MOST_COMMANDS, causes, most_locks, AllRan};
ghost use Rattle.script_workers.specs.BlockRuns.{AllRanBlocks};
ghost use Rattle.script_workers.specs.GrowLinks.{AllLinkedTurns};
ghost use Rattle.script_workers.specs.Links.{AllLinked, AllLinkedBlocks};
ghost use Rattle.script_workers.specs.Workers.{AreNumbered, items_of, blocks_of, count_of, most_in_blocks};

use crate::blocks::Blocks;
use crate::growing::Growing;
use crate::hinted::Hinted;
use crate::rows::{block_room, lines_room, make_block_lines, make_lines};
use grow_hash::{GROW_LEVELS, GrowRules};
use host_io::Gate;
use item_workers::run_lists;
use mv_history::Store;
use run_report::Line;
use set_blocks::{Block, BlockRules};
use set_model::{Command, SetRules};
use std::alloc::{AllocError, Global};
use std::sync::Wait;
use std::thread::Threads;

/// Runs each script on the store of its place, each in a thread of its own, and gives the stores back in their order, with
/// a line for each command. The lines stand by seat, and then by number, from 1. Where a thread can't be started, this
/// thread does its work.
///
/// Each command is tried until it is done, which may go on for ever where others always come first: behind an attempt that
/// was given up its thread gives the processor away. The gate is called ahead of a command's first attempt and once it is
/// done.
///
/// Of each seat there is a chain (`AllLinked`): each command begins at the very seat at which the one before it was done, and
/// its place is that of its own attempt. So a read is of a section that was entered for it, whose snapshot holds all that its
/// seat had seen.
///
/// There are as many scripts as stores, each of at most `MOST_COMMANDS` commands. The stores are numbered by their places,
/// from 0, so that a line's seat is the number of its script, and may each hold the five objects that a move locks.
///
/// The error is want of memory. It comes before the first command is tried, and hands the stores back as they were.
pub fn run_scripts<R: Threads + Wait + Sync, S: Store<Rules = SetRules> + Send, G: Gate>(
    rt: &R,
    alloc: Global,
    stores: Vec<S>,
    scripts: &[Vec<Command>],
    gate: &G,
) -> Result<(Vec<S>, Vec<Line>), (Vec<S>, AllocError)>
where
    S::Open: Send,
    requires as_many { length scripts.now ≡ length stores.items }
    requires short { All (λ script. length script.items ≤ MOST_COMMANDS) scripts.now }
    requires numbers { AreNumbered 0 (map S.seat_of stores.items) }
    requires most { All (λ store. most_locks ≤ (S.seat_of store).write_max) stores.items }
    ensures ran { IfOk result (λ done. AllRan (map S.seat_of stores.items) (map S.seat_of done.0.items) (map items_of scripts.now) done.1.items) }
    ensures linked { let shows = causes S.Open.may_refuse S.Open.has_trail S.took S.holds_back S.Open.found_held S.Open.loaded in
        IfOk result (λ done. AllLinked shows (map S.seat_of stores.items) (map S.seat_of done.0.items) (map items_of scripts.now) done.1.items) }
    ensures err { IfErr result (λ refused. refused.0.items ≡ stores.items) }
{
    let mut lines = match lines_room(alloc, scripts) {
        Ok(lines) => lines,
        Err(error) => return Err((stores, error)),
    };
    let (stores, rows) = run_lists::<R, Hinted<S>, G>(rt, alloc, stores, scripts, gate)?;
    make_lines(&rows, &mut lines);
    Ok((stores, lines))
}

/// Runs each script of blocks on the store of its place, each in a thread of its own, and gives the stores back in their
/// order, with a line for each command. The lines stand by seat, and then by number, from 1; those of a block have one
/// place. Where a thread can't be started, this thread does its work.
///
/// Each block is tried until it is done, which may go on for ever where others always come first: behind an attempt that was
/// given up its thread gives the processor away. The gate is called ahead of a block's first attempt and once it is done,
/// with the number of the block's first command.
///
/// Of each seat there is a chain (`AllLinkedBlocks`): each block begins at the very seat at which the one before it was done,
/// and its place is that of its own attempt. So a block that changes nothing is of a section that was entered for it, whose
/// snapshot holds all that its seat had seen.
///
/// There are as many scripts as stores, each with at most `MOST_COMMANDS` commands in its blocks. The stores are numbered
/// by their places, from 0, so that a line's seat is the number of its script, and may each hold 40 objects, five for each
/// command of the longest block.
///
/// The error is want of memory. It comes before the first block is tried, and hands the stores back as they were.
pub fn run_blocks<R: Threads + Wait + Sync, S: Store<Rules = BlockRules> + Send, G: Gate>(
    rt: &R,
    alloc: Global,
    stores: Vec<S>,
    scripts: &[Vec<Block>],
    gate: &G,
) -> Result<(Vec<S>, Vec<Line>), (Vec<S>, AllocError)>
where
    S::Open: Send,
    requires as_many { length scripts.now ≡ length stores.items }
    requires short { All (λ script. count_of script ≤ MOST_COMMANDS) scripts.now }
    requires numbers { AreNumbered 0 (map S.seat_of stores.items) }
    requires most { All (λ store. most_in_blocks ≤ (S.seat_of store).write_max) stores.items }
    ensures ran { IfOk result (λ done.
        AllRanBlocks (map S.seat_of stores.items) (map S.seat_of done.0.items) (map blocks_of scripts.now) done.1.items) }
    ensures linked { let shows = causes S.Open.may_refuse S.Open.has_trail S.took S.holds_back S.Open.found_held S.Open.loaded in
        IfOk result (λ done. AllLinkedBlocks shows (map S.seat_of stores.items) (map S.seat_of done.0.items) (map blocks_of scripts.now) done.1.items) }
    ensures err { IfErr result (λ refused. refused.0.items ≡ stores.items) }
{
    let mut lines = match block_room(alloc, scripts) {
        Ok(lines) => lines,
        Err(error) => return Err((stores, error)),
    };
    let (stores, rows) = run_lists::<R, Blocks<S>, G>(rt, alloc, stores, scripts, gate)?;
    make_block_lines(&rows, &mut lines);
    Ok((stores, lines))
}

/// Runs each script on the store of its place, each in a thread of its own, and gives the stores back in their order, with a
/// line for each command. The lines stand by seat, and then by number, from 1. Behind each second add of a script that replied
/// yes its store splits a bucket, or finds that none can be split. Where a thread can't be started, this thread does its work.
///
/// Each command and each split is tried until it is answered, which may go on for ever where others always come first: behind
/// an attempt that was given up its thread gives the processor away. The gate is called ahead of a command's first attempt, and
/// once it is done and the split that was due behind it is answered.
///
/// Of each seat there is a chain (`AllLinkedTurns`): each command begins at the very seat at which the one before it was done,
/// with its split, and its place is that of its own attempt; then comes the split that was due, answered by its own try. So a
/// read is of a section that was entered for it, whose snapshot holds all that its seat had seen.
///
/// There are as many scripts as stores, each with at most `MOST_COMMANDS` commands, which are adds, dels, has, sizes and nexts
/// of `h0`. The stores are numbered by their places, from 0, so that a line's seat is the number of its script, and may each
/// hold the 64 objects that a split locks at most.
///
/// The error is want of memory. It comes before the first command is tried, and hands the stores back as they were.
pub fn run_grow<R: Threads + Wait + Sync, S: Store<Rules = GrowRules<GROW_LEVELS>> + Send, G: Gate>(
    rt: &R,
    alloc: Global,
    stores: Vec<S>,
    scripts: &[Vec<Command>],
    gate: &G,
) -> Result<(Vec<S>, Vec<Line>), (Vec<S>, AllocError)>
where
    S::Open: Send,
    requires as_many { length scripts.now ≡ length stores.items }
    requires short { All (λ script. length script.items ≤ MOST_COMMANDS) scripts.now }
    requires growing { All (λ script. All IsOfGrown script.items) scripts.now }
    requires numbers { AreNumbered 0 (map S.seat_of stores.items) }
    requires most { All (λ store. most_writes ≤ (S.seat_of store).write_max) stores.items }
    ensures ran { IfOk result (λ done.
        AllRanGrow (map S.seat_of stores.items) (map S.seat_of done.0.items) (map items_of scripts.now) done.1.items) }
    ensures linked { let shows = causes S.Open.may_refuse S.Open.has_trail S.took S.holds_back S.Open.found_held S.Open.loaded in
        IfOk result (λ done. AllLinkedTurns shows (map S.seat_of stores.items) (map S.seat_of done.0.items) (map items_of scripts.now) done.1.items) }
    ensures err { IfErr result (λ refused. refused.0.items ≡ stores.items) }
{
    let mut lines = match lines_room(alloc, scripts) {
        Ok(lines) => lines,
        Err(error) => return Err((stores, error)),
    };
    let (stores, rows) = run_lists::<R, Growing<S>, G>(rt, alloc, stores, scripts, gate)?;
    make_lines(&rows, &mut lines);
    Ok((stores, lines))
}
