// The queue's pass, shared out among the workers and taken back.
ghost use Rattle.std.specs.Prelude.{◌≡◌, ◌≤◌, ◌+◌, ◌-◌, [], length, All, vec_capacity};
ghost use Rattle.std.specs.List.{flat_map};
ghost use Rattle.crossbeam_queue.specs.Passes.{view, IsPassOf};
ghost use Rattle.command_pool.specs.Queue.{hand, all_parts};
ghost use Rattle.command_pool.specs.Turns.{IsBegun, IsLent, taken_of};

use crate::queue::{Hand, Queue, WorkerPart};
use crate::turns::PoolSource;
use crossbeam_queue::Pass;
use item_workers::take_first;
use set_model::Command;

// Gives each of so many workers a part of the pass. There is room for their turns.
pub(crate) fn share_out<'s>(
    queue: &'s Queue,
    pass: &mut Pass<u32, Hand>,
    commands: &'s [Command],
    seats: usize,
    turns: &mut Vec<PoolSource<'s>>,
)
    requires pass { IsPassOf queue.now pass.old }
    requires whole { ((view pass.old).parts ≡ all_parts) × ((view pass.old).taken ≡ []) }
    requires few { seats ≤ 8 }
    requires none { turns.old.items ≡ [] }
    requires room { seats ≤ vec_capacity turns.old }
    ensures pass { IsPassOf queue.now pass.new }
    ensures left { view pass.new ≡ hand (all_parts - seats) (view pass.old).put [] }
    ensures begun { All (IsBegun queue.now commands.now) turns.new.items }
    ensures count { length turns.new.items ≡ seats }
{
    for _ in 0..seats {
        let part = queue.another::<WorkerPart>(pass);
        turns.push_reserved(PoolSource {
            queue,
            pass: part,
            commands,
        });
    }
}

// Takes the parts back.
pub(crate) fn take_back(queue: &Queue, pass: &mut Pass<u32, Hand>, mut turns: Vec<PoolSource<'_>>)
    requires pass { IsPassOf queue.now pass.old × ((view pass.old).taken ≡ []) }
    requires part { ((view pass.old).parts + length turns.items ≡ all_parts) × (1 ≤ (view pass.old).parts) }
    requires lent { All (IsLent queue.now) turns.items }
    ensures pass { IsPassOf queue.now pass.new }
    ensures whole { (view pass.new).parts ≡ all_parts }
    ensures taken { (view pass.new).taken ≡ flat_map taken_of turns.entry.items }
{
    while !turns.is_empty() {
        let PoolSource {
            queue: _,
            pass: part,
            commands: _,
        } = take_first(&mut turns);
        queue.absorb::<WorkerPart>(pass, part);
    }
}
