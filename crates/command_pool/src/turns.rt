// The turns of a worker: the commands whose numbers it takes out of the queue.
use crate::queue::{Hand, Queue, take};
use crossbeam_queue::Pass;
use item_workers::{Given, Source};
use mv_history::Store;
use script_workers::Hinted;
use set_model::{Command, SetRules};
use std::sync::Wait;

// The queue, the worker's own pass of it, and the commands, which are the same for all workers.
#[derive(Drop)]
pub(crate) struct PoolSource<'s> {
    pub(crate) queue: &'s Queue,
    pub(crate) pass: Pass<u32, Hand>,
    pub(crate) commands: &'s [Command],
}

impl<'s, S: Store<Rules = SetRules>> Source<Hinted<S>> for PoolSource<'s> {
    ghost use Rattle.std.specs.Prelude.{length, ◌-◌};
    ghost use Rattle.command_pool.specs.Queue.{last_of};
    ghost use Rattle.command_pool.specs.Turns.{taken_of, MayTake, GaveTurn, HasEnded};

    ghost may = { MayTake };

    ghost listed = { λ turns. turns.commands.now };

    ghost left = { λ turns. length turns.commands.now - last_of (taken_of turns) };

    ghost gives = { GaveTurn };

    ghost ended = { HasEnded };

    fn items(&self) -> &[Command] {
        self.commands
    }

    fn most(&self) -> usize {
        self.commands.len()
    }

    // An end mark is a number that no command has.
    fn take<R: Wait>(&mut self, rt: &R) -> Option<Given> {
        let number = take(rt, self.queue, &mut self.pass);
        let place = number as usize - 1;
        if place < self.commands.len() {
            Some(Given { place, number })
        } else {
            None
        }
    }
}
