// The queue that the workers share: its rule, how it is filled, and how a pass takes a number out of it.
ghost use Rattle.std.specs.Prelude.{◌≡◌, ◌≤◌, ◌<◌, ◌+◌, ◌∷◌, ◌++◌, ℕ, suc, [], length, sum_by};
ghost use Rattle.crossbeam_queue.specs.Passes.{view, IsPassOf, IsSamePass, ruled_capacity};
ghost use Rattle.command_pool.specs.Queue.{hand, all_parts, total_to, last_of};

use crossbeam_queue::protocol::{Join, Lesson, Outcome, Protocol, Split};
use crossbeam_queue::{Pass, RuledArrayQueue};
use std::collections::LinkedList;
use std::sync::Wait;
use std::thread;

// What a pass has of the queue: its parts of the right to know the whole, how many numbers it has put in, and which
// numbers it has taken. No value of it is made.
pub(crate) struct Hand {
    pub(crate) parts: u64,
    pub(crate) put: u64,
    pub(crate) taken: LinkedList<u32>,
}

// The rule of the queue.
pub(crate) struct InOrder;

impl Protocol<u32, Hand> for InOrder {
    ghost use Rattle.std.specs.Prelude.{[]};
    ghost use Rattle.command_pool.specs.Queue.{hand, all_parts, IsShared};

    ghost holds = { IsShared };

    ghost first = { hand all_parts 0 [] };
}

// A part for a worker, and what it took back with the rest.
pub(crate) struct WorkerPart;

impl Split<Hand> for WorkerPart {
    ghost use Rattle.std.specs.Prelude.{◌-◌, []};
    ghost use Rattle.command_pool.specs.Queue.{hand};

    ghost left = { λ v. hand (v.parts - 1) v.put v.taken };

    ghost right = { λ v. hand 1 0 [] };
}

impl Join<Hand> for WorkerPart {
    ghost use Rattle.std.specs.Prelude.{◌+◌, ◌++◌, []};
    ghost use Rattle.command_pool.specs.Queue.{hand};

    ghost both = { λ v w. hand (v.parts + w.parts) (v.put + w.put) (v.taken ++ w.taken) };

    ghost spent = { hand 0 0 [] };
}

// One more number was put in, or the queue was full.
pub(crate) struct Puts;

impl Outcome<u32, Hand> for Puts {
    ghost then = { λ v x w. w ≡ hand v.parts (suc v.put) v.taken };
}

impl Lesson<u32, Hand> for Puts {
    ghost fact = { λ v items. length items ≤ v.put };
}

// A number was taken, above all that this pass had taken.
pub(crate) struct Takes;

impl Outcome<u32, Hand> for Takes {
    ghost then = { λ v x w. (w ≡ hand v.parts v.put (v.taken ++ x ∷ [])) × (last_of v.taken < x) };
}

// What the whole pass has taken are the numbers up to one, each once.
pub(crate) struct All;

impl Lesson<u32, Hand> for All {
    ghost fact = { λ v items. (done : ℕ) × ((h : ℕ → ℕ) → sum_by h v.taken ≡ total_to h done) };
}

pub(crate) type Queue = RuledArrayQueue<u32, Hand, InOrder>;

// Puts the numbers from 1 to the last one into an empty queue.
pub(crate) fn fill<R: Wait>(rt: &R, queue: &Queue, pass: &mut Pass<u32, Hand>, last: u32)
    requires pass { IsPassOf queue.now pass.old }
    requires empty { view pass.old ≡ hand all_parts 0 [] }
    requires room { last ≤ ruled_capacity queue.now }
    ensures pass { IsPassOf queue.now pass.new }
    ensures filled { view pass.new ≡ hand all_parts last [] }
{
    for count in 0..last {
        // It is never full.
        let _ = queue.push_as::<Puts, R>(rt, pass, count + 1);
    }
}

// Takes the next number out. It waits while the queue is empty, or another takes one at the same moment.
pub(crate) fn take<R: Wait>(rt: &R, queue: &Queue, pass: &mut Pass<u32, Hand>) -> u32
    requires pass { IsPassOf queue.now pass.old }
    requires part { ((view pass.old).parts ≡ 1) × ((view pass.old).put ≡ 0) }
    ensures pass { IsSamePass pass.old pass.new }
    ensures taken { view pass.new ≡ hand 1 0 ((view pass.old).taken ++ result ∷ []) }
    ensures later { last_of (view pass.old).taken < result }
{
    for _ in rt.forever() {
        match queue.try_pop_as::<Takes>(pass) {
            Some(number) => return number,
            None => thread::yield_now(),
        }
    }
    unreachable!()
}
