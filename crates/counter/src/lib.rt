//! The least client: a counter that threads share. A crate to copy.
//!
//! # The model
//!
//! The counter is the first word of object 0. A [`Counter`] is one thread's work: it counts up so often, each time by one
//! commit. The rules ([`Counting`]) allow nothing else: each commit adds one to the count just before it.
//!
//! # The contract
//!
//! [`run_counters`]: the last count is the opening one, and one for each count that a thread tells, at every interleaving.
//!
//! # How it is made
//!
//! `update_times` of `mv_client` begins a section, shows it to the closure, and commits what the closure put in it; a lock or
//! a commit that is refused is tried again in a new section. So the closure only says what is to be written, and its clauses
//! say that this is fit. `run_over` of `client_run` opens a domain, runs each task on a thread, and lets them meet.
//!
//! # Its place
//!
//! It stands on `mv_client` and `client_run`; `counter_main` is its program. `accounts` has rules that depend on two objects,
//! `directory` linked ones.
#![tactic(auto)]

ghost use Rattle.std.specs.Prelude.{◌≡◌, ◌+◌, ◌<◌, ◌≤◌, length, vec_len, sum_by, IfOk, IfErr};
ghost use Rattle.mv_history.specs.Meaning.{Seat};
ghost use Rattle.mv_history.specs.Calls.{Continues};
ghost use Rattle.mvrlu.specs.Meant.{whole_of};
ghost use Rattle.mvrlu.specs.Opened.{Refuses};
ghost use Rattle.mvrlu.specs.Whole.{last_state};
ghost use Rattle.domain_run.specs.Numbers.{numbers_for};
ghost use Rattle.section_work.specs.Attempts.{HasSpace};
ghost use Rattle.mv_client.specs.Updates.{Repeated, Filled, IsForCommit};
ghost use Rattle.client_run.specs.Over.{EachTold};
ghost use Rattle.counter.specs.Counting.{CountsOne, count, asked_of, done_of};

use client_run::run_over;
use domain_run::Task;
use mv_client::{put, update_times};
use mv_history::{Protocol, Store, View};
use mvrlu::{Closing, OpenFault};
use section_work::Decision;
use std::alloc::Global;
use std::sync::Wait;
use std::thread::Threads;

/// The rules: each commit counts one more.
pub struct Counting;

impl Protocol for Counting {
    ghost use Rattle.counter.specs.Counting.{IsCounter, CountsOne};
    ghost use Rattle.counter.specs.CountingLaws.{IsCounter-prop, CountsOne-prop};

    ghost start = { IsCounter };

    ghost allowed = { CountsOne };

    ghost one_start = { IsCounter-prop };

    ghost one_allowed = { CountsOne-prop };
}

/// One thread of a counter: how often it is to count, and how often it did.
#[derive(Drop)]
pub struct Counter {
    pub asked: u32,
    pub done: u32,
}

impl Task<Counting> for Counter {
    ghost use Rattle.mv_client.specs.Updates.{Repeated, Filled, IsForCommit};
    ghost use Rattle.mv_history.specs.Calls.{Continues};

    ghost ready = { λ seat task. 1 ≤ seat.write_max };

    ghost did = { λ took before after old new. Repeated before after old.asked new.done };

    fn run<R: Wait, S: Store<Rules = Counting>>(self, rt: &R, store: S) -> (Counter, S)
        requires { 1 ≤ (S.seat_of store).write_max }
        ensures continues { Continues (S.seat_of store) (S.seat_of result.1) }
        ensures did { Repeated (S.seat_of store) (S.seat_of result.1) self.asked result.0.done }
    {
        let (store, done) = update_times(
            rt,
            store,
            self.asked,
            |section: &mut S::Open|
                requires object { 0 < length (S.Open.state section.old) }
                requires space { HasSpace 1 (S.Open.section section.old) }
                ensures filled { Filled CountsOne (S.Open.section section.old) (S.Open.section section.new) result }
                ensures commits { IsForCommit result }
            {
                let count = section.read(0)[0];
                put(section, 0, [count + 1, 0, 0, 0, 0, 0])?;
                Ok(Decision::Change {
                    plan: [0; 4],
                    reply: (),
                })
            },
        );
        (
            Counter {
                asked: self.asked,
                done,
            },
            store,
        )
    }
}

/// Runs each of these in a thread of its own, over a counter that opens with `first`, and answers the closing and what
/// they did.
///
/// The last count is `first`, and one for each that was told done. Each counted as often as it was asked; fewer only where
/// the last time was reached, which is 2^45 - 1.
///
/// - `Config(Seats)` where there is no counter.
/// - `Memory` where there is no memory for the domain or the threads. Nothing was begun, and the counters come back.
pub fn run_counters<R: Threads + Wait + Sync>(
    rt: &R,
    alloc: Global,
    first: u32,
    counters: Vec<Counter>,
) -> Result<(Closing<Counting>, Vec<Counter>), (Vec<Counter>, OpenFault)>
    requires { vec_len counters ≤ 64 }
    ensures last { IfOk result (λ done. let last = last_state (whole_of done.0) in
        (length last ≡ 1) × (count last ≡ first + sum_by done_of done.1.items)) }
    ensures each { IfOk result (λ done. EachTold asked_of done_of counters.items done.1.items (whole_of done.0)) }
    ensures refused { IfErr result (λ back. Refuses (numbers_for (vec_len counters) 1 1) back.1 × (back.0 ≡ counters)) }
{
    let start = [[first as u64, 0, 0, 0, 0, 0]];
    run_over::<R, Counting, Counter>(rt, alloc, 1, &start, counters)
}
