// One more, as a work; and one thread that counts.
ghost use Rattle.std.specs.Prelude.{◌≡◌, ◌≤◌, length, vec_len, IfOk};
ghost use Rattle.mvrlu.specs.Meant.{whole_of};
ghost use Rattle.mvrlu.specs.Whole.{last_state};

use crate::told::Told;
use domain_run::{Task, config_of, run};
use item_workers::{Runner, run_item};
use mv_history::{Protocol, Store, Tag, View, Words};
use mvrlu::{Closing, OpenFault};
use section_work::{Decision, Work};
use std::alloc::Global;
use std::sync::Wait;
use std::thread::Threads;
use work_runner::Doing;

/// The rules: each commit counts one more, modulo 2^64.
pub struct Counting;

impl Protocol for Counting {
    ghost use Rattle.work_tests.specs.Counting.{IsCounter, CountsOne};
    ghost use Rattle.work_tests.specs.CountingLaws.{IsCounter-prop, CountsOne-prop};

    ghost start = { IsCounter };

    ghost allowed = { CountsOne };

    ghost one_start = { IsCounter-prop };

    ghost one_allowed = { CountsOne-prop };
}

/// One more.
#[derive(Drop)]
pub struct Count;

impl Work for Count {
    ghost use Rattle.std.specs.Prelude.{⊤, [], ◌∷◌, refl};
    ghost use Rattle.work_tests.specs.Counting.{count_meaning};

    type Rules = Counting;

    type Reply = Told;

    type WriteSet = [(u32, Words); 1];

    type Memo = ();

    ghost accepts = { λ w. ⊤ };

    ghost means = { λ w. count_meaning };

    ghost tag_of = { λ w plan. 0 ∷ 0 ∷ 0 ∷ 0 ∷ [] };

    ghost writes_of = { λ memo plan. plan };

    ghost knows = { λ memo s. ⊤ };

    ghost notes = { λ w before after s. ⊤ };

    fn decide<V: View>(
        &self,
        _memo: &mut (),
        view: V,
        _time: u64,
    ) -> (V, Decision<Told, [(u32, Words); 1]>) {
        let mut view = view;
        let count = view.read(0)[0].wrapping_add(1);
        let plan = [(0, [count, 0, 0, 0, 0, 0])];
        let reply = Told::Counted;
        (view, Decision::Change { plan, reply })
    }

    fn writes<'a>(_memo: &'a (), plan: &'a [(u32, Words); 1]) -> &'a [(u32, Words)] {
        plan
    }

    fn tag(&self, _plan: &[(u32, Words); 1]) -> Tag {
        [0; 4]
    }

    fn at_last(&self, _reply: Told) -> Told {
        Told::Late
    }

    ghost knows_on = { λ memo s t on known. tt };

    ghost makes = { λ w s before tag ws reply accepts plan drifts allowed. (ws, allowed, refl) };
}

/// One thread: how often it is to count, and what came of the last one.
#[derive(Clone, Copy, Drop)]
pub struct Counter {
    pub asked: u32,
    pub last: Told,
}

impl Task<Counting> for Counter {
    ghost use Rattle.std.specs.Prelude.{⊤, ◌≤◌};

    ghost ready = { λ seat counter. 1 ≤ seat.write_max };

    ghost did = { λ shown before after old new. ⊤ };

    fn run<R: Wait, S: Store<Rules = Counting>>(self, rt: &R, store: S) -> (Counter, S) {
        let mut doing = Doing::<Count, S>::new(store, ());
        let mut last = Told::Late;
        for _ in 0..self.asked {
            let (_place, told) = run_item(rt, &mut doing, &Count);
            last = told;
        }
        let asked = self.asked;
        (Counter { asked, last }, doing.into_store())
    }
}

/// Runs the counters, each in a thread of its own, from 0 on. The closing has the one object.
pub fn count_together<R: Threads + Wait + Sync>(
    rt: &R,
    alloc: Global,
    counters: Vec<Counter>,
) -> Result<(Closing<Counting>, Vec<Counter>), (Vec<Counter>, OpenFault)>
    requires { vec_len counters ≤ 64 }
    ensures { IfOk result (λ done. length (last_state (whole_of done.0)) ≡ 1) }
{
    let config = config_of(counters.len() as u32, 1, 1);
    run::<R, Counting, Counter>(rt, alloc, config, &[[0; 6]], counters)
}
