// A command on a growing hash set, as a work.
ghost use Rattle.std.specs.Prelude.{◌≡◌};
ghost use Rattle.grow_hash.specs.GrowPlans.{IsOfGrown};

use crate::deciding::{GrowFinding, find_change};
use crate::rules::GrowingRules;
use mv_history::{Tag, View, Words};
use section_work::{Decision, Work};
use set_model::{Command, Reply};
use std::marker::PhantomData;

/// A command of a growing hash set.
#[derive(Drop)]
pub struct GrowWork<const LEVELS: u32, R> {
    pub command: Command,
    pub rules: PhantomData<R>,
}

impl<const LEVELS: u32, R: GrowingRules<LEVELS>> Work for GrowWork<LEVELS, R> {
    ghost use Rattle.std.specs.Prelude.{⊤};
    ghost use Rattle.set_model.specs.Tags.{tag_of as command_tag};
    ghost use Rattle.grow_hash.specs.GrowPlans.{IsOfGrown};
    ghost use Rattle.grow_hash.specs.GrowMeaning.{grow_meaning};
    ghost use Rattle.grow_hash.specs.GrowMeaningLaws.{makes_grown};

    type Rules = R;

    type Reply = Reply;

    type WriteSet = [(u32, Words); 2];

    type Memo = ();

    ghost accepts = { λ w. IsOfGrown w.command };

    ghost means = { λ w. grow_meaning LEVELS w.command };

    ghost tag_of = { λ w plan. command_tag w.command };

    ghost writes_of = { λ memo plan. plan };

    ghost knows = { λ memo s. ⊤ };

    ghost notes = { λ w before after s. ⊤ };

    // Inlined, so that the view isn't copied on its way in and out.
    #[inline(always)]
    fn decide<V: View>(
        &self,
        _memo: &mut (),
        view: V,
        _time: u64,
    ) -> (V, Decision<Reply, [(u32, Words); 2]>) {
        let mut view = view;
        match find_change::<LEVELS, V>(&mut view, &self.command) {
            GrowFinding::Settled(reply) => (view, Decision::Settled(reply)),
            GrowFinding::Open(plan) => {
                let reply = Reply::Yes;
                (view, Decision::Change { plan, reply })
            }
        }
    }

    fn writes<'a>(_memo: &'a (), plan: &'a [(u32, Words); 2]) -> &'a [(u32, Words)] {
        plan
    }

    fn tag(&self, _plan: &[(u32, Words); 2]) -> Tag {
        self.command.tag()
    }

    fn at_last(&self, _reply: Reply) -> Reply {
        Reply::Worn
    }

    ghost knows_on = { λ memo s t on known. tt };

    ghost makes = { λ w s before tag ws reply accepts plan drifts allowed. makes_grown LEVELS w.command s before tag ws reply accepts plan
        (R.allowed_grows tag before ws allowed) };
}
