// One command as a block of one, as a work.
ghost use Rattle.std.specs.Prelude.{◌≡◌, ◌+◌, [], ◌∷◌};

use mv_history::{Tag, View, Words};
use section_work::{Decision, Place, Work};
use set_blocks::BlockRules;
use set_catalog::{Hints, Memo, PlanOutcome, Shortage, Vacated, find_plan_near};
use set_model::{Command, Reply};
use std::marker::Model;

// A command that is to be one section.
#[derive(Drop)]
pub(crate) struct Single {
    pub command: Command,
}

// Its reply, seen as the replies of a block of one.
#[derive(Drop)]
pub(crate) struct OneReply {
    reply: Reply,
}

impl Model for OneReply {
    ghost use Rattle.std.specs.Prelude.{List, [], ◌∷◌};
    ghost use Rattle.set_model.specs.declared.commands.Reply.{Reply};

    ghost Value = { List Reply };

    ghost view = { λ r. r.reply ∷ [] };
}

impl OneReply {
    pub(crate) fn get(self) -> Reply
        ensures { self ≡ result ∷ [] }
    {
        let OneReply { reply } = self;
        reply
    }
}

// What is remembered from one section of a seat to the next.
#[derive(Drop)]
pub(crate) struct Remembered {
    pub memo: Memo,
    // What the change that was found last leaves vacant.
    pub gone: Vacated,
}

impl Remembered {
    ghost use Rattle.set_model.specs.Objects.{most_objects};

    // Nothing but these hints.
    pub(crate) fn of(hints: Hints) -> Remembered
        ensures time { result.memo.known.time ≡ 0 }
        ensures few { result.memo.known.few ≡ most_objects + 1 }
    {
        Remembered {
            memo: Memo::of(hints),
            gone: Vacated { node: 0, inner: 0 },
        }
    }

    // Notes that the command took place here.
    pub(crate) fn note(&mut self, place: Place)
        ensures known { self.new.memo.known ≡ self.old.memo.known }
    {
        if let Place::Commit(_) = place {
            self.gone.note(&mut self.memo.hints);
        }
    }
}

impl Work for Single {
    ghost use Rattle.std.specs.Prelude.{⊤, [], ◌∷◌};
    ghost use Rattle.set_catalog.specs.CommandLaws.{known_later};
    ghost use Rattle.set_catalog.specs.Merges.{writes_in};
    ghost use Rattle.set_catalog.specs.Shortages.{IsKnown};
    ghost use Rattle.set_blocks.specs.BlockMeaning.{block_meaning};
    ghost use Rattle.set_blocks.specs.BlockRules.{block_tag};

    type Rules = BlockRules;

    type Reply = OneReply;

    // What is planned stands in the memo.
    type WriteSet = ();

    type Memo = Remembered;

    ghost accepts = { λ w. ⊤ };

    ghost means = { λ w. block_meaning (w.command ∷ []) };

    ghost tag_of = { λ w plan. block_tag 1 };

    ghost writes_of = { λ memo plan. writes_in memo.memo.plan };

    ghost knows = { λ memo s. IsKnown s memo.memo.known };

    ghost notes = { λ w before after s. ⊤ };

    // Inlined, so that the view isn't copied on its way in and out.
    #[inline(always)]
    fn decide<V: View>(
        &self,
        remembered: &mut Remembered,
        view: V,
        time: u64,
    ) -> (V, Decision<OneReply, ()>) {
        let mut view = view;
        let mut few = remembered.memo.known.at(time);
        let found = find_plan_near(
            &mut remembered.memo.plan,
            &mut view,
            &mut remembered.memo.hints,
            &mut remembered.memo.fingers,
            &mut few,
            &self.command,
        );
        remembered.memo.known = Shortage { time, few };
        match found {
            PlanOutcome::Settled(reply) => (view, Decision::Settled(OneReply { reply })),
            PlanOutcome::Open(gone) => {
                remembered.gone = gone;
                let reply = OneReply { reply: Reply::Yes };
                (view, Decision::Change { plan: (), reply })
            }
        }
    }

    fn writes<'a>(remembered: &'a Remembered, _plan: &'a ()) -> &'a [(u32, Words)] {
        remembered.memo.plan.writes()
    }

    fn tag(&self, _plan: &()) -> Tag {
        [5, 1, 0, 0]
    }

    fn at_last(&self, _reply: OneReply) -> OneReply {
        OneReply { reply: Reply::Worn }
    }

    ghost knows_on = { λ memo s t on known. known_later memo.memo.known on known };

    ghost makes = { λ w s before tag ws answers accepts planned drifts allowed. planned.makes before drifts };
}
