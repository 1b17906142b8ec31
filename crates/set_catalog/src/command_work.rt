// A command of the sets, as a work.
ghost use Rattle.std.specs.Prelude.{◌≡◌};

use crate::finding::{answer, find_change};
use crate::memo::Memo;
use crate::outcome::PlanOutcome;
use crate::plan::Vacated;
use crate::shortage::Shortage;
use mv_history::{Tag, View, Words};
use section_work::{Decision, Work};
use set_model::{Command, Reply, SetRules};

// A command that is to be one section, where an add to a tree may lock so many objects beside its own four, 1 to 12.
#[derive(Drop)]
pub struct CommandWork {
    pub command: Command,
    pub most: u32,
}

// What it answers: the command's reply, and the objects that its commit leaves vacant.
#[derive(Drop)]
pub struct CommandAnswer {
    pub reply: Reply,
    pub gone: Vacated,
}

impl Work for CommandWork {
    ghost use Rattle.std.specs.Prelude.{◌≤◌};
    ghost use Rattle.set_model.specs.Tags.{tag_of as command_tag};
    ghost use Rattle.set_catalog.specs.Merges.{writes_in};
    ghost use Rattle.set_catalog.specs.Shortages.{IsKnown};
    ghost use Rattle.set_catalog.specs.CommandMeaning.{command_meaning};
    ghost use Rattle.set_catalog.specs.Remembering.{TakesFor};
    ghost use Rattle.set_catalog.specs.CommandLaws.{known_later, makes_command};

    type Rules = SetRules;

    type Reply = CommandAnswer;

    // What is planned stands in the memo, so that a command moves and clears none of it.
    type WriteSet = ();

    type Memo = Memo;

    ghost accepts = { λ w. w.most ≤ 12 };

    ghost means = { λ w. command_meaning w.most w.command };

    ghost tag_of = { λ w plan. command_tag w.command };

    ghost writes_of = { λ memo plan. writes_in memo.plan };

    ghost knows = { λ memo s. IsKnown s memo.known };

    ghost notes = { λ w before after s. TakesFor w.command before.hints after.hints s };

    // Inlined, so that the view isn't copied on its way in and out.
    #[inline(always)]
    fn decide<V: View>(
        &self,
        memo: &mut Memo,
        view: V,
        time: u64,
    ) -> (V, Decision<CommandAnswer, ()>) {
        let mut view = view;
        if let Some(reply) = answer(&mut view, &mut memo.fingers, &self.command) {
            return (view, Decision::Settled(CommandAnswer::of(reply)));
        }
        let mut few = memo.known.at(time);
        memo.plan.clear();
        let outcome = find_change(
            &mut memo.plan,
            &mut view,
            &mut memo.hints,
            &mut memo.fingers,
            &mut few,
            &self.command,
            self.most,
        );
        memo.known = Shortage { time, few };
        match outcome {
            PlanOutcome::Settled(reply) => (view, Decision::Settled(CommandAnswer::of(reply))),
            PlanOutcome::Open(gone) => {
                let reply = CommandAnswer {
                    reply: Reply::Yes,
                    gone,
                };
                (view, Decision::Change { plan: (), reply })
            }
        }
    }

    fn writes<'a>(memo: &'a Memo, _plan: &'a ()) -> &'a [(u32, Words)] {
        memo.plan.writes()
    }

    fn tag(&self, _plan: &()) -> Tag {
        self.command.tag()
    }

    fn at_last(&self, _reply: CommandAnswer) -> CommandAnswer {
        CommandAnswer::of(Reply::Worn)
    }

    ghost knows_on = { λ memo s t on known. known_later memo.known on known };

    ghost makes = { λ w s before tag ws answer accepts plan drifts allowed. makes_command w.most w.command s before tag ws answer plan allowed };
}

impl CommandAnswer {
    // This reply, of no commit.
    fn of(reply: Reply) -> CommandAnswer
        ensures reply { result.reply ≡ reply }
    {
        CommandAnswer {
            reply,
            gone: Vacated::nothing(),
        }
    }
}
