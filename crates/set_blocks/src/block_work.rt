// A block, as a work.
use crate::block::Block;
use crate::finding::{BlockFinding, find_block};
use crate::overlay::{Overlay, Planned};
use crate::replies::Replies;
use crate::rules::BlockRules;
use mv_history::{Tag, View, Words};
use section_work::{Decision, Work};
use set_model::Reply;

// The first number of the tag of a block's commit.
const BLOCK: u64 = 5;

impl Work for Block {
    ghost use Rattle.std.specs.Prelude.{⊤, length, take};
    ghost use Rattle.set_blocks.specs.BlockMeaning.{block_meaning};
    ghost use Rattle.set_blocks.specs.BlockRules.{block_tag};

    type Rules = BlockRules;

    type Reply = Replies;

    type WriteSet = Planned;

    type Memo = ();

    ghost accepts = { λ block. ⊤ };

    ghost means = { λ block. block_meaning block };

    ghost tag_of = { λ block planned. block_tag (length block) };

    ghost writes_of = { λ memo planned. take planned.count planned.writes };

    ghost knows = { λ memo s. ⊤ };

    ghost notes = { λ block before after s. ⊤ };

    // Inlined, so that the view isn't copied on its way in and out.
    #[inline(always)]
    fn decide<V: View>(
        &self,
        _memo: &mut (),
        view: V,
        _time: u64,
    ) -> (V, Decision<Replies, Planned>) {
        let mut overlay = Overlay::over(view);
        let found = find_block(&mut overlay, self.commands());
        let (view, plan) = overlay.into_parts();
        match found {
            BlockFinding::Settled(replies) => (view, Decision::Settled(replies)),
            BlockFinding::Open(reply) => (view, Decision::Change { plan, reply }),
        }
    }

    fn writes<'a>(_memo: &'a (), plan: &'a Planned) -> &'a [(u32, Words)] {
        plan.writes()
    }

    fn tag(&self, _plan: &Planned) -> Tag {
        [BLOCK, self.commands().len() as u64, 0, 0]
    }

    fn at_last(&self, _reply: Replies) -> Replies {
        Replies::all(Reply::Worn, self.commands().len() as u32)
    }

    ghost knows_on = { λ memo s t on known. tt };

    ghost makes = { λ block s before tag ws answers accepts planned drifts allowed. planned.makes before drifts };
}
