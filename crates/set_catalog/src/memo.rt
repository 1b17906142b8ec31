// What is remembered from one section of a store to the next.
ghost use Rattle.std.specs.Prelude.{◌≡◌, [], IfOk};

use crate::hints::Hints;
use crate::plan::Vacated;
use crate::shortage::Shortage;
use hash_set::list_set::Fingers;
use section_work::Place;
use set_model::Command;
use std::alloc::{AllocError, Global};
use tree_balance::WritePlan;

/// What is remembered of a store from one of its sections to the next. No answer depends on it.
#[derive(Drop)]
pub struct Memo {
    /// Objects that are likely to be vacant.
    pub hints: Hints,
    /// Where searches in lists and buckets begin.
    pub fingers: Fingers,
    /// How few nodes are vacant at a time of the store.
    pub known: Shortage,
    /// What the last look planned, so that each look uses its memory again.
    pub plan: WritePlan,
}

impl Memo {
    ghost use Rattle.set_catalog.specs.Remembering.{IsAfterTheFirst, hints_at, known_at};
    ghost use Rattle.set_catalog.specs.declared.shortage.TheConstants.{NO_BOUND};

    /// No hints yet, with room for so many, for fingers and for a plan. The error is want of memory.
    pub fn new(alloc: Global, most_hints: u32) -> Result<Box<Memo>, AllocError>
        ensures { IfOk result (λ memo. memo.value.hints ≡ record { room = most_hints; objects = [] }) }
    {
        let memo = Memo::of(Hints::new(alloc, most_hints)?);
        Ok(Box::new(alloc, memo)?)
    }

    /// Nothing but these hints, with their fingers.
    pub fn of(hints: Hints) -> Memo
        ensures hints { result.hints ≡ hints }
        ensures time { result.known.time ≡ 0 }
        ensures few { result.known.few ≡ NO_BOUND }
    {
        let mut hints = hints;
        let fingers = hints.take_fingers();
        Memo {
            hints,
            fingers,
            known: Shortage::unknown(),
            plan: WritePlan::nothing(),
        }
    }

    // From here on it is of a store of the seat of this number, of which nothing is known. The hints and fingers stay.
    pub(crate) fn begin(&mut self, seat: u32)
        ensures hints { self.new.hints ≡ self.old.hints }
        ensures time { self.new.known.time ≡ 0 }
        ensures few { self.new.known.few ≡ NO_BOUND }
    {
        self.hints.belong_to(seat);
        self.known = Shortage::unknown();
    }

    /// Notes that the command took place here, whose commit left these objects vacant.
    pub fn note(&mut self, command: &Command, gone: Vacated, place: Place)
        requires later { IsAfterTheFirst place }
        ensures hints { self.new.hints ≡ hints_at place self.old.hints gone }
        ensures known { self.new.known ≡ known_at place self.old.known command.now }
    {
        if let Place::Commit(time) = place {
            gone.note(&mut self.hints);
            self.known = self.known.after(command, time);
        }
    }
}
