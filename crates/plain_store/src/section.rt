// The section of the plain store.
ghost use Rattle.std.specs.Prelude.{◌≡◌, ◌<◌, ◌≤◌, false, [], length, take, IfSome, IfNone, slice_index_or};
ghost use Rattle.plain_store.specs.declared.history.TheConstants.{WRITE_MAX};
ghost use Rattle.mv_history.specs.State.{touches};
ghost use Rattle.mv_history.specs.Legal.{IsWords};
ghost use Rattle.mv_history.specs.Laws.{IsSection-prop};
ghost use Rattle.mv_history.specs.Meaning.{IsSection};
ghost use Rattle.plain_store.specs.Plain.{commits_of_history, plain_section};

use crate::history::WRITE_MAX;
use crate::store::PlainStore;
use mv_history::{CommitAnswer, LockAnswer, Protocol, Section, Tag, View, Words};

/// A section of the plain store: it reads the whole history, and holds up to 16 objects.
pub struct PlainSection<P: Protocol> {
    pub(crate) store: PlainStore<P>,
    pub(crate) own: [(u32, Words); WRITE_MAX],
    pub(crate) held: usize,
    ghost whole: { length own ≡ WRITE_MAX },
    ghost few: { held ≤ WRITE_MAX },
    ghost lawful: { IsSection P.start P.allowed
        (plain_section store.start.value.items (commits_of_history store.history.value) store.base store.last (take held own)) } by { IsSection-prop
            P.start P.allowed P.one_start P.one_allowed
            (plain_section store.start.value.items (commits_of_history store.history.value) store.base store.last (take held own)) },
}

// What the type of words says, as a fact.
fn has_width(words: &Words)
    ensures { IsWords words.now }
{}

// The place of an object among those that are held.
fn find(own: &[(u32, Words)], object: u32) -> Option<usize>
    ensures found { IfSome result (λ i. (i < length own.now) × ((slice_index_or own.now i (0, [])).0 ≡ object) × (touches (take i own.now) object ≡ false)) }
    ensures none { IfNone result (touches own.now object ≡ false) }
{
    for (i, write) in own.iter().enumerate() {
        if write.0 == object {
            return Some(i);
        }
    }
    None
}

#[tactic(auto, using(crate::proofs::Seats::plain))]
impl<P: Protocol> View for PlainSection<P> {
    ghost use Rattle.std.specs.Prelude.{refl, ◌≡◌, take};
    ghost use Rattle.std.proofs.Common.{ap, ◌∙◌};
    ghost use Rattle.mv_history.specs.State.{written};
    ghost use Rattle.plain_store.specs.Laws.{plain_words};

    ghost state = { λ s. written s.store.words.items (take s.held s.own) };

    ghost as_before = { λ s t. t ≡ s };

    ghost as_itself = { λ s. refl };

    ghost as_long_before = { λ u v w p q. q ∙ p };

    ghost same_state = { λ v w p. ap (λ s. written s.store.words.items (take s.held s.own)) p };

    ghost are_words = { λ s. plain_words s };

    fn objects(&self) -> u32 {
        self.store.words.len() as u32
    }

    fn read(&mut self, object: u32) -> Words {
        match find(&self.own[..self.held], object) {
            Some(i) => self.own[i].1,
            None => self.store.words[object as usize],
        }
    }
}

#[tactic(auto, using(crate::proofs::Seats::plain))]
impl<P: Protocol> Section for PlainSection<P> {
    ghost use Rattle.std.specs.Prelude.{refl, ◌≡◌, ◌+◌, length};
    ghost use Rattle.std.proofs.Common.{sym, subst};
    ghost use Rattle.mv_history.specs.Calls.{IsAsBefore, GoesOn};
    ghost use Rattle.plain_store.specs.Meaning.{seat_of as seat_of_plain, section_of};
    ghost use Rattle.mv_history.specs.CallLaws.{IsAsBefore-itself, GoesOn-itself};
    ghost use Rattle.plain_store.specs.Laws.{plain_reads};

    type Rules = P;

    type Back = PlainStore<P>;

    ghost section = { λ s. section_of s };

    ghost stands = { λ s. seat_of_plain s };

    // It refuses for no other seat, and for no want of room.
    ghost may_refuse = { ⊥ };

    // Its trail is empty.
    ghost has_trail = { ⊥ };

    ghost found_held = { λ old new object seat. ⊥ };

    // The time is that of the history.
    ghost loaded = { λ old new time. time ≡ old.seat.base + length old.seat.seen };

    ghost reads = { λ s. plain_reads s };

    ghost others_stay = { λ s t p. subst (λ z. IsAsBefore (section_of s) (section_of z)) (sym p) (IsAsBefore-itself (section_of s)) };

    ghost goes_on = { λ s t p. subst (λ z. GoesOn (section_of s) (section_of z)) (sym p) (GoesOn-itself (section_of s)) };

    ghost lawful = { λ s. s.lawful };

    ghost back_lawful = { λ b. b.lawful };

    fn at(&self) -> u64 {
        self.store.time
    }

    fn last(&self) -> u64 {
        self.store.last
    }

    fn write_max(&self) -> u32 {
        WRITE_MAX as u32
    }

    fn held(&self) -> u32 {
        self.held as u32
    }

    fn has_lock(&self, object: u32) -> bool {
        find(&self.own[..self.held], object).is_some()
    }

    fn try_lock(&mut self, object: u32) -> LockAnswer {
        if self.has_lock(object) {
            return LockAnswer::Held;
        }
        if self.held == WRITE_MAX {
            return LockAnswer::SetFull;
        }
        self.own[self.held] = (object, self.store.words[object as usize]);
        self.held += 1;
        LockAnswer::Held
    }

    fn write(&mut self, object: u32, words: Words) {
        has_width(&words);
        if let Some(i) = find(&self.own[..self.held], object) {
            self.own[i] = (object, words);
        }
    }

    fn try_commit(self, tag: Tag) -> CommitAnswer<PlainStore<P>, PlainSection<P>> {
        let now = self.at();
        if now == self.store.last {
            return CommitAnswer::End(self);
        }
        let PlainSection { store, own, held } = self;
        CommitAnswer::Done(store.add(tag, own, held), now + 1)
    }

    fn abort(self) -> PlainStore<P> {
        let PlainSection {
            store,
            own: _,
            held: _,
        } = self;
        store
    }

    fn leave(self) -> PlainStore<P> {
        self.abort()
    }
}
