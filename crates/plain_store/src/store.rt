// The plain store: one seat, and the words of each object.
ghost use Rattle.std.specs.Prelude.{◌≡◌, ◌+◌, ◌<◌, ◌≤◌, [], ◌∷◌, ◌++◌, length, map, take, vec_len, IfOk};
ghost use Rattle.plain_store.specs.declared.history.TheConstants.{WRITE_MAX};
ghost use Rattle.mv_history.specs.declared.history.Entry.TheVariants.{Change};
ghost use Rattle.mv_history.specs.State.{state_after};
ghost use Rattle.mv_history.specs.Legal.{AreWords};
ghost use Rattle.mv_history.specs.Laws.{IsSeat-prop};
ghost use Rattle.mv_history.specs.Meaning.{Seat, InSection, IsSeat, IsSection, words_at};
ghost use Rattle.plain_store.specs.Plain.{commits_of_history, plain_seat, plain_section};

use crate::history::{PlainHistory, WRITE_MAX};
use crate::section::PlainSection;
use mv_history::{LAST, Protocol, Room, Section, Store, Tag, Words};
use std::alloc::{AllocError, Global};
use std::marker::PhantomData;
use std::snapshot::Snapshot;

/// The slow store: one seat, of number 0, that keeps the words of its objects.
///
/// Nobody else commits, so it never answers `Busy`, `Stale`, `LogFull`, `Again` or `Short`, and it
/// makes no rests. `write_max` is 16, and its trail is empty. It may be let go.
///
/// It has 48 bytes for each object, which `new` takes, 0.8 GB at most, and nothing for a commit: the opening
/// state and the history are only for clauses.
pub struct PlainStore<P: Protocol> {
    // Only clauses read these two.
    pub(crate) start: Snapshot<Vec<Words>>,
    pub(crate) history: Snapshot<PlainHistory>,
    pub(crate) words: Vec<Words>,
    pub(crate) time: u64,
    pub(crate) base: u64,
    pub(crate) last: u64,
    pub(crate) rules: PhantomData<P>,
    ghost current: { words.items ≡ state_after start.value.items (map (λ c. Change c) (commits_of_history history.value)) },
    ghost few: { vec_len words ≤ 16777216 },
    ghost clock: { time ≡ base + length (commits_of_history history.value) },
    ghost lawful: { IsSeat P.start P.allowed
        (plain_seat start.value.items (commits_of_history history.value) base last WRITE_MAX) } by { IsSeat-prop P.start P.allowed P.one_start P.one_allowed
            (plain_seat start.value.items (commits_of_history history.value) base last WRITE_MAX) },
}

impl<P: Protocol> Drop for PlainStore<P> {
    fn drop(self) {
        let PlainStore {
            start: _,
            history: _,
            words: _,
            time: _,
            base: _,
            last: _,
            rules: _,
        } = self;
    }
}

// What the type of a slice of words says, as a fact.
fn have_width(words: &[Words])
    ensures { AreWords words.now }
{}

#[tactic(auto, using(crate::proofs::Seats::plain))]
impl<P: Protocol> Store for PlainStore<P> {
    ghost use Rattle.std.specs.Prelude.{refl, ◌≡◌, length};
    ghost use Rattle.plain_store.specs.Meaning.{seat_of as seat_of_plain};

    type Rules = P;

    type Open = PlainSection<P>;

    ghost seat_of = { λ s. seat_of_plain s };

    // Nobody else commits, so the snapshot is what was seen.
    ghost took = { λ old new. new.at ≡ length old.seen };

    // Nothing ever does.
    ghost holds_back = { λ old new holder. ⊥ };

    ghost same_seat = { λ s. refl };

    ghost lawful = { λ s. s.lawful };

    fn seat(&self) -> u32 {
        0
    }

    fn write_max(&self) -> u32 {
        WRITE_MAX as u32
    }

    fn prepare(&mut self) -> Room {
        Room::Enough
    }

    fn enter(self) -> PlainSection<P> {
        PlainSection {
            store: self,
            own: [(0, [0; 6]); WRITE_MAX],
            held: 0,
        }
    }
}

#[tactic(auto, using(crate::proofs::Seats::plain))]
impl<P: Protocol> PlainStore<P> {
    ghost use Rattle.mv_history.specs.Calls.{commit_by};
    ghost use Rattle.plain_store.specs.Meaning.{commits_in};

    /// Opens a store with these objects, its history empty, at the printed time `base`, with room
    /// for `room` commits. Its `last` is `base + room`. It refuses only for want of memory.
    ///
    /// What a store's refusals show is the store's to say. Of a plain store nothing shows that a call
    /// may refuse for want of room or for what another seat does, so `Busy`, `Stale`, `LogFull`,
    /// `Again` and `Short` can't come, and the snapshot of each section is the whole history.
    pub fn new(
        alloc: Global,
        start: &[Words],
        base: u64,
        room: u32,
    ) -> Result<PlainStore<P>, AllocError>
        requires some { 0 < length start.now }
        requires few { length start.now ≤ 16777216 }
        requires lawful { P.start start.now }
        requires time { base + room ≤ LAST }
        ensures opens { IfOk result (λ s. ⟦<PlainStore<P> as Store>⟧.seat_of s ≡ plain_seat start.now [] base (base + room) 16) }
        ensures never_refuses { ¬ ⟦<PlainSection<P> as Section>⟧.may_refuse }
        ensures whole_snapshot { (old : Seat) (new : InSection) → ⟦<PlainStore<P> as Store>⟧.took old new → new.at ≡ length old.seen }
    {
        have_width(start);
        let words = Vec::from_slice(alloc, start)?;
        Ok(PlainStore {
            start: Snapshot::of(&words),
            history: Snapshot::of(&PlainHistory::Opened),
            words,
            time: base,
            base,
            last: base + room as u64,
            rules: PhantomData,
        })
    }

    /// The words of an object after all the commits.
    pub fn state(&self, object: u32) -> Words
        requires { object < length (⟦<PlainStore<P> as Store>⟧.seat_of self.now).start }
        ensures { let here = ⟦<PlainStore<P> as Store>⟧.seat_of self.now in result ≡ words_at (state_after here.start here.seen) object }
    {
        self.words[object as usize]
    }

    // Adds the commit of a section.
    pub(crate) fn add(self, tag: Tag, own: [(u32, Words); WRITE_MAX], held: usize) -> PlainStore<P>
        requires some { 0 < held }
        requires whole { length own ≡ WRITE_MAX }
        requires few { held ≤ WRITE_MAX }
        requires lawful { IsSection P.start P.allowed (plain_section self.start.value.items (commits_in self) self.base self.last (take held own)) }
        requires time { self.time < self.last }
        requires allowed { P.allowed tag self.words.items (take held own) }
        ensures start { result.start.value.items ≡ self.start.value.items }
        ensures base { result.base ≡ self.base }
        ensures last { result.last ≡ self.last }
        ensures commits { let here = plain_section self.start.value.items (commits_in self) self.base self.last (take held own) in
            commits_in result ≡ commits_in self ++ commit_by here tag ∷ [] }
    {
        let PlainStore {
            start,
            history,
            mut words,
            time,
            base,
            last,
            rules,
        } = self;
        for i in 0..held {
            words[own[i].0 as usize] = own[i].1;
        }
        let more = PlainHistory::Then {
            before: history,
            tag,
            own,
            held,
        };
        PlainStore {
            start,
            history: Snapshot::of(&more),
            words,
            time: time + 1,
            base,
            last,
            rules,
        }
    }
}
