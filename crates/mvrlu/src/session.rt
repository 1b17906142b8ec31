// A section.
ghost use Rattle.mv_history.specs.Laws.{IsSection-prop};
ghost use Rattle.mv_history.specs.Meaning.{IsSection};
ghost use Rattle.mvrlu.specs.Placed.{section_from, Fits};

use crate::domain::{Domain, Seat};
use crate::ending::{abort_at, commit_at, leave_at};
use crate::handle::Handle;
use crate::holding::{held_words, lock_at, write_at};
use crate::places::Busy;
use crate::reading::{read_four_in, read_in, read_pair_in};
use mv_history::{CommitAnswer, LockAnswer, Protocol, Section, Tag, View, Words};
use std::marker::Brand;
use std::sync::ledger::Blank;

// A section's pass and log, which mean a lawful section.
pub(crate) struct SectionState<P: Protocol> {
    pub(crate) busy: Busy<P>,
    pub ghost lawful: { IsSection P.start P.allowed (section_from busy) } by { IsSection-prop P.start P.allowed P.one_start P.one_allowed (section_from busy) },
}

/// A section of a seat, with a loan of its domain: a `Section`. It reads the state of its snapshot with
/// its own words over it. It must be spent, by `try_commit`, `abort` or `leave`; one that is let go
/// doesn't compile.
pub struct Session<'d, P: Protocol> {
    pub(crate) domain: &'d Domain<P>,
    pub(crate) part: SectionState<P>,
    pub ghost fits: { Fits domain.now.shared part.busy },
}

impl<'d, P: Protocol> View for Session<'d, P> {
    ghost use Rattle.std.specs.Prelude.{◌≡◌, ◌+◌, ◌<◌, length, slice_index_or};
    ghost use Rattle.mvrlu.specs.Meant.{aborts_before, section_of};
    ghost use Rattle.mvrlu.specs.Bounds.{MakesAtMost, read_most, pair_most, four_most};
    ghost use Rattle.mvrlu.specs.Standing.{Stays, stays_itself, stays_long, stays_state, words_in_section};
    ghost use Rattle.mv_history.specs.Meaning.{state_of, words_at};
    ghost use Rattle.mv_history.specs.Fours.{four_from};

    ghost state = { λ s. state_of (section_of s) };

    ghost as_before = { λ s t. Stays (section_of s) (section_of t) };

    ghost as_itself = { λ s. stays_itself (section_of s) };

    ghost as_long_before = { λ u v w p q. stays_long (section_of u) (section_of v) (section_of w) p q };

    ghost same_state = { λ v w p. stays_state P.start P.allowed (section_of v) (section_of w) v.part.lawful p };

    ghost are_words = { λ s. words_in_section P.start P.allowed (section_of s) s.part.lawful };

    fn objects(&self) -> u32 {
        self.domain.shared.config().objects
    }

    #[inline(always)]
    fn read(&mut self, object: u32) -> Words
        requires { object < length (state_of (section_of self.old)) }
        ensures words { result ≡ words_at (state_of (section_of self.old)) object }
        ensures as_before { Stays (section_of self.old) (section_of self.new) }
        ensures aborts { aborts_before self.new ≡ aborts_before self.old }
        ensures bound { MakesAtMost (section_of self.old).seat (section_of self.new).seat (read_most (section_of self.old) (section_of self.new)) }
    {
        let domain = self.domain;
        let part = &mut self.part;
        read_in::<P, Brand>(&domain.shared, &mut part.busy, object, Blank::new(1))
    }

    #[inline(always)]
    fn read_pair(&mut self, object: u32, place: u32) -> (u64, u64)
        requires object { object < length (state_of (section_of self.old)) }
        requires place { place < 5 }
        ensures first { result.0 ≡ slice_index_or (words_at (state_of (section_of self.old)) object) place 0 }
        ensures second { result.1 ≡ slice_index_or (words_at (state_of (section_of self.old)) object) (place + 1) 0 }
        ensures as_before { Stays (section_of self.old) (section_of self.new) }
        ensures aborts { aborts_before self.new ≡ aborts_before self.old }
        ensures bound { MakesAtMost (section_of self.old).seat (section_of self.new).seat (pair_most (section_of self.old) (section_of self.new)) }
    {
        let domain = self.domain;
        let part = &mut self.part;
        read_pair_in::<P, Brand>(&domain.shared, &mut part.busy, object, place, Blank::new(1))
    }

    #[inline(always)]
    fn read_four(&mut self, object: u32, place: u32) -> [u64; 4]
        requires object { object < length (state_of (section_of self.old)) }
        requires place { place < 3 }
        ensures words { result ≡ four_from place (words_at (state_of (section_of self.old)) object) }
        ensures as_before { Stays (section_of self.old) (section_of self.new) }
        ensures aborts { aborts_before self.new ≡ aborts_before self.old }
        ensures bound { MakesAtMost (section_of self.old).seat (section_of self.new).seat (four_most (section_of self.old) (section_of self.new)) }
    {
        let domain = self.domain;
        let part = &mut self.part;
        read_four_in::<P, Brand>(&domain.shared, &mut part.busy, object, place, Blank::new(1))
    }
}

impl<'d, P: Protocol> Section for Session<'d, P> {
    ghost use Rattle.std.specs.Prelude.{refl, ◌≡◌, ◌≢◌, ◌↔◌, ℕ, ◌+◌, ◌-◌, ◌<◌, ◌≤◌, [], length};
    ghost use Rattle.mv_history.specs.Meaning.{state_of, snapshot_of, Holds, Lacks, IsWorn};
    ghost use Rattle.mv_history.specs.Answer.{OnDone, OnAgain, OnEnd, seat_after};
    ghost use Rattle.mv_history.specs.Calls.{call_trail, IsAsBefore, GoesOn, IsSetFull, IsLogFull, Locks, LocksWith, Rewrites};
    ghost use Rattle.mv_history.specs.Calls.{Leaves, Commits, IsStale, Overtakes};
    ghost use Rattle.mv_history.specs.Drift.{IsFit};
    ghost use Rattle.mv_history.specs.Trail.{commit_exchanges, IsOneWon, IsOneLost};
    ghost use Rattle.mv_history.specs.declared.answers.LockAnswer.TheVariants.{Held, Busy as IsTaken, Stale, SetFull, LogFull};
    ghost use Rattle.mvrlu.specs.Meant.{handled, aborts_of, aborts_before, aborts_with, count_after, section_of};
    ghost use Rattle.mvrlu.specs.Causes.{Loaded, FoundLocked};
    ghost use Rattle.mvrlu.specs.Holding.{seats_of};
    ghost use Rattle.mvrlu.specs.Bounds.{MakesAtMost};

    type Rules = P;

    type Back = Handle<'d, P>;

    ghost section = { λ s. section_of s };

    ghost stands = { λ s. handled s };

    ghost found_held = { λ old new object seat. FoundLocked old new object seat };

    ghost loaded = { λ old new time. Loaded old new time };

    ghost reads = { λ s. refl };

    ghost others_stay = { λ s t p. p.0 };

    ghost goes_on = { λ s t p. p.1 };

    ghost lawful = { λ s. s.part.lawful };

    ghost back_lawful = { λ b. b.seat.lawful };

    fn at(&self) -> u64 {
        self.part.busy.time()
    }

    fn last(&self) -> u64 {
        mv_layout::LAST
    }

    fn write_max(&self) -> u32 {
        self.domain.shared.config().write_max
    }

    fn held(&self) -> u32 {
        self.part.busy.held()
    }

    fn has_lock(&self, object: u32) -> bool {
        held_words(&self.part.busy, object).is_some()
    }

    // In a domain of one seat it never answers `Busy` or `Stale`.
    fn try_lock(&mut self, object: u32) -> LockAnswer
        requires { object < length (state_of (section_of self.old)) }
        ensures goes_on { GoesOn (section_of self.old) (section_of self.new) }
        ensures refused { result ≢ Held → IsAsBefore (section_of self.old) (section_of self.new) }
        ensures again { Holds (section_of self.old) object → (result ≡ Held) × (section_of self.new ≡ section_of self.old) }
        ensures set_full { (result ≡ SetFull) ↔ (Lacks (section_of self.old) object × IsSetFull (section_of self.old)) }
        ensures log_full { (result ≡ LogFull) ↔
            (Lacks (section_of self.old) object × ¬ IsSetFull (section_of self.old) × IsLogFull (section_of self.old)) }
        ensures busy { (seat : ℕ) → result ≡ IsTaken seat →
            ⟦<Session<'d, P> as Section>⟧.may_refuse × (seat ≢ (section_of self.old).seat.number)
            × FoundLocked (section_of self.old) (section_of self.new) object seat }
        ensures stale { (time : ℕ) → result ≡ Stale time → ⟦<Session<'d, P> as Section>⟧.may_refuse × IsStale (section_of self.new) object time }
        ensures held { result ≡ Held → Lacks (section_of self.old) object → Locks (section_of self.old) (section_of self.new) object }
        ensures log_full_only { result ≡ LogFull → ⟦<Session<'d, P> as Section>⟧.may_refuse }
        ensures alone { seats_of (section_of self.old).seat ≡ 1 → ((seat : ℕ) → result ≢ IsTaken seat) × ((time : ℕ) → result ≢ Stale time) }
        ensures aborts { aborts_before self.new ≡ aborts_before self.old }
        ensures bound { MakesAtMost (section_of self.old).seat (section_of self.new).seat 24 }
    {
        if self.has_lock(object) {
            return LockAnswer::Held;
        }
        let domain = self.domain;
        let part = &mut self.part;
        lock_at::<P, Brand>(&domain.shared, &mut part.busy, object, None, Blank::new(1))
    }

    // In a domain of one seat it never answers `Busy` or `Stale`. It makes at most 18 steps.
    fn try_lock_with(&mut self, object: u32, words: Words) -> LockAnswer
        requires { object < length (state_of (section_of self.old)) }
        ensures goes_on { GoesOn (section_of self.old) (section_of self.new) }
        ensures refused { result ≢ Held → IsAsBefore (section_of self.old) (section_of self.new) }
        ensures again { Holds (section_of self.old) object → (result ≡ Held) × Rewrites (section_of self.old) (section_of self.new) object words }
        ensures set_full { (result ≡ SetFull) ↔ (Lacks (section_of self.old) object × IsSetFull (section_of self.old)) }
        ensures log_full { (result ≡ LogFull) ↔
            (Lacks (section_of self.old) object × ¬ IsSetFull (section_of self.old) × IsLogFull (section_of self.old)) }
        ensures busy { (seat : ℕ) → result ≡ IsTaken seat →
            ⟦<Session<'d, P> as Section>⟧.may_refuse × (seat ≢ (section_of self.old).seat.number)
            × FoundLocked (section_of self.old) (section_of self.new) object seat }
        ensures stale { (time : ℕ) → result ≡ Stale time → ⟦<Session<'d, P> as Section>⟧.may_refuse × IsStale (section_of self.new) object time }
        ensures held { result ≡ Held → Lacks (section_of self.old) object → LocksWith (section_of self.old) (section_of self.new) object words }
        ensures log_full_only { result ≡ LogFull → ⟦<Session<'d, P> as Section>⟧.may_refuse }
        ensures alone { seats_of (section_of self.old).seat ≡ 1 → ((seat : ℕ) → result ≢ IsTaken seat) × ((time : ℕ) → result ≢ Stale time) }
        ensures aborts { aborts_before self.new ≡ aborts_before self.old }
        ensures bound { MakesAtMost (section_of self.old).seat (section_of self.new).seat 18 }
    {
        if self.has_lock(object) {
            self.write(object, words);
            return LockAnswer::Held;
        }
        let domain = self.domain;
        let part = &mut self.part;
        lock_at::<P, Brand>(
            &domain.shared,
            &mut part.busy,
            object,
            Some(words),
            Blank::new(1),
        )
    }

    fn write(&mut self, object: u32, words: Words)
        requires { Holds (section_of self.old) object }
        ensures goes_on { GoesOn (section_of self.old) (section_of self.new) }
        ensures rewrites { Rewrites (section_of self.old) (section_of self.new) object words }
        ensures aborts { aborts_before self.new ≡ aborts_before self.old }
        ensures bound { MakesAtMost (section_of self.old).seat (section_of self.new).seat 6 }
    {
        let domain = self.domain;
        let part = &mut self.part;
        write_at::<P, Brand>(&domain.shared, &mut part.busy, object, words, Blank::new(1))
    }

    // In a domain of one seat it never answers `Again`.
    fn try_commit(self, tag: Tag) -> CommitAnswer<Handle<'d, P>, Session<'d, P>>
        requires some { 0 < length (section_of self).own }
        requires fit { IsFit P.allowed (snapshot_of (section_of self)) tag (section_of self).own }
        ensures done { OnDone result (λ back time. Commits (section_of self.entry) tag (handled back) time
            × Loaded (section_of self.entry) (handled back) (time - 1)) }
        ensures again { OnAgain result (λ left rival. ⟦<Session<'d, P> as Section>⟧.may_refuse × IsAsBefore (section_of self.entry) (section_of left)
            × Overtakes (section_of self.entry) (section_of left) rival.seat rival.time (Loaded (section_of self.entry) (section_of left).seat)) }
        ensures end { OnEnd result (λ left. IsAsBefore (section_of self.entry) (section_of left) × IsWorn (section_of left).seat
            × Loaded (section_of self.entry) (section_of left).seat (section_of left).seat.last) }
        ensures alone { OnAgain result (λ left rival. seats_of (section_of self.entry).seat ≢ 1) }
        ensures at_most_one { length (commit_exchanges (call_trail (section_of self.entry).seat (seat_after handled section_of result))) ≤ 1 }
        ensures one_won { OnDone result (λ back time. ⟦<Session<'d, P> as Section>⟧.has_trail
            → IsOneWon (commit_exchanges (call_trail (section_of self.entry).seat (handled back)))) }
        ensures one_lost { OnAgain result (λ left rival. ⟦<Session<'d, P> as Section>⟧.has_trail
            → IsOneLost (commit_exchanges (call_trail (section_of self.entry).seat (section_of left).seat))) }
        ensures aborts { count_after aborts_of aborts_before result ≡ aborts_before self.entry }
        ensures bound { MakesAtMost (section_of self.entry).seat (seat_after handled section_of result) (8 + length (section_of self.entry).own) }
    {
        let Session { domain, part } = self;
        let SectionState { busy } = part;
        match commit_at::<P, Brand>(&domain.shared, busy, tag, Blank::new(1)) {
            CommitAnswer::Done(idle, time) => {
                let seat = Seat { idle };
                CommitAnswer::Done(Handle { domain, seat }, time)
            },
            CommitAnswer::Again(busy, rival) => {
                let part = SectionState { busy };
                CommitAnswer::Again(Session { domain, part }, rival)
            }
            CommitAnswer::End(busy) => {
                let part = SectionState { busy };
                CommitAnswer::End(Session { domain, part })
            }
        }
    }

    fn abort(self) -> Handle<'d, P>
        ensures leaves { Leaves (section_of self.entry) (handled result) }
        ensures aborts { aborts_of result ≡ aborts_with (section_of self.entry).own (aborts_before self.entry) }
        ensures bound { MakesAtMost (section_of self.entry).seat (handled result) (length (section_of self.entry).own + 2) }
    {
        let Session { domain, part } = self;
        let SectionState { busy } = part;
        let idle = abort_at::<P, Brand>(&domain.shared, busy, Blank::new(1));
        let seat = Seat { idle };
        Handle { domain, seat }
    }

    fn leave(self) -> Handle<'d, P>
        requires { (section_of self).own ≡ [] }
        ensures leaves { Leaves (section_of self.entry) (handled result) }
        ensures one_step { ⟦<Session<'d, P> as Section>⟧.has_trail → length (call_trail (section_of self.entry).seat (handled result)) ≤ 1 }
        ensures aborts { aborts_of result ≡ aborts_before self.entry }
        ensures bound { MakesAtMost (section_of self.entry).seat (handled result) 1 }
    {
        let Session { domain, part } = self;
        let SectionState { busy } = part;
        let idle = leave_at::<P, Brand>(&domain.shared, busy, Blank::new(1));
        let seat = Seat { idle };
        Handle { domain, seat }
    }
}
