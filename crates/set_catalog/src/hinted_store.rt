// A store of the sets with its hints.
ghost use Rattle.std.specs.Prelude.{◌≡◌, ◌≤◌};

use crate::answer::CommandAttempt;
use crate::attempting::attempt_knowing;
use crate::memo::Memo;
use mv_history::Store;
use set_model::{Command, SetRules};
use std::marker::Model;

/// A store and the hints of its seat, which runs commands one after another.
///
/// Beside the hints it keeps how few nodes were vacant when a look through all of them found too few,
/// and at which printed time; no clause speaks of that. While nothing but its own commits that free no
/// node comes in between, it answers `Full` with no further look; after a rest or an entry of another
/// seat it looks again. Nothing else can reach the store meanwhile, so what is known is of this very
/// store's history.
///
/// It also keeps fingers into lists and buckets (`list_set::Fingers`), at which its searches begin; no
/// clause speaks of that either.
///
/// All of that is boxed, with room for what a command plans, so that who moves it moves few words.
pub struct HintedStore<S: Store<Rules = SetRules>> {
    store: S,
    memo: Box<Memo>,
}

impl<S: Store<Rules = SetRules>> Model for HintedStore<S> {
    ghost use Rattle.set_catalog.specs.Shortages.{IsKnown, StoreWithHints};

    ghost Value = { StoreWithHints S };

    ghost view = { λ s. record { store = s.store; hints = s.memo.value.hints } };

    ghost invariant = { λ s. IsKnown (S.seat_of s.store) s.memo.value.known };
}

impl<S: Store<Rules = SetRules>> HintedStore<S> {
    ghost use Rattle.section_work.specs.Causes.{causes};
    ghost use Rattle.set_catalog.specs.Steps.{most_locks};
    ghost use Rattle.set_catalog.specs.Attempts.{Attempted, HintsAfter, as_work};
    ghost use Rattle.section_work.specs.Sections.{TriesOne};
    ghost use Rattle.section_work.specs.Steps.{IsStepped};

    /// The store, with these hints, which become those of its seat; of what else is remembered nothing is kept but the fingers.
    /// It takes no memory.
    pub fn new(store: S, memo: Box<Memo>) -> HintedStore<S>
        ensures store { result.store ≡ store }
        ensures hints { result.hints ≡ memo.value.hints }
    {
        let mut memo = memo;
        memo.begin(store.seat());
        HintedStore { store, memo }
    }

    /// Attempts a command in one section of the store, as [`attempt_with`](crate::attempt_with) does
    /// with these hints. It takes no memory.
    ///
    /// Where fewer nodes are known to be vacant at the section's time than the command wants, it reads
    /// no node to find that out again.
    pub fn attempt(self, command: &Command) -> (HintedStore<S>, CommandAttempt)
        requires most { most_locks ≤ (S.seat_of self.store).write_max }
        ensures attempted { let shows = causes S.Open.may_refuse S.Open.has_trail S.took S.holds_back S.Open.found_held S.Open.loaded in
            Attempted shows (S.seat_of self.store) (S.seat_of result.0.store) command.now result.1 }
        ensures steps { let shows = causes S.Open.may_refuse S.Open.has_trail S.took S.holds_back S.Open.found_held S.Open.loaded in
            IsStepped S.Open.section S.Open.as_before shows (S.seat_of self.store) (S.seat_of result.0.store) (as_work result.1) }
        ensures noted { HintsAfter command.now self.hints result.0.hints (S.seat_of self.store) (S.seat_of result.0.store) result.1 }
        ensures at_most_one { TriesOne (S.seat_of self.store) (S.seat_of result.0.store) }
    {
        let HintedStore { store, mut memo } = self;
        let (store, answer) = attempt_knowing(store, &mut memo, command);
        (HintedStore { store, memo }, answer)
    }

    /// The store, to look at.
    pub fn store(&self) -> &S
        ensures store { result.now ≡ self.now.store }
    {
        &self.store
    }

    /// The store again, without the hints.
    pub fn into_store(self) -> S
        ensures { result ≡ self.store }
    {
        let HintedStore { store, memo: _ } = self;
        store
    }
}
