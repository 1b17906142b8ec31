// A store of a growing set that does commands one after another, and splits buckets behind them.
ghost use Rattle.std.specs.Prelude.{◌≡◌, ◌≤◌, ◌&&◌, true, false, Some, None};
ghost use Rattle.grow_hash.specs.SplitCalls.{most_writes};
ghost use Rattle.grow_report.specs.Turns.{is_added, odd_with};
ghost use Rattle.script_workers.specs.Terms.{causes, OnTried, CommitsNone};
ghost use Rattle.script_workers.specs.GrowLinks.{IsAnsweredBy};

use grow_hash::{GROW_LEVELS, GrowRules, GrowStep, Split, attempt_grow, try_split};
use item_workers::{Runner, Tried};
use mv_history::Store;
use section_work::Place;
use set_model::{Command, Reply};
use std::alloc::{AllocError, Global};

/// A store of a growing set that does commands, each by attempts; behind each second add that replied yes it tries a split
/// until it is answered. What it answers is the command's place and its reply.
pub struct Growing<S: Store<Rules = GrowRules<GROW_LEVELS>>> {
    store: S,
    // Whether the adds that replied yes are an odd number.
    odd: bool,
    // The place and the reply of a command that is done, whose split is due.
    done: Option<(Place, Reply)>,
}

impl<S: Store<Rules = GrowRules<GROW_LEVELS>>> Runner for Growing<S> {
    ghost use Rattle.std.specs.Prelude.{◌≡◌, ◌≤◌, false, None};
    ghost use Rattle.section_work.specs.Causes.{causes};
    ghost use Rattle.grow_hash.specs.GrowPlans.{IsOfGrown};
    ghost use Rattle.grow_hash.specs.SplitCalls.{most_writes};
    ghost use Rattle.script_workers.specs.GrowLinks.{GrowKept, kept, LinkedTurn, IsUnderTurn, turn_begun};

    type Item = Command;

    type Done = (Place, Reply);

    type Store = S;

    type Memo = ();

    ghost Kept = { GrowKept };

    ghost kept_of = { λ w. kept (S.seat_of w.store) w.odd };

    ghost seat_of = { λ k. k.seat };

    ghost first = { λ s. kept (S.seat_of s) false };

    ghost seat_in = { S.seat_of };

    ghost fits = { λ s. most_writes ≤ (S.seat_of s).write_max };

    ghost ready = { λ w. (w.done ≡ None) × (most_writes ≤ (S.seat_of w.store).write_max) };

    ghost does = { IsOfGrown };

    ghost width_of = { λ command. 1 };

    ghost under = { λ s command w. let shows = causes S.Open.may_refuse S.Open.has_trail S.took S.holds_back S.Open.found_held S.Open.loaded in
        IsUnderTurn shows s command (kept (S.seat_of w.store) w.odd) w.done };

    ghost link = { LinkedTurn (causes S.Open.may_refuse S.Open.has_trail S.took S.holds_back S.Open.found_held S.Open.loaded) };

    fn memo(_alloc: Global) -> Result<(), AllocError> {
        Ok(())
    }

    fn new(store: S, _memo: ()) -> Growing<S> {
        Growing {
            store,
            odd: false,
            done: None,
        }
    }

    fn into_store(self) -> S {
        let Growing {
            store: last,
            odd: _,
            done: _,
        } = self;
        last
    }

    fn seat(&self) -> u32 {
        self.store.seat()
    }

    fn width(_item: &Command) -> u32 {
        1
    }

    fn attempt(self, item: &Command) -> (Growing<S>, Tried<(Place, Reply)>) {
        let Growing { store, odd, done } = self;
        if let Some((place, reply)) = done {
            return split(store, place, reply);
        }
        let (store, step) = attempt_grow(store, item);
        match step {
            GrowStep::Done { reply, place } => {
                let added = is_added(item, reply);
                if is_due(odd, added) {
                    return split(store, place, reply);
                }
                let odd = odd_with(odd, added);
                (Growing { store, odd, done }, Tried::Done((place, reply)))
            }
            GrowStep::Again(_) => (Growing { store, odd, done }, Tried::Again),
        }
    }

    ghost begins = { λ w command ready does. turn_begun _ command (kept (S.seat_of w.store) w.odd) w.done ready.0 ready.1 };
}

// One try of the split that is due behind a command with this place and this reply. It is due behind the second of two adds.
fn split<S: Store<Rules = GrowRules<GROW_LEVELS>>>(
    store: S,
    place: Place,
    reply: Reply,
) -> (Growing<S>, Tried<(Place, Reply)>)
    requires most { most_writes ≤ (S.seat_of store).write_max }
    ensures tried { let shows = causes S.Open.may_refuse S.Open.has_trail S.took S.holds_back S.Open.found_held S.Open.loaded in
        OnTried (λ d. (d ≡ (place, reply)) × (result.0.odd ≡ false) × (result.0.done ≡ None)
        × IsAnsweredBy shows (S.seat_of store) (S.seat_of result.0.store))
        ((result.0.odd ≡ true) × (result.0.done ≡ Some (place, reply)) × CommitsNone (S.seat_of store) (S.seat_of result.0.store)) result.1 }
{
    let (store, split) = try_split(store);
    match split {
        Split::Again(_) => {
            let (odd, done) = (true, Some((place, reply)));
            (Growing { store, odd, done }, Tried::Again)
        }
        _ => {
            let (odd, done) = (false, None);
            (Growing { store, odd, done }, Tried::Done((place, reply)))
        }
    }
}

// Whether a command is an add that replied yes.
fn is_added(command: &Command, reply: Reply) -> bool
    ensures { result ≡ is_added command.now reply }
{
    matches!(command, Command::Add { .. }) && matches!(reply, Reply::Yes)
}

// Whether a split is due behind a command: an add that replied yes, and an odd number of such adds before it.
fn is_due(odd: bool, added: bool) -> bool
    ensures { result ≡ (odd && added) }
{
    odd && added
}

// Whether the adds that replied yes are an odd number, with one more if this is one.
fn odd_with(odd: bool, added: bool) -> bool
    ensures { result ≡ odd_with odd added }
{
    if added { !odd } else { odd }
}
