// Sections that a closure fills, and that are then committed.
ghost use Rattle.std.specs.Prelude.{◌≡◌, ◌+◌, ◌<◌, length, None};
ghost use Rattle.mv_history.specs.Meaning.{IsWorn};
ghost use Rattle.mv_client.specs.declared.updating.Outcome.TheVariants.{End};
ghost use Rattle.mv_history.specs.Calls.{Continues};
ghost use Rattle.section_work.specs.Causes.{causes};
ghost use Rattle.mv_client.specs.Closures.{MayShow, Shows};
ghost use Rattle.mv_client.specs.Updates.{Answer, Opened, Filled, IsForCommit, commits_in, Exchanged, Updated, UpdatedLast, outcome_of, Repeated};

use crate::beginning::begin;
use mv_history::{CommitAnswer, Room, Section, Store, Tag};
use section_work::{Cause, Decision, Place, Refusal};
use std::sync::Wait;
use std::thread;

/// What an update comes to.
#[derive(Drop)]
pub enum Outcome<T> {
    /// It took place there, with this reply: as the commit of that time, or, where nothing was to be committed, as a read.
    Done { reply: T, place: Place },
    /// Something was in the way, and nothing was committed. A new update may go through.
    Again(Cause),
    /// The store's last time has been reached, so nothing can be committed any more.
    End,
}

/// Enters one section, lets the closure decide and fill it, commits what it then holds, and gives the store back.
///
/// The closure answers one of three: `Ok(Decision::Change { plan, reply })` commits what it has put in the section, under
/// the tag `plan`; `Ok(Decision::Settled(reply))` commits nothing; and the `Err` of a `put` or a `lock_all`, by `?`, gives
/// the section up. It is shown a section that holds nothing, with room for a write set.
///
/// It makes one commit or none, takes no memory but what the closure takes, and never waits or tries again by itself. Where the
/// store tells its trail, one exchange on CLOCK for a commit was won where it is `Done` at a `Place::Commit`, and one was lost
/// where a rival came first; in the other answers but `End` there is none.
///
/// - `Done` at a `Place::Commit`: what the closure left is the commit of that printed time, the seat's last one.
/// - `Done` at a `Place::Read`: the closure had nothing to commit, in a section of that printed time.
/// - `Again`: the log had no room for a write set, so that no section was entered; the closure answered that a lock was
///   refused; or another seat's entry came before the commit. Nothing is held.
/// - `End`: no time was left for the commit.
pub fn update<S: Store, T: Drop, F: Fn(&mut S::Open) -> Result<Decision<T, Tag>, Refusal>>(
    store: S,
    fill: F,
) -> (S, Outcome<T>)
    requires callable { (s : S.Open) → Opened (S.seat_of store) (S.Open.state s) (S.Open.section s) → MayShow F.Fn fill s }
    requires fills { (s t : S.Open) (r : Answer T) → Opened (S.seat_of store) (S.Open.state s) (S.Open.section s) → Shows F.Fn fill s r t
        → Filled S.Rules.allowed (S.Open.section s) (S.Open.section t) r }
    ensures continues { Continues (S.seat_of store) (S.seat_of result.0) }
    ensures commits { length (S.seat_of result.0).mine ≡ length (S.seat_of store).mine + commits_in result.1 }
    ensures worn { result.1 ≡ End → IsWorn (S.seat_of result.0) }
    ensures exchanges { Exchanged S.Open.has_trail (S.seat_of store) (S.seat_of result.0) result.1 }
    ensures updated { let shows = causes S.Open.may_refuse S.Open.has_trail S.took S.holds_back S.Open.found_held S.Open.loaded in
        Updated shows S.Open.section (Shows F.Fn fill) (S.seat_of store) (S.seat_of result.0) result.1 }
{
    attempt(store, &fill)
}

// The one section of an update.
fn attempt<S: Store, T: Drop, F: Fn(&mut S::Open) -> Result<Decision<T, Tag>, Refusal>>(
    store: S,
    fill: &F,
) -> (S, Outcome<T>)
    requires callable { (s : S.Open) → Opened (S.seat_of store) (S.Open.state s) (S.Open.section s) → MayShow F.Fn fill.now s }
    requires fills { (s t : S.Open) (r : Answer T) → Opened (S.seat_of store) (S.Open.state s) (S.Open.section s) → Shows F.Fn fill.now s r t
        → Filled S.Rules.allowed (S.Open.section s) (S.Open.section t) r }
    ensures { let shows = causes S.Open.may_refuse S.Open.has_trail S.took S.holds_back S.Open.found_held S.Open.loaded in
        Updated shows S.Open.section (Shows F.Fn fill.now) (S.seat_of store) (S.seat_of result.0) result.1 }
{
    let mut store = store;
    match store.prepare() {
        Room::Enough => {}
        Room::Short(holder) => return (store, Outcome::Again(Cause::LogFull(holder))),
    }
    let mut section = begin(store);
    match fill(&mut section) {
        Ok(Decision::Change { plan: tag, reply }) => match section.try_commit(tag) {
            CommitAnswer::Done(store, time) => {
                let place = Place::Commit(time);
                (store, Outcome::Done { reply, place })
            }
            CommitAnswer::Again(section, rival) => {
                (section.abort(), Outcome::Again(Cause::Rival(rival)))
            }
            CommitAnswer::End(section) => (section.abort(), Outcome::End),
        },
        Ok(Decision::Settled(reply)) => {
            let place = Place::Read(section.at());
            (section.abort(), Outcome::Done { reply, place })
        }
        Err(refusal) => (section.abort(), Outcome::Again(Cause::Lock(refusal))),
    }
}

/// Updates so often at most, 1 or more, until the answer isn't `Again`, and gives the store back with the last answer.
///
/// No clause counts its exchanges on CLOCK: it loses one for each rival, and of rivals nothing else is told.
pub fn update_at_most<S: Store, T: Drop, F: Fn(&mut S::Open) -> Result<Decision<T, Tag>, Refusal>>(
    store: S,
    tries: u32,
    fill: F,
) -> (S, Outcome<T>)
    requires some { 0 < tries }
    requires callable { (s : S.Open) → Opened (S.seat_of store) (S.Open.state s) (S.Open.section s) → MayShow F.Fn fill s }
    requires fills { (s t : S.Open) (r : Answer T) → Opened (S.seat_of store) (S.Open.state s) (S.Open.section s) → Shows F.Fn fill s r t
        → Filled S.Rules.allowed (S.Open.section s) (S.Open.section t) r }
    ensures continues { Continues (S.seat_of store) (S.seat_of result.0) }
    ensures commits { length (S.seat_of result.0).mine ≡ length (S.seat_of store).mine + commits_in result.1 }
    ensures worn { result.1 ≡ End → IsWorn (S.seat_of result.0) }
    ensures updated { let shows = causes S.Open.may_refuse S.Open.has_trail S.took S.holds_back S.Open.found_held S.Open.loaded in
        UpdatedLast shows S.Open.section (Shows F.Fn fill) (S.seat_of store) (S.seat_of result.0) result.1 }
{
    let (mut store, mut answer) = attempt(store, &fill);
    for _nth in 1..tries {
        if let Outcome::Again(_) = answer {
            thread::yield_now();
            let (next, last) = attempt(store, &fill);
            store = next;
            answer = last;
        }
    }
    (store, answer)
}

/// Updates until it is done, and gives the store back with the reply and its place. There is none only where the store's
/// last time has been reached.
///
/// It may go on for ever where others always come first, so it takes a `Wait`.
pub fn update_until<
    R: Wait,
    S: Store,
    T: Drop,
    F: Fn(&mut S::Open) -> Result<Decision<T, Tag>, Refusal>,
>(rt: &R, store: S, fill: F) -> (S, Option<(T, Place)>)
    requires callable { (s : S.Open) → Opened (S.seat_of store) (S.Open.state s) (S.Open.section s) → MayShow F.Fn fill s }
    requires fills { (s t : S.Open) (r : Answer T) → Opened (S.seat_of store) (S.Open.state s) (S.Open.section s) → Shows F.Fn fill s r t
        → Filled S.Rules.allowed (S.Open.section s) (S.Open.section t) r }
    ensures continues { Continues (S.seat_of store) (S.seat_of result.0) }
    ensures commits { length (S.seat_of result.0).mine ≡ length (S.seat_of store).mine + commits_in (outcome_of result.1) }
    ensures worn { result.1 ≡ None → IsWorn (S.seat_of result.0) }
    ensures updated { let shows = causes S.Open.may_refuse S.Open.has_trail S.took S.holds_back S.Open.found_held S.Open.loaded in
        UpdatedLast shows S.Open.section (Shows F.Fn fill) (S.seat_of store) (S.seat_of result.0) (outcome_of result.1) }
{
    until(rt, store, &fill)
}

/// Makes so many commits, each an update until it is done, and gives the store back with how many were made. There are fewer
/// only where the store's last time has been reached. The closure has something to commit each time.
pub fn update_times<
    R: Wait,
    S: Store,
    T: Drop,
    F: Fn(&mut S::Open) -> Result<Decision<T, Tag>, Refusal>,
>(rt: &R, store: S, times: u32, fill: F) -> (S, u32)
    requires callable { (s : S.Open) → Opened (S.seat_of store) (S.Open.state s) (S.Open.section s) → MayShow F.Fn fill s }
    requires fills { (s t : S.Open) (r : Answer T) → Opened (S.seat_of store) (S.Open.state s) (S.Open.section s) → Shows F.Fn fill s r t
        → Filled S.Rules.allowed (S.Open.section s) (S.Open.section t) r }
    requires commits { (s t : S.Open) (r : Answer T) → Shows F.Fn fill s r t → IsForCommit r }
    ensures { Repeated (S.seat_of store) (S.seat_of result.0) times result.1 }
{
    let mut store = store;
    let mut done = 0;
    for _nth in 0..times {
        let (next, answer) = until(rt, store, &fill);
        store = next;
        match answer {
            Some(_) => done += 1,
            None => return (store, done),
        }
    }
    (store, done)
}

// The updates of one commit.
fn until<R: Wait, S: Store, T: Drop, F: Fn(&mut S::Open) -> Result<Decision<T, Tag>, Refusal>>(
    rt: &R,
    store: S,
    fill: &F,
) -> (S, Option<(T, Place)>)
    requires callable { (s : S.Open) → Opened (S.seat_of store) (S.Open.state s) (S.Open.section s) → MayShow F.Fn fill.now s }
    requires fills { (s t : S.Open) (r : Answer T) → Opened (S.seat_of store) (S.Open.state s) (S.Open.section s) → Shows F.Fn fill.now s r t
        → Filled S.Rules.allowed (S.Open.section s) (S.Open.section t) r }
    ensures continues { Continues (S.seat_of store) (S.seat_of result.0) }
    ensures commits { length (S.seat_of result.0).mine ≡ length (S.seat_of store).mine + commits_in (outcome_of result.1) }
    ensures worn { result.1 ≡ None → IsWorn (S.seat_of result.0) }
    ensures updated { let shows = causes S.Open.may_refuse S.Open.has_trail S.took S.holds_back S.Open.found_held S.Open.loaded in
        UpdatedLast shows S.Open.section (Shows F.Fn fill.now) (S.seat_of store) (S.seat_of result.0) (outcome_of result.1) }
{
    let mut store = store;
    for _ in rt.forever() {
        let (next, answer) = attempt(store, fill);
        store = next;
        match answer {
            Outcome::Done { reply, place } => return (store, Some((reply, place))),
            Outcome::Again(_) => thread::yield_now(),
            Outcome::End => return (store, None),
        }
    }
    unreachable!()
}
