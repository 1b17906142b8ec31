// One work as one section of a store.
ghost use Rattle.section_work.specs.declared.work.Decision.TheVariants.{Settled, Change};
ghost use Rattle.std.specs.Prelude.{◌≡◌, ◌≢◌, ◌≤◌, ◌==◌};
ghost use Rattle.section_work.specs.Terms.{ℕ, State, Seat, snapshot_of, Continues, Prepares};
ghost use Rattle.section_work.specs.Sections.{TriesOne};
ghost use Rattle.section_work.specs.Causes.{causes};
ghost use Rattle.section_work.specs.Works.{IsFound, IsChange};
ghost use Rattle.section_work.specs.Attempts.{Attempted, HasSpace, Noted, MayNote};
ghost use Rattle.section_work.specs.Steps.{IsStepped, Follows, Looks};

use crate::causes::Cause;
use crate::locking::hold_planned;
use crate::place::Place;
use crate::work::{Decision, Work};
use mv_history::{CommitAnswer, Room, Section, Store};

/// What an attempt of a work answers.
pub enum Attempt<R> {
    /// The work took place there, with this reply.
    Done { reply: R, place: Place },
    /// The change that the work makes was given up. In a new attempt it may go through.
    Again(Cause),
}

/// Attempts a work in one section of the store, and gives the store back.
///
/// It never waits or tries again by itself, and takes no memory but what the work takes. It enters one section, and a second
/// one only where its commit found no time left; a work that changes nothing locks nothing.
///
/// - `Done` at a `Place::Commit`: the work changed the state, by one commit of that printed time, in a section that this call
///   entered.
/// - `Done` at a `Place::Read`: the work changes nothing at that printed time, which is that of a section that this call
///   entered, and the reply is that of the state there.
/// - `Again`: the work would change something at the time of the section that this call entered, which isn't the last one. A
///   lock of an object that it locks or the commit was refused, for an entry or a seat that was met in this call; or this
///   call's `prepare` found no room for a write set in the seat's log. No commit was made, nothing is held, and the seat is
///   outside a section; rests may have been made for room.
pub fn attempt_work<W: Work, S: Store<Rules = W::Rules>>(
    store: S,
    work: &W,
    memo: &mut W::Memo,
) -> (S, Attempt<W::Reply>)
    requires most { (W.means work.now).most ≤ (S.seat_of store).write_max }
    requires accepts { W.accepts work.now }
    requires knows { W.knows memo.old (S.seat_of store) }
    ensures attempted { let shows = causes S.Open.may_refuse S.Open.has_trail S.took S.holds_back S.Open.found_held S.Open.loaded in
        Attempted shows (W.means work.now) (S.seat_of store) (S.seat_of result.0) result.1 }
    ensures continues { Continues (S.seat_of store) (S.seat_of result.0) }
    ensures at_most_one { TriesOne (S.seat_of store) (S.seat_of result.0) }
    ensures knows { W.knows memo.new (S.seat_of result.0) }
    ensures noted { Noted (W.notes work.now) (S.seat_of store) (S.seat_of result.0) memo.old memo.new }
    ensures steps { let shows = causes S.Open.may_refuse S.Open.has_trail S.took S.holds_back S.Open.found_held S.Open.loaded in
        IsStepped S.Open.section S.Open.as_before shows (S.seat_of store) (S.seat_of result.0) result.1 }
{
    let mut store = store;
    let room = store.prepare();
    let (section, time, found) = look(store, work, memo);
    match found {
        Decision::Settled(reply) => {
            let place = Place::Read(time);
            (section.leave(), Attempt::Done { reply, place })
        }
        Decision::Change { plan, reply } => match room {
            Room::Enough => commit(section, work, memo, plan, reply),
            Room::Short(holder) => (section.leave(), Attempt::Again(Cause::LogFull(holder))),
        },
    }
}

// Enters a section and decides in it, as of its printed time. At the last time nothing is changed any more. Inlined, so that
// neither the section nor what is found is copied on its way out.
#[inline(always)]
fn look<W: Work, S: Store<Rules = W::Rules>>(
    store: S,
    work: &W,
    memo: &mut W::Memo,
) -> (S::Open, u64, Decision<W::Reply, W::WriteSet>)
    requires accepts { W.accepts work.now }
    requires knows { W.knows memo.old (S.seat_of store) }
    ensures looks { let shows = causes S.Open.may_refuse S.Open.has_trail S.took S.holds_back S.Open.found_held S.Open.loaded in
        Looks S.Open.section S.Open.as_before shows (S.seat_of store) result.0 result.1 }
    ensures settled { (reply : W.Reply) → result.2 ≡ Settled reply →
        (W.means work.now).settles (snapshot_of (S.Open.section result.0)) (result.1 == (S.Open.section result.0).seat.last) reply }
    ensures change { (plan : W.WriteSet) (reply : W.Reply) → result.2 ≡ Change plan reply → IsChange W.Rules.allowed (W.means work.now)
        (S.Open.section result.0) (W.tag_of work.now plan) (W.writes_of memo.new plan) reply }
    ensures knows { W.knows memo.new (S.Open.section result.0).seat }
    ensures notes { W.notes work.now memo.old memo.new (snapshot_of (S.Open.section result.0)) }
{
    let section = store.enter();
    let time = section.at();
    let last = section.last();
    let (section, found) = work.decide(memo, section, time);
    let found = in_time(work, found, time, last);
    (section, time, found)
}

// What is found at this time, where at the last time a change comes too late.
fn in_time<W: Work>(
    work: &W,
    found: Decision<W::Reply, W::WriteSet>,
    time: u64,
    last: u64,
) -> Decision<W::Reply, W::WriteSet>
    ensures settled { (memo : W.Memo) (s : State) (reply : W.Reply) → IsFound W.Rules.allowed (W.means work.now) (W.tag_of work.now) (W.writes_of memo) s found
        → result ≡ Settled reply → (W.means work.now).settles s (time == last) reply }
    ensures change { (plan : W.WriteSet) (reply : W.Reply) → result ≡ Change plan reply → (time ≢ last) × (found ≡ Change plan reply) }
{
    if time != last {
        return found;
    }
    match found {
        Decision::Settled(reply) => Decision::Settled(reply),
        Decision::Change { plan: _, reply } => Decision::Settled(work.at_last(reply)),
    }
}

// Locks what is planned, with its words, in a section that was only read, and commits it.
fn commit<W: Work, S: Store<Rules = W::Rules>>(
    section: S::Open,
    work: &W,
    memo: &mut W::Memo,
    plan: W::WriteSet,
    reply: W::Reply,
) -> (S, Attempt<W::Reply>)
    requires change { IsChange W.Rules.allowed (W.means work.now) (S.Open.section section) (W.tag_of work.now plan)
        (W.writes_of memo.old plan) reply }
    requires space { HasSpace (W.means work.now).most (S.Open.section section) }
    requires accepts { W.accepts work.now }
    requires knows { W.knows memo.old (S.Open.section section).seat }
    ensures attempted { let shows = causes S.Open.may_refuse S.Open.has_trail S.took S.holds_back S.Open.found_held S.Open.loaded in
        (old before : Seat) (time : ℕ) → Prepares old before → Looks S.Open.section S.Open.as_before shows before section time →
        Attempted shows (W.means work.now) old (S.seat_of result.0) result.1 }
    ensures continues { Continues (S.Open.section section).seat (S.seat_of result.0) }
    ensures at_most_one { TriesOne (S.Open.section section).seat (S.seat_of result.0) }
    ensures knows { W.knows memo.new (S.seat_of result.0) }
    ensures noted { (old : Seat) → Continues old (S.Open.section section).seat → MayNote (W.notes work.now) old (S.seat_of result.0) memo.old memo.new }
    ensures follows { let shows = causes S.Open.may_refuse S.Open.has_trail S.took S.holds_back S.Open.found_held S.Open.loaded in
        Follows S.Open.section S.Open.as_before shows section (S.seat_of result.0) result.1 }
{
    let mut section = section;
    if let Err(refusal) = hold_planned(&mut section, W::writes(memo, &plan)) {
        return (section.abort(), Attempt::Again(Cause::Lock(refusal)));
    }
    match section.try_commit(work.tag(&plan)) {
        CommitAnswer::Done(store, time) => {
            let place = Place::Commit(time);
            (store, Attempt::Done { reply, place })
        }
        CommitAnswer::Again(section, rival) => {
            (section.abort(), Attempt::Again(Cause::Rival(rival)))
        }
        CommitAnswer::End(section) => {
            // Its seat has no time left, so that a second look is settled.
            let (section, time, found) = look(section.abort(), work, memo);
            let Decision::Settled(reply) = found else {
                unreachable!()
            };
            let store: S = section.leave();
            let place = Place::Read(time);
            (store, Attempt::Done { reply, place })
        }
    }
}
