// Ending a section.
ghost use Rattle.std.specs.Prelude.{◌≡◌, ◌≢◌, ◌+◌, ◌<◌, ◌≤◌, ◌-◌, [], length};
ghost use Rattle.mv_history.specs.Drift.{IsFit};
ghost use Rattle.mv_history.specs.Answer.{OnDone, OnAgain, OnEnd, seat_after};
ghost use Rattle.mv_history.specs.Trail.{commit_exchanges, IsOneWon, IsOneLost};
ghost use Rattle.mv_history.specs.Meaning.{IsSeat, IsSection, snapshot_of, IsWorn};
ghost use Rattle.mv_history.specs.Calls.{call_trail, IsAsBefore, Leaves, Commits, Overtakes};
ghost use Rattle.commit_abort.specs.Aborts.{abort_cost};
ghost use Rattle.mvrlu.specs.Placed.{seat_from, section_from, Fits};
ghost use Rattle.mvrlu.specs.Causes.{Loaded};
ghost use Rattle.mvrlu.specs.Meant.{aborts_with, count_after};
ghost use Rattle.mvrlu.specs.Bounds.{MakesAtMost};
ghost use Rattle.mvrlu.specs.Holding.{seats_of};

use crate::places::{Busy, Idle, SeatState};
use commit_abort::{Ended, abort, commit};
use mv_history::{CommitAnswer, Protocol, Tag};
use object_lock::mv_core::{Shared, Steps};
use std::sync::ledger::{Blank, Ledger};

// Tries to commit what is held.
pub(crate) fn commit_at<P: Protocol, L: Ledger>(
    shared: &Shared<P>,
    busy: Busy<P>,
    tag: Tag,
    blank: Blank,
) -> CommitAnswer<Idle<P>, Busy<P>>
    requires name { blank.name ≡ L.name }
    requires parts { (blank.parts ≡ L.parts) × (0 < L.parts) }
    requires fits { Fits shared.now busy }
    requires some { 0 < length (section_from busy).own }
    requires fit { IsFit P.allowed (snapshot_of (section_from busy)) tag (section_from busy).own }
    ensures fits_done { OnDone result (λ back time. Fits shared.now back × IsSeat P.start P.allowed (seat_from back)) }
    ensures fits_again { OnAgain result (λ left rival. Fits shared.now left × IsSection P.start P.allowed (section_from left)) }
    ensures fits_end { OnEnd result (λ left. Fits shared.now left × IsSection P.start P.allowed (section_from left)) }
    ensures done { OnDone result (λ back time. Commits (section_from busy) tag (seat_from back) time × Loaded (section_from busy) (seat_from back) (time - 1)) }
    ensures again { OnAgain result (λ left rival. IsAsBefore (section_from busy) (section_from left)
        × Overtakes (section_from busy) (section_from left) rival.seat rival.time (Loaded (section_from busy) (section_from left).seat)) }
    ensures end { OnEnd result (λ left. IsAsBefore (section_from busy) (section_from left) × IsWorn (section_from left).seat
        × Loaded (section_from busy) (section_from left).seat (section_from left).seat.last) }
    ensures alone { OnAgain result (λ left rival. seats_of (section_from busy).seat ≢ 1) }
    ensures at_most_one { length (commit_exchanges (call_trail (section_from busy).seat (seat_after seat_from section_from result))) ≤ 1 }
    ensures one_won { OnDone result (λ back time. IsOneWon (commit_exchanges (call_trail (section_from busy).seat (seat_from back)))) }
    ensures one_lost { OnAgain result (λ left rival. IsOneLost (commit_exchanges (call_trail (section_from busy).seat (section_from left).seat))) }
    ensures aborts { count_after (λ p. p.log.aborts) (λ p. p.log.aborts) result ≡ busy.log.aborts }
    ensures bound { MakesAtMost (section_from busy).seat (seat_after seat_from section_from result) (8 + length (section_from busy).own) }
{
    let mut steps = Steps::<L>::open(blank);
    let Busy { mut place } = busy;
    let SeatState { pass, log } = &mut *place;
    match commit(shared, pass, log, tag, &mut steps) {
        Ended::Done(time) => CommitAnswer::Done(Idle { place }, time),
        Ended::Again(rival) => CommitAnswer::Again(Busy { place }, rival),
        Ended::End => CommitAnswer::End(Busy { place }),
    }
}

// Gives up what is held.
pub(crate) fn abort_at<P: Protocol, L: Ledger>(
    shared: &Shared<P>,
    busy: Busy<P>,
    blank: Blank,
) -> Idle<P>
    requires name { blank.name ≡ L.name }
    requires parts { (blank.parts ≡ L.parts) × (0 < L.parts) }
    requires fits { Fits shared.now busy }
    ensures fits { Fits shared.now result }
    ensures lawful { IsSeat P.start P.allowed (seat_from result) }
    ensures leaves { Leaves (section_from busy) (seat_from result) }
    ensures aborts { result.log.aborts ≡ aborts_with (section_from busy).own busy.log.aborts }
    ensures bound { MakesAtMost (section_from busy).seat (seat_from result) (abort_cost (length (section_from busy).own)) }
{
    let mut steps = Steps::<L>::open(blank);
    let Busy { mut place } = busy;
    let SeatState { pass, log } = &mut *place;
    abort(shared, pass, log, &mut steps);
    Idle { place }
}

// Leaves a section that holds nothing.
pub(crate) fn leave_at<P: Protocol, L: Ledger>(
    shared: &Shared<P>,
    busy: Busy<P>,
    blank: Blank,
) -> Idle<P>
    requires name { blank.name ≡ L.name }
    requires parts { (blank.parts ≡ L.parts) × (0 < L.parts) }
    requires fits { Fits shared.now busy }
    requires nothing { (section_from busy).own ≡ [] }
    ensures fits { Fits shared.now result }
    ensures lawful { IsSeat P.start P.allowed (seat_from result) }
    ensures leaves { Leaves (section_from busy) (seat_from result) }
    ensures aborts { result.log.aborts ≡ busy.log.aborts }
    ensures bound { MakesAtMost (section_from busy).seat (seat_from result) 1 }
{
    abort_at::<P, L>(shared, busy, blank)
}
