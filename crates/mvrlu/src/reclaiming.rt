// Making room in the log of a seat.
ghost use Rattle.std.specs.Prelude.{◌≡◌, ◌<◌, ◌≤◌};
ghost use Rattle.mv_history.specs.declared.answers.Holder.{Holder};
ghost use Rattle.mv_history.specs.declared.answers.Holder.TheVariants.{End};
ghost use Rattle.mv_history.specs.declared.answers.Room.TheVariants.{Enough, Short};
ghost use Rattle.mv_history.specs.Meaning.{IsSeat};
ghost use Rattle.mv_history.specs.Calls.{Prepares};
ghost use Rattle.mvrlu.specs.Placed.{seat_from, IsIdle, Fits};
ghost use Rattle.mvrlu.specs.Holding.{seats_of, IsEarly, HoldsBack, HoldsSeat, Tidies, TidiesAlone, Rounds, MakesRoom};

use crate::places::{Idle, SeatState};
use log_reclaim::{Tidy, round, tidy};
use mv_history::{Protocol, Room};
use object_lock::mv_core::{Shared, Steps};
use object_lock::seat_log::live;
use std::sync::ledger::{Blank, Ledger};

// Reclaims what it can.
pub(crate) fn tidy_at<P: Protocol, L: Ledger>(
    shared: &Shared<P>,
    idle: &mut Idle<P>,
    blank: Blank,
) -> Tidy
    requires name { blank.name ≡ L.name }
    requires parts { (blank.parts ≡ L.parts) × (0 < L.parts) }
    requires fits { Fits shared.now idle.old }
    ensures fits { Fits shared.now idle.new }
    ensures lawful { IsSeat P.start P.allowed (seat_from idle.new) }
    ensures aborts { idle.new.log.aborts ≡ idle.old.log.aborts }
    ensures places { IsIdle P.start P.allowed idle.old × IsIdle P.start P.allowed idle.new }
    ensures tidies { Tidies idle.old idle.new result }
    ensures alone { seats_of (seat_from idle.old) ≡ 1 → TidiesAlone (seat_from idle.old) result }
{
    let mut steps = Steps::<L>::open(blank);
    let SeatState { pass, log } = &mut *idle.place;
    tidy(shared, pass, log, &mut steps)
}

// Makes one round, with write-backs.
pub(crate) fn round_at<P: Protocol, L: Ledger>(
    shared: &Shared<P>,
    idle: &mut Idle<P>,
    blank: Blank,
) -> Tidy
    requires name { blank.name ≡ L.name }
    requires parts { (blank.parts ≡ L.parts) × (0 < L.parts) }
    requires fits { Fits shared.now idle.old }
    ensures fits { Fits shared.now idle.new }
    ensures lawful { IsSeat P.start P.allowed (seat_from idle.new) }
    ensures aborts { idle.new.log.aborts ≡ idle.old.log.aborts }
    ensures rounds { Rounds idle.old idle.new result }
{
    let mut steps = Steps::<L>::open(blank);
    let SeatState { pass, log } = &mut *idle.place;
    round(shared, pass, log, true, &mut steps)
}

// Makes room: nothing below `low` live slots, a round below `high`, and else a tidy.
pub(crate) fn make_room<P: Protocol, L: Ledger>(
    shared: &Shared<P>,
    idle: &mut Idle<P>,
    blank: Blank,
) -> Room
    requires name { blank.name ≡ L.name }
    requires parts { (blank.parts ≡ L.parts) × (0 < L.parts) }
    requires fits { Fits shared.now idle.old }
    ensures fits { Fits shared.now idle.new }
    ensures lawful { IsSeat P.start P.allowed (seat_from idle.new) }
    ensures aborts { idle.new.log.aborts ≡ idle.old.log.aborts }
    ensures prepares { Prepares (seat_from idle.old) (seat_from idle.new) }
    ensures room { MakesRoom idle.old idle.new }
    ensures enough { result ≡ Enough → (seat_from idle.new).write_max ≤ (seat_from idle.new).spare }
    ensures short { (holder : Holder) → result ≡ Short holder → ((seat_from idle.new).spare < (seat_from idle.new).write_max)
        × HoldsBack idle.old idle.new holder × HoldsSeat P.start P.allowed (seat_from idle.old) (seat_from idle.new) holder }
    ensures alone { seats_of (seat_from idle.old) ≡ 1 → IsEarly (seat_from idle.old) → result ≡ Enough }
    ensures ends { (holder : Holder) → seats_of (seat_from idle.old) ≡ 1 → result ≡ Short holder → holder ≡ End }
{
    let config = shared.config();
    let used = live(&idle.place.log);
    if used < config.low {
        return Room::Enough;
    }
    if used < config.high {
        let _ = round_at::<P, L>(shared, idle, blank);
        return Room::Enough;
    }
    let left = tidy_at::<P, L>(shared, idle, blank);
    match left.held {
        Some(holder) if config.slots - left.live < config.write_max => Room::Short(holder),
        _ => Room::Enough,
    }
}
