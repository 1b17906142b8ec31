// A seat in the hands of a thread.
ghost use Rattle.mvrlu.specs.Placed.{Fits};

use crate::domain::{Domain, Seat};
use crate::entering::enter_at;
use crate::reclaiming::{make_room, tidy_at};
use crate::session::{SectionState, Session};
use log_reclaim::Tidy;
use mv_history::{LogTable, Protocol, Room, Section, Store};
use std::marker::Brand;
use std::sync::ledger::Blank;

/// A seat outside a section, with a loan of its domain: a `Store`. It must be spent, by `enter` or
/// `into_seat`; one that is let go doesn't compile.
pub struct Handle<'d, P: Protocol> {
    pub(crate) domain: &'d Domain<P>,
    pub(crate) seat: Seat<P>,
    pub ghost fits: { Fits domain.now.shared seat.idle },
}

impl<'d, P: Protocol> Store for Handle<'d, P> {
    ghost use Rattle.std.specs.Prelude.{refl, ◌≡◌, ◌<◌, ◌≤◌};
    ghost use Rattle.mv_history.specs.declared.answers.Holder.{Holder};
    ghost use Rattle.mv_history.specs.declared.answers.Holder.TheVariants.{End};
    ghost use Rattle.mv_history.specs.declared.answers.Room.TheVariants.{Enough, Short};
    ghost use Rattle.mv_history.specs.Calls.{Prepares, Enters};
    ghost use Rattle.mvrlu.specs.Meant.{handled, place_of, aborts_of, aborts_before, section_of};
    ghost use Rattle.mvrlu.specs.Causes.{Took};
    ghost use Rattle.mvrlu.specs.Bounds.{MakesAtMost};
    ghost use Rattle.mvrlu.specs.Holding.{seats_of, IsEarly, HoldsBack, HoldsSeat, MakesRoom};

    type Rules = P;

    type Open = Session<'d, P>;

    ghost seat_of = { λ s. handled s };

    ghost took = { λ old new. Took old new };

    ghost holds_back = { λ old new holder. HoldsSeat P.start P.allowed old new holder };

    ghost same_seat = { λ s. refl };

    ghost lawful = { λ s. s.seat.lawful };

    fn seat(&self) -> u32 {
        self.seat.idle.seat()
    }

    fn write_max(&self) -> u32 {
        self.domain.shared.config().write_max
    }

    // A seat's meaning has no log, so `holder` and `room` speak of the handle's own pass and log
    // (`place_of`). Below `low` live slots nothing is done, from `low` on a round with write-backs, and from
    // `high` on a tidy, of the handle's own pass and log. A holder is that of the log that the call left. In
    // a domain of one seat whose last time wasn't reached before, room is made.
    fn prepare(&mut self) -> Room
        ensures prepares { Prepares (handled self.old) (handled self.new) }
        ensures enough { result ≡ Enough → (handled self.new).write_max ≤ (handled self.new).spare }
        ensures short { (holder : Holder) → result ≡ Short holder →
            ⟦<Session<'d, P> as Section>⟧.may_refuse × ((handled self.new).spare < (handled self.new).write_max)
            × HoldsSeat P.start P.allowed (handled self.old) (handled self.new) holder }
        ensures holder { (holder : Holder) → result ≡ Short holder → HoldsBack (place_of self.old) (place_of self.new) holder }
        ensures room { MakesRoom (place_of self.old) (place_of self.new) }
        ensures alone { seats_of (handled self.old) ≡ 1 → IsEarly (handled self.old) → result ≡ Enough }
        ensures ends { (holder : Holder) → seats_of (handled self.old) ≡ 1 → result ≡ Short holder → holder ≡ End }
        ensures aborts { aborts_of self.new ≡ aborts_of self.old }
    {
        let domain = self.domain;
        let seat = &mut self.seat;
        make_room::<P, Brand>(&domain.shared, &mut seat.idle, Blank::new(1))
    }

    fn enter(self) -> Session<'d, P>
        ensures enters { Enters (handled self.entry) (section_of result) }
        ensures took { Took (handled self.entry) (section_of result) }
        ensures aborts { aborts_before result ≡ aborts_of self.entry }
        ensures bound { MakesAtMost (handled self.entry) (section_of result).seat 6 }
    {
        let Handle { domain, seat } = self;
        let Seat { idle } = seat;
        let busy = enter_at::<P, Brand>(&domain.shared, idle, Blank::new(1));
        let part = SectionState { busy };
        Session { domain, part }
    }
}

impl<'d, P: Protocol> Handle<'d, P> {
    ghost use Rattle.std.specs.Prelude.{◌≡◌};
    ghost use Rattle.mvrlu.specs.Holding.{seats_of, Tidies, TidiesAlone, IsSeatTable};
    ghost use Rattle.mvrlu.specs.Meant.{seat_of, handled, place_of, aborts_in, aborts_of};

    /// Gives the loan of the domain back, and keeps all that the seat means. No step is made.
    pub fn into_seat(self) -> Seat<P>
        ensures meant { seat_of result ≡ handled self.entry }
        ensures placed { result.idle ≡ place_of self.entry }
        ensures aborts { aborts_in result ≡ aborts_of self.entry }
    {
        let Handle { domain: _, seat } = self;
        seat
    }

    /// Reclaims what it can of the own log: a round with write-backs, where it helps one try of a rest,
    /// and a round without. It commits nothing.
    ///
    /// - `freed`: how many slots this call freed, by one step each; `live`: how many are live afterwards.
    /// - `held` is None exactly where the log is then empty. Else the oldest write set is needed still, and
    ///   its holder has a cause in this call's steps:
    ///   - `Mark` only where this call read the mark of that other seat at that low time, and a version of
    ///     the oldest write set needs a watermark above it;
    ///   - `Above` only where this call found SUPER 0 in a committed version of the oldest write set, of
    ///     that object, and later found HEAD of the object naming a version of that other seat, which is a
    ///     newer one;
    ///   - `Fresh` only where another seat made the entry of that printed time after this call's last scan
    ///     had loaded the clock, and a version of the oldest write set needs that time;
    ///   - `End` only where this call found the last time in CLOCK, and a version of the oldest write set
    ///     needs a watermark above it.
    ///
    /// A version that was taken out of its chain needs the watermark one above the clock that its owner
    /// loaded then; a committed one whose object was written again needs the time of that write; any other
    /// its own time.
    ///
    /// In a domain of one seat only `End` comes, and the log is empty afterwards where the last time wasn't
    /// reached before. It makes at most `2 * (4 + seats + 20 * slots) + 8` steps, at most one of them an
    /// exchange on CLOCK; it takes no memory, waits for nothing and tries nothing twice. (MV-RLU, ASPLOS
    /// 2019, section 3.6.)
    pub fn tidy(&mut self) -> Tidy
        ensures tidies { Tidies (place_of self.old) (place_of self.new) result }
        ensures alone { seats_of (handled self.old) ≡ 1 → TidiesAlone (handled self.old) result }
        ensures aborts { aborts_of self.new ≡ aborts_of self.old }
    {
        let domain = self.domain;
        let seat = &mut self.seat;
        tidy_at::<P, Brand>(&domain.shared, &mut seat.idle, Blank::new(1))
    }

    /// The counts of the seat's log, each by its definition: `commits` and `rests` by the seat's part of the
    /// history; `freed` slots, `back` write-backs that cut their chain and `aborts` of sections that held
    /// something by the seat's trail; and `live` slots by those that aren't free. `live + freed`, all slots
    /// that were ever taken, is exactly how many exchanges of HEAD in the trail locked an object. It is at
    /// least as many as the writes of the seat's commits, and exactly as many where nothing was aborted.
    pub fn table(&self) -> LogTable
        ensures table { IsSeatTable (handled self.now) result }
        ensures aborts { result.aborts ≡ aborts_of self.now }
    {
        self.seat.idle.table()
    }
}

impl<P: Protocol> Domain<P> {
    ghost use Rattle.std.specs.Prelude.{◌≡◌};
    ghost use Rattle.mvrlu.specs.Meant.{seat_of, handled, place_of, aborts_in, aborts_of, IsSeatOf};

    /// Lends the domain to a seat of it. The handle means what the seat meant. A seat of another domain,
    /// which has another name, is refused by the condition; a name doesn't tell the opening state, so the
    /// condition asks for both. No step is made.
    pub fn handle<'d>(&'d self, seat: Seat<P>) -> Handle<'d, P>
        requires { IsSeatOf self.now seat }
        ensures meant { handled result ≡ seat_of seat }
        ensures placed { place_of result ≡ seat.idle }
        ensures aborts { aborts_of result ≡ aborts_in seat }
    {
        Handle { domain: self, seat }
    }
}
