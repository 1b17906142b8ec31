// A seat of a growing set, with a share of its domain.
ghost use Rattle.std.specs.Prelude.{◌≡◌, ◌≤◌};
ghost use Rattle.mvrlu.specs.Meant.{seat_of, IsSeatOf};
ghost use Rattle.section_work.specs.Sections.{TriesOne};
ghost use Rattle.shared_domain.specs.Met.{domain_of, gathering_of, Closes};
ghost use Rattle.grow_seats.specs.Calls as calls;
ghost use Rattle.grow_seats.specs.Commands.{IsTableOpening, IsTableCommit};

use crate::command::GrowCommand;
use crate::opening::TABLE_LEVELS;
use crate::outside::{attempt_in, count_in, split_in, tidy_in};
use grow_hash::{GrowRules, GrowStep, Split};
use log_reclaim::Tidy;
use mv_history::LogTable;
use mvrlu::Seat;
use shared_domain::{Closed, Share};

/// A seat of a growing set, with a share of its domain, which lasts as long as one of its seats does. It belongs to
/// one thread at a time, and may go from one to another.
pub struct GrowSeat {
    pub(crate) share: Share<GrowRules<TABLE_LEVELS>>,
    pub(crate) seat: Seat<GrowRules<TABLE_LEVELS>>,
    pub ghost of: { IsSeatOf (domain_of share) seat },
    pub ghost room: { 64 ≤ (seat_of seat).write_max },
}

/// Closes the seat.
impl Drop for GrowSeat {
    fn drop(self) {
        drop(self.close());
    }
}

impl GrowSeat {
    /// Attempts a command in one section. It never waits or tries again by itself, and takes no memory. It answers what
    /// `grow_hash::attempt_grow` answers: the reply and its place where it took place, and the cause where its change was
    /// given up, which may go through in a new attempt.
    pub fn attempt(self, command: GrowCommand) -> (GrowSeat, GrowStep)
        ensures attempted { calls.Attempted (seat_of self.seat) (seat_of result.0.seat) command result.1 }
        ensures replied { calls.Replied (seat_of result.0.seat) command result.1 }
        ensures continues { calls.GoesOn self.seat result.0.seat }
        ensures at_most_one { TriesOne (seat_of self.seat) (seat_of result.0.seat) }
    {
        let GrowSeat { share, seat } = self;
        let (seat, step) = attempt_in(share.domain(), seat, command);
        (GrowSeat { share, seat }, step)
    }

    /// Attempts in one section to split the bucket that is next: one commit at most, which leaves the keys as they are. It
    /// answers what `grow_hash::try_split` answers.
    pub fn split(self) -> (GrowSeat, Split)
        ensures tried { calls.Splits (seat_of self.seat) (seat_of result.0.seat) result.1 }
        ensures continues { calls.GoesOn self.seat result.0.seat }
        ensures at_most_one { TriesOne (seat_of self.seat) (seat_of result.0.seat) }
    {
        let GrowSeat { share, seat } = self;
        let (seat, split) = split_in(share.domain(), seat);
        (GrowSeat { share, seat }, split)
    }

    /// Reclaims what it can of the seat's log.
    pub fn tidy(self) -> (GrowSeat, Tidy)
        ensures tidies { calls.Tidies self.seat result.0.seat result.1 }
        ensures continues { calls.GoesOn self.seat result.0.seat }
    {
        let GrowSeat { share, seat } = self;
        let (seat, tidy) = tidy_in(share.domain(), seat);
        (GrowSeat { share, seat }, tidy)
    }

    /// The counts of the seat's log.
    pub fn count(self) -> (GrowSeat, LogTable)
        ensures counts { calls.Counts self.seat result.1 }
        ensures same { seat_of result.0.seat ≡ seat_of self.seat }
    {
        let GrowSeat { share, seat } = self;
        let (seat, table) = count_in(share.domain(), seat);
        (GrowSeat { share, seat }, table)
    }

    /// Closes the seat: it stands in its place of the domain from then on. If it was the last one, all seats of
    /// the domain meet. It never refuses and takes no memory.
    pub fn close(self) -> Closed<GrowRules<TABLE_LEVELS>>
        ensures closes { Closes IsTableOpening IsTableCommit (gathering_of self.share) result }
    {
        let GrowSeat { share, seat } = self;
        share.close(seat)
    }
}
