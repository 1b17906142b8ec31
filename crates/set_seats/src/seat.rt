// A seat of the sets, with a share of its domain.
ghost use Rattle.std.specs.Prelude.{◌≡◌, ◌≤◌};
ghost use Rattle.mvrlu.specs.Meant.{seat_of, IsSeatOf};
ghost use Rattle.section_work.specs.Sections.{TriesOne};
ghost use Rattle.shared_domain.specs.Met.{domain_of, gathering_of, Closes};
ghost use Rattle.set_model.specs.Lawful.{IsOpening};
ghost use Rattle.set_blocks.specs.BlockRules.{IsBlockCommit};
ghost use Rattle.set_catalog.specs.Shortages.{IsKnown};
ghost use Rattle.set_seats.specs.Calls as calls;

use crate::outside::{attempt_block_in, attempt_in, count_in, tidy_in, walk_on};
use crate::single::Remembered;
use crate::walk::{KeyValue, Walked};
use log_reclaim::Tidy;
use mv_history::LogTable;
use mvrlu::Seat;
use set_blocks::{Block, BlockAttempt, BlockRules};
use set_catalog::CommandAttempt;
use set_model::{Command, Name};
use shared_domain::{Closed, Share};

/// A seat of the thirty sets, with a share of its domain, which lasts as long as one of its seats does. It belongs to
/// one thread at a time, and may go from one to another.
pub struct SetSeat {
    pub(crate) share: Share<BlockRules>,
    pub(crate) seat: Seat<BlockRules>,
    // Boxed, so that who moves a seat moves few words.
    pub(crate) remembered: Box<Remembered>,
    pub ghost of: { IsSeatOf (domain_of share) seat },
    pub ghost room: { 40 ≤ (seat_of seat).write_max },
    pub ghost known: { IsKnown (seat_of seat) remembered.value.memo.known },
}

/// Closes the seat.
impl Drop for SetSeat {
    fn drop(self) {
        drop(self.close());
    }
}

impl SetSeat {
    /// Attempts a command in one section, as the block of one. It never waits or tries again by itself, and takes no
    /// memory. It answers what `set_blocks::attempt_block` answers of that block: its one reply where it took place, and
    /// the cause where its change was given up, which may go through in a new attempt.
    #[inline(always)]
    pub fn attempt(self, command: &Command) -> (SetSeat, CommandAttempt)
        ensures attempted { calls.Attempted (seat_of self.seat) (seat_of result.0.seat) command.now result.1 }
        ensures replied { calls.Replied (seat_of result.0.seat) command.now result.1 }
        ensures continues { calls.GoesOn self.seat result.0.seat }
        ensures at_most_one { TriesOne (seat_of self.seat) (seat_of result.0.seat) }
    {
        let SetSeat {
            share,
            seat,
            mut remembered,
        } = self;
        let (seat, answer) = attempt_in(share.domain(), seat, &mut remembered, command);
        let seat = SetSeat {
            share,
            seat,
            remembered,
        };
        (seat, answer)
    }

    /// Attempts a block of 1 to 8 commands in one section, as one entry or one read: `set_blocks::attempt_block` says
    /// what it answers.
    pub fn attempt_block(self, block: &Block) -> (SetSeat, BlockAttempt)
        ensures attempted { calls.AttemptedBlock (seat_of self.seat) (seat_of result.0.seat) block.now result.1 }
        ensures continues { calls.GoesOn self.seat result.0.seat }
        ensures at_most_one { TriesOne (seat_of self.seat) (seat_of result.0.seat) }
    {
        let SetSeat {
            share,
            seat,
            remembered,
        } = self;
        let (seat, answer) = attempt_block_in(share.domain(), seat, &remembered, block);
        let seat = SetSeat {
            share,
            seat,
            remembered,
        };
        (seat, answer)
    }

    /// Walks over the set from a key on, in one section: writes its entries whose key is not below `from`, in rising
    /// order, as many as there are or as there is room for, and leaves the rest of the room as it was. All of them are of
    /// one state, whose time it tells, with the key to go on from in a further walk, which is of a later state. It makes
    /// no commit, locks nothing, never waits or tries again, and takes no memory.
    pub fn walk(self, name: Name, from: u32, entries: &mut [KeyValue]) -> (SetSeat, Walked)
        ensures walked { calls.WalksOver name from entries.old entries.new (seat_of self.seat) (seat_of result.0.seat) result.1 }
        ensures continues { calls.GoesOn self.seat result.0.seat }
    {
        let SetSeat {
            share,
            seat,
            mut remembered,
        } = self;
        let (seat, walked) = walk_on(share.domain(), seat, &mut remembered, name, from, entries);
        let seat = SetSeat {
            share,
            seat,
            remembered,
        };
        (seat, walked)
    }

    /// Reclaims what it can of the seat's log.
    pub fn tidy(self) -> (SetSeat, Tidy)
        ensures tidies { calls.Tidies self.seat result.0.seat result.1 }
        ensures continues { calls.GoesOn self.seat result.0.seat }
    {
        let SetSeat {
            share,
            seat,
            remembered,
        } = self;
        let (seat, tidy) = tidy_in(share.domain(), seat, &remembered);
        let seat = SetSeat {
            share,
            seat,
            remembered,
        };
        (seat, tidy)
    }

    /// The counts of the seat's log.
    pub fn count(self) -> (SetSeat, LogTable)
        ensures counts { calls.Counts self.seat result.1 }
        ensures same { seat_of result.0.seat ≡ seat_of self.seat }
    {
        let SetSeat {
            share,
            seat,
            remembered,
        } = self;
        let (seat, table) = count_in(share.domain(), seat);
        let seat = SetSeat {
            share,
            seat,
            remembered,
        };
        (seat, table)
    }

    /// Closes the seat: it stands in its place of the domain from then on. If it was the last one, all seats of
    /// the domain meet. It never refuses and takes no memory.
    pub fn close(self) -> Closed<BlockRules>
        ensures closes { Closes IsOpening IsBlockCommit (gathering_of self.share) result }
    {
        let SetSeat {
            share,
            seat,
            remembered: _remembered,
        } = self;
        share.close(seat)
    }
}
