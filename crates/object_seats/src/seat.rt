// A seat of objects, with a share of its domain.
ghost use Rattle.std.specs.Prelude.{◌≡◌};
ghost use Rattle.shared_domain.specs.Met.{domain_of, gathering_of, Closes};
ghost use Rattle.object_seats.specs.Positions.{IsOf, aborts_at};
ghost use Rattle.object_seats.specs.Calls as calls;
ghost use Rattle.object_seats.specs.Rules.{IsAnyState, IsAnyCommit};

use crate::inside::{
    abort_in, commit_in, leave_in, lock_in, read_in, read_pair_in, time_in, write_in,
};
use crate::outside::{brought_out, count_in, enter_in, grace_in, prepare_in, tidy_in};
use crate::position::{CommitResult, Misuse, Position, Vacancy};
use crate::vacant::vacant_in;
use log_reclaim::Tidy;
use mv_history::{AnyRules, LockAnswer, LogTable, Room, Tag, Words};
use shared_domain::{Closed, Share};

/// A seat of objects, outside a section or in one, with a share of its domain, which lasts as long as one
/// of its seats does. It belongs to one thread at a time, and may go from one to another.
pub struct ObjectSeat {
    pub(crate) share: Share<AnyRules>,
    pub(crate) position: Position,
    pub ghost of: { IsOf (domain_of share) position },
}

/// Closes the seat.
impl Drop for ObjectSeat {
    fn drop(self) {
        drop(self.close());
    }
}

impl ObjectSeat {
    /// Begins a section, whose snapshot is the whole history at one step of this call. It never refuses a
    /// seat that is outside.
    #[inline(always)]
    pub fn enter(self) -> (ObjectSeat, Result<(), Misuse>)
        ensures enters { calls.Enters self.position result.0.position result.1 }
        ensures aborts { aborts_at result.0.position ≡ aborts_at self.position }
    {
        let ObjectSeat { share, position } = self;
        let (position, answer) = enter_in(share.domain(), position);
        (ObjectSeat { share, position }, answer)
    }

    /// The six words of an object, in the state that the section reads: its snapshot, with its own words.
    #[inline(always)]
    pub fn read(self, object: u32) -> (ObjectSeat, Result<Words, Misuse>)
        ensures reads { calls.Reads self.position object result.0.position result.1 }
        ensures aborts { aborts_at result.0.position ≡ aborts_at self.position }
    {
        let ObjectSeat { share, position } = self;
        let (position, answer) = read_in(share.domain(), position, object);
        (ObjectSeat { share, position }, answer)
    }

    /// Two words of an object, that of a place from 0 to 4 and the one behind it, in the same state.
    #[inline(always)]
    pub fn read_pair(self, object: u32, place: u32) -> (ObjectSeat, Result<(u64, u64), Misuse>)
        ensures reads { calls.ReadsPair self.position object place result.0.position result.1 }
        ensures aborts { aborts_at result.0.position ≡ aborts_at self.position }
    {
        let ObjectSeat { share, position } = self;
        let (position, answer) = read_pair_in(share.domain(), position, object, place);
        (ObjectSeat { share, position }, answer)
    }

    /// Tries to hold an object, so that it takes part in the commit with the words that it has. Each answer
    /// has its cause, as `Section::try_lock` says.
    pub fn lock(self, object: u32) -> (ObjectSeat, Result<LockAnswer, Misuse>)
        ensures locks { calls.Locks self.position object result.0.position result.1 }
        ensures aborts { aborts_at result.0.position ≡ aborts_at self.position }
    {
        let ObjectSeat { share, position } = self;
        let (position, answer) = lock_in(share.domain(), position, object);
        (ObjectSeat { share, position }, answer)
    }

    /// Finds the first object that is vacant, from `hint` on and behind the last object from 0 on, and tries to
    /// hold it: one whose six words are 0 in the section's state, and which the section doesn't hold. None where
    /// no object of the domain is. An object is made vacant again by writing zeros to it. It reads each object
    /// once at most.
    pub fn vacant(self, hint: u32) -> (ObjectSeat, Result<Option<Vacancy>, Misuse>)
        ensures takes { calls.TakesVacant self.position hint result.0.position result.1 }
        ensures aborts { aborts_at result.0.position ≡ aborts_at self.position }
    {
        let ObjectSeat { share, position } = self;
        let (position, answer) = vacant_in(share.domain(), position, hint);
        (ObjectSeat { share, position }, answer)
    }

    /// Gives a held object these words. Nobody else sees them before the commit.
    pub fn write(self, object: u32, words: Words) -> (ObjectSeat, Result<(), Misuse>)
        ensures writes { calls.Writes self.position object words result.0.position result.1 }
        ensures aborts { aborts_at result.0.position ≡ aborts_at self.position }
    {
        let ObjectSeat { share, position } = self;
        let (position, answer) = write_in(share.domain(), position, object, words);
        (ObjectSeat { share, position }, answer)
    }

    /// Tries to commit all that is held, as one entry of the history.
    pub fn commit(self, tag: Tag) -> (ObjectSeat, Result<CommitResult, Misuse>)
        ensures commits { calls.Commits self.position tag result.0.position result.1 }
        ensures aborts { aborts_at result.0.position ≡ aborts_at self.position }
    {
        let ObjectSeat { share, position } = self;
        let (position, answer) = commit_in(share.domain(), position, tag);
        (ObjectSeat { share, position }, answer)
    }

    /// Gives up all that is held, and leaves the section. The history has no entry of it.
    pub fn abort(self) -> (ObjectSeat, Result<(), Misuse>)
        ensures aborts { calls.Aborts self.position result.0.position result.1 }
    {
        let ObjectSeat { share, position } = self;
        let (position, answer) = abort_in(share.domain(), position);
        (ObjectSeat { share, position }, answer)
    }

    /// Leaves a section that holds nothing.
    #[inline(always)]
    pub fn leave(self) -> (ObjectSeat, Result<(), Misuse>)
        ensures leaves { calls.Leaves self.position result.0.position result.1 }
        ensures aborts { aborts_at result.0.position ≡ aborts_at self.position }
    {
        let ObjectSeat { share, position } = self;
        let (position, answer) = leave_in(share.domain(), position);
        (ObjectSeat { share, position }, answer)
    }

    /// The printed time of the section's snapshot: the opening time and one for each entry in it.
    pub fn time(self) -> (ObjectSeat, Result<u64, Misuse>)
        ensures tells { calls.TellsTime self.position result.0.position result.1 }
        ensures aborts { aborts_at result.0.position ≡ aborts_at self.position }
    {
        let ObjectSeat { share, position } = self;
        let (position, answer) = time_in(share.domain(), position);
        (ObjectSeat { share, position }, answer)
    }

    /// Makes room in the seat's log for one section that locks as many objects as it may, or names who
    /// holds the log's oldest write set. It waits for nobody.
    pub fn prepare(self) -> (ObjectSeat, Result<Room, Misuse>)
        ensures makes_room { calls.MakesRoom self.position result.0.position result.1 }
        ensures aborts { aborts_at result.0.position ≡ aborts_at self.position }
    {
        let ObjectSeat { share, position } = self;
        let (position, answer) = prepare_in(share.domain(), position);
        (ObjectSeat { share, position }, answer)
    }

    /// Reclaims what it can of the seat's log.
    pub fn tidy(self) -> (ObjectSeat, Result<Tidy, Misuse>)
        ensures tidies { calls.Tidies self.position result.0.position result.1 }
        ensures aborts { aborts_at result.0.position ≡ aborts_at self.position }
    {
        let ObjectSeat { share, position } = self;
        let (position, answer) = tidy_in(share.domain(), position);
        (ObjectSeat { share, position }, answer)
    }

    /// A printed time that no section of the domain is below, and none ever will be. A seat in a section
    /// holds it back, at most to the section's time.
    pub fn grace(self) -> (ObjectSeat, Result<u64, Misuse>)
        ensures tells { calls.TellsGrace self.position result.0.position result.1 }
        ensures aborts { aborts_at result.0.position ≡ aborts_at self.position }
    {
        let ObjectSeat { share, position } = self;
        let (position, answer) = grace_in(share.domain(), position);
        (ObjectSeat { share, position }, answer)
    }

    /// The counts of the seat's log.
    pub fn count(self) -> (ObjectSeat, Result<LogTable, Misuse>)
        ensures counts { calls.Counts self.position result.0.position result.1 }
        ensures aborts { aborts_at result.0.position ≡ aborts_at self.position }
    {
        let ObjectSeat { share, position } = self;
        let (position, answer) = count_in(share.domain(), position);
        (ObjectSeat { share, position }, answer)
    }

    /// Gives up what the section holds, if the seat is in one, and closes the seat: it stands in its place of
    /// the domain from then on. If it was the last one, all seats of the domain meet. It never refuses and
    /// takes no memory.
    pub fn close(self) -> Closed<AnyRules>
        ensures closes { Closes IsAnyState IsAnyCommit (gathering_of self.share) result }
    {
        let ObjectSeat { share, position } = self;
        let seat = brought_out(share.domain(), position);
        share.close(seat)
    }
}
