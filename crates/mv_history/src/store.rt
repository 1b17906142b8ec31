// A store: a seat outside a section.
ghost use Rattle.std.specs.Prelude.{◌≡◌, ◌<◌, ◌≤◌};
ghost use Rattle.mv_history.specs.Meaning.{Seat, InSection, IsSeat};
ghost use Rattle.mv_history.specs.Calls.{Prepares, Enters};

use crate::answers::Room;
use crate::rules::Protocol;
use crate::section::Section;

/// A seat outside a section. It must be spent as the type of the store says; one that is known only
/// as an `S: Store` and is let go doesn't compile.
///
/// A store means its seat: the seat's number, its domain, the opening state, the range of times, the
/// part of the one history of commits that it has seen, its own commits in it and the number of its
/// rests, the free slots of its log, and the trail of its steps. All that was seen is legal, and
/// allowed by the rules.
///
/// No call of a store takes memory, and none changes the seat's number, its domain, `write_max`, the
/// opening state or the range of times, or forgets what was seen. Whatever a call isn't said to
/// change stays, but that more of the history may have been seen, and that more steps stand in the
/// trail.
pub trait Store: Sized {
    ghost use Rattle.mv_history.specs.declared.answers.Holder.{Holder};
    ghost use Rattle.mv_history.specs.declared.answers.Room.TheVariants.{Enough, Short};

    /// The rules that each commit keeps.
    type Rules: Protocol;

    /// The section that `enter` begins.
    type Open: Section<Rules = Self::Rules, Back = Self>;

    // What a store means.
    ghost seat_of: { Self → Seat };

    // An `enter`, from the seat to the section, found the time of its snapshot.
    ghost took: { Seat → InSection → Type 0 };

    // A `prepare`, from the old seat to the new, found that this holds the oldest write set.
    ghost holds_back: { Seat → Seat → Holder → Type 0 };

    /// The seat's number.
    fn seat(&self) -> u32
        ensures { result ≡ (seat_of self.now).number };

    /// The greatest number of objects that a section may hold.
    fn write_max(&self) -> u32
        ensures { result ≡ (seat_of self.now).write_max };

    /// Makes room in the log, perhaps by rests of its own, and commits nothing.
    ///
    /// - `Enough`: at least `write_max` slots are free.
    /// - `Short` exactly where fewer are free after the work of this call, which found that holder.
    fn prepare(&mut self) -> Room
        ensures prepares { Prepares (seat_of self.old) (seat_of self.new) }
        ensures enough { result ≡ Enough → (seat_of self.new).write_max ≤ (seat_of self.new).spare }
        ensures short { (holder : Holder) → result ≡ Short holder →
            Self.Open.may_refuse × ((seat_of self.new).spare < (seat_of self.new).write_max) × holds_back (seat_of self.old) (seat_of self.new) holder };

    /// Begins a section, which holds nothing. Its snapshot is the whole history at one step of this
    /// call, with all that the seat had seen. It never refuses.
    fn enter(self) -> Self::Open
        ensures enters { Enters (seat_of self) (Self.Open.section result) }
        ensures took { took (seat_of self) (Self.Open.section result) };

    ghost same_seat: { (s : Self) → Self.Open.stands s ≡ seat_of s };

    ghost lawful: { (s : Self) → IsSeat Self.Rules.start Self.Rules.allowed (seat_of s) };
}
