// A section: a snapshot, and the objects that it holds.
ghost use Rattle.std.specs.Prelude.{◌≡◌, ◌≢◌, ◌↔◌, ℕ, ◌+◌, ◌-◌, ◌<◌, ◌≤◌, [], length, ⊤};
ghost use Rattle.mv_history.specs.State.{touches};
ghost use Rattle.mv_history.specs.Drift.{IsFit};
ghost use Rattle.mv_history.specs.Trail.{commit_exchanges, IsOneWon, IsOneLost};
ghost use Rattle.mv_history.specs.Meaning.{Seat, InSection, snapshot_of, state_of, Holds, Lacks, IsWorn, IsSeat, IsSection};
ghost use Rattle.mv_history.specs.Calls.{call_trail, IsAsBefore, GoesOn, IsSetFull, IsLogFull, Locks, LocksWith, Rewrites, Leaves, Commits, IsStale, Overtakes};

use crate::answers::{CommitAnswer, LockAnswer};
use crate::history::{Tag, Words};
use crate::rules::Protocol;
use crate::view::View;

/// A section: a view of its snapshot in which the objects that it holds have its own words.
///
/// A section must be spent, by `try_commit`, `abort` or `leave`; one that isn't doesn't compile.
/// Its snapshot is the state after a prefix of the one history of commits. To lock an object takes
/// part in it: a commit is made only if nothing that the section holds was committed since its
/// snapshot (snapshot isolation). What a section only read may have changed meanwhile, so a client
/// locks what its commit depends on, and shows that the commit is fit: allowed on every state to
/// which allowed commits of others lead that write nothing held.
///
/// No call of a section takes memory. Whatever a call isn't said to change stays, but that more of
/// the history may have been seen, and that more steps stand in the trail.
///
/// The sections are those of MV-RLU (Kim, Mathew, Kashyap, Ramanathan and Min, ASPLOS 2019), which
/// has them of RLU (Matveev, Shavit, Felber and Marlier, SOSP 2015): there `rlu_reader_lock`,
/// `try_lock`, `rlu_reader_unlock` and `rlu_abort`.
pub trait Section: View + Sized {
    ghost use Rattle.mv_history.specs.Answer.{OnDone, OnAgain, OnEnd, seat_after};
    ghost use Rattle.mv_history.specs.declared.answers.LockAnswer.TheVariants.{Held, Busy, Stale, SetFull, LogFull};

    /// The rules that each commit keeps.
    type Rules: Protocol;

    /// The seat that comes back.
    type Back;

    // What a section means: its seat, the length of its snapshot, and what it holds.
    ghost section: { Self → InSection };

    // What a value of `Back` means.
    ghost stands: { Self.Back → Seat };

    // What shows that a call may refuse for want of room, or for what another seat does.
    ghost may_refuse: { Type 0 } = { ⊤ };

    // What shows that the trail tells the steps.
    ghost has_trail: { Type 0 } = { ⊤ };

    // A lock, from the old section to the new, found the object held by this seat.
    ghost found_held: { InSection → InSection → ℕ → ℕ → Type 0 };

    // A commit, from the section to the seat afterwards, loaded this printed time.
    ghost loaded: { InSection → Seat → ℕ → Type 0 };

    /// The printed time of the snapshot.
    fn at(&self) -> u64
        ensures { result ≡ (section self.now).seat.base + (section self.now).at };

    /// The greatest printed time that the store can reach.
    fn last(&self) -> u64
        ensures { result ≡ (section self.now).seat.last };

    /// The greatest number of objects that a section may hold.
    fn write_max(&self) -> u32
        ensures { result ≡ (section self.now).seat.write_max };

    /// The number of objects held.
    fn held(&self) -> u32
        ensures { result ≡ length (section self.now).own };

    /// Whether the object is held.
    fn has_lock(&self, object: u32) -> bool
        ensures { result ≡ touches (section self.now).own object };

    /// Tries to hold an object. The answers are tried in this order:
    ///
    /// - `Held` where the object is held already; then nothing changes.
    /// - `SetFull` exactly where `held` is `write_max`.
    /// - `LogFull` exactly where the seat's log has no free slot.
    /// - `Busy` only where a step of this call found the object held by that other seat.
    /// - `Stale` only where a commit of that printed time, after the snapshot, writes the object.
    /// - Else `Held`: the object joins those that are held, with the words that the section reads,
    ///   and the log has one free slot less.
    ///
    /// After a refusal the section is as before.
    fn try_lock(&mut self, object: u32) -> LockAnswer
        requires { object < length (Self.state self.old) }
        ensures goes_on { GoesOn (section self.old) (section self.new) }
        ensures refused { result ≢ Held → IsAsBefore (section self.old) (section self.new) }

        // The answers in their order.
        ensures again { Holds (section self.old) object → (result ≡ Held) × (section self.new ≡ section self.old) }
        ensures set_full { (result ≡ SetFull) ↔ (Lacks (section self.old) object × IsSetFull (section self.old)) }
        ensures log_full { (result ≡ LogFull) ↔ (Lacks (section self.old) object × ¬ IsSetFull (section self.old) × IsLogFull (section self.old)) }
        ensures busy { (seat : ℕ) → result ≡ Busy seat →
            may_refuse × (seat ≢ (section self.old).seat.number) × found_held (section self.old) (section self.new) object seat }
        ensures stale { (time : ℕ) → result ≡ Stale time → may_refuse × IsStale (section self.new) object time }
        ensures held { result ≡ Held → Lacks (section self.old) object → Locks (section self.old) (section self.new) object }

        ensures log_full_only { result ≡ LogFull → may_refuse };

    /// Tries to hold an object, with these words. The answers are tried in the order of `try_lock`:
    ///
    /// - `Held` where the object is held already, which gets these words.
    /// - The refusals come as those of `try_lock`, and leave the section as before.
    /// - Else `Held`: the object joins those that are held, with these words, and the log has one free
    ///   slot less.
    fn try_lock_with(&mut self, object: u32, words: Words) -> LockAnswer
        requires { object < length (Self.state self.old) }
        ensures goes_on { GoesOn (section self.old) (section self.new) }
        ensures refused { result ≢ Held → IsAsBefore (section self.old) (section self.new) }

        // The answers in their order.
        ensures again { Holds (section self.old) object → (result ≡ Held) × Rewrites (section self.old) (section self.new) object words }
        ensures set_full { (result ≡ SetFull) ↔ (Lacks (section self.old) object × IsSetFull (section self.old)) }
        ensures log_full { (result ≡ LogFull) ↔ (Lacks (section self.old) object × ¬ IsSetFull (section self.old) × IsLogFull (section self.old)) }
        ensures busy { (seat : ℕ) → result ≡ Busy seat →
            may_refuse × (seat ≢ (section self.old).seat.number) × found_held (section self.old) (section self.new) object seat }
        ensures stale { (time : ℕ) → result ≡ Stale time → may_refuse × IsStale (section self.new) object time }
        ensures held { result ≡ Held → Lacks (section self.old) object → LocksWith (section self.old) (section self.new) object words }

        ensures log_full_only { result ≡ LogFull → may_refuse }
    {
        match self.try_lock(object) {
            LockAnswer::Held => {
                self.write(object, words);
                LockAnswer::Held
            }
            refusal => refusal,
        }
    }

    /// Gives a held object these words, in this section alone. It never refuses.
    fn write(&mut self, object: u32, words: Words)
        requires { Holds (section self.old) object }
        ensures goes_on { GoesOn (section self.old) (section self.new) }
        ensures rewrites { Rewrites (section self.old) (section self.new) object words };

    /// Tries to commit what is held, as one entry of the history.
    ///
    /// - `Done`: the entry of that printed time is the commit of this section, by this seat, with
    ///   the tag, and with exactly what was held and its words. It is the last of the seat's commits.
    /// - `Again` only where another seat made the entry of the rival's time after this call had
    ///   loaded the clock; the section comes back as before.
    /// - `End` exactly where the time that this call loaded is `last`, so that no time is left; the
    ///   section comes back as before.
    ///
    /// The call exchanges CLOCK for a commit at most once. Where the store tells its trail, it does so
    /// exactly once for `Done` and for `Again`, and wins or loses as the answer says.
    fn try_commit(self, tag: Tag) -> CommitAnswer<Self::Back, Self>
        requires some { 0 < length (section self).own }
        requires fit { IsFit Self.Rules.allowed (snapshot_of (section self)) tag (section self).own }
        ensures done { OnDone result (λ back time. Commits (section self) tag (stands back) time × loaded (section self) (stands back) (time - 1)) }
        ensures again { OnAgain result (λ left rival. may_refuse × IsAsBefore (section self) (section left)
            × Overtakes (section self) (section left) rival.seat rival.time (loaded (section self) (section left).seat)) }
        ensures end { OnEnd result (λ left. IsAsBefore (section self) (section left) × IsWorn (section left).seat
            × loaded (section self) (section left).seat (section left).seat.last) }

        ensures at_most_one { length (commit_exchanges (call_trail (section self).seat (seat_after stands section result))) ≤ 1 }
        ensures one_won { OnDone result (λ back time. has_trail → IsOneWon (commit_exchanges (call_trail (section self).seat (stands back)))) }
        ensures one_lost { OnAgain result (λ left rival. has_trail → IsOneLost (commit_exchanges (call_trail (section self).seat (section left).seat))) };

    /// Gives up what is held, and adds no entry. It may be called with nothing held, and never refuses.
    fn abort(self) -> Self::Back
        ensures { Leaves (section self) (stands result) };

    /// Leaves a section that holds nothing, in one step at most, and adds no entry. It never refuses.
    fn leave(self) -> Self::Back
        requires { (section self).own ≡ [] }
        ensures leaves { Leaves (section self) (stands result) }
        ensures one_step { has_trail → length (call_trail (section self).seat (stands result)) ≤ 1 };

    ghost reads: { (s : Self) → Self.state s ≡ state_of (section s) };

    ghost others_stay: { (s t : Self) → Self.as_before s t → IsAsBefore (section s) (section t) };

    ghost goes_on: { (s t : Self) → Self.as_before s t → GoesOn (section s) (section t) };

    ghost lawful: { (s : Self) → IsSection Self.Rules.start Self.Rules.allowed (section s) };

    ghost back_lawful: { (b : Self.Back) → IsSeat Self.Rules.start Self.Rules.allowed (stands b) };
}
