// What may be done as one section.
use mv_history::{Protocol, Tag, View, Words};

/// What a work comes to in a state.
pub enum Decision<R, P> {
    /// It changes nothing, and this is its reply.
    Settled(R),
    /// It changes something by this plan, and this is its reply once that is committed.
    Change { plan: P, reply: R },
}

/// One unit of work, which one section decides and at most one commit makes.
///
/// It says what it reads as a reply, what it writes and what its commits mean. [`attempt_work`](crate::attempt_work) does the rest.
pub trait Work {
    ghost use Rattle.std.specs.Prelude.{◌≡◌};
    ghost use Rattle.section_work.specs.Terms.{ℕ, true, List, State, Writes, written, Seat, InSection, Continues, Drifts};
    ghost use Rattle.section_work.specs.Works.{Meaning, IsFound, IsHere};

    /// The rules of the stores that it may be done in.
    type Rules: Protocol;

    /// What it answers.
    type Reply: Drop;

    /// What a change is to write.
    type WriteSet: Drop;

    /// What is remembered from one section to the next, as hints: nothing of it shows in an answer. The writes of a plan may stand
    /// in it until they are committed or given up.
    type Memo;

    // What it asks of itself.
    ghost accepts: { Self → Type 0 };

    // What it means.
    ghost means: { Self → Meaning Self.Reply };

    // The tag of a plan's commit.
    ghost tag_of: { Self → Self.WriteSet → List ℕ };

    // What a plan writes, a part of which may stand in what is remembered.
    ghost writes_of: { Self.Memo → Self.WriteSet → Writes };

    // What is remembered is right for a seat.
    ghost knows: { Self.Memo → Seat → Type 0 };

    // What a look into a state does to what is remembered.
    ghost notes: { Self → Self.Memo → Self.Memo → State → Type 0 };

    /// Decides in a view of this printed time, which it gives back as it was.
    fn decide<V: View>(
        &self,
        memo: &mut Self::Memo,
        view: V,
        time: u64,
    ) -> (V, Decision<Self::Reply, Self::WriteSet>)
        requires accepts { accepts self.now }
        requires here { (s : InSection) × IsHere Self.Rules.start Self.Rules.allowed (V.state view) time s × knows memo.old s.seat }
        ensures found { IsFound Self.Rules.allowed (means self.now) (tag_of self.now) (writes_of memo.new) (V.state view) result.1 }
        ensures as_before { V.as_before view result.0 }
        ensures notes { notes self.now memo.old memo.new (V.state view) }
        ensures knows { (s : InSection) → IsHere Self.Rules.start Self.Rules.allowed (V.state view) time s → knows memo.old s.seat
            → knows memo.new s.seat };

    /// What the plan writes, with what the look that made it left in the memo.
    fn writes<'a>(memo: &'a Self::Memo, plan: &'a Self::WriteSet) -> &'a [(u32, Words)]
        ensures { result.now ≡ writes_of memo.now plan.now };

    /// The tag of the plan's commit.
    fn tag(&self, plan: &Self::WriteSet) -> Tag
        requires { accepts self.now }
        ensures { result ≡ tag_of self.now plan.now };

    /// The reply at the last time, where the change comes too late that would have this reply.
    fn at_last(&self, reply: Self::Reply) -> Self::Reply
        ensures { (s : State) (tag : List ℕ) (ws : Writes) → (means self.now).changes s → (means self.now).plans s tag ws reply
            → (means self.now).settles s true result };

    ghost knows_on: { (memo : Self.Memo) (s t : Seat) → Continues s t → knows memo s → knows memo t };

    // A commit of what was planned in an earlier state, on the state just before it.
    ghost makes: { (w : Self) (s before : State) (tag : List ℕ) (ws : Writes) (reply : Self.Reply) → accepts w → (means w).plans s tag ws reply
        → Drifts Self.Rules.allowed ws s before → Self.Rules.allowed tag before ws
        → (means w).makes before (written before ws) reply };
}
