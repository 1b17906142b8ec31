// Laws of the rules of a growing hash set, over all states and histories.
ghost use Rattle.mv_history.specs.declared.history.Entry.{Entry};
ghost use Rattle.mv_history.specs.State.{State, Writes, written, state_after};
ghost use Rattle.mv_history.specs.Legal.{IsAllowed};
ghost use Rattle.mv_history.specs.Drift.{IsFit};
ghost use Rattle.std.specs.Prelude.{◌≡◌, ◌+◌, ◌^◌, ◌<◌};
ghost use Rattle.grow_hash.specs.Terms.{ℕ, List, tag_of, Command};
ghost use Rattle.grow_hash.specs.Mixing.{mixed};
ghost use Rattle.grow_hash.specs.Tables.{buckets, split_place};
ghost use Rattle.grow_hash.specs.Grown.{IsGrown, IsGrownOpening, grown_catalogue};
ghost use Rattle.grow_hash.specs.GrowRules.{split_tag, IsGrowCommit};
ghost use Rattle.grow_hash.specs.GrowPlans.{GrowPlan, IsGrowing};
ghost use Rattle.grow_hash.specs.SplitPlans.{SplitPlan};
ghost use Rattle.grow_hash.specs.Splits.{count_splits};

/// Under the rules of a growing hash set each state is lawful, and has 16 buckets and one more for each split.
pub fn grown_states_remain()
    ensures lawful { (levels : ℕ) (start : State) (history : List Entry) → IsGrownOpening levels start → IsAllowed (IsGrowCommit levels) start history
        → IsGrown levels (state_after start history) }
    ensures buckets { (levels : ℕ) (start : State) (history : List Entry) → IsGrownOpening levels start → IsAllowed (IsGrowCommit levels) start history
        → buckets (state_after start history) ≡ 16 + count_splits history }
{}

/// What an add or a del locks and writes in a lawful state is a commit that is fit: it stays allowed whatever others commit
/// meanwhile that write nothing of it, splits among them. So the reply of a commit is that of the state just before it.
pub fn grow_plans_are_fit()
    ensures { (levels : ℕ) (from : State) (command : Command) (writes : Writes) → GrowPlan levels command from writes → IsGrowing command → IsGrown levels from
        → IsFit (IsGrowCommit levels) from (tag_of command) writes }
{}

/// What the split of the bucket at the split place locks and writes in a lawful state is a commit that is fit: it stays allowed whatever
/// others commit meanwhile that write nothing of it, since it holds the table, both heads and each node of the bucket. It leaves a lawful
/// state and the same catalogue.
pub fn split_plans_are_fit()
    ensures fit { (levels : ℕ) (from : State) (writes : Writes) → SplitPlan levels from writes → IsGrown levels from
        → IsFit (IsGrowCommit levels) from (split_tag (split_place from)) writes }
    ensures lawful { (levels : ℕ) (from : State) (writes : Writes) → SplitPlan levels from writes → IsGrown levels from → IsGrown levels (written from writes) }
    ensures leaves { (levels : ℕ) (from : State) (writes : Writes) → SplitPlan levels from writes → IsGrown levels from
        → grown_catalogue levels (written from writes) ≡ grown_catalogue levels from }
{}

/// Mixing is a bijection of the keys: a mixed key is a key, and the mixed keys of different keys differ.
pub fn mixed_keys_differ()
    ensures within { (key : ℕ) → key < 2 ^ 32 → mixed key < 2 ^ 32 }
    ensures apart { (a b : ℕ) → a < 2 ^ 32 → b < 2 ^ 32 → mixed a ≡ mixed b → a ≡ b }
{}
