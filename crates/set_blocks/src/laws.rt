// Laws of the replies of blocks and of their rules, over all commands and states.
ghost use Rattle.mv_history.specs.declared.history.Entry.{Entry};
ghost use Rattle.mv_history.specs.State.{State, Writes, written, state_after};
ghost use Rattle.mv_history.specs.Legal.{IsAllowed};
ghost use Rattle.mv_history.specs.Drift.{Drifts, IsFit};
ghost use Rattle.set_model.specs.Catalogue.{Maps};
ghost use Rattle.set_model.specs.Lawful.{IsLawful, IsOpening};
ghost use Rattle.set_model.specs.Replies.{reply, changes, next};
ghost use Rattle.std.specs.Prelude.{◌≡◌, ◌≤◌, ◌∷◌};
ghost use Rattle.set_blocks.specs.Terms.{ℕ, Bool, List, [], length, catalogue_of, capacity, Command, Reply};
ghost use Rattle.set_blocks.specs.BlockPlans.{BlockPlan};
ghost use Rattle.set_blocks.specs.BlockReplies.{block_replies, block_changes, block_next, turn_replies, after_turns, some_changes};
ghost use Rattle.set_blocks.specs.BlockRules.{IsBlockCommit, Remains, block_tag};

/// A block of one command replies, changes and leaves what its command does, at the last time too; and each command of a
/// block has one reply.
pub fn blocks_of_one()
    ensures replies { (command : Command) (c : Maps) (capacity : ℕ) (last : Bool)
        → block_replies (command ∷ []) c capacity last ≡ reply command c capacity last ∷ [] }
    ensures changes { (command : Command) (c : Maps) (capacity : ℕ) (last : Bool)
        → block_changes (command ∷ []) c capacity last ≡ changes command c capacity last }
    ensures next { (command : Command) (c : Maps) (capacity : ℕ) (last : Bool)
        → block_next (command ∷ []) c capacity last ≡ next command c capacity last }
    ensures count { (commands : List Command) (c : Maps) (capacity : ℕ) (last : Bool)
        → length (block_replies commands c capacity last) ≡ length commands }
{}

/// Under the rules of blocks each state is lawful. While others commit, what a section holds remains: the objects keep their
/// words, the nodes behind held heads and nodes of lists their keys, and a search in a tree that ended at a held leaf ends
/// there. So it does where nobody commits, and a commit that is fit is allowed at once.
pub fn lawful_states_remain()
    ensures lawful { (start : State) (history : List Entry) → IsOpening start → IsAllowed IsBlockCommit start history
        → IsLawful (state_after start history) }
    ensures itself { (held : Writes) (s : State) → IsLawful s → Drifts IsBlockCommit held s s × Remains held s s }
    ensures remains { (held : Writes) (from : State) (s : State) → IsLawful from → Drifts IsBlockCommit held from s → Remains held from s }
    ensures at_once { (s : State) (tag : List ℕ) (writes : Writes) → IsFit IsBlockCommit s tag writes → IsBlockCommit tag s writes }
{}

/// What a block plans in a state by its commands one after another is a commit that is fit: it stays allowed whatever other
/// blocks commit meanwhile that write nothing of it. On each state to which they may lead the commands reply what was
/// planned, change something or not as was planned, and leave the catalogue of the state with these writes. So the reply
/// of a commit is that of the state just before it, whatever that is.
pub fn block_plans_are_fit()
    ensures fit { (from : State) (commands : List Command) (writes : Writes) (replies : List Reply) (changing : Bool)
        → BlockPlan from commands writes replies changing → IsLawful from → 1 ≤ length commands → length commands ≤ 8
        → IsFit IsBlockCommit from (block_tag (length commands)) writes }
    ensures replies { (from : State) (commands : List Command) (writes : Writes) (replies : List Reply) (changing : Bool)
        → BlockPlan from commands writes replies changing → IsLawful from → (s : State) → Drifts IsBlockCommit writes from s
        → turn_replies commands (catalogue_of s) (capacity s) ≡ replies }
    ensures changes { (from : State) (commands : List Command) (writes : Writes) (replies : List Reply) (changing : Bool)
        → BlockPlan from commands writes replies changing → IsLawful from → (s : State) → Drifts IsBlockCommit writes from s
        → some_changes commands (catalogue_of s) (capacity s) ≡ changing }
    ensures leaves { (from : State) (commands : List Command) (writes : Writes) (replies : List Reply) (changing : Bool)
        → BlockPlan from commands writes replies changing → IsLawful from → (s : State) → Drifts IsBlockCommit writes from s
        → catalogue_of (written s writes) ≡ after_turns commands (catalogue_of s) (capacity s) }
{}
