// The rules of the blocks.

use mv_history::Protocol;

/// The rules under which blocks of commands are commits: the opening states are those of `set_model::SetRules`, whose
/// words are all 0.
///
/// A commit is allowed exactly where
///
/// 1. its tag is `[5, n, 0, 0]`, with n, the number of the block's commands, from 1 to 8;
/// 2. the state before it and the state after it are lawful;
/// 3. a node keeps its key to which the head of a list or a bucket leads, or a node of one, that the commit doesn't write;
/// 4. a search in a tree that ends at a leaf which the commit doesn't write ends there still.
///
/// The last two are what another block's commit needs that was made on an older snapshot and holds what its replies depend on.
/// An object that a block takes out of a set may come back in the same block, also in the same set.
pub struct BlockRules;

impl Protocol for BlockRules {
    ghost use Rattle.set_model.specs.Lawful.{IsOpening};
    ghost use Rattle.set_model.specs.RuleLaws.{IsOpening-prop};
    ghost use Rattle.set_blocks.specs.BlockRules.{IsBlockCommit};
    ghost use Rattle.set_blocks.specs.BlockRuleLaws.{IsBlockCommit-prop};

    ghost start = { IsOpening };

    ghost allowed = { IsBlockCommit };

    ghost one_start = { IsOpening-prop };

    ghost one_allowed = { IsBlockCommit-prop };
}
