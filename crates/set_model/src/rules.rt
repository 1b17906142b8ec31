// The rules of the sets.

use mv_history::Protocol;

/// The rules of the sets: they begin with objects that are all zero, and each commit is one add,
/// put, del or move that replies yes.
///
/// A commit is allowed exactly where
///
/// 1. the state before it and the state after it are lawful;
/// 2. its tag stands for an add, a put, a del or a move whose reply on the catalogue of the state
///    before, at a place that is not the last time, is yes, and the catalogue of the state after is
///    the command's;
/// 3. an object whose owner word is the same in both states and is not 0 keeps its kind and its key;
/// 4. a search in a tree that ends at a leaf which the commit doesn't write ends there still.
///
/// The last two are what another section's commit needs that was made on an older snapshot: an add
/// to a list locks its predecessor alone, and the node behind keeps its key; an add to a tree locks
/// the leaf where its search ended, and the search still ends there.
pub struct SetRules;

impl Protocol for SetRules {
    ghost use Rattle.set_model.specs.Lawful.{IsOpening};
    ghost use Rattle.set_model.specs.Rules.{IsSetCommit};
    ghost use Rattle.set_model.specs.RuleLaws.{IsOpening-prop, IsSetCommit-prop};

    ghost start = { IsOpening };

    ghost allowed = { IsSetCommit };

    ghost one_start = { IsOpening-prop };

    ghost one_allowed = { IsSetCommit-prop };
}
