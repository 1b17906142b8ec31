// What holds of steps, for every state and every tree.
ghost use Rattle.tree_balance.specs.Laws.{StepsKeepTheTree, StepsAfterAnAdd, AddsWithStepsAreFit};

/// Steps, each of which fits the state that those before it leave, keep all that a tree stands for: the state stays lawful and
/// has the same catalogue, each object keeps its owner, its kind and its key, and each search ends at the leaf where it ended.
pub fn steps_keep_the_tree()
    ensures { StepsKeepTheTree }
{}

/// An add and such steps after it, in one commit, keep what a commit of the sets must keep, and leave the catalogue with the key
/// at its value. Their writes are those of a draft (`IsDraft`): distinct objects, which are those of the add and those that the
/// steps name, each with the words that the last of them leaves there.
pub fn steps_after_an_add()
    ensures { StepsAfterAnAdd }
{}

/// An add and such steps after it, in one commit, are fit for the sets, as an add of the key or a put of it with the value: the commit is
/// allowed on its state, and on every state to which allowed commits of others lead that write none of its objects. Such steps may be
/// taken in the commit of an add whatever others do elsewhere in the tree.
pub fn adds_with_steps_are_fit()
    ensures { AddsWithStepsAreFit }
{}
