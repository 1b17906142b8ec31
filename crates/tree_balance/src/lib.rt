//! An add to a search tree of `tree_set`, with steps by which the tree stays short, whatever the order of
//! its keys.
//!
//! # The model
//!
//! An inner node of a tree has a rank, its sixth word, which is advice: a tree is lawful with any. A leaf
//! has rank 0. A step ([`BalanceStep`]) gives an inner node another rank, or lets it take the place of its
//! parent; a double rotation is two steps. By such steps a tree is kept short as relaxed AVL trees are
//! (Sen, Tarjan and Kim, "Deletion without rebalancing in binary search trees", ACM Transactions on
//! Algorithms, 2016): where a node's rank isn't below that of its parent, the parent gets a higher one,
//! or the node, or the child of it that is nearer to its sibling, is lifted above the parent.
//!
//! What a step writes is a function of the words of the objects that it names (`specs/Steps.antt`), so
//! whoever locks these objects with the planned words makes just that step, whatever others commit
//! elsewhere.
//!
//! # The contract
//!
//! [`find_way`] remembers the last objects of a search's way, no more than the root and the inner nodes that
//! the search passes. They are advice: a step is made only where the words of the objects allow it.
//!
//! [`plan_add`] plans the writes of an add where a search ended, and of the steps after it, at most as many
//! objects beside the add's own four as it is told. They leave the very state that the add and then these
//! steps leave, and are of the objects that these name, each once (`IsAddOnWay`). That state is lawful,
//! and its catalogue is the one before with the key at its value. A way of at most 8 inner nodes is left
//! as it is: there the writes are those of the add.
//!
//! [`steps_keep_the_tree`] says that steps keep all that a tree stands for, and [`steps_after_an_add`]
//! that an add and steps after it, in one commit, keep what a commit of the sets must keep. Such a commit
//! is fit ([`adds_with_steps_are_fit`]): it stays allowed whatever others commit that write none of its
//! objects.
//!
//! No clause says how deep a tree is.
//!
//! # Why
//!
//! A rotation changes neither the order of the leaves nor a key (`proofs/Shapes.antt`), and the tree
//! with the rotated part stands where the words of the three objects are those of the step
//! (`proofs/Turning.antt`). So each search ends at the leaf where it ended, and a step disturbs no add,
//! del or put that shares no object with it.
//!
//! # Its place
//!
//! It stands on `tree_set`, whose `Descent` says where a search ended and what an add writes there, and on
//! `mv_history`, whose trait `View` it is generic over. It locks nothing, commits nothing and takes no
//! memory. Crates above name `tree_set` through this crate.
#![tactic(auto)]

mod balance;
mod laws;
mod plan;
mod steps;
mod way;

pub use balance::{SHORT, plan_add};
pub use laws::{adds_with_steps_are_fit, steps_after_an_add, steps_keep_the_tree};
pub use plan::WritePlan;
pub use steps::BalanceStep;
pub use tree_set;
pub use way::{MOST_REMEMBERED, Way, find_way};
