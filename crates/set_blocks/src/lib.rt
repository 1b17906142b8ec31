//! Blocks of set commands: several commands as one commit.
//!
//! **Model.** A block is a list of 1 to 8 commands, of which a `size` and a `next` are alone
//! (`specs/Blocks.antt`). `block_parser` reads blocks of a script's text.
//!
//! A block meets a catalogue by its commands one after another; where one of them is `full` all are, and nothing changes;
//! and where the block would change something at the last time all are `worn` (`specs/BlockReplies.antt`). In a state it
//! locks and writes what each command does in the state that those before it leave; a command that changes nothing holds
//! what its reply depends on, with the words that it has (`specs/BlockPlans.antt`).
//!
//! **Rules.** `BlockRules` are the rules under which such a block is one commit (`specs/BlockRules.antt`). That it is fit, so
//! that it stays allowed whatever other blocks commit meanwhile, with the same replies, is proved once over the ways to
//! change a map, each of which finds its place and its searches again wherever what it holds remains
//! (`proofs/Tracking.antt`, and `ListTracks`, `TreeTracks`, `RootTracks` and `CutTracks` of each way), and then by induction over the
//! commands (`proofs/Stepping.antt`, `proofs/Planning.antt`).
//!
//! **Work.** A `Block` is a `section_work::Work` (`specs/BlockMeaning.antt`): it is decided as a whole over any view, by its
//! commands one after another over what those before them write (`Overlay`, a view with planned writes). All objects that it
//! locks or holds, with their last words, are one plan. That a commit of it makes the block's change, with its replies, of the
//! state just before it, and not only of the snapshot, follows of what is held: from the snapshot to that state nothing of it
//! was written (`proofs/Deciding.antt`).
//!
//! **Attempt.** `attempt_block` does this work in one section of a store, by `section_work::attempt_work`. What it leaves is said
//! by its answer (`specs/BlockAttempts.antt`): one entry, with the replies and the change of the block on the state just before
//! it; or a read; or why the change was given up.
//!
//! **Contract.** Each `Block` is one, whoever made it. The laws say what the definitions come to over all commands and
//! states.
//!
//! **Place.** It stands on `set_model`, whose commands it does, on the three crates of sets and on `set_catalog`, whose
//! places and plans its own speak of, and on `section_work`, which does a block as one section.
#![tactic(auto)]

mod attempt;
mod attempting;
mod block;
mod block_work;
mod finding;
mod holds;
mod laws;
mod overlay;
mod replies;
mod rules;
mod turns;

pub use attempt::BlockAttempt;
pub use attempting::attempt_block;
pub use block::{Block, MOST_IN_BLOCK, stands_alone};
pub use laws::{block_plans_are_fit, blocks_of_one, lawful_states_remain};
pub use overlay::Planned;
pub use replies::Replies;
pub use rules::BlockRules;
