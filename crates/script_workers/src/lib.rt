//! The workers of the program: each runs one script, of commands, of blocks, or on a growing set, on one store, all at once in
//! threads.
//!
//! # The model
//!
//! A store is a seat of one history of commits (`mv_history`). A worker has a store, a script and the lines that it makes:
//! for each command of the script, in order, one line with the seat, the command's number, the place where it took effect
//! in the history, and its reply there (`run_report`). The commands of a block (`set_blocks`) have its one place. On a growing
//! set the worker tries a split behind each second add that replied yes, until it is answered (`grow_report`). The stores'
//! numbers are their places, so that a line's seat names its script.
//!
//! # The contract
//!
//! [`run_scripts`], [`run_blocks`] and [`run_grow`] leave, of each seat and its script, a chain (`AllLinked`, `AllLinkedBlocks`,
//! `AllLinkedTurns`): each command or block begins at the very seat at which the one before it was done, on a growing set with
//! its split. Its link (`Linked`, `LinkedBlock`, `LinkedTurn`) says that
//!
//! - after attempts that made no commit there was one of this very command or block that was done, with this place and these
//!   replies, in a section that this attempt entered. A commit is later than all that the seat had seen, and a read has that
//!   section's time, which it took then (`took`);
//! - so a read's snapshot holds all that the seat had seen when the command or block began (`linked_fresh` and `block_fresh` in
//!   proofs/Runs.antt, `turn_fresh` in proofs/Turns.antt): nothing is answered from memory;
//! - where a split is due behind a command, after tries that made no commit there was one that answered: a bucket was split,
//!   or the section that it looked into can't be.
//!
//! From the chain follows (`Ran` in `run_report`, `RanBlocks` in specs/BlockRuns.antt, `RanGrow` in `grow_report`):
//!
//! - what the seat had seen is still seen, and no range of times changed (`Continues`);
//! - its commits grew by exactly those of its lines, one for each command or block at a commit, in order, and by no others; on a
//!   growing set also by that of one split at most behind each second add that replied yes;
//! - each place stands in the history that the seat has seen at the end. A commit is the entry of that printed time, by this
//!   seat and with the tag of the command, or of a block of so many commands, and the replies are those of the catalogue just
//!   before it; a block or a command of a growing set leaves what it does there. A read's replies are those of the catalogue of
//!   its time, where the command or block has nothing to change;
//! - the lines of a block are numbered on from those of the block before, and reply what the block replies;
//! - a split that is missing has a state that can't be split, of a time from that add on and ahead of the next line;
//! - the places follow what was seen before the run, and one another: a commit is later, and a read is no earlier.
//!
//! Of other seats, of the end of a run, of the gate and of want of memory is said what `item_workers` says. That the numbers of
//! the stores are their places is asked only so that a line's seat names its script. `S::Open` must be `Send`, since the type
//! of a thread's argument names it.
//!
//! # How it is proved
//!
//! [`Hinted`], a store with its hints, [`Blocks`], a store that does blocks, and [`Growing`], a store with the parity of its
//! adds, are `Runner`s of `item_workers`, which has the threads and gives the chain. An attempt of [`Growing`] is one of the
//! command, or of the split that is due behind it. One attempt's contract (`set_catalog`, `set_blocks`, `grow_hash`) speaks of
//! the history that was seen then. From it comes the place of a command, of a block (`proofs/Places.antt`) or of a split, which
//! stays its place in each longer history; and so a chain is a run, by its first item and the chain behind it
//! (`proofs/Runs.antt`, and for a growing set `proofs/Turns.antt`).
//!
//! # Its place
//!
//! It stands on the attempts of `set_catalog`, `set_blocks` and `grow_hash`, on the workers of `item_workers`, on `work_runner`
//! for what it means to be done behind attempts that made no commit, and on the lines of `run_report` and the turns of
//! `grow_report`, over any store. The program opens the stores and prints the lines; that the lines of all stores are one legal
//! run follows from this contract and from the stores being seats of one domain.
#![tactic(auto)]

mod blocks;
mod growing;
mod hinted;
mod rows;
mod running;

pub use blocks::Blocks;
pub use growing::Growing;
pub use hinted::Hinted;
pub use rows::make_lines;
pub use running::{run_blocks, run_grow, run_scripts};
