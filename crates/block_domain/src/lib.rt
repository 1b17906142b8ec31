//! Scripts of blocks over a domain: each seat runs one in a thread of its own, and then all seats meet.
//!
//! **The model.** A domain under the rules of blocks, with its seats as `open` gave them, and a script of blocks for each seat.
//! The run leaves the closing of the domain, with its one history of commits and rests and a table of each seat's log; and a
//! line for each command, with the place where its block took effect and its reply.
//!
//! **The contract.** [`run_block_domain`] promises `BlocksRunOf` (specs/Whole.antt) of the closing's history. That history is
//! known by the meeting of the very seats that ran the scripts, so no other history would do:
//!
//! - it is legal, and each commit of it is one that blocks make, from the all-zero state of the domain's objects on;
//! - the lines are those of blocks, each with its one place. A block at a commit is the commit of its printed time, by its seat
//!   and with the tag of a block of so many commands; its replies and its change are those of the block on the catalogue just
//!   before it. Each commit of the history has exactly one block;
//! - a block at a read has its replies on the catalogue of its printed time, where it changes nothing;
//! - the closing's table of each seat counts the seat's commits and rests in the history, and the versions that its commits
//!   wrote; the meeting took it of the very seat that the chain of its lines leads to (`MetAlong`). The closing tells of
//!   this seat with all its steps, so each step that the chain names was made;
//! - the lines are a legal run of the blocks (`LegalBlocks`, specs/Legal.antt): each command has one line, the lines of a block
//!   one place, along a script times rise, and the replay of the blocks in the order of their lines, one after another from
//!   empty maps, gives every reply.
//!
//! A run may go on forever where a block never gets what it needs; what is promised holds when it returns. Want of memory
//! comes only before the first block, and hands back the domain and its seats.
//!
//! **Its place.** The crate stands on `script_workers`, which runs scripts of blocks over any stores in threads, and on `mvrlu`,
//! whose handles are such stores and whose meeting knows the whole history. The loan of the domain to its seats is that of
//! `domain_loan`. How the lines of seats stand in one history, whatever they reply, comes from `run_report`.
#![tactic(auto)]

mod running;

pub use running::run_block_domain;
