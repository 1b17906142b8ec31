//! A pool of workers over one list of commands: each worker has a store, and any of them takes the next command.
//!
//! # The model
//!
//! A store is a seat of one history of commits (`mv_history`). The commands are numbered from 1. Their numbers lie in a
//! queue that all workers share (`crossbeam_queue`), and each worker takes the next number, tries its command until it is
//! done, and so on. What came of a command is a line (`run_report`), with the seat, the number, the place where the command
//! took effect in the history, and its reply there.
//!
//! # The contract
//!
//! [`run_pool`] promises (`PoolRan` in specs/Pool.antt):
//!
//! - each number from 1 to the count of the commands stands in exactly one of the lines, and no other number does;
//! - the lines stand by store, in the order of the stores, and of each store by rising number;
//! - the lines of one store are, with the commands of those numbers as its script, a run of that script on that store
//!   (`Ran` in `run_report`). So each place stands in the history that the store's seat has seen at the end, each reply is
//!   that of the catalogue there, the places never fall, and the seat's commits grew by exactly those of its lines.
//!
//! And of each store there is a chain (`PoolLinked`): each command that it took begins at the very seat at which the one before
//! it was done, and its place is that of its own attempt (`Linked` in `script_workers`). So a read's snapshot holds all that
//! the seat had seen when the command began (`linked_fresh` there): nothing is answered from memory.
//!
//! Nothing is said of which worker takes which command. Of other seats, of the end of a run, of the gate and of want of memory is
//! said what `item_workers` says.
//!
//! # How it is proved
//!
//! The queue has a rule (specs/Queue.antt): what it holds are the numbers that follow the last one taken, and each number
//! up to that one was taken once. Behind the commands lies an end mark for each worker, a number that no command has. A
//! worker ends when it takes one, and so knows, for good, that every command was taken: that a queue was found empty would
//! tell a worker nothing of a later moment. When all have ended, the parts of the queue's pass are put together, and so each
//! number was taken exactly once (`proofs/Taking.antt`).
//!
//! A worker's turns, its part of the pass over the commands, are a `Source` of `item_workers`, which has the threads and gives
//! the chain. With its lines numbered from 1 a chain is a run (`proofs/Taking.antt`).
//!
//! # Its place
//!
//! It stands on `item_workers` for the workers, on `script_workers` for one command on one store, and on `run_report` for what
//! a run of a script is. Its stores may be any, so it knows of no domain.
#![tactic(auto)]

mod lending;
mod queue;
mod running;
mod turns;

pub use running::run_pool;
