//! A pool over a domain: its seats do the commands of one list, whichever of them takes the next, and then all seats meet.
//!
//! **The model.** A domain with its seats as `open` gave them, and one list of commands. The run leaves the closing of the
//! domain, with its one history of commits and rests and a table of each seat's log; and a line for each command, with the
//! seat that took it, the place where it took effect and its reply.
//!
//! **The contract.** [`run_pool_domain`] promises `PoolOf` (specs/Whole.antt) of the closing's history. That history is
//! known by the meeting of the very seats that did the commands, so no other history would do:
//!
//! - it is legal, and each commit of it is one that the sets allow, from the all-zero state of the domain's objects on;
//! - each `Commit` line is the commit of its printed time, by the line's seat and with its command's tag, and each commit
//!   of the history has exactly one line;
//! - each `Read` line has its command's reply in the state of its printed time, where the command has nothing to change;
//! - the closing's table of each seat counts the seat's commits and rests in the history, and the versions that its commits
//!   wrote; the meeting took it of the very seat that the chain of its lines leads to (`MetAlong`). The closing tells of
//!   this seat with all its steps, so each step that the chain names was made;
//! - the lines are a legal pool (`LegalPool`, specs/Legal.antt): each command has one line, along the numbers of each seat
//!   times rise, and the replay of the ordered lines, one after another from empty maps, gives every reply.
//!
//! A run may go on forever where a command never gets what it needs; what is promised holds when it returns. Want of
//! memory comes only before the first command, and hands back the domain and its seats.
//!
//! **Its place.** The crate stands on `command_pool`, which does commands on any stores in threads, and on `mvrlu`, whose
//! handles are such stores and whose meeting knows the whole history. The loan of the domain to its seats is that of
//! `domain_loan`, and what a run in one history is comes from `run_report`.
#![tactic(auto)]

mod running;

pub use running::run_pool_domain;
