//! Scripts over a domain: each seat runs one in a thread of its own, and then all seats meet.
//!
//! **The model.** A domain with its seats as `open` gave them, and a script for each seat. The run leaves the closing of
//! the domain, with its one history of commits and rests and a table of each seat's log; and a line for each command, with
//! the place where it took effect and its reply.
//!
//! **The contract.** [`run_domain`] promises `RunOf` (run_report's specs) of the closing's history. That history is known
//! by the meeting of the very seats that ran the scripts, so no other history would do:
//!
//! - it is legal, and each commit of it is one that the sets allow, from the all-zero state of the domain's objects on;
//! - each `Commit` line is the commit of its printed time, by the line's seat and with its command's tag, and each commit
//!   of the history has exactly one line;
//! - each `Read` line has its command's reply in the state of its printed time, where the command has nothing to change;
//! - the closing's table of each seat counts the seat's commits and rests in the history, and the versions that its commits
//!   wrote; the meeting took it of the very seat that the chain of its lines leads to (`MetAlong`). The closing tells of
//!   this seat with all its steps, so each step that the chain names was made;
//! - the lines are a legal run of the scripts: each command of each script has one line, along a script times rise, and
//!   the replay of the ordered lines, one after another from empty maps, gives every reply. So every reply is that of
//!   the sequential catalogue at its printed place;
//! - each seat went along the chain of its lines (`AllLinked` of script_workers) from the new seat of its number to the one
//!   that met. So a read's place isn't below any commit that its seat had seen when the command began (`fresh_read` in
//!   proofs/Fresh.antt): nothing is answered from memory.
//!
//! A run may go on forever where a command never gets what it needs; what is promised holds when it returns. Want of
//! memory comes only before the first command, and hands back the domain and its seats.
//!
//! Seats handed back for want of memory mean what new ones mean, so that they can be given again; nothing is
//! said of the pass and the log of what comes back.
//!
//! **Its place.** The crate stands on `script_workers`, which runs scripts over any stores in threads, and on `mvrlu`,
//! whose handles are such stores and whose meeting knows the whole history. `run_report` says what a run is. The crate
//! adds the step from what each seat had seen to the whole history. The loan of the domain to its seats is that of
//! `domain_loan`.
#![tactic(auto)]

mod running;

pub use running::run_domain;
