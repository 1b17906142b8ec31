//! Scripts on a growing hash set over a domain: each seat runs one in a thread of its own, and then all seats meet.
//!
//! **The model.** A domain under the rules of a growing hash set, with its seats as `open` gave them, and a script of commands
//! for each seat. The run leaves the closing of the domain, with its one history of commits and rests and a table of each seat's
//! log; and a line for each command, with the place where it took effect and its reply. Between the lines the seats split buckets.
//!
//! **The contract.** [`run_grow_domain`] promises `GrowRunOf` (`grow_report`, specs/Whole.antt) of the closing's history. That
//! history is known by the meeting of the very seats that ran the scripts, so no other history would do:
//!
//! - it is legal, and each commit of it is one that a growing hash set allows, from the all-zero state of the domain's objects on;
//! - each commit is that of exactly one line, or a split. A seat's splits stand behind each second add of its script that replied
//!   yes and ahead of its next line, one at most, and nowhere else; one is missing only where a state meanwhile can't be split;
//! - there are as many splits as the history has, and the state at the end has 16 buckets and so many more;
//! - the closing's table of each seat counts the seat's commits and rests in the history, and the versions that its commits
//!   wrote; the meeting took it of the very seat that the chain of its lines leads to (`MetAlong`). The closing tells of
//!   this seat with all its steps, so each step that the chain names was made;
//! - the lines are a legal run (`LegalRun` of `run_report`): each command has one line, along a script times rise, and the replay
//!   of the lines in their order, one after another from empty maps, gives every reply.
//!
//! A run may go on forever where a command or a split never gets what it needs; what is promised holds when it returns. Want of
//! memory comes only before the first command, and hands back the domain and its seats.
//!
//! **Its place.** The crate stands on `script_workers`, which runs scripts over any stores in threads, and on `mvrlu`, whose handles
//! are such stores and whose meeting knows the whole history. The loan of the domain to its seats is that of `domain_loan`.
//! How the turns of seats stand in one history comes from `grow_report`.
#![tactic(auto)]

mod running;

pub use running::run_grow_domain;
