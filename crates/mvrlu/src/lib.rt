//! The domain: a store of many versions, behind the traits of `mv_history`.
//!
//! Seats of one domain read and write the same objects at the same time, and nobody waits. Each seat is
//! a thread's place in the domain. Outside a section it is a `Store`, by its `Handle`; `enter` begins a
//! section, a `Session`, which reads the one state of its snapshot whatever others commit meanwhile,
//! holds what it is to write, and ends by a commit, an abort or by leaving. The algorithm is MV-RLU (Kim,
//! Mathew, Kashyap, Ramanathan and Min, ASPLOS 2019, sections 3 and 4), after read-log-update (Matveev,
//! Shavit, Felber and Marlier, SOSP 2015), with one commit clock that also orders the history.
//!
//! **The model.** A `Domain` has a name, which no other domain has, with its numbers, and an opening
//! state. A `Seat` means what every store's seat means: what it has seen of the one history of commits
//! and rests, its own commits in it, the free slots of its log, and the trail of its atomic steps. A
//! `Handle` means its seat, and a `Session` the section of its seat: the snapshot's length, and what it
//! holds. A `Closing` means the whole history, with the numbers of its domain and the tables of the logs of
//! the seats that met, and reads the state after it. `Meant` in specs/ has these.
//!
//! **The contract.** `Handle` is a `Store` and `Session` a `Section`, so all clauses of these traits hold
//! over every interleaving of the steps. What a refusal claims was found in the steps of that very call:
//!
//! - `took`: a load of CLOCK in the call found the time of the snapshot that `enter` begins with.
//! - `found_held`: the last three steps of a `try_lock` that answers `Busy` found HEAD of the object
//!   naming a version of that other seat's log, which is a seat of the domain, and its stamp unset.
//! - `loaded`: the first step of a `try_commit` loaded CLOCK. `Again` has exactly one exchange of CLOCK,
//!   which was lost against an entry made after that load, and `End` comes only where that load found the
//!   last time.
//! - `holds_back`: the causes of the holders that `prepare` and `Handle::tidy` name, with the watermark
//!   that the oldest write set of the log still needs. The clauses `room` and `holder` of a handle's
//!   `prepare`, and `tidies` of `Handle::tidy`, say it of the handle's own pass and log, with what was
//!   freed and written back.
//!
//! No call but `open` and `open_zeros` takes memory, and none waits, or tries again but a lock once. Each call's clause `bound` says how
//! many steps it makes at most: `enter` 6, `try_lock` 24, `write` 6, `try_commit` 8 and one for each
//! object held, `abort` 2 and one for each object held, `leave` 1, and a `read` 12 and three for each entry
//! after the snapshot that was seen. `prepare` and `tidy` make at most `2 * (4 + seats + 20 * slots) + 8`,
//! `grace` `seats + 3`, and `meet` `seats + 7`.
//!
//! `Handle::grace` tells a time that no section is below, by one scan of the marks: `NeverBelow` in specs/
//! says so of each state of the rule in which the seat has the view that the call left, and of each that
//! comes after by moves of any seats. What a section means, its time, is by the rule of `mv_core`.
//!
//! Each call's clause `aborts` says what becomes of the seat's count of aborts, which `Handle::table`
//! gives: `abort` raises it by one exactly where something is held, and every other call leaves it.
//!
//! **The law of the whole.** `open` gives a domain with all its seats, as `open_zeros` does, and `Domain::meet` ends it with all
//! of them. Whatever the seats have done meanwhile, there is then one list of commits and rests: legal,
//! allowed by the client's rules from the opening state, and begun by whatever any seat had seen at any
//! time. Each seat's commits stand in it, in order and each once, and so many of its rests; each entry is
//! of one of the seats. The `Closing` reads the state after all of it. `LawOfTheWhole` in specs/ says so,
//! and it is the contract of `meet`. The `Closing` also has the table of each seat's log, which `meet` took
//! of the seats that it was given (clause `tables`); `open` took the room for them. And it tells which seats
//! met, one of each number (`IsMetSeat`): of each other seat all that it had seen and done, as the core noted
//! when it was joined, and of the seat that is left its number and its trail, behind which stand the joins,
//! two loads of CLOCK with an entering between them, and later reads. So of each number one trail is that of
//! a seat that met (clause `trails`): no other trail stands for a seat, though the history be the same.
//!
//! A handle lends the domain to its seat, and may go to another thread; the words are touched only through
//! its calls. Where a thread can't keep that loan from one call to the next, `Session::park` makes a
//! section a `Parked`, which borrows nothing, and `Domain::resume` a session again. Seats, handles and
//! sections, parked ones too, must be spent: one that is let go doesn't compile. `Seat::let_go` spends a
//! seat alone.
//!
//! **How it is proved.** A call of the crates below leaves a pass and a log, and says what it leaves of
//! them. `Placed` in specs/ is both as one value, and what it means as a seat or a section; each file of
//! proofs/ shows for one kind of call that what is left of the place is what the trait's clause says.
//!
//! The crate stands on `reader_marks` and `version_chain` for entering and reading, on `object_lock` for
//! locks, on `commit_abort` for the end of a section, on `log_reclaim` for room, on `seat_log` for a
//! seat's notes of its log, and on `mv_core`, which has the words and the rule.
#![tactic(auto)]

mod closing;
mod domain;
mod ending;
mod entering;
mod grace;
mod handle;
mod holding;
mod meeting;
mod opening;
mod parking;
mod places;
mod reading;
mod reclaiming;
mod session;

pub use closing::Closing;
pub use domain::{Domain, Seat};
pub use handle::Handle;
pub use opening::{OpenFault, open, open_zeros};
pub use parking::Parked;
pub use session::Session;
