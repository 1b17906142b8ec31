//! Helpers over any store: sections that are begun, read, filled by a closure and committed, and laws of what commits keep.
//!
//! # The model
//!
//! A client of `mv_history` does the same again and again: it makes room, enters a section, decides by what it reads, locks and
//! writes, commits, and begins anew where something was in the way. Here it writes the part in the middle alone, as a closure
//! that is shown the section.
//!
//! # The contract
//!
//! - [`begin`]: `enter`, with the number of objects, and the state that the section reads.
//! - [`read`]: one section that is only read, and left. It never refuses.
//! - [`put`]: a lock and a write of one object; an `Err` says why the lock was refused, by the `Refusal` of `section_work`.
//! - [`lock_all`]: locks of several objects, with the words that they have; an `Err` says why the first was refused that was.
//! - [`update`]: one section that the closure fills, and then one commit or none. The closure answers what is to be done with
//!   the section (`Decision`), or hands on a `Refusal` by `?`. What the closure says of itself is told back: of the section that
//!   it was shown, of its answer and of what it left (`specs/Updates.antt`). Each refusal has its [`Outcome`] and its cause.
//! - [`update_at_most`], [`update_until`], [`update_times`]: updates that are tried again behind an `Again`, which left nothing.
//! - [`Record`]: an object as a struct with a name for each field. Its words give the record back, so that no two records have the
//!   same words. [`Field`] has what a field is in a word, and back: a `u64`, a `u32`, a `bool`, a link (`Option<u32>`: an object's
//!   number, or none), or two `u32`.
//! - [`read_record`], [`put_record`]: the record that an object says in a view, and a `put` of a record, which the section then reads.
//!
//! What is asked of the closure are two things (`Filled`): it stays in its section, and what it leaves for a commit is fit. In
//! `proofs/`, for clients: `Fits.fit_by_held`, for commits whose rules depend on what is held alone; `Filled.filled_put` and
//! `filled_refused`, for closures that read one object and put it; `Invariants.keeps_after`, `keeps_at` and `keeps_in`: what each allowed
//! commit keeps (`IsKept`) holds after an allowed history, at each time that a seat has seen, and in what a section reads;
//! `raised_after` and `raised_read`, of what each commit raises by one; `Commits.told_in_all`, of commits that are told seat by
//! seat. `specs/Rules.antt` has what shows that rules are propositions, and `specs/Rewriting.antt` the rules of one object
//! (`Rewrites`), whose lemmas are in `proofs/Rewriting.antt`.
//!
//! Of objects that links put on lists `specs/Linked.antt` says what a ring is, and what it is to be on a list. `proofs/Linked.antt`
//! has what a ring gives, `LinkedOpening` that objects open as one, `LinkedWalks` a walk along a list, which ends, and
//! `LinkedMoves` the ring from which one object is taken and put elsewhere. `Keeping` is of writes over a state: what each of
//! them keeps of its object's words every object keeps, and what three of them leave.
//!
//! # Its place
//!
//! It stands on the traits of `mv_history` and on the causes of `section_work`, and knows no store. Who has a longer unit of
//! work, with a reply of its own for each answer, writes a `Work` of `section_work`.
#![tactic(auto)]

mod beginning;
mod fields;
mod holding;
mod records;
mod updating;

pub use beginning::{begin, read};
pub use fields::Field;
pub use holding::{lock_all, put};
pub use records::{Record, put_record, read_record};
pub use updating::{Outcome, update, update_at_most, update_times, update_until};
