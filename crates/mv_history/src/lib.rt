//! Histories of commits, what seats and sections mean, and the traits of a store.
//!
//! # Model
//!
//! A store keeps objects, numbered from 0, of [`WORDS`] words each. Its *state* is the list of their
//! words. Its *history* is a list of entries, which begins empty and only grows; an entry is a
//! *commit*, which writes objects, or a *rest*, which writes none. The state of time `t` is the
//! opening state with the writes of the first `t` entries applied in order.
//!
//! Definitions count times as such lengths. Calls answer printed times: that of the state after `t`
//! entries, and of the entry that makes it, is `base + t`. Printed times run from the store's `base`
//! to its `last`, which is at most [`LAST`]; once it is reached, no commit is possible any more.
//!
//! A *seat* is the place of one thread at a store. It knows a prefix of the history, which it has
//! seen. Outside a section it is a [`Store`], inside one a [`Section`], and what can be read of it is
//! a [`View`]. A section reads a *snapshot*, the state after a prefix of the history, and under it
//! the new words of the objects that it holds. Its commit enters the history whole, as one entry.
//!
//! # Contract
//!
//! - The history that a seat has seen is *legal*: each commit writes at least one object, distinct
//!   ones, all in range; no entry between its snapshot and itself writes what it writes; its snapshot
//!   is not before the last entry of its own seat; and a seat's commits are numbered from 1. This is
//!   snapshot isolation (Berenson and others, "A Critique of ANSI SQL Isolation Levels", SIGMOD 1995).
//! - It is *allowed*: each commit is one that the client's rules, a [`Protocol`], allow on the state
//!   just before it.
//! - A client may try a commit that is *fit*: allowed on the snapshot's state, and on every state to
//!   which allowed commits of others may lead meanwhile that write nothing held. So a client locks
//!   what its commit depends on, and needs no knowledge of what the others do.
//! - Each call of the traits says what it answers, when it refuses and what it leaves. Causes that
//!   only a store can show, as that a step of the call found a lock, are members of the traits which
//!   each store defines.
//! - A seat's *trail* lists its atomic steps, each a [`Step`] of a [`StepKind`]. A call of
//!   `try_commit` has at most one exchange on CLOCK for a commit in its trail. Where the store tells
//!   its trail, it has exactly one where it is done, won, and where it is overtaken, lost. No other
//!   call has any, and an abort has no exchange on CLOCK at all.
//!
//! The traits are those of multi-version read-log-update: MV-RLU is by Kim, Mathew, Kashyap,
//! Ramanathan and Min (ASPLOS 2019), and extends RLU, by Matveev, Shavit, Felber and Marlier
//! (SOSP 2015). They say nothing of logs, version chains or reclamation, so a store may be plain, as
//! that of `plain_store`.
//!
//! # Place
//!
//! The crate stands on no other. Stores implement its traits, and clients are written over them.
//!
//! The definitions are in `specs/`: `State` and `Legal` of states and histories, `Drift` of fit
//! commits, `Trail` of steps, `Meaning` of seats and sections, `Calls` and `Answer` of what the calls
//! do. In `proofs/` are lemmas for those who use them: `Drifting` on what stays while others commit
//! (`drift_keeps_apart`), `Snapshots` on what stays of a snapshot (`words-before_commit`), `Steps` on
//! several calls in a row, and `Holding` on what a section reads after a lock or a write.
#![tactic(auto)]

mod answers;
mod history;
mod rules;
mod section;
mod store;
mod trail;
mod view;

pub use answers::{CommitAnswer, Holder, LockAnswer, LogTable, Rival, Room};
pub use history::{Commit, Entry, LAST, Tag, WORDS, Words};
pub use rules::{AnyRules, Protocol};
pub use section::Section;
pub use store::Store;
pub use trail::{Step, StepKind};
pub use view::View;
