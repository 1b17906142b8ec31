//! One command as one section, over any store.
//!
//! # The model
//!
//! A command meets the catalogue of a state, the number of nodes, and whether its place is the last
//! time; `set_model` says what it replies there and what it changes. It is a work of `section_work`,
//! whose attempt makes room in the seat's log, enters one section, and lets it find what it comes to
//! in the section's snapshot: a reply that changes nothing, or a plan, which has the objects to lock
//! with the words to write. What changes nothing leaves the section again. A plan is locked and
//! written by one `rewrite`, with no further search, and given to one `try_commit`, as one entry of
//! the history: a move too, whose add takes the objects first that its del leaves vacant.
//!
//! A command searches each of its sets once, a move one set after the other in the same state: its
//! del writes nothing that the search in the target read. An object that the del removes and the add
//! takes stands in the plan once.
//!
//! An add to a tree that has keys goes down the way of its search once more, and plans the steps by which
//! the tree stays short after it (`tree_balance`), as far as the store's `write_max` leaves room. Where its
//! search passes at most 8 inner nodes, and in the add of a move and in commands of a block, there are none.
//!
//! # The contract
//!
//! - `Done` at `Commit(t)`: the entry of time t is the seat's last commit, with the command's tag.
//!   It writes exactly what the command locks in its snapshot (`specs/Plans.antt`), and is fit: five
//!   objects at most, and of an add to a tree where its search passes more than 8 inner nodes its own four
//!   and those of its steps, 16 at most and no more than `write_max` (`specs/Steps.antt`). The reply is that of the catalogue just before t, at a
//!   place that is not the last time.
//! - `Done` at `Read(t)`: no commit was made. Time t is that of a section that this call entered, the
//!   reply is that of the catalogue there, and the command changes nothing there. `Full`, `Worn` and
//!   `No` come exactly so.
//! - `Again` comes only where the command would change something in the snapshot of a section that
//!   this call entered, which is not at the last time, and no commit was made. The cause is the one
//!   lock or commit that was refused there, of an object that the command locks, or that this call's
//!   `prepare` made too little room. What the section saw, and the entry that a cause names, stand in
//!   what the seat has seen afterwards. What only a store can show of a cause it defines itself
//!   (`section_work/specs/Causes.antt`).
//! - An attempt says which calls of its store it made (`section_work/specs/Steps.antt`): it enters one
//!   section, and a second one only where no time was left, and a command that changes nothing locks
//!   nothing. It has at most one exchange on CLOCK for a commit in its trail. After a del is done, the
//!   objects that it left vacant are noted in the hints. Each other hint was one before, or its
//!   object was vacant at a time of the call.
//!
//! A commit may be made only if it is fit: allowed on the snapshot and on every state to which
//! others may have led meanwhile. That each change of these sets is, `list_set` and `tree_set` show
//! of their places; a command's reply at its commit then follows from the store's law that its whole
//! history is allowed.
//!
//! A command that only asks is answered with no plan, by searches that read no object of a list twice.
//!
//! `pick` finds vacant objects, and tries what a worker remembers of its own deletions first.
//! A `HintedStore` owns a store with what it remembers of it: hints, fingers into lists and buckets,
//! and of its last look for vacant objects that found too few, of which time that is known. While
//! nothing was freed since, it answers `Full` with no further look. What is known is right for its
//! store's seat. All of it is boxed, with the plan of the command at hand, which each command uses again:
//! so a command clears and moves no memory for a plan.
//! `read_all` reads the whole catalogue, set by set and each node once. The table for its walks over
//! trees is of memory that can be refused, and none of it lies on the stack.
//!
//! No call but `Hints::new`, `Memo::new` and `read_all` takes memory.
//!
//! # Its place
//!
//! It stands on the three crates of sets, whose calls it makes by a command's names (it names `list_set`
//! through `hash_set`, and `tree_set` through `tree_balance`), on `tree_balance`, whose plans are its
//! own, on `set_model`, on `section_work`, by which each attempt is made, and on the traits of `mv_history`. It knows no
//! store, and nothing of logs, chains or marks. The program runs a script by one attempt after another.
#![tactic(auto)]

mod answer;
mod attempting;
mod command_work;
mod ends;
mod finding;
mod hinted_store;
mod hints;
mod memo;
mod names;
mod outcome;
mod picks;
mod plan;
mod reading;
mod sets;
mod shortage;

pub use answer::CommandAttempt;
pub use attempting::{attempt, attempt_with};
pub use ends::{End, search};
pub use finding::{Finding, find_plan, find_plan_near};
pub use hinted_store::HintedStore;
pub use hints::Hints;
pub use memo::Memo;
pub use outcome::PlanOutcome;
pub use picks::{Picked, pick};
pub use plan::Vacated;
pub use reading::read_all;
pub use shortage::Shortage;
pub use tree_balance::WritePlan;
