//! A hash set that grows by one bucket at a time, over the objects of any store.
//!
//! # The model
//!
//! The set grows up to `2^LEVELS` buckets, from 10 `LEVELS` (1,024 buckets, those of the program) to 20.
//! Object 0 is the table: its level and its split place say how many buckets there are, and which
//! bucket a key has (`specs/Tables.antt`). Objects 1 to `2^LEVELS` are the heads of the buckets, and those
//! behind them are nodes. With 10 `LEVELS` the bucket is the remainder of the key; with more the key is mixed
//! first (`specs/Mixing.antt`). A state is lawful where each head leads with strictly rising keys through
//! exactly the nodes that name it, and each node is vacant or in the bucket of its key
//! (`specs/Grown.antt`, and `list_set`'s `specs/Linked.antt` for one list). It stands for the
//! catalogue that has the keys in `h0`; that definition folds over the nodes, and follows no link.
//!
//! # Rules
//!
//! `GrowRules` are the rules of the set (`specs/GrowRules.antt`): a commit is an add or a del that
//! replies yes, or the split of the bucket at the split place, which leaves the catalogue, moves the
//! table on by one place and writes each object of the bucket. An add holds its predecessor, and a del
//! its predecessor and its node; so a split of their bucket meets them, and every other commit leaves
//! their bucket and their place. That each is fit, so that it stays allowed whatever others commit
//! meanwhile, is a law (`grow_plans_are_fit`, `split_plans_are_fit`), and so is that each state is lawful and has 16 buckets
//! and one more for each split (`grown_states_remain`). Code that is generic over the levels names its rules by the bound
//! `GrowingRules`, whose laws say that they are these.
//!
//! # The contract
//!
//! `attempt_grow` is one command as one section of any store: what it leaves as a work of `section_work`
//! (`specs/GrowAttempts.antt`), whose meaning is that of `specs/GrowMeaning.antt`. By its answer:
//!
//! - `Done` at `Commit(t)`: the entry of time t is the seat's last commit, with the command's tag. It
//!   writes exactly what the command locks in its snapshot, and the reply and the change are those of the
//!   set just before t.
//! - `Done` at `Read(t)`: no commit was made. Time t is that of a section that this call entered, the
//!   reply is that of the set there, and the command changes nothing there.
//! - `Again`: the command would change something in the snapshot of a section that this call entered,
//!   which is not at the last time. The cause is the one lock or commit that was refused there, of an
//!   object that the command locks, or that this call's `prepare` found no room. No commit was made.
//!
//! It decides over the section's view, by one walk along the bucket of the key, before anything is locked
//! (`specs/GrowFindings.antt`); then it locks and writes what it planned, and commits it. The replies are
//! those of the state just before the commit, and not of the snapshot, since the store's law is that its
//! whole history is allowed.
//!
//! `try_split` is the split of the bucket at the split place as one section of any store
//! (`specs/SplitAttempts.antt`). It reads the bucket once, along its list, into an array on the stack, and
//! plans from that what each object gets: the table its next words, and both heads and each node the
//! first or next node of its own half (`specs/SplitPlans.antt`). Each node of the bucket is written, also
//! where its link stays, so the split meets each add and del there. By its answer:
//!
//! - `Done`: the entry of that time is the seat's last commit, the split of the bucket that was next just
//!   before it. The catalogue is as before, and there is one bucket more, 16 and one for each split so far.
//! - `Whole`, `Long`, `Worn`: in the snapshot of a section that this call entered all buckets are split,
//!   or else this one has too many keys, or else it is the last time.
//! - `Again`: none of these three holds there. The cause is as that of `attempt_grow`, of the table, one of
//!   the heads or a node of the bucket.
//!
//! Both say which calls of the store they make, one after another (`steps`): they enter one section, and a second
//! one only where the commit found no time left; what changes nothing locks nothing.
//!
//! `table_of` answers the level and the split place, and `read_grown` the whole catalogue. The searches of
//! the set stand on those of `list_set` over any head, one bucket at a time. No call but `read_grown`
//! takes memory.
//!
//! # Its place
//!
//! It stands on `mv_history`, whose traits it is generic over, on `set_model` for commands and
//! catalogues, on `list_set` for one list, and on `section_work`, whose attempt makes a section of each
//! command and of each split: what these decide and write is all that stands here. It knows no store.
#![tactic(auto)]

mod answer;
mod attempt;
mod attempting;
mod bucket;
mod bucket_split;
mod deciding;
mod grow_work;
mod laws;
mod mixing;
mod reading;
mod rules;
mod search;
mod split_work;
mod table;

pub use answer::Split;
pub use attempt::GrowStep;
pub use attempting::attempt_grow;
pub use bucket_split::try_split;
pub use laws::{grow_plans_are_fit, grown_states_remain, mixed_keys_differ, split_plans_are_fit};
pub use reading::read_grown;
pub use rules::{GROW_LEVELS, GrowRules, GrowingRules};
pub use table::table_of;
