//! The atomic steps of a multi-version domain, and the rule that all of them keep.
//!
//! All shared words of a domain stand in one table, and each access to one of them is an atomic
//! step: a load, a store, a compare_exchange or a fetch_max. This crate alone holds that table. One
//! call here is one step, and has the meaning of it. Which step a thread makes next is for the
//! crates above; whatever they choose, and however the steps of the threads interleave, the rule
//! holds between any two of them. The algorithm is MV-RLU (Kim, Mathew, Kashyap, Ramanathan and Min,
//! ASPLOS 2019, sections 3 and 4), with one clock word for all.
//!
//! **The model.** `Shared` is the words of a domain, and a `Pass` is a thread's seat in it. Each pass
//! has a view, which says what its seat knows: the prefix of the history that it has seen, its phase,
//! the clock words that it loaded and helped, where its walk stands, what is in the slots of its log,
//! its write-back, its scan, and the trail of its own steps. A view is plain data for the proof
//! alone (as the auxiliary variables of Owicki and Gries, 1976); no running code makes one, and
//! only the seat's own steps change it. The rule is a relation between the words, a history and the
//! views of all seats, so that each word has a meaning: a head is the link of the object's newest
//! version, a stamp that is a time is that of a commit of the history, a mark holds a time not
//! above its section's. It is a list of facts, of which none follows a version chain: each looks at one
//! link. `Facts` in specs/Rule.antt has them all, and docs/RULE.md says each in plain words. Which
//! steps there are, and what each makes of the words, the history and the views, is one relation:
//! `Move` in specs/Moves.antt. Each state of the table was reached by it from the opening.
//!
//! **The contract.** Each step names its condition, which speaks of the own view alone (`may`);
//! the exact view afterwards (`view`), with one more record in the trail; and one more count in
//! `Steps`. An exchange is won exactly where the word was the expected one. Where the rule tells
//! something of the word found, the contract says it: CLOCK has a packed clock word, HEAD and PREV
//! have 0 or a packed link, a stamp that is a time is that of a write of the object, and a data or
//! master word is that of the object in the state that the section reads. No step waits, repeats or
//! takes memory; `Shared::new` alone does take memory, and refuses for want of it only.
//!
//! | Steps | Kinds |
//! |---|---|
//! | entering and leaving | load CLOCK (low bound), store MARK, load CLOCK (take time), store MARK 0 |
//! | helping | load STAMP named, load CLOCK (check), compare_exchange STAMP |
//! | walking | load HEAD, load FIRST, load STAMP, load PREV, load DATA, load MASTER |
//! | building and timing | store into a built slot, store DATA of a held slot, load CLOCK (time a dead version) |
//! | locking and aborting | compare_exchange HEAD (lock), store HEAD (abort) |
//! | naming | compare_exchange CLOCK (commit), store SUPER, compare_exchange CLOCK (rest) |
//! | finding a watermark | load CLOCK (scan), load MARK, load GRACE, fetch_max GRACE |
//! | writing back and freeing | load SUPER, store MASTER, compare_exchange HEAD (cut), store STAMP 0 (free) |
//! | joining | joining a seat, load CLOCK after a join |
//! | opening | the words of a domain, and the making of its seats |
//!
//! `Shared::close` ends a domain with a pass, and gives its last words.
//!
//! **How it is proved.** A step writes one word at most and changes its own view alone, so it keeps
//! each fact that reads neither. `proofs/frames/FrameLaw.antt` says this once; a kind of step is a
//! file or a folder under `proofs/kinds`, which answers for the facts left. The steps over
//! the table itself stand in shared/accesses.rt, once for all kinds: no other code sees the table.
//!
//! The crate stands on `atomic_table`, which keeps words and views under one rule; on `mv_history`,
//! which has histories, the client's rules and trails; and on `mv_layout`, which has the places and
//! the packing of the words.
#![tactic(auto)]

mod building;
mod entering;
mod grace;
mod helping;
mod joining;
mod laws;
mod locking;
mod marks;
mod naming;
mod opening;
mod reclaiming;
pub mod ring;
pub mod shared;
mod steps;
mod swap;
mod turns;
pub mod view;
mod walking;

pub use helping::helped_are_stamped;
pub use laws::{
    chains_are_latest_writes, deaths_are_after_readers, deaths_are_next, each_move_keeps_the_rule,
    earlier_commits_are_stamped, grace_is_below_sections, history_is_one, locks_are_fresh,
    marks_are_low, masters_are_read_whole, one_history, one_seat_writes_back, opening_is_ruled,
    positions_are_bounded, positions_run_on, reachable_is_ruled, reached_links_are_live,
    reached_slots_are_kept, sets_are_freed_whole, successors_are_next, walks_stand_right,
    write_backs_are_last, write_sets_are_whole,
};
pub use opening::homes_are_apart;
pub use shared::{Pass, Shared};
pub use steps::Steps;
pub use swap::Swap;

// The greatest time is one and the same for histories and for words.
const _: () = prove!(mv_history::LAST == mv_layout::LAST);
