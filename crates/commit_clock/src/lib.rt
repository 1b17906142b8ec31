//! The commit clock: what the next time is given to, and how everybody finishes what was named.
//!
//! CLOCK holds the time of the last entry of the history, and the seat and slot of the commit that
//! was named with it. A commit counts from the exchange on CLOCK that named it, but the versions
//! of its write set carry an unset stamp until somebody exchanges that for the commit's time. So
//! whoever loads a clock word first helps the commit that it names, and only then reads, or names
//! the next entry: a commit whose maker stopped is stamped by the next to come. Helping is that of
//! Barnes (A Method for Implementing Lock-Free Shared Data Structures, SPAA 1993). In MV-RLU (Kim,
//! Mathew, Kashyap, Ramanathan and Min, ASPLOS 2019), from which logs and version chains are taken,
//! times come from the hardware's clock; here they come from one word, which orders all entries.
//!
//! **The model.** A pass knows which clock words it has loaded, and which of these it has helped.
//! `mv_core::helped_are_stamped` gives this its meaning: the stamp of each live commit up to the
//! time of a helped word is that commit's time, between any two steps of any seats.
//!
//! **The contract.** `now` answers the word of CLOCK at one step, and takes what the pass has seen
//! to the whole history of that step. `help` makes at most three steps; after it the word is among
//! those that the pass has helped. `name` and `rest` make one exchange of CLOCK each, from a word
//! that the pass has loaded and helped and whose time isn't the last. `Done` says that the commit of
//! what the section holds, or the rest, is the history's next entry, of the time after the word's.
//! `Lost` says that CLOCK had another word by then, and names the seat and the time of its entry,
//! which is later than the word loaded; no entry was made, and the pass has seen the whole history
//! up to that one. The exchange of a commit also tells of the own log just before it: what is held
//! links to nothing or by a packed link, and no commit there is later than the word. A commit that
//! was named isn't stamped yet. No call takes memory, waits or tries twice.
//!
//! A rest is an entry that writes nothing. It moves the clock on, so that a version which is dead
//! only from the next time on can be given up. It is `Lost` to the own seat where the seat has made
//! a later rest since it loaded the word.
//!
//! A help loads CLOCK a second time before it exchanges a stamp. Between the load of a word and
//! the load of the stamp the commit may have been stamped, died and been freed, and its slot built
//! anew for a later write set, whose unset stamp must stay. While CLOCK has the word the commit is
//! live; and where CLOCK has another, whoever moved it on had helped first.
//!
//! A help is made of `help_start`, `help_check` and `help_end`, of one step each at most. A caller may
//! stop after each, or let others move in between.
//!
//! The crate stands on `mv_core` for its steps and `mv_layout` for the packing of clock words.
//! Crates above name `mv_core` through this crate.
#![tactic(auto)]

mod helping;
mod naming;

pub use helping::{
    CheckedHelp, StartedHelp, help, help_check, help_clock, help_end, help_start, now,
};
pub use mv_core;
pub use naming::{Named, name, rest};
