//! Worked cases of a growing hash set: over a domain by the public calls of `grow_hash` alone; its scripts as they are read,
//! and the order and the text of its runs.
//!
//! The cases over a domain stand in a crate of their own since a section of the plain store holds 16 objects at most, and the
//! split of a bucket of 61 keys holds 64. What they show beside the contracts: that commands and splits are done where
//! nobody is in the way, so that bodies that always answer `Again` or want of memory fail them; and the replies, places and
//! tables that the definitions come to in small cases, reckoned by hand.
//!
//! **The model.** A row is a value: its name, the objects and the opening time of a domain of one seat, steps with the answers
//! that are wanted, and the time that is wanted of the closing. It is played on one thread in a new domain.
#![tactic(auto)]

#[cfg(test)]
mod alone;
#[cfg(test)]
mod comparing;
#[cfg(test)]
mod opening;
#[cfg(test)]
mod reports;
#[cfg(test)]
mod rows;
#[cfg(test)]
mod scripts;
#[cfg(test)]
mod steps;
