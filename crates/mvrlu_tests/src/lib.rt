//! Tests of the whole program over files, output and standard error in memory.
//!
//! They stand in a crate of their own, at the top, since they cross the crates below it. What they
//! show beside the contract of `run_program`: the printed text, byte by byte, and that the program
//! does its work where memory is ample, so that a body that always answers want of memory, or that
//! never returns, fails them; that the gate is called around each command; and that seats run at
//! once, since either of two can be held until the other is done; and that seats of a pool share its commands while they run,
//! since any one command can be held until all others are done.
#![tactic(auto)]

#[cfg(test)]
mod blocks;
#[cfg(test)]
mod comparing;
#[cfg(test)]
mod faults;
#[cfg(test)]
mod gates;
#[cfg(test)]
mod grown;
#[cfg(test)]
mod limits;
#[cfg(test)]
mod pools;
#[cfg(test)]
mod replays;
#[cfg(test)]
mod row;
#[cfg(test)]
mod scripts;
#[cfg(test)]
mod seats;
#[cfg(test)]
mod texts;
