//! Seats of objects that own a share of their domain.
//!
//! An `ObjectSeat` borrows nothing: it stands by itself, outside a section or in one, and can be kept
//! wherever a value can, as behind a pointer. Each call lends the domain to the
//! seat, makes one call of `mvrlu`, and parks what comes back. The domain is under `AnyRules`, which allow
//! every commit, and its memory is given back with the last of its seats.
//!
//! **The model.** A seat is at a `Position`: `Outside` with what a seat of `mvrlu` means, or `Inside` with
//! what its section means. `Calls` in specs/ says for each call what it leaves of the position.
//!
//! **The contract.** What a call of `mv_history` requires of its caller is tested here, and a call that may
//! not be made now is a `Misuse`: it says which condition fails, and the seat is as it was, but that a
//! section may have seen more. Every other answer is that of the call of `mvrlu`, and `Calls` says what it
//! leaves and with which cause. `vacant` is a look through the objects and one try to lock: `Vacant` in specs/
//! says which object it finds. Closing a seat, as letting it go does, aborts its section; the last
//! one of the domain lets all seats meet, and the law of the whole holds of them.
//!
//! No clause can see what the caller's words mean, nor that a pointer in them is followed inside its section
//! alone: of that only `grace` tells.
//!
//! It stands on `shared_domain` and `mvrlu`.
#![tactic(auto)]

mod inside;
mod opening;
mod outside;
mod position;
mod seat;
mod vacant;

pub use opening::open_seats;
pub use position::{CommitResult, Misuse, Vacancy};
pub use seat::ObjectSeat;
