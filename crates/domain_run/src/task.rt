// What one thread does with a store.
ghost use Rattle.mv_history.specs.Meaning.{Seat, InSection};
ghost use Rattle.mv_history.specs.Calls.{Continues};

use mv_history::{Protocol, Store};
use std::sync::Wait;

/// What one thread does with a store of these rules. A value holds what is asked of the thread, and after `run` what was
/// done.
pub trait Task<P: Protocol>: Sized {
    // What the task needs of the seat.
    ghost ready: { Seat → Self → Type 0 };

    // What it did, from the seat before to the seat after, and from the task as it was to the task as it is. It may tell of
    // the sections that it entered: the first argument is the store's `took`, which only `enter` gives.
    // `Enters` of `mv_history` would not do: it holds also of a section that nobody entered, of all that the
    // seat has seen.
    ghost did: { (Seat → InSection → Type 0) → Seat → Seat → Self → Self → Type 0 };

    /// Does what is asked, and gives the store back. It may wait for others, so it takes a `Wait`.
    fn run<R: Wait, S: Store<Rules = P>>(self, rt: &R, store: S) -> (Self, S)
        requires { ready (S.seat_of store) self }
        ensures continues { Continues (S.seat_of store) (S.seat_of result.1) }
        ensures did { did S.took (S.seat_of store) (S.seat_of result.1) self result.0 };
}
