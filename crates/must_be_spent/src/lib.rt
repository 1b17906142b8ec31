//! Stores, sections, seats and handles are spent, and once; a domain isn't given away while it is lent.
//!
//! These functions use a store and a domain as they have to be used. Beside each stands a misuse that is refused: an edit of must-fail/ at
//! the condition of a call, a text of tests/misuse/ by an error of the compiler (a value that was moved or is lent, a linear value that is
//! let go). No crate stands on this one.
#![tactic(auto)]

ghost use Rattle.std.specs.Prelude.{◌≡◌, ◌≢◌, [], length, All, AllPairs};
ghost use Rattle.mvrlu.specs.Meant.{numbers_of, seat_of, section_of, IsSeatOf};
ghost use Rattle.mvrlu.specs.Meeting.{AreAll};

use mv_history::{Protocol, Section, Store};
use mvrlu::{Closing, Domain, Handle, Seat, Session};

/// Reads the number of a store, and hands the store back.
pub fn number<S: Store>(store: S) -> (S, u32) {
    let number = store.seat();
    (store, number)
}

/// Reads the time of a section, and gives it up.
pub fn time<S: Store>(store: S) -> (<S::Open as Section>::Back, u64) {
    let opened = store.enter();
    let time = opened.at();
    (opened.abort(), time)
}

/// Begins a section, and gives it up.
pub fn give_up<S: Store>(store: S) -> <S::Open as Section>::Back {
    let section = store.enter();
    section.abort()
}

/// Begins two sections with one handle, one after the other.
pub fn enter_twice<'d, P: Protocol>(handle: Handle<'d, P>) -> Session<'d, P> {
    let first = handle.enter();
    let handle = first.leave();
    handle.enter()
}

/// Leaves a section that holds nothing.
pub fn leave<'d, P: Protocol>(session: Session<'d, P>) -> Handle<'d, P>
    requires none { (section_of session).own ≡ [] }
{
    session.leave()
}

/// Begins a section of a domain, and gives the seat back.
pub fn give_back<P: Protocol>(handle: Handle<'_, P>) -> (u64, Seat<P>) {
    let session = handle.enter();
    let time = session.at();
    (time, session.leave().into_seat())
}

/// Gives the loan of a domain back.
pub fn end_loan<P: Protocol>(lent: Handle<'_, P>) -> Seat<P> {
    lent.into_seat()
}

/// Lends a domain to a seat of it.
pub fn lend<'d, P: Protocol>(one: &'d Domain<P>, seat: Seat<P>) -> Handle<'d, P>
    requires own { IsSeatOf one.now seat }
{
    one.handle(seat)
}

/// Counts seats before they meet.
pub fn count<P: Protocol>(domain: Domain<P>, seats: Vec<Seat<P>>) -> (Closing<P>, usize)
    requires all { AreAll domain seats.items }
{
    let count = seats.len();
    (domain.meet(seats), count)
}

/// Lets the seats of a domain meet after it was lent to one of them.
pub fn meet_lent<P: Protocol>(
    domain: Domain<P>,
    seat: Seat<P>,
    seats: Vec<Seat<P>>,
) -> (Closing<P>, Seat<P>)
    requires own { IsSeatOf domain seat }
    requires all { AreAll domain seats.items }
{
    let handle = domain.handle(seat);
    let seat = handle.into_seat();
    (domain.meet(seats), seat)
}

/// Lets the seats of a domain meet, none of which is missing.
pub fn meet<P: Protocol>(domain: Domain<P>, seats: Vec<Seat<P>>) -> Closing<P>
    requires many { length seats.items ≡ (numbers_of domain).seats }
    requires own { All (λ s. IsSeatOf domain s) seats.items }
    requires apart { AllPairs (λ s t. (seat_of s).number ≢ (seat_of t).number) seats.items }
{
    domain.meet(seats)
}
