// Looking for an object that is vacant, and locking it.
ghost use Rattle.std.specs.Prelude.{◌≡◌, ◌<◌, ◌≤◌, length, true, false};
ghost use Rattle.mv_history.specs.Meaning.{state_of};
ghost use Rattle.mvrlu.specs.Meant.{section_of, aborts_before};
ghost use Rattle.mvrlu.specs.Standing.{Stays};
ghost use Rattle.object_seats.specs.Positions.{IsOf, aborts_at};
ghost use Rattle.object_seats.specs.Calls.{Takes, TakesVacant};
ghost use Rattle.object_seats.specs.Vacant.{IsVacant, Looks, Finds};

use crate::position::{Misuse, Position, Vacancy};
use mv_history::{AnyRules, Section, View, WORDS};
use mvrlu::{Domain, Session};

// Whether all words of an object are 0, which the section doesn't hold.
fn is_vacant<'d>(session: &mut Session<'d, AnyRules>, object: u32) -> bool
    requires range { object < length (state_of (section_of session.old)) }
    ensures yes { result ≡ true → IsVacant (section_of session.old) object }
    ensures no { result ≡ false → ¬ IsVacant (section_of session.old) object }
    ensures stays { Stays (section_of session.old) (section_of session.new) }
    ensures aborts { aborts_before session.new ≡ aborts_before session.old }
{
    !session.has_lock(object) && session.read(object) == [0; WORDS]
}

// The first object that is vacant, from one number up to another.
fn first_vacant<'d>(session: &mut Session<'d, AnyRules>, from: u32, to: u32) -> Option<u32>
    requires range { to ≤ length (state_of (section_of session.old)) }
    ensures looks { Looks (section_of session.old) from to result }
    ensures stays { Stays (section_of session.old) (section_of session.new) }
    ensures aborts { aborts_before session.new ≡ aborts_before session.old }
{
    for object in from..to {
        if is_vacant(session, object) {
            return Some(object);
        }
    }
    None
}

// The first object that is vacant, from a hint on, and behind the last of all objects from 0 on.
fn find_vacant<'d>(session: &mut Session<'d, AnyRules>, objects: u32, hint: u32) -> Option<u32>
    requires all { objects ≡ length (state_of (section_of session.old)) }
    ensures finds { Finds (section_of session.old) hint result }
    ensures stays { Stays (section_of session.old) (section_of session.new) }
    ensures aborts { aborts_before session.new ≡ aborts_before session.old }
{
    match first_vacant(session, hint, objects) {
        Some(object) => Some(object),
        None => first_vacant(session, 0, hint.min(objects)),
    }
}

// Finds an object that is vacant, and tries to hold it.
fn take_vacant<'d>(session: &mut Session<'d, AnyRules>, hint: u32) -> Option<Vacancy>
    ensures takes { Takes (section_of session.old) hint (section_of session.new) result }
    ensures aborts { aborts_before session.new ≡ aborts_before session.old }
{
    let objects = session.objects();
    match find_vacant(session, objects, hint) {
        None => None,
        Some(object) => {
            let lock = session.try_lock(object);
            let next = object + 1;
            Some(Vacancy { object, next, lock })
        }
    }
}

// Finds an object that is vacant in the section's state, and tries to hold it.
pub(crate) fn vacant_in(
    domain: &Domain<AnyRules>,
    position: Position,
    hint: u32,
) -> (Position, Result<Option<Vacancy>, Misuse>)
    requires of { IsOf domain.now position }
    ensures of { IsOf domain.now result.0 }
    ensures takes { TakesVacant position hint result.0 result.1 }
    ensures aborts { aborts_at result.0 ≡ aborts_at position }
{
    match position {
        Position::Outside(seat) => (Position::Outside(seat), Err(Misuse::Outside)),
        Position::Inside(section) => {
            let mut session = domain.resume(section);
            let taken = take_vacant(&mut session, hint);
            (Position::Inside(session.park()), Ok(taken))
        }
    }
}
