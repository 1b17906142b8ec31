// Seats that own a share of their domain: the time that no section is below, and objects that are vacant.
use crate::comparing::assert_same;
use mv_history::LockAnswer;
use mv_layout::Config;
use object_seats::{CommitResult, ObjectSeat, open_seats};
use std::alloc::AllocError;
use std::test::Fail;

const TWO: Config = Config {
    seats: 2,
    objects: 3,
    slots: 64,
    write_max: 3,
    low: 32,
    high: 61,
    base: 7,
};

// Enters, locks object 0 and commits it. Answers the printed time of the commit.
fn commit_one(seat: ObjectSeat) -> (ObjectSeat, Option<u64>) {
    let (seat, _) = seat.enter();
    let (seat, _) = seat.lock(0);
    match seat.commit([0; 4]) {
        (seat, Ok(CommitResult::Done(time))) => (seat, Some(time)),
        (seat, _) => (seat, None),
    }
}

// What a look for a vacant object comes to: its number, where the next look may begin, and whether it is held now.
fn look(seat: ObjectSeat, hint: u32) -> (ObjectSeat, Option<(u32, u32, bool)>) {
    match seat.vacant(hint) {
        (seat, Ok(Some(found))) => {
            let held = matches!(found.lock, LockAnswer::Held);
            (seat, Some((found.object, found.next, held)))
        }
        (seat, _) => (seat, None),
    }
}

#[test]
fn a_section_holds_the_grace_period_back(rt: HostRuntime) -> Result<(), Fail> {
    let Ok(mut seats) = open_seats(rt.alloc(), TWO) else {
        return Err(AllocError.into());
    };
    let (Some(reader), Some(seat)) = (seats.pop(), seats.pop()) else {
        return Ok(());
    };
    let (seat, new) = seat.grace();
    let (reader, _) = reader.enter();
    let (seat, first) = commit_one(seat);
    let (seat, held) = seat.grace();
    let (reader, _) = reader.leave();
    let (seat, free) = seat.grace();
    let (_seat, second) = commit_one(seat);
    let (_reader, last) = reader.grace();
    assert_same(&rt, &matches!(new, Ok(7)), &true, "the opening time");
    assert_same(&rt, &first, &Some(8), "the first commit");
    assert_same(&rt, &matches!(held, Ok(7)), &true, "a section of time 7");
    assert_same(&rt, &matches!(free, Ok(8)), &true, "no section");
    assert_same(&rt, &second, &Some(9), "the second commit");
    assert_same(&rt, &matches!(last, Ok(9)), &true, "the other seat");
    Ok(())
}

#[test]
fn vacant_objects_are_found_from_a_hint_on(rt: HostRuntime) -> Result<(), Fail> {
    let Ok(mut seats) = open_seats(rt.alloc(), TWO) else {
        return Err(AllocError.into());
    };
    let (Some(other), Some(seat)) = (seats.pop(), seats.pop()) else {
        return Ok(());
    };
    let (seat, _) = seat.enter();
    let (seat, last) = look(seat, 2);
    let (seat, around) = look(seat, 3);
    let (other, _) = other.enter();
    let (_other, busy) = look(other, 2);
    let (seat, third) = look(seat, 0);
    let (_seat, none) = look(seat, 0);
    assert_same(&rt, &last, &Some((2, 3, true)), "the last object");
    assert_same(&rt, &around, &Some((0, 1, true)), "from 0 on again");
    assert_same(&rt, &busy, &Some((2, 3, false)), "held by another");
    assert_same(&rt, &third, &Some((1, 2, true)), "behind one held");
    assert_same(&rt, &none, &None, "all are held");
    Ok(())
}
