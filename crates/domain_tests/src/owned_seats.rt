// Seats that own a share of their domain: what each call answers, in a section and outside.
use crate::comparing::{assert_same, must};
use mv_history::{LockAnswer, Room, Words};
use mv_layout::Config;
use mvrlu::OpenFault;
use object_seats::{CommitResult, Misuse, ObjectSeat, open_seats};
use std::alloc::AllocError;
use std::test::Fail;

const TWO: Config = Config {
    seats: 2,
    objects: 2,
    slots: 64,
    write_max: 1,
    low: 32,
    high: 63,
    base: 7,
};

const NEW: Words = [1, 2, 3, 4, 5, 6];

// Whether each of two calls in a section that a new seat can't make is told, and nothing else.
fn refuses_outside(seat: ObjectSeat) -> (ObjectSeat, bool) {
    let (seat, read) = seat.read(0);
    let (seat, left) = seat.leave();
    let told = matches!(read, Err(Misuse::Outside)) && matches!(left, Err(Misuse::Outside));
    (seat, told)
}

// The same of calls that a section which holds nothing can't make.
fn refuses_inside(seat: ObjectSeat) -> (ObjectSeat, bool) {
    let (seat, entered) = seat.enter();
    let (seat, read) = seat.read(2);
    let (seat, pair) = seat.read_pair(0, 5);
    let (seat, written) = seat.write(0, NEW);
    let (seat, ended) = seat.commit([0; 4]);
    let inside = matches!(entered, Err(Misuse::Inside));
    let objects = matches!(read, Err(Misuse::Object)) && matches!(pair, Err(Misuse::Place));
    let empty = matches!(written, Err(Misuse::NotLocked)) && matches!(ended, Err(Misuse::Empty));
    (seat, inside && objects && empty)
}

// Gives object 0 these words. Answers the printed time of the commit.
fn rewrite(seat: ObjectSeat) -> (ObjectSeat, Option<u64>) {
    let (seat, held) = seat.lock(0);
    let (seat, full) = seat.lock(1);
    let (seat, left) = seat.leave();
    let (seat, written) = seat.write(0, NEW);
    let locked = matches!(held, Ok(LockAnswer::Held)) && matches!(full, Ok(LockAnswer::SetFull));
    let kept = matches!(left, Err(Misuse::Holding)) && matches!(written, Ok(()));
    match seat.commit([0; 4]) {
        (seat, Ok(CommitResult::Done(time))) if locked && kept => (seat, Some(time)),
        (seat, _) => (seat, None),
    }
}

// What a new section of the seat reads: its time, the words of object 0, and two of them alone.
fn look(seat: ObjectSeat) -> (ObjectSeat, Option<(u64, Words, (u64, u64))>) {
    let (seat, _) = seat.enter();
    let (seat, time) = seat.time();
    let (seat, words) = seat.read(0);
    let (seat, pair) = seat.read_pair(0, 4);
    let (seat, _) = seat.leave();
    match (time, words, pair) {
        (Ok(time), Ok(words), Ok(pair)) => (seat, Some((time, words, pair))),
        _ => (seat, None),
    }
}

#[test]
fn calls_of_a_seat_that_owns_a_share(rt: HostRuntime) -> Result<(), Fail> {
    let Ok(mut seats) = open_seats(rt.alloc(), TWO) else {
        return Err(AllocError.into());
    };
    let Some(other) = seats.pop() else {
        return Ok(());
    };
    let Some(seat) = seats.pop() else {
        return Ok(());
    };
    let (seat, outside) = refuses_outside(seat);
    let (seat, room) = seat.prepare();
    let (seat, entered) = seat.enter();
    let (seat, inside) = refuses_inside(seat);
    let (seat, time) = rewrite(seat);
    let (seat, tidied) = seat.tidy();
    let (_seat, counted) = seat.count();
    let (_other, seen) = look(other);
    must(&rt, outside, "calls outside");
    must(&rt, matches!(room, Ok(Room::Enough)), "room");
    must(&rt, matches!(entered, Ok(())), "entering");
    must(&rt, inside, "calls in a section");
    assert_same(&rt, &time, &Some(8), "the time of the commit");
    let emptied = matches!(tidied, Ok(tidy) if tidy.live == 0);
    must(&rt, emptied, "a log that is emptied");
    let one = matches!(counted, Ok(counts) if counts.commits == 1);
    must(&rt, one, "the counts");
    // The log is emptied behind a rest, which is the entry of time 9.
    assert_same(
        &rt,
        &seen,
        &Some((9, NEW, (5, 6))),
        "what the other seat reads",
    );
    Ok(())
}

#[test]
fn numbers_out_of_range_open_no_seats(rt: HostRuntime) -> Result<(), Fail> {
    let none = Config { objects: 0, ..TWO };
    let refused = matches!(open_seats(rt.alloc(), none), Err(OpenFault::Config(_)));
    must(&rt, refused, "a domain of no objects");
    Ok(())
}
