// Seats of a growing set that own a share of their domain: what each call answers, by the set alone.
use crate::comparing::{assert_same, must};
use grow_hash::{GrowStep, Split};
use grow_seats::{GrowCommand, GrowSeat, GrownFault, OpenGrown, open_grow_seats};
use mv_layout::ConfigFault;
use section_work::Place;
use section_work::Place::{Commit, Read};
use set_model::Reply;
use shared_domain::Closed;
use std::alloc::{AllocError, Global};
use std::process::Abort;
use std::test::Fail;

// Two nodes behind the heads of all buckets.
const TWO: OpenGrown = OpenGrown {
    seats: 2,
    objects: 1_048_579,
    slots: 128,
    opening_time: 0,
};

// The two seats of a new domain.
fn open_two(rt: &impl Abort, alloc: Global) -> Result<(GrowSeat, GrowSeat), Fail> {
    let Ok(mut seats) = open_grow_seats(alloc, TWO) else {
        return Err(AllocError.into());
    };
    let second = seats.pop().expect(rt, "a second seat");
    let first = seats.pop().expect(rt, "a first seat");
    must(rt, seats.is_empty(), "two seats");
    Ok((first, second))
}

// Looks that a command was done at this place, with this reply.
fn expect(
    rt: &impl Abort,
    seat: GrowSeat,
    command: GrowCommand,
    reply: Reply,
    place: Place,
) -> GrowSeat {
    let (seat, step) = seat.attempt(command);
    assert_same(rt, &step, &GrowStep::Done { reply, place }, "a command");
    seat
}

// Looks that a bucket was split, at this time.
fn expect_split(rt: &impl Abort, seat: GrowSeat, time: u64) -> GrowSeat {
    let (seat, split) = seat.split();
    assert_same(rt, &split, &Split::Done { time }, "a split");
    seat
}

// Questions of a set that has the keys 7 and 9 and no other, in the state of this time.
fn ask_of_two(rt: &impl Abort, seat: GrowSeat, time: u64) -> GrowSeat {
    let (place, count) = (Read(time), 2);
    let seat = expect(rt, seat, GrowCommand::Has { key: 9 }, Reply::Yes, place);
    let seat = expect(rt, seat, GrowCommand::Has { key: 8 }, Reply::No, place);
    let seat = expect(
        rt,
        seat,
        GrowCommand::Next { key: 8 },
        Reply::Key { key: 9 },
        place,
    );
    let seat = expect(rt, seat, GrowCommand::Next { key: 10 }, Reply::NoKey, place);
    expect(rt, seat, GrowCommand::Size, Reply::Count { count }, place)
}

#[test]
fn a_growing_set_keeps_its_keys_through_splits(rt: HostRuntime) -> Result<(), Fail> {
    let (first, second) = open_two(&rt, rt.alloc())?;
    let add = GrowCommand::Add { key: 7 };
    let other = GrowCommand::Add { key: 9 };
    let del = GrowCommand::Del { key: 7 };
    let first = expect(&rt, first, del, Reply::No, Read(0));
    let first = expect(&rt, first, add, Reply::Yes, Commit(1));
    let first = expect(&rt, first, add, Reply::No, Read(1));
    let second = expect(&rt, second, other, Reply::Yes, Commit(2));
    let full = GrowCommand::Add { key: 8 };
    let second = expect(&rt, second, full, Reply::Full, Read(2));
    let first = ask_of_two(&rt, first, 2);
    let first = expect_split(&rt, first, 3);
    let second = expect_split(&rt, second, 4);
    let second = ask_of_two(&rt, second, 4);
    let second = expect(&rt, second, del, Reply::Yes, Commit(5));
    let (first, table) = first.count();
    assert_same(&rt, &table.commits, &2, "commits of the first seat");
    let (second, tidy) = second.tidy();
    assert_same(&rt, &tidy.live, &0, "a log that is emptied");
    must(&rt, matches!(first.close(), Closed::Left), "the first seat");
    let Closed::Met(closing) = second.close() else {
        panic!(&rt; "the last seat");
    };
    must(&rt, closing.time() >= 5, "the last time");
    Ok(())
}

// Why no domain of these numbers is opened.
fn fault_of(alloc: Global, grown: OpenGrown) -> Option<GrownFault> {
    open_grow_seats(alloc, grown).err()
}

#[test]
fn numbers_out_of_range_open_no_growing_set(rt: HostRuntime) -> Result<(), Fail> {
    for objects in [0, 1_048_577, 16_777_217] {
        let fault = fault_of(rt.alloc(), OpenGrown { objects, ..TWO });
        must(
            &rt,
            matches!(fault, Some(GrownFault::Objects)),
            "objects out of range",
        );
    }
    let none = fault_of(rt.alloc(), OpenGrown { seats: 0, ..TWO });
    let seats = matches!(none, Some(GrownFault::Config(ConfigFault::Seats)));
    must(&rt, seats, "seats out of range");
    let few = fault_of(rt.alloc(), OpenGrown { slots: 64, ..TWO });
    let marks = matches!(few, Some(GrownFault::Config(ConfigFault::Marks)));
    must(&rt, marks, "slots out of range");
    Ok(())
}
