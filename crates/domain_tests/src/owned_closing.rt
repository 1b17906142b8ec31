// Seats that own a share of their domain are closed: the last one lets all of them meet, in whatever order.
use crate::comparing::assert_same;
use mv_history::AnyRules;
use mv_layout::Config;
use object_seats::{ObjectSeat, open_seats};
use set_model::{Command, Name};
use set_seats::{OpenSets, open_set_seats};
use shared_domain::Closed;
use std::alloc::{AllocError, Global};
use std::process::Abort;
use std::test::*;

const THREE: Config = Config {
    seats: 3,
    objects: 2,
    slots: 64,
    write_max: 1,
    low: 32,
    high: 63,
    base: 7,
};

// The places at which each of three seats is closed, where those closed before are gone from the row.
const ORDERS: [(&str, [usize; 3]); 6] = [
    ("seats 0, 1, 2", [0, 0, 0]),
    ("seats 0, 2, 1", [0, 1, 0]),
    ("seats 1, 0, 2", [1, 0, 0]),
    ("seats 1, 2, 0", [1, 1, 0]),
    ("seats 2, 0, 1", [2, 0, 0]),
    ("seats 2, 1, 0", [2, 1, 0]),
];

// What closing a seat told: the last time of the domain, where all seats met.
#[derive(Clone, Copy, PartialEq, Eq, Debug)]
enum Told {
    Met(u64),
    Left,
    Unmet,
}

fn tell(closed: Closed<AnyRules>) -> Told {
    match closed {
        Closed::Met(closing) => Told::Met(closing.time()),
        Closed::Left => Told::Left,
        Closed::Unmet => Told::Unmet,
    }
}

// Commits an object, and begins a section that holds it, if it is to end inside.
fn worked(seat: ObjectSeat, ends_inside: bool) -> ObjectSeat {
    let (seat, _) = seat.enter();
    let (seat, _) = seat.lock(0);
    let (seat, _) = seat.commit([0; 4]);
    if !ends_inside {
        return seat;
    }
    let (seat, _) = seat.enter();
    let (seat, _) = seat.lock(1);
    seat
}

// Opens three seats, of which each commits once, and closes them in this order.
fn close_in_order(
    alloc: Global,
    order: [usize; 3],
    ends_inside: bool,
) -> Result<[Told; 3], AllocError> {
    let Ok(mut seats) = open_seats(alloc, THREE) else {
        return Err(AllocError);
    };
    let mut working = Vec::with_capacity(alloc, 3)?;
    for _ in 0..3 {
        if let Some(seat) = seats.pop() {
            working.push(worked(seat, ends_inside))?;
        }
    }
    working.reverse();
    let mut all = [Told::Unmet; 3];
    for (k, place) in order.into_iter().enumerate() {
        if place < working.len() && k < 3 {
            all[k] = tell(working.remove(place).close());
        }
    }
    Ok(all)
}

#[test]
fn the_seat_closed_last_tells_the_last_time(rt: HostRuntime) -> Result<(), Fail> {
    let wanted = [Told::Left, Told::Left, Told::Met(10)];
    for (name, order) in ORDERS {
        let outside = close_in_order(rt.alloc(), order, false)?;
        assert_same(&rt, &outside, &wanted, name);
        let inside = close_in_order(rt.alloc(), order, true)?;
        assert_same(&rt, &inside, &wanted, name);
    }
    Ok(())
}

#[test]
fn a_seat_that_was_dropped_meets_too(rt: HostRuntime) -> Result<(), Fail> {
    let Ok(mut seats) = open_seats(rt.alloc(), THREE) else {
        return Err(AllocError.into());
    };
    for _ in 0..2 {
        if let Some(seat) = seats.pop() {
            drop(worked(seat, true));
        }
    }
    let last = seats.pop().map(|seat| tell(seat.close()));
    assert_same(&rt, &last, &Some(Told::Met(9)), "two commits");
    Ok(())
}

// Adds a key by each of three seats of the sets, and closes them from the last one on.
#[test]
fn the_last_seat_of_the_sets_tells_the_last_time(rt: HostRuntime) -> Result<(), Fail> {
    let numbers = OpenSets {
        seats: 3,
        objects: 256,
        slots: 64,
        opening_time: 5,
    };
    let Ok(mut seats) = open_set_seats(rt.alloc(), numbers) else {
        return Err(AllocError.into());
    };
    let name = Name::new(4).expect(&rt, "an index below 30");
    let mut met = None;
    for key in 0..3 {
        let Some(seat) = seats.pop() else {
            return Ok(());
        };
        let (seat, _) = seat.attempt(&Command::Add { name, key });
        if let Closed::Met(closing) = seat.close() {
            assert_same(&rt, &seats.len(), &0, "seats that are open still");
            met = Some(closing.time());
        }
    }
    assert_same(&rt, &met, &Some(8), "three adds");
    Ok(())
}
