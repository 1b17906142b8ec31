// A seat stops after each part of an `enter` but its help. Then another one enters, reads, locks and commits,
// and tidies its log, which names the seat that holds it.
use crate::moves::Answer::{Clock, Entered, Held, Named, Stored, Tidied, Time, Written};
use crate::moves::Move::{Enter, LoadLow, LoadTime, Lock, Name, Now, StoreMark, Tidy, Write};
use crate::stop_rows::{COMMITTED, FREE, FREE_LATE, FREED, MARKED, MARKED_LATE};
use crate::{SMALL, Schedule, Turn, play_schedules};
use mv_history::Holder::{End, Mark};
use mv_layout::{Config, LAST};
use std::test::Fail;

// Seat 2 is for a commit that was named before.
const THREE_SEATS: Config = Config {
    seats: 3,
    objects: 2,
    ..SMALL
};

const LATE: Config = Config {
    seats: 2,
    base: LAST - 1,
    ..SMALL
};

// Seat 0 loads the low time of a section to come, stores its mark, and loads the time of the section.
const LOW: Turn = (0, LoadLow, Time(0));

const MARK: Turn = (0, StoreMark(0), Stored);

const TIME: Turn = (0, LoadTime, Time(0));

// The same at time 1.
const LOW_LATER: Turn = (0, LoadLow, Time(1));

const MARK_LATER: Turn = (0, StoreMark(1), Stored);

const TIME_LATER: Turn = (0, LoadTime, Time(1));

// The same at the time before the last.
const LOW_LATE: Turn = (0, LoadLow, Time(LAST - 1));

const MARK_LATE: Turn = (0, StoreMark(LAST - 1), Stored);

const TIME_LATE: Turn = (0, LoadTime, Time(LAST - 1));

// Seat 2 has named a commit of object 0, and stopped.
const NAMED: [Turn; 5] = [
    (2, Enter, Entered(0)),
    (2, Lock(0), Held),
    (2, Write(0, [1, 2, 3, 4, 5, 6]), Written),
    (2, Now, Clock(0, 0, None)),
    (2, Name, Named(1)),
];

// The section of seat 2 has a lower mark, or the same one as that of a lower seat.
const MARKED_BY_ANOTHER: Turn = (1, Tidy, Tidied(0, 1, Some(Mark { seat: 2, low: 0 })));

// After the last time nothing becomes dead any more.
const KEPT: Turn = (1, Tidy, Tidied(0, 1, Some(End)));

static SCHEDULES: [Schedule; 9] = [
    Schedule {
        name: "after the load of the low time, which holds nothing",
        domain: THREE_SEATS,
        turns: &[&[LOW], &FREE, &[FREED]],
    },
    Schedule {
        name: "after the store of the mark",
        domain: THREE_SEATS,
        turns: &[&[LOW, MARK], &FREE, &[MARKED]],
    },
    Schedule {
        name: "after the load of the time",
        domain: THREE_SEATS,
        turns: &[&[LOW, MARK, TIME], &FREE, &[MARKED]],
    },
    Schedule {
        name: "after the load of the low time, where a commit is to be helped",
        domain: THREE_SEATS,
        turns: &[&NAMED, &[LOW_LATER], &COMMITTED, &[MARKED_BY_ANOTHER]],
    },
    Schedule {
        name: "after the store of the mark, where a commit is to be helped",
        domain: THREE_SEATS,
        turns: &[
            &NAMED,
            &[LOW_LATER, MARK_LATER],
            &COMMITTED,
            &[MARKED_BY_ANOTHER],
        ],
    },
    Schedule {
        name: "after the load of the time, where a commit is to be helped",
        domain: THREE_SEATS,
        turns: &[
            &NAMED,
            &[LOW_LATER, MARK_LATER, TIME_LATER],
            &COMMITTED,
            &[MARKED_BY_ANOTHER],
        ],
    },
    Schedule {
        name: "after the load of the low time, before the last time",
        domain: LATE,
        turns: &[&[LOW_LATE], &FREE_LATE, &[KEPT]],
    },
    Schedule {
        name: "after the store of the mark, before the last time",
        domain: LATE,
        turns: &[&[LOW_LATE, MARK_LATE], &FREE_LATE, &[MARKED_LATE]],
    },
    Schedule {
        name: "after the load of the time, before the last time",
        domain: LATE,
        turns: &[
            &[LOW_LATE, MARK_LATE, TIME_LATE],
            &FREE_LATE,
            &[MARKED_LATE],
        ],
    },
];

#[test]
fn stops_within_an_enter(rt: HostRuntime) -> Result<(), Fail> {
    play_schedules(&rt, rt.alloc(), &SCHEDULES)
}
