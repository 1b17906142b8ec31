// A seat stops after a lock, after each part of a commit and after an abort. Then another one enters,
// reads, locks and commits, and tidies its log, which names the seat that holds it.
use crate::moves::Answer::{
    Aborted, Busy, Clock, Done, Entered, Finished, Held, Lost, Named, Tidied, Words, Written,
};
use crate::moves::Move::{Abort, Commit, Enter, Finish, Lock, Name, Now, Read, Tidy, Write};
use crate::{SMALL, Schedule, Turn, play_schedules};
use mv_history::Holder::Mark;
use mv_layout::{Config, LAST};
use std::test::Fail;

const TWO_SEATS: Config = Config {
    seats: 2,
    objects: 2,
    ..SMALL
};

// Seat 0 holds object 0, and has written it.
const HOLDING: [Turn; 3] = [
    (0, Enter, Entered(0)),
    (0, Lock(0), Held),
    (0, Write(0, [1, 2, 3, 4, 5, 6]), Written),
];

// Seat 0 has committed object 1, and is in a section again.
const INSIDE: [Turn; 4] = [
    (0, Enter, Entered(0)),
    (0, Lock(1), Held),
    (0, Commit, Done(1)),
    (0, Enter, Entered(1)),
];

// Object 0 is free, and nothing was committed.
pub(crate) const FREE: [Turn; 4] = [
    (1, Enter, Entered(0)),
    (1, Read(0), Words([0; 6])),
    (1, Lock(0), Held),
    (1, Commit, Done(1)),
];

// Object 0 is free, and its last commit has the last time.
pub(crate) const FREE_LATE: [Turn; 4] = [
    (1, Enter, Entered(LAST - 1)),
    (1, Read(0), Words([0; 6])),
    (1, Lock(0), Held),
    (1, Commit, Done(LAST)),
];

// Seat 0 holds object 0.
const TAKEN: [Turn; 5] = [
    (1, Enter, Entered(0)),
    (1, Read(0), Words([0; 6])),
    (1, Lock(0), Busy(0)),
    (1, Lock(1), Held),
    (1, Commit, Done(1)),
];

// Seat 0 holds object 0 at time 1.
const TAKEN_LATER: [Turn; 5] = [
    (1, Enter, Entered(1)),
    (1, Read(0), Words([0; 6])),
    (1, Lock(0), Busy(0)),
    (1, Lock(1), Held),
    (1, Commit, Done(2)),
];

// The commit of object 0 counts.
pub(crate) const COMMITTED: [Turn; 4] = [
    (1, Enter, Entered(1)),
    (1, Read(0), Words([1, 2, 3, 4, 5, 6])),
    (1, Lock(0), Held),
    (1, Commit, Done(2)),
];

// Nothing that the other seat committed is needed by anybody.
pub(crate) const FREED: Turn = (1, Tidy, Tidied(1, 0, None));

// The section of seat 0 has the mark that the version needs to be gone: at time 0, at time 1, or at the
// time before the last.
pub(crate) const MARKED: Turn = (1, Tidy, Tidied(0, 1, Some(Mark { seat: 0, low: 0 })));

const MARKED_LATER: Turn = (1, Tidy, Tidied(0, 1, Some(Mark { seat: 0, low: 1 })));

pub(crate) const MARKED_LATE: Turn = (
    1,
    Tidy,
    Tidied(
        0,
        1,
        Some(Mark {
            seat: 0,
            low: LAST - 1,
        }),
    ),
);

const TWO_MARKED: Turn = (1, Tidy, Tidied(0, 2, Some(Mark { seat: 0, low: 0 })));

static SCHEDULES: [Schedule; 7] = [
    Schedule {
        name: "after a lock",
        domain: TWO_SEATS,
        turns: &[
            &INSIDE,
            &[(0, Lock(0), Held)],
            &TAKEN_LATER,
            &[MARKED_LATER],
        ],
    },
    Schedule {
        name: "after the load of the clock",
        domain: TWO_SEATS,
        turns: &[&HOLDING, &[(0, Now, Clock(0, 0, None))], &TAKEN, &[MARKED]],
    },
    Schedule {
        name: "after a lost name",
        domain: TWO_SEATS,
        turns: &[
            &HOLDING,
            // Seat 1 has committed object 1 before seat 0 names its commit.
            &[
                (0, Now, Clock(0, 0, None)),
                (1, Enter, Entered(0)),
                (1, Lock(1), Held),
                (1, Commit, Done(1)),
                (0, Name, Lost(1, 1)),
            ],
            &TAKEN_LATER,
            &[TWO_MARKED],
        ],
    },
    Schedule {
        name: "after a name",
        domain: TWO_SEATS,
        turns: &[
            &HOLDING,
            &[(0, Now, Clock(0, 0, None)), (0, Name, Named(1))],
            &COMMITTED,
            &[MARKED],
        ],
    },
    Schedule {
        name: "after a finish",
        domain: TWO_SEATS,
        turns: &[
            &HOLDING,
            &[
                (0, Now, Clock(0, 0, None)),
                (0, Name, Named(1)),
                (0, Finish, Finished),
            ],
            &COMMITTED,
            &[FREED],
        ],
    },
    Schedule {
        name: "after a commit",
        domain: TWO_SEATS,
        turns: &[&HOLDING, &[(0, Commit, Done(1))], &COMMITTED, &[FREED]],
    },
    Schedule {
        name: "after an abort",
        domain: TWO_SEATS,
        turns: &[&HOLDING, &[(0, Abort, Aborted)], &FREE, &[FREED]],
    },
];

#[test]
fn stops_within_and_after_calls(rt: HostRuntime) -> Result<(), Fail> {
    play_schedules(&rt, rt.alloc(), &SCHEDULES)
}
