// What sections of two seats read, lock and commit, and the closing of their domain.
use crate::moves::Answer::{
    Aborted, Counts, Done, End, Entered, Left, Tidied, Tried, Words, Written,
};
use crate::moves::Move::{Abort, Commit, Enter, Leave, Lock, Read, Table, Tidy, Write};
use crate::{SMALL, Schedule, play_schedules};
use mv_history::LockAnswer::{Busy, Held, SetFull, Stale};
use mv_history::{Holder, LogTable};
use mv_layout::{Config, LAST};
use std::test::Fail;

const TWO_SEATS: Config = Config { seats: 2, ..SMALL };

static SCHEDULES: [Schedule; 8] = [
    Schedule {
        name: "the closing has the time and the state after the commits of all seats",
        domain: Config {
            objects: 2,
            ..TWO_SEATS
        },
        turns: &[&[
            (0, Enter, Entered(0)),
            (0, Lock(0), Tried(Held)),
            (0, Write(0, [1, 0, 0, 0, 0, 0]), Written),
            (0, Commit, Done(1)),
            (1, Enter, Entered(1)),
            (1, Lock(1), Tried(Held)),
            (1, Write(1, [2, 0, 0, 0, 0, 0]), Written),
            (1, Commit, Done(2)),
        ]],
        again: &[],
        closing: (2, &[[1, 0, 0, 0, 0, 0], [2, 0, 0, 0, 0, 0]]),
    },
    Schedule {
        name: "an object is busy under another seat's lock, and stale after its commit",
        domain: Config {
            objects: 4,
            ..TWO_SEATS
        },
        turns: &[&[
            (0, Enter, Entered(0)),
            (0, Lock(3), Tried(Held)),
            (1, Enter, Entered(0)),
            (1, Lock(3), Tried(Busy { seat: 0 })),
            (0, Commit, Done(1)),
            (1, Lock(3), Tried(Stale { time: 1 })),
            (1, Leave, Left),
            (1, Enter, Entered(1)),
            (1, Lock(3), Tried(Held)),
        ]],
        again: &[],
        closing: (1, &[[0; 6]; 4]),
    },
    Schedule {
        name: "two sections that each write what the other one read both commit: write skew",
        domain: Config {
            objects: 2,
            ..TWO_SEATS
        },
        turns: &[&[
            (0, Enter, Entered(0)),
            (1, Enter, Entered(0)),
            (0, Read(1), Words([0; 6])),
            (1, Read(0), Words([0; 6])),
            (0, Lock(0), Tried(Held)),
            (0, Write(0, [1, 0, 0, 0, 0, 0]), Written),
            (1, Lock(1), Tried(Held)),
            (1, Write(1, [2, 0, 0, 0, 0, 0]), Written),
            (0, Commit, Done(1)),
            (1, Commit, Done(2)),
        ]],
        again: &[],
        closing: (2, &[[1, 0, 0, 0, 0, 0], [2, 0, 0, 0, 0, 0]]),
    },
    Schedule {
        name: "at the last time a commit ends, and its abort leaves the old words",
        domain: Config {
            base: LAST,
            ..SMALL
        },
        turns: &[&[
            (0, Enter, Entered(LAST)),
            (0, Lock(0), Tried(Held)),
            (0, Write(0, [1; 6]), Written),
            (0, Commit, End),
            (0, Abort, Aborted),
            (0, Enter, Entered(LAST)),
            (0, Read(0), Words([0; 6])),
            (0, Leave, Left),
            (0, Tidy, Tidied(0, 1, Some(Holder::End))),
        ]],
        again: &[],
        closing: (LAST, &[[0; 6]]),
    },
    Schedule {
        name: "a set of one object is full, and keeps the object",
        domain: Config {
            objects: 2,
            write_max: 1,
            ..SMALL
        },
        turns: &[&[
            (0, Enter, Entered(0)),
            (0, Lock(0), Tried(Held)),
            (0, Write(0, [1; 6]), Written),
            (0, Lock(1), Tried(SetFull)),
            (0, Lock(0), Tried(Held)),
            (0, Read(0), Words([1; 6])),
            (0, Read(1), Words([0; 6])),
            (0, Commit, Done(1)),
        ]],
        again: &[],
        closing: (1, &[[1; 6], [0; 6]]),
    },
    Schedule {
        name: "a section reads its own words, and else the state of its own time",
        domain: TWO_SEATS,
        turns: &[&[
            (0, Enter, Entered(0)),
            (1, Enter, Entered(0)),
            (0, Lock(0), Tried(Held)),
            (0, Read(0), Words([0; 6])),
            (0, Write(0, [1, 2, 3, 4, 5, 6]), Written),
            (0, Read(0), Words([1, 2, 3, 4, 5, 6])),
            (1, Read(0), Words([0; 6])),
            (0, Commit, Done(1)),
            (1, Read(0), Words([0; 6])),
            (1, Leave, Left),
            (1, Enter, Entered(1)),
            (1, Read(0), Words([1, 2, 3, 4, 5, 6])),
            (1, Lock(0), Tried(Held)),
            (1, Read(0), Words([1, 2, 3, 4, 5, 6])),
            (1, Write(0, [7; 6]), Written),
            (1, Write(0, [8; 6]), Written),
            (1, Read(0), Words([8; 6])),
            (1, Abort, Aborted),
            (1, Enter, Entered(1)),
            (1, Read(0), Words([1, 2, 3, 4, 5, 6])),
        ]],
        again: &[],
        closing: (1, &[[1, 2, 3, 4, 5, 6]]),
    },
    Schedule {
        name: "a commit of two objects comes after one that was made meanwhile",
        domain: Config {
            objects: 3,
            ..TWO_SEATS
        },
        turns: &[&[
            (0, Enter, Entered(0)),
            (0, Lock(2), Tried(Held)),
            (0, Lock(0), Tried(Held)),
            (0, Write(0, [1; 6]), Written),
            (0, Write(2, [3; 6]), Written),
            (1, Enter, Entered(0)),
            (1, Lock(1), Tried(Held)),
            (1, Write(1, [2; 6]), Written),
            (1, Commit, Done(1)),
            (0, Read(1), Words([0; 6])),
            (0, Commit, Done(2)),
        ]],
        again: &[],
        closing: (2, &[[1; 6], [2; 6], [3; 6]]),
    },
    Schedule {
        name: "a seat that is lent again goes on, with what it has done",
        domain: TWO_SEATS,
        turns: &[&[
            (0, Enter, Entered(0)),
            (0, Lock(0), Tried(Held)),
            (0, Write(0, [1; 6]), Written),
            (0, Commit, Done(1)),
            (0, Enter, Entered(1)),
            (0, Leave, Left),
            (0, Enter, Entered(1)),
            (0, Abort, Aborted),
            // This section is open when the seats are given back.
            (1, Enter, Entered(1)),
            (1, Lock(0), Tried(Held)),
            (1, Write(0, [2; 6]), Written),
        ]],
        again: &[
            (
                0,
                Table,
                Counts(LogTable {
                    live: 1,
                    freed: 0,
                    back: 0,
                    commits: 1,
                    aborts: 0,
                    rests: 0,
                }),
            ),
            (
                1,
                Table,
                Counts(LogTable {
                    live: 1,
                    freed: 0,
                    back: 0,
                    commits: 0,
                    aborts: 1,
                    rests: 0,
                }),
            ),
            (1, Enter, Entered(1)),
            (1, Read(0), Words([1; 6])),
        ],
        closing: (1, &[[1; 6]]),
    },
];

#[test]
fn sections_meet(rt: HostRuntime) -> Result<(), Fail> {
    play_schedules(&rt, rt.alloc(), &SCHEDULES)
}
