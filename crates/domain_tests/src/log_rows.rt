// What makes room in the log of a seat, and what holds it.
use crate::moves::Answer::{Aborted, Counts, Done, Entered, Left, Room, Tidied, Tried};
use crate::moves::Move::{Abort, Commit, Enter, Leave, Lock, Prepare, Table, Tidy};
use crate::playing::Turn;
use crate::{SMALL, Schedule, play_schedules};
use mv_history::Holder::{Above, Mark};
use mv_history::LockAnswer::{Held, LogFull};
use mv_history::LogTable;
use mv_history::Room::{Enough, Short};
use mv_layout::Config;
use std::test::Fail;

const TWO_SEATS: Config = Config { seats: 2, ..SMALL };

// A section of seat 0 at each of these times, which commits object 0 at the next one.
macro_rules! commits {
    ($($time:literal)*) => {
        [$(
            (0, Enter, Entered($time)),
            (0, Lock(0), Tried(Held)),
            (0, Commit, Done($time + 1)),
        )*]
    };
}

// Seat 0 fills its log from time 0 on.
const FILLED: [Turn; 192] = commits!(
    0 1 2 3 4 5 6 7 8 9 10 11 12 13 14 15 16 17 18 19 20 21 22 23 24 25 26 27 28 29 30 31
    32 33 34 35 36 37 38 39 40 41 42 43 44 45 46 47 48 49 50 51 52 53 54 55 56 57 58 59 60 61 62 63
);

static SCHEDULES: [Schedule; 3] = [
    Schedule {
        name: "a log is full behind a mark",
        domain: TWO_SEATS,
        turns: &[
            &[(1, Enter, Entered(0))],
            &FILLED,
            &[
                (0, Enter, Entered(64)),
                (0, Lock(0), Tried(LogFull)),
                (0, Leave, Left),
                (0, Tidy, Tidied(0, 64, Some(Mark { seat: 1, low: 0 }))),
                (0, Prepare, Room(Short(Mark { seat: 1, low: 0 }))),
                (1, Leave, Left),
                (0, Tidy, Tidied(64, 0, None)),
                (0, Prepare, Room(Enough)),
                // The newest version was written back, and a rest moved the clock on.
                (
                    0,
                    Table,
                    Counts(LogTable {
                        live: 0,
                        freed: 64,
                        back: 1,
                        commits: 64,
                        aborts: 0,
                        rests: 1,
                    }),
                ),
            ],
        ],
        again: &[],
        closing: (65, &[[0; 6]]),
    },
    Schedule {
        name: "a lock above holds what a tidy frees after its abort",
        domain: TWO_SEATS,
        turns: &[&[
            (0, Enter, Entered(0)),
            (0, Lock(0), Tried(Held)),
            (0, Commit, Done(1)),
            (1, Enter, Entered(1)),
            (1, Lock(0), Tried(Held)),
            // Nothing is written back under another seat's lock.
            (0, Tidy, Tidied(0, 1, Some(Above { object: 0, seat: 1 }))),
            (1, Abort, Aborted),
            (0, Tidy, Tidied(1, 0, None)),
        ]],
        again: &[],
        closing: (2, &[[0; 6]]),
    },
    Schedule {
        name: "room is made by nothing below low, by a round below high, and else by a tidy",
        domain: Config {
            low: 1,
            high: 2,
            ..SMALL
        },
        turns: &[&[
            (0, Prepare, Room(Enough)),
            (0, Enter, Entered(0)),
            (0, Lock(0), Tried(Held)),
            (0, Commit, Done(1)),
            // The round writes back, but what it takes out of its chain it can't free yet.
            (0, Prepare, Room(Enough)),
            (
                0,
                Table,
                Counts(LogTable {
                    live: 1,
                    freed: 0,
                    back: 1,
                    commits: 1,
                    aborts: 0,
                    rests: 0,
                }),
            ),
            (0, Enter, Entered(1)),
            (0, Lock(0), Tried(Held)),
            (0, Commit, Done(2)),
            // The tidy rests too.
            (0, Prepare, Room(Enough)),
            (
                0,
                Table,
                Counts(LogTable {
                    live: 0,
                    freed: 2,
                    back: 2,
                    commits: 2,
                    aborts: 0,
                    rests: 1,
                }),
            ),
        ]],
        again: &[],
        closing: (3, &[[0; 6]]),
    },
];

#[test]
fn logs_are_reclaimed(rt: HostRuntime) -> Result<(), Fail> {
    play_schedules(&rt, rt.alloc(), &SCHEDULES)
}
