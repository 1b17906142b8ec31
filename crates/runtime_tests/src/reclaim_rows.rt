// Rounds, tidies and write-backs, and what holds a log.
use crate::filled_logs::FILLED_BY_SEAT_0;
use crate::moves::Answer::{
    Aborted, BackEnded, Clock, Counts, Done, End, Entered, Finished, Held, Left, LogFull, Named,
    Started, Stored, Tidied, Walked, Words, Written,
};
use crate::moves::Found;
use crate::moves::Move::{
    Abort, BackFinish, BackStart, BackWord, Commit, Enter, Finish, Leave, Lock, Name, Now, Read,
    ReadFound, Round, Table, Tidy, WalkStart, WalkStep, Write,
};
use crate::{SMALL, Schedule, play_schedules};
use log_reclaim::BackEnd;
use mv_history::Holder::{self, Above, Fresh, Mark};
use mv_history::LogTable;
use mv_layout::{Config, LAST};
use std::test::Fail;

const TWO_SEATS: Config = Config { seats: 2, ..SMALL };

static SCHEDULES: [Schedule; 7] = [
    Schedule {
        name: "a round leaves fresh what a tidy frees",
        domain: SMALL,
        turns: &[
            // What was just written back is dead only from a time above the clock.
            &[
                (0, Enter, Entered(0)),
                (0, Lock(0), Held),
                (0, Commit, Done(1)),
                (0, Round(true), Tidied(0, 1, Some(Fresh { time: 2 }))),
            ],
            // A rest moves the clock on.
            &[
                (0, Tidy, Tidied(1, 0, None)),
                (
                    0,
                    Table,
                    Counts(LogTable {
                        live: 0,
                        freed: 1,
                        back: 1,
                        commits: 1,
                        aborts: 0,
                        rests: 1,
                    }),
                ),
            ],
        ],
    },
    Schedule {
        name: "a lock above holds what a tidy frees after its abort",
        domain: TWO_SEATS,
        turns: &[
            // Nothing is written back under another seat's lock.
            &[
                (0, Enter, Entered(0)),
                (0, Lock(0), Held),
                (0, Commit, Done(1)),
                (1, Enter, Entered(1)),
                (1, Lock(0), Held),
                (0, Tidy, Tidied(0, 1, Some(Above { object: 0, seat: 1 }))),
            ],
            &[(1, Abort, Aborted), (0, Tidy, Tidied(1, 0, None))],
        ],
    },
    Schedule {
        name: "a log is full behind a mark",
        domain: TWO_SEATS,
        turns: &[
            &[(1, Enter, Entered(0))],
            &FILLED_BY_SEAT_0,
            &[
                (0, Enter, Entered(64)),
                (0, Lock(0), LogFull),
                (0, Leave, Left),
                (0, Tidy, Tidied(0, 64, Some(Mark { seat: 1, low: 0 }))),
                (1, Leave, Left),
                (0, Tidy, Tidied(64, 0, None)),
            ],
        ],
    },
    Schedule {
        name: "a commit overtakes a write-back, whose words are never read",
        domain: TWO_SEATS,
        turns: &[&[
            (0, Enter, Entered(0)),
            (0, Lock(0), Held),
            (0, Write(0, [1, 2, 3, 4, 5, 6]), Written),
            (0, Commit, Done(1)),
            (0, BackStart(0), Started),
            (0, BackWord, Stored),
            (0, BackWord, Stored),
            (1, Enter, Entered(1)),
            (1, Lock(0), Held),
            (1, Write(0, [7, 8, 9, 10, 11, 12]), Written),
            (1, Commit, Done(2)),
            (1, Tidy, Tidied(0, 1, Some(Mark { seat: 0, low: 1 }))),
            (0, BackWord, Stored),
            (0, BackWord, Stored),
            (0, BackWord, Stored),
            (0, BackWord, Stored),
            (0, BackFinish, BackEnded(BackEnd::Above { seat: 1 })),
            (1, Tidy, Tidied(1, 0, None)),
            (1, Enter, Entered(3)),
            (1, Read(0), Words([7, 8, 9, 10, 11, 12])),
        ]],
    },
    Schedule {
        name: "an aborted version is kept while a walk may stand at it",
        domain: TWO_SEATS,
        turns: &[&[
            (0, Enter, Entered(0)),
            (0, Lock(0), Held),
            (1, Enter, Entered(0)),
            (1, WalkStart(0), Started),
            (0, Abort, Aborted),
            (0, Tidy, Tidied(0, 1, Some(Mark { seat: 1, low: 0 }))),
            (1, WalkStep, Walked(None)),
            (1, WalkStep, Walked(Some(Found::Master))),
            (1, ReadFound, Words([0; 6])),
            (1, Leave, Left),
            (0, Tidy, Tidied(1, 0, None)),
        ]],
    },
    Schedule {
        name: "after the last time nothing becomes dead any more",
        domain: Config {
            base: LAST,
            ..SMALL
        },
        turns: &[&[
            (0, Enter, Entered(LAST)),
            (0, Lock(0), Held),
            (0, Write(0, [1, 2, 3, 4, 5, 6]), Written),
            (0, Commit, End),
            (0, Abort, Aborted),
            (0, Enter, Entered(LAST)),
            (0, Read(0), Words([0; 6])),
            (0, Leave, Left),
            (0, Tidy, Tidied(0, 1, Some(Holder::End))),
        ]],
    },
    Schedule {
        name: "others go past a stopped commit, which is finished then",
        domain: Config {
            seats: 2,
            objects: 2,
            ..SMALL
        },
        turns: &[
            // Seat 0 has named a commit of object 0 and stopped. Another seat enters, commits another object
            // and tidies, and then locks and commits object 0 too.
            &[
                (0, Enter, Entered(0)),
                (0, Lock(0), Held),
                (0, Now, Clock(0, 0, None)),
                (0, Name, Named(1)),
                (1, Enter, Entered(1)),
                (1, Lock(1), Held),
                (1, Commit, Done(2)),
                (1, Tidy, Tidied(0, 1, Some(Mark { seat: 0, low: 0 }))),
                (1, Enter, Entered(2)),
                (1, Lock(0), Held),
                (1, Commit, Done(3)),
            ],
            &[
                (0, Finish, Finished),
                (1, Tidy, Tidied(2, 0, None)),
                (
                    1,
                    Table,
                    Counts(LogTable {
                        live: 0,
                        freed: 2,
                        back: 2,
                        commits: 2,
                        aborts: 0,
                        rests: 1,
                    }),
                ),
            ],
            &[(0, Tidy, Tidied(1, 0, None))],
        ],
    },
];

#[test]
fn logs_are_reclaimed(rt: HostRuntime) -> Result<(), Fail> {
    play_schedules(&rt, rt.alloc(), &SCHEDULES)
}
