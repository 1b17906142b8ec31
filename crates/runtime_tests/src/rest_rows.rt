// Rests by their parts, and a help outside a section whose commit is gone by then.
use crate::filled_logs::FILLED_BY_SEAT_1;
use crate::moves::Answer::{
    Aborted, Busy, Clock, Counts, Done, End, Entered, Finished, Held, Helped, Left, LockStarted,
    LogFull, Lost, Named, Rested, Stale, Tidied, Words, Written,
};
use crate::moves::Move::{
    Abort, Commit, Enter, Finish, Help, Leave, Lock, LockEnd, LockStart, Name, Now, Read, Rest,
    Round, Table, Tidy, Write,
};
use crate::{Answer, SMALL, Schedule, Turn, play_schedules};
use mv_history::Holder::{Fresh, Mark};
use mv_history::LogTable;
use mv_layout::{Config, LAST};
use std::test::Fail;

const ONE_OBJECT: Config = Config { seats: 3, ..SMALL };

const TWO_OBJECTS: Config = Config {
    seats: 3,
    objects: 2,
    ..SMALL
};

// Seat 1 has committed object 0 in the first slot of its log. The tidy of seat 0 would make a rest, since
// an abort is dead only from a time above the clock: it has loaded the word that names that slot, and
// stops before it loads the stamp there.
const LOADED: [Turn; 9] = [
    (1, Enter, Entered(0)),
    (1, Lock(0), Held),
    (1, Write(0, [1; 6]), Written),
    (1, Commit, Done(1)),
    (0, Enter, Entered(1)),
    (0, Lock(1), Held),
    (0, Abort, Aborted),
    (0, Round(true), Tidied(0, 1, Some(Fresh { time: 2 }))),
    (0, Now, Clock(1, 1, Some(0))),
];

// Seat 1 has filled its log by then, and frees all of it. So the next version is built in the first slot.
const FREED: [Turn; 4] = [
    (1, Enter, Entered(64)),
    (1, Lock(0), LogFull),
    (1, Leave, Left),
    (1, Tidy, Tidied(64, 0, None)),
];

// The section of seat 0, or of seat 2, is older than the last version of seat 1, which is kept.
const MARKED_BY_SEAT_0: Answer = Tidied(0, 1, Some(Mark { seat: 0, low: 65 }));

const MARKED_BY_SEAT_2: Answer = Tidied(0, 1, Some(Mark { seat: 2, low: 65 }));

static SCHEDULES: [Schedule; 9] = [
    Schedule {
        name: "a rest moves the clock on, and is counted",
        domain: ONE_OBJECT,
        turns: &[&[
            (0, Now, Clock(0, 0, None)),
            (0, Help, Helped),
            (0, Rest, Rested(1)),
            (
                0,
                Table,
                Counts(LogTable {
                    live: 0,
                    freed: 0,
                    back: 0,
                    commits: 0,
                    aborts: 0,
                    rests: 1,
                }),
            ),
            (1, Enter, Entered(1)),
        ]],
    },
    Schedule {
        name: "a rest is lost to a commit that came first",
        domain: ONE_OBJECT,
        turns: &[&[
            (0, Now, Clock(0, 0, None)),
            (1, Enter, Entered(0)),
            (1, Lock(0), Held),
            (1, Commit, Done(1)),
            (0, Help, Helped),
            (0, Rest, Lost(1, 1)),
        ]],
    },
    Schedule {
        name: "a rest is lost to the rest of another seat",
        domain: ONE_OBJECT,
        turns: &[&[
            (0, Now, Clock(0, 0, None)),
            (1, Now, Clock(0, 0, None)),
            (1, Help, Helped),
            (1, Rest, Rested(1)),
            (0, Help, Helped),
            (0, Rest, Lost(1, 1)),
        ]],
    },
    Schedule {
        name: "the help outside a section stamps a commit whose seat stopped",
        domain: ONE_OBJECT,
        turns: &[&[
            (2, Enter, Entered(0)),
            (0, Enter, Entered(0)),
            (0, Lock(0), Held),
            (0, Now, Clock(0, 0, None)),
            (0, Name, Named(1)),
            (1, Now, Clock(1, 0, Some(0))),
            (2, Lock(0), Busy(0)),
            (1, Help, Helped),
            (2, Lock(0), Stale(1)),
            (1, Rest, Rested(2)),
            (0, Finish, Finished),
        ]],
    },
    Schedule {
        name: "no rest is made at the last time",
        domain: Config {
            base: LAST,
            ..ONE_OBJECT
        },
        turns: &[&[
            (0, Now, Clock(LAST, 0, None)),
            (0, Help, Helped),
            (0, Rest, End),
            (0, Enter, Entered(LAST)),
        ]],
    },
    Schedule {
        name: "a help stamps nothing of a later version that is built and isn't held yet",
        domain: TWO_OBJECTS,
        turns: &[
            &LOADED,
            &FILLED_BY_SEAT_1,
            &FREED,
            &[
                (1, Enter, Entered(65)),
                (1, LockStart(0), LockStarted),
                (0, Help, Helped),
                (1, LockEnd, Held),
                (1, Write(0, [2; 6]), Written),
                (0, Rest, Lost(1, 65)),
                (0, Round(false), Tidied(1, 0, None)),
                (0, Enter, Entered(65)),
                (0, Read(0), Words([1; 6])),
                (0, Lock(0), Busy(1)),
                (1, Commit, Done(66)),
                (0, Read(0), Words([1; 6])),
                (2, Enter, Entered(66)),
                (2, Read(0), Words([2; 6])),
            ],
            &[(1, Tidy, MARKED_BY_SEAT_0)],
        ],
    },
    Schedule {
        name: "a help stamps nothing of a later version that is held",
        domain: TWO_OBJECTS,
        turns: &[
            &LOADED,
            &FILLED_BY_SEAT_1,
            &FREED,
            &[
                (1, Enter, Entered(65)),
                (1, Lock(0), Held),
                (1, Write(0, [2; 6]), Written),
                (0, Help, Helped),
                (0, Rest, Lost(1, 65)),
                (0, Round(false), Tidied(1, 0, None)),
                (0, Enter, Entered(65)),
                (0, Read(0), Words([1; 6])),
                (0, Lock(0), Busy(1)),
                (1, Commit, Done(66)),
                (0, Read(0), Words([1; 6])),
                (2, Enter, Entered(66)),
                (2, Read(0), Words([2; 6])),
            ],
            &[(1, Tidy, MARKED_BY_SEAT_0)],
        ],
    },
    Schedule {
        name: "a help stamps nothing of a later version that was named and isn't stamped",
        domain: TWO_OBJECTS,
        turns: &[
            &LOADED,
            &FILLED_BY_SEAT_1,
            &FREED,
            &[
                (2, Enter, Entered(65)),
                (1, Enter, Entered(65)),
                (1, Lock(0), Held),
                (1, Write(0, [2; 6]), Written),
                (1, Now, Clock(65, 1, None)),
                (1, Name, Named(66)),
                (0, Help, Helped),
                (2, Read(0), Words([1; 6])),
                (2, Lock(0), Busy(1)),
                (0, Rest, Lost(1, 66)),
                (0, Round(false), Tidied(1, 0, None)),
                (0, Enter, Entered(66)),
                (0, Read(0), Words([2; 6])),
                (2, Read(0), Words([1; 6])),
                (2, Lock(0), Stale(66)),
                (1, Finish, Finished),
            ],
            &[(1, Tidy, MARKED_BY_SEAT_2)],
        ],
    },
    Schedule {
        name: "a help stamps nothing of a later version that was committed",
        domain: TWO_OBJECTS,
        turns: &[
            &LOADED,
            &FILLED_BY_SEAT_1,
            &FREED,
            &[
                (2, Enter, Entered(65)),
                (1, Enter, Entered(65)),
                (1, Lock(0), Held),
                (1, Write(0, [2; 6]), Written),
                (1, Commit, Done(66)),
                (0, Help, Helped),
                (2, Read(0), Words([1; 6])),
                (0, Rest, Lost(1, 66)),
                (0, Round(false), Tidied(1, 0, None)),
                (0, Enter, Entered(66)),
                (0, Read(0), Words([2; 6])),
            ],
            &[(1, Tidy, MARKED_BY_SEAT_2)],
        ],
    },
];

#[test]
fn rests_and_helps_by_their_parts(rt: HostRuntime) -> Result<(), Fail> {
    play_schedules(&rt, rt.alloc(), &SCHEDULES)
}
