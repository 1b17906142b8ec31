// Locks with words of the caller's: what a commit makes of them, and who is refused.
use crate::filled_logs::FILLED_BY_SEAT_1;
use crate::moves::Answer::{
    Aborted, Busy, Done, Entered, Held, Left, LogFull, SetFull, Stale, Words, Written,
};
use crate::moves::Move::{Abort, Commit, Enter, Leave, Lock, LockWith, Read, Write};
use crate::{SMALL, Schedule, play_schedules};
use mv_layout::Config;
use std::test::Fail;

const TWO_SEATS: Config = Config {
    seats: 2,
    objects: 3,
    ..SMALL
};

static SCHEDULES: [Schedule; 8] = [
    Schedule {
        name: "the words of the lock are committed",
        domain: TWO_SEATS,
        turns: &[&[
            (0, Enter, Entered(0)),
            (0, LockWith(0, [7, 6, 5, 4, 3, 2]), Held),
            (0, LockWith(2, [1; 6]), Held),
            (0, Commit, Done(1)),
            (1, Enter, Entered(1)),
            (1, Read(0), Words([7, 6, 5, 4, 3, 2])),
            (1, Read(1), Words([0; 6])),
            (1, Read(2), Words([1; 6])),
        ]],
    },
    Schedule {
        name: "an object that is held already gets the words, and no second version",
        domain: Config {
            write_max: 1,
            ..TWO_SEATS
        },
        turns: &[&[
            (0, Enter, Entered(0)),
            (0, Lock(0), Held),
            (0, LockWith(0, [4; 6]), Held),
            (0, LockWith(0, [5; 6]), Held),
            (0, LockWith(1, [5; 6]), SetFull),
            (0, Commit, Done(1)),
            (1, Enter, Entered(1)),
            (1, Read(0), Words([5; 6])),
            (1, Read(1), Words([0; 6])),
        ]],
    },
    Schedule {
        name: "a later write has the last word",
        domain: TWO_SEATS,
        turns: &[&[
            (0, Enter, Entered(0)),
            (0, LockWith(1, [4; 6]), Held),
            (0, Write(1, [8; 6]), Written),
            (0, Commit, Done(1)),
            (1, Enter, Entered(1)),
            (1, Read(1), Words([8; 6])),
        ]],
    },
    Schedule {
        name: "busy until the holder has committed, and then stale",
        domain: TWO_SEATS,
        turns: &[&[
            (0, Enter, Entered(0)),
            (0, LockWith(1, [1; 6]), Held),
            (1, Enter, Entered(0)),
            (1, LockWith(1, [2; 6]), Busy(0)),
            (0, Commit, Done(1)),
            (1, LockWith(1, [2; 6]), Stale(1)),
            (1, Leave, Left),
            (1, Enter, Entered(1)),
            (1, LockWith(1, [2; 6]), Held),
            (1, Commit, Done(2)),
            (0, Enter, Entered(2)),
            (0, Read(1), Words([2; 6])),
        ]],
    },
    Schedule {
        name: "a refusal leaves what was held with its words",
        domain: TWO_SEATS,
        turns: &[&[
            (0, Enter, Entered(0)),
            (0, LockWith(1, [1; 6]), Held),
            (1, Enter, Entered(0)),
            (1, LockWith(0, [3; 6]), Held),
            (1, LockWith(1, [2; 6]), Busy(0)),
            (1, Commit, Done(1)),
            (0, Commit, Done(2)),
            (1, Enter, Entered(2)),
            (1, Read(0), Words([3; 6])),
            (1, Read(1), Words([1; 6])),
        ]],
    },
    Schedule {
        name: "nobody sees the words of a lock that was given up",
        domain: TWO_SEATS,
        turns: &[&[
            (0, Enter, Entered(0)),
            (0, LockWith(0, [9; 6]), Held),
            (1, Enter, Entered(0)),
            (1, Read(0), Words([0; 6])),
            (0, Abort, Aborted),
            (1, Read(0), Words([0; 6])),
            (1, Lock(0), Held),
            (1, Commit, Done(1)),
            (0, Enter, Entered(1)),
            (0, Read(0), Words([0; 6])),
        ]],
    },
    Schedule {
        name: "a section that is older than the words reads those before them",
        domain: TWO_SEATS,
        turns: &[&[
            (1, Enter, Entered(0)),
            (0, Enter, Entered(0)),
            (0, LockWith(0, [9; 6]), Held),
            (0, Commit, Done(1)),
            (1, Read(0), Words([0; 6])),
            (0, Enter, Entered(1)),
            (0, LockWith(0, [8; 6]), Held),
            (0, Commit, Done(2)),
            (1, Read(0), Words([0; 6])),
        ]],
    },
    Schedule {
        name: "a full log refuses an object that isn't held, and none that is",
        domain: TWO_SEATS,
        turns: &[
            &[
                (0, Enter, Entered(0)),
                (0, LockWith(0, [1; 6]), Held),
                (0, Commit, Done(1)),
            ],
            &FILLED_BY_SEAT_1,
            &[
                (1, Enter, Entered(64)),
                (1, LockWith(1, [2; 6]), Held),
                (1, LockWith(2, [3; 6]), LogFull),
                (1, LockWith(1, [4; 6]), Held),
                (1, Commit, Done(65)),
                (0, Enter, Entered(65)),
                (0, Read(1), Words([4; 6])),
                (0, Read(2), Words([0; 6])),
            ],
        ],
    },
];

#[test]
fn locks_with_words_meet(rt: HostRuntime) -> Result<(), Fail> {
    play_schedules(&rt, rt.alloc(), &SCHEDULES)
}
