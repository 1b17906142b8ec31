// A seat stops after calls, and after parts of them, on objects that have versions. Then others enter,
// read, lock and commit, and the one whose versions they were tidies its log, which names the seat that
// holds it.
use crate::moves::Answer::{
    Busy, Clock, Done, Entered, Finished, Held, Left, LockStarted, Named, Stale, Tidied, Words,
    Written,
};
use crate::moves::Move::{
    Commit, Enter, Finish, Leave, Lock, LockStart, Name, Now, Read, Tidy, Write,
};
use crate::{SMALL, Schedule, Turn, play_schedules};
use mv_history::Holder::{Above, Mark};
use mv_layout::Config;
use std::test::Fail;

const DOMAIN: Config = Config {
    seats: 3,
    objects: 3,
    ..SMALL
};

// Seat 1 has committed object 0, and seat 0 is in a section.
const OVER_ANOTHERS: [Turn; 5] = [
    (1, Enter, Entered(0)),
    (1, Lock(0), Held),
    (1, Write(0, [1; 6]), Written),
    (1, Commit, Done(1)),
    (0, Enter, Entered(1)),
];

// Seat 1 has committed objects 0 and 1. Seat 0 holds both and has written them, and seat 2 is in a
// section of that time too.
const HOLDING_TWO: [Turn; 12] = [
    (1, Enter, Entered(0)),
    (1, Lock(0), Held),
    (1, Write(0, [1; 6]), Written),
    (1, Lock(1), Held),
    (1, Write(1, [2; 6]), Written),
    (1, Commit, Done(1)),
    (0, Enter, Entered(1)),
    (0, Lock(0), Held),
    (0, Write(0, [3; 6]), Written),
    (0, Lock(1), Held),
    (0, Write(1, [4; 6]), Written),
    (2, Enter, Entered(1)),
];

// And seat 0 has named its commit then.
const NAMED: [Turn; 2] = [(0, Now, Clock(1, 1, Some(0))), (0, Name, Named(2))];

// Object 0 is free, and has the words that were committed.
const FREE: [Turn; 8] = [
    (1, Enter, Entered(1)),
    (1, Read(0), Words([1; 6])),
    (1, Lock(0), Held),
    (1, Write(0, [2; 6]), Written),
    (1, Commit, Done(2)),
    (1, Enter, Entered(2)),
    (1, Read(0), Words([2; 6])),
    (1, Leave, Left),
];

// Seat 0 holds object 0, and the version below is read.
const TAKEN: [Turn; 8] = [
    (1, Enter, Entered(1)),
    (1, Read(0), Words([1; 6])),
    (1, Lock(0), Busy(0)),
    (1, Lock(1), Held),
    (1, Commit, Done(2)),
    (1, Enter, Entered(2)),
    (1, Read(0), Words([1; 6])),
    (1, Leave, Left),
];

// Both objects are held, and the versions below are read.
const BOTH_TAKEN: [Turn; 7] = [
    (1, Enter, Entered(1)),
    (1, Read(0), Words([1; 6])),
    (1, Read(1), Words([2; 6])),
    (1, Lock(0), Busy(0)),
    (2, Lock(1), Busy(0)),
    (1, Lock(2), Held),
    (1, Commit, Done(2)),
];

// The commit counts, and isn't stamped: the section of before is answered that the objects are busy,
// until the next section has helped.
const UNSTAMPED: [Turn; 10] = [
    (2, Read(0), Words([1; 6])),
    (2, Lock(0), Busy(0)),
    (1, Enter, Entered(2)),
    (2, Lock(1), Stale(2)),
    (2, Read(1), Words([2; 6])),
    (1, Read(0), Words([3; 6])),
    (1, Read(1), Words([4; 6])),
    (1, Lock(0), Held),
    (1, Commit, Done(3)),
    (2, Lock(0), Stale(3)),
];

// The commit counts, and is stamped.
const STAMPED: [Turn; 11] = [
    (2, Read(0), Words([1; 6])),
    (2, Lock(0), Stale(2)),
    (2, Lock(1), Stale(2)),
    (1, Enter, Entered(2)),
    (1, Read(0), Words([3; 6])),
    (1, Read(1), Words([4; 6])),
    (1, Lock(0), Held),
    (1, Lock(1), Held),
    (1, Commit, Done(3)),
    (2, Read(1), Words([2; 6])),
    (2, Leave, Left),
];

// Nobody needs the versions of seat 1.
const FREED: Turn = (1, Tidy, Tidied(4, 0, None));

const TWO_MARKED: Turn = (1, Tidy, Tidied(0, 2, Some(Mark { seat: 0, low: 1 })));

const THREE_MARKED: Turn = (1, Tidy, Tidied(0, 3, Some(Mark { seat: 0, low: 1 })));

// So many versions of seat 1 are kept. Seat 0 holds the object of the first.
const TWO_UNDER_A_LOCK: Turn = (1, Tidy, Tidied(0, 2, Some(Above { object: 0, seat: 0 })));

const THREE_UNDER_A_LOCK: Turn = (1, Tidy, Tidied(0, 3, Some(Above { object: 0, seat: 0 })));

static SCHEDULES: [Schedule; 5] = [
    Schedule {
        name: "after a lock before its exchange of HEAD",
        domain: DOMAIN,
        turns: &[
            &OVER_ANOTHERS,
            &[(0, LockStart(0), LockStarted)],
            &FREE,
            &[TWO_MARKED],
        ],
    },
    Schedule {
        name: "after a lock",
        domain: DOMAIN,
        turns: &[
            &OVER_ANOTHERS,
            &[(0, Lock(0), Held)],
            &TAKEN,
            &[TWO_UNDER_A_LOCK],
        ],
    },
    Schedule {
        name: "after the load of the clock",
        domain: DOMAIN,
        turns: &[
            &HOLDING_TWO,
            &[(0, Now, Clock(1, 1, Some(0)))],
            &BOTH_TAKEN,
            &[THREE_UNDER_A_LOCK],
        ],
    },
    Schedule {
        name: "after a name",
        domain: DOMAIN,
        turns: &[&HOLDING_TWO, &NAMED, &UNSTAMPED, &[THREE_MARKED]],
    },
    Schedule {
        name: "after a finish",
        domain: DOMAIN,
        turns: &[
            &HOLDING_TWO,
            &NAMED,
            &[(0, Finish, Finished)],
            &STAMPED,
            &[FREED],
        ],
    },
];

#[test]
fn stops_over_versions(rt: HostRuntime) -> Result<(), Fail> {
    play_schedules(&rt, rt.alloc(), &SCHEDULES)
}
