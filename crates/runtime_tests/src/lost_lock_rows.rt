// Others move between the two parts of a lock: its exchange of HEAD is lost, or is won. Its seat goes on,
// or stops after the lock.
use crate::moves::Answer::{
    Aborted, Busy, Clock, Done, Entered, Finished, Held, Left, LockStarted, Named, Stale, Tidied,
    Words, Written,
};
use crate::moves::Move::{
    Abort, Commit, Enter, Finish, Leave, Lock, LockEnd, LockStart, Name, Now, Read, Tidy, Write,
};
use crate::{SMALL, Schedule, Turn, play_schedules};
use mv_history::Holder::Mark;
use mv_layout::Config;
use std::test::Fail;

const DOMAIN: Config = Config {
    seats: 3,
    objects: 2,
    ..SMALL
};

const TWO_SEATS: Config = Config {
    seats: 2,
    objects: 2,
    ..SMALL
};

// Seat 2 has committed object 0.
const COMMITTED: [Turn; 4] = [
    (2, Enter, Entered(0)),
    (2, Lock(0), Held),
    (2, Write(0, [1; 6]), Written),
    (2, Commit, Done(1)),
];

// Seat 0 has begun a lock, and seat 1 holds the object by then.
const TO_A_LOCK: [Turn; 5] = [
    (0, Enter, Entered(0)),
    (0, LockStart(0), LockStarted),
    (1, Enter, Entered(0)),
    (1, Lock(0), Held),
    (1, Write(0, [2; 6]), Written),
];

// It has committed the object by then.
const TO_ITS_COMMIT: [Turn; 6] = [
    (0, Enter, Entered(0)),
    (0, LockStart(0), LockStarted),
    (1, Enter, Entered(0)),
    (1, Lock(0), Held),
    (1, Write(0, [2; 6]), Written),
    (1, Commit, Done(1)),
];

// Seat 0 has begun a lock over a version of seat 1, which has cut the chain by then, and made a rest.
const TO_A_CUT: [Turn; 7] = [
    (1, Enter, Entered(0)),
    (1, Lock(0), Held),
    (1, Write(0, [1; 6]), Written),
    (1, Commit, Done(1)),
    (0, Enter, Entered(1)),
    (0, LockStart(0), LockStarted),
    (1, Tidy, Tidied(0, 1, Some(Mark { seat: 0, low: 1 }))),
];

// Seat 1 commits what it holds, and then the object again.
const GOES_ON: [Turn; 5] = [
    (1, Commit, Done(1)),
    (1, Enter, Entered(1)),
    (1, Read(0), Words([2; 6])),
    (1, Lock(0), Held),
    (1, Commit, Done(2)),
];

// It commits the object again.
const AGAIN: [Turn; 4] = [
    (1, Enter, Entered(1)),
    (1, Read(0), Words([2; 6])),
    (1, Lock(0), Held),
    (1, Commit, Done(2)),
];

// It reads the object in the master, and commits another one, since seat 0 holds it.
const BESIDES: [Turn; 5] = [
    (1, Enter, Entered(2)),
    (1, Read(0), Words([1; 6])),
    (1, Lock(0), Busy(0)),
    (1, Lock(1), Held),
    (1, Commit, Done(3)),
];

// Both versions of seat 1 are kept: the section of seat 0 may read the older one, or the words below it.
const MARKED: Turn = (1, Tidy, Tidied(0, 2, Some(Mark { seat: 0, low: 0 })));

const MARKED_LATER: Turn = (1, Tidy, Tidied(0, 2, Some(Mark { seat: 0, low: 1 })));

static SCHEDULES: [Schedule; 12] = [
    Schedule {
        name: "the other seat holds the object, and the slot of what was built serves for another lock",
        domain: DOMAIN,
        turns: &[&[
            (0, Enter, Entered(0)),
            (0, LockStart(0), LockStarted),
            (1, Enter, Entered(0)),
            (1, Lock(0), Held),
            (0, LockEnd, Busy(1)),
            (0, Lock(0), Busy(1)),
            (0, Lock(1), Held),
            (0, Write(1, [3; 6]), Written),
            (1, Lock(1), Busy(0)),
            (1, Write(0, [2; 6]), Written),
            (1, Commit, Done(1)),
            (0, Lock(0), Stale(1)),
            (0, Read(0), Words([0; 6])),
            (0, Commit, Done(2)),
            (2, Enter, Entered(2)),
            (2, Read(0), Words([2; 6])),
            (2, Read(1), Words([3; 6])),
        ]],
    },
    Schedule {
        name: "the other seat has committed the object, and the older section reads what it read before",
        domain: DOMAIN,
        turns: &[&[
            (0, Enter, Entered(0)),
            (0, Lock(1), Held),
            (0, Write(1, [3; 6]), Written),
            (0, LockStart(0), LockStarted),
            (1, Enter, Entered(0)),
            (1, Lock(0), Held),
            (1, Write(0, [2; 6]), Written),
            (1, Commit, Done(1)),
            (0, LockEnd, Stale(1)),
            (0, Read(0), Words([0; 6])),
            (0, Lock(0), Stale(1)),
            (0, Commit, Done(2)),
            (0, Enter, Entered(2)),
            (0, Read(0), Words([2; 6])),
            (0, Read(1), Words([3; 6])),
            (0, Lock(0), Held),
        ]],
    },
    Schedule {
        name: "the other seat has committed the object over a version that both sections read",
        domain: DOMAIN,
        turns: &[
            &COMMITTED,
            &[
                (0, Enter, Entered(1)),
                (0, LockStart(0), LockStarted),
                (1, Enter, Entered(1)),
                (1, Lock(0), Held),
                (1, Write(0, [2; 6]), Written),
                (1, Commit, Done(2)),
                (0, LockEnd, Stale(2)),
                (0, Read(0), Words([1; 6])),
                (0, Leave, Left),
                (0, Enter, Entered(2)),
                (0, Read(0), Words([2; 6])),
                (0, Lock(0), Held),
                (0, Commit, Done(3)),
            ],
        ],
    },
    Schedule {
        name: "the other seat has named its commit and stopped: busy until somebody stamps it",
        domain: DOMAIN,
        turns: &[
            &COMMITTED,
            &[
                (0, Enter, Entered(1)),
                (0, LockStart(0), LockStarted),
                (1, Enter, Entered(1)),
                (1, Lock(0), Held),
                (1, Write(0, [2; 6]), Written),
                (1, Now, Clock(1, 2, Some(0))),
                (1, Name, Named(2)),
                (0, LockEnd, Busy(1)),
                (0, LockStart(0), Busy(1)),
                (2, Enter, Entered(2)),
                (0, LockStart(0), Stale(2)),
                (0, Read(0), Words([1; 6])),
                (1, Finish, Finished),
                (2, Read(0), Words([2; 6])),
            ],
        ],
    },
    Schedule {
        name: "the other seat has named its commit, and a third one stamps it before the exchange",
        domain: DOMAIN,
        turns: &[
            &COMMITTED,
            &[
                (0, Enter, Entered(1)),
                (0, LockStart(0), LockStarted),
                (1, Enter, Entered(1)),
                (1, Lock(0), Held),
                (1, Now, Clock(1, 2, Some(0))),
                (1, Name, Named(2)),
                (2, Enter, Entered(2)),
                (0, LockEnd, Stale(2)),
                (1, Finish, Finished),
                (2, Lock(0), Held),
            ],
        ],
    },
    Schedule {
        name: "the other seat has given the object up, and a third one holds it",
        domain: DOMAIN,
        turns: &[
            &COMMITTED,
            &[
                (0, Enter, Entered(1)),
                (0, LockStart(0), LockStarted),
                (1, Enter, Entered(1)),
                (1, Lock(0), Held),
                (1, Abort, Aborted),
                (2, Enter, Entered(1)),
                (2, Lock(0), Held),
                (0, LockEnd, Busy(2)),
                (2, Abort, Aborted),
                (0, LockStart(0), LockStarted),
                (0, LockEnd, Held),
                (0, Commit, Done(2)),
            ],
        ],
    },
    Schedule {
        name: "of two that have built over the same version one wins",
        domain: DOMAIN,
        turns: &[
            &COMMITTED,
            &[
                (0, Enter, Entered(1)),
                (1, Enter, Entered(1)),
                (0, LockStart(0), LockStarted),
                (1, LockStart(0), LockStarted),
                (1, LockEnd, Held),
                (0, LockEnd, Busy(1)),
                (1, Commit, Done(2)),
                (0, Lock(0), Stale(2)),
                (1, Enter, Entered(2)),
            ],
        ],
    },
    Schedule {
        name: "the other seat has given the object up: HEAD is as it was found, and the exchange is won",
        domain: DOMAIN,
        turns: &[
            &COMMITTED,
            &[
                (0, Enter, Entered(1)),
                (0, LockStart(0), LockStarted),
                (1, Enter, Entered(1)),
                (1, Lock(0), Held),
                (1, Write(0, [9; 6]), Written),
                (1, Abort, Aborted),
                (0, LockEnd, Held),
                (0, Write(0, [2; 6]), Written),
                (0, Read(0), Words([1; 6])),
                (0, Commit, Done(2)),
                (1, Enter, Entered(2)),
                (1, Read(0), Words([2; 6])),
                (1, Lock(0), Held),
            ],
        ],
    },
    Schedule {
        name: "the same where there is no version: HEAD is 0 again",
        domain: DOMAIN,
        turns: &[&[
            (0, Enter, Entered(0)),
            (0, LockStart(0), LockStarted),
            (1, Enter, Entered(0)),
            (1, Lock(0), Held),
            (1, Write(0, [9; 6]), Written),
            (1, Abort, Aborted),
            (0, LockEnd, Held),
            (0, Write(0, [2; 6]), Written),
            (0, Read(0), Words([0; 6])),
            (0, Commit, Done(1)),
            (1, Enter, Entered(1)),
            (1, Read(0), Words([2; 6])),
            (1, Lock(0), Held),
        ]],
    },
    Schedule {
        name: "stops after a whole lock, lost to a lock",
        domain: TWO_SEATS,
        turns: &[&TO_A_LOCK, &[(0, LockEnd, Busy(1))], &GOES_ON, &[MARKED]],
    },
    Schedule {
        name: "stops after a whole lock, lost to a commit",
        domain: TWO_SEATS,
        turns: &[&TO_ITS_COMMIT, &[(0, LockEnd, Stale(1))], &AGAIN, &[MARKED]],
    },
    Schedule {
        name: "stops after a whole lock, held at the master after a cut",
        domain: TWO_SEATS,
        turns: &[&TO_A_CUT, &[(0, LockEnd, Held)], &BESIDES, &[MARKED_LATER]],
    },
];

#[test]
fn others_move_before_the_exchange(rt: HostRuntime) -> Result<(), Fail> {
    play_schedules(&rt, rt.alloc(), &SCHEDULES)
}
