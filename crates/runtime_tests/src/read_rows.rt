// What sections read under the commits of others, by whole reads and by the looks of a walk.
use crate::moves::Answer::{
    Aborted, Clock, Done, Entered, Finished, Held, Left, Named, Skipped, Stale, Started, Walked,
    Words, Written,
};
use crate::moves::Found;
use crate::moves::Move::{
    Abort, Commit, Enter, Finish, Leave, Lock, Name, Now, Read, ReadFound, WalkStart, WalkStep,
    Write,
};
use crate::{SMALL, Schedule, play_schedules};
use mv_layout::Config;
use std::test::Fail;

const THREE_OBJECTS: Config = Config {
    seats: 3,
    objects: 3,
    ..SMALL
};

const ONE_OBJECT: Config = Config { seats: 3, ..SMALL };

const FIRST_OF_SEAT_0: Found = Found::Version {
    seat: 0,
    position: 0,
};

static SCHEDULES: [Schedule; 7] = [
    Schedule {
        name: "an old section reads its snapshot under two later commits",
        domain: THREE_OBJECTS,
        turns: &[&[
            (2, Enter, Entered(0)),
            (0, Enter, Entered(0)),
            (0, Lock(0), Held),
            (0, Write(0, [1; 6]), Written),
            (0, Commit, Done(1)),
            (1, Enter, Entered(1)),
            (1, Lock(0), Held),
            (1, Write(0, [2; 6]), Written),
            (1, Commit, Done(2)),
            (2, Read(0), Words([0; 6])),
            (2, Lock(0), Stale(2)),
            (2, Leave, Left),
            (2, Enter, Entered(2)),
            (2, Read(0), Words([2; 6])),
        ]],
    },
    Schedule {
        name: "each section reads what was committed up to its time, three versions deep",
        domain: THREE_OBJECTS,
        turns: &[&[
            (2, Enter, Entered(0)),
            (0, Enter, Entered(0)),
            (0, Lock(0), Held),
            (0, Write(0, [1; 6]), Written),
            (0, Commit, Done(1)),
            (1, Enter, Entered(1)),
            (0, Enter, Entered(1)),
            (0, Lock(0), Held),
            (0, Write(0, [2; 6]), Written),
            (0, Commit, Done(2)),
            (0, Enter, Entered(2)),
            (0, Lock(0), Held),
            (0, Write(0, [3; 6]), Written),
            (0, Commit, Done(3)),
            (2, Read(0), Words([0; 6])),
            (1, Read(0), Words([1; 6])),
            (2, Leave, Left),
            (2, Enter, Entered(3)),
            (2, Read(0), Words([3; 6])),
        ]],
    },
    Schedule {
        name: "a read passes the own version that is held",
        domain: THREE_OBJECTS,
        turns: &[&[
            (0, Enter, Entered(0)),
            (0, Lock(0), Held),
            (0, Write(0, [1; 6]), Written),
            (0, Read(0), Words([0; 6])),
            (0, Lock(0), Held),
            (0, Commit, Done(1)),
            (0, Enter, Entered(1)),
            (0, Read(0), Words([1; 6])),
        ]],
    },
    Schedule {
        name: "a write set of two objects is seen whole or not at all",
        domain: THREE_OBJECTS,
        turns: &[&[
            (2, Enter, Entered(0)),
            (0, Enter, Entered(0)),
            (0, Lock(0), Held),
            (0, Lock(1), Held),
            (0, Write(0, [1; 6]), Written),
            (0, Write(1, [2; 6]), Written),
            (0, Now, Clock(0, 0, None)),
            (0, Name, Named(1)),
            (2, Read(0), Words([0; 6])),
            (1, Enter, Entered(1)),
            (1, Read(0), Words([1; 6])),
            (1, Read(1), Words([2; 6])),
            (2, Read(1), Words([0; 6])),
            (2, Lock(1), Stale(1)),
            (0, Finish, Finished),
        ]],
    },
    Schedule {
        name: "a walk stands at a version that is taken out, and goes on to the master",
        domain: ONE_OBJECT,
        turns: &[&[
            (0, Enter, Entered(0)),
            (0, Lock(0), Held),
            (0, Write(0, [1; 6]), Written),
            (1, Enter, Entered(0)),
            (1, WalkStart(0), Started),
            (0, Abort, Aborted),
            (1, WalkStep, Walked(None)),
            (1, WalkStep, Walked(Some(Found::Master))),
            (1, ReadFound, Words([0; 6])),
            (1, Leave, Left),
        ]],
    },
    Schedule {
        name: "what a walk has ended at is read still under later commits",
        domain: ONE_OBJECT,
        turns: &[&[
            (0, Enter, Entered(0)),
            (0, Lock(0), Held),
            (0, Write(0, [1; 6]), Written),
            (0, Commit, Done(1)),
            (1, Enter, Entered(1)),
            (2, Enter, Entered(1)),
            (2, Lock(0), Held),
            (2, Write(0, [2; 6]), Written),
            (1, WalkStart(0), Started),
            (2, Commit, Done(2)),
            (1, WalkStep, Walked(None)),
            (1, WalkStep, Walked(Some(FIRST_OF_SEAT_0))),
            (0, Enter, Entered(2)),
            (0, Lock(0), Held),
            (0, Write(0, [3; 6]), Written),
            (0, Commit, Done(3)),
            (1, ReadFound, Words([1; 6])),
            (1, ReadFound, Skipped),
            (1, Read(0), Words([1; 6])),
        ]],
    },
    Schedule {
        name: "a walk ends with another call of its seat",
        domain: ONE_OBJECT,
        turns: &[&[
            (1, Enter, Entered(0)),
            (1, WalkStart(0), Started),
            (1, Lock(0), Held),
            (1, WalkStep, Skipped),
            (1, WalkStart(1), Skipped),
            (1, Commit, Done(1)),
        ]],
    },
];

#[test]
fn sections_read_their_snapshots(rt: HostRuntime) -> Result<(), Fail> {
    play_schedules(&rt, rt.alloc(), &SCHEDULES)
}
