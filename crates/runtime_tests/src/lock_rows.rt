// Locks of two and three seats: who is refused, and what a refusal or an abort leaves.
use crate::moves::Answer::{
    Aborted, Busy, Clock, Done, Entered, Finished, Held, Left, Named, SetFull, Stale, Words,
    Written,
};
use crate::moves::Move::{Abort, Commit, Enter, Finish, Leave, Lock, Name, Now, Read, Write};
use crate::{SMALL, Schedule, play_schedules};
use mv_layout::Config;
use std::test::Fail;

const THREE_OBJECTS: Config = Config {
    seats: 3,
    objects: 3,
    ..SMALL
};

static SCHEDULES: [Schedule; 10] = [
    Schedule {
        name: "busy until the holder has committed, and then stale",
        domain: Config {
            seats: 2,
            objects: 4,
            ..SMALL
        },
        turns: &[&[
            (0, Enter, Entered(0)),
            (0, Lock(3), Held),
            (1, Enter, Entered(0)),
            (1, Lock(3), Busy(0)),
            (0, Commit, Done(1)),
            (1, Lock(3), Stale(1)),
            (1, Leave, Left),
            (1, Enter, Entered(1)),
            (1, Lock(3), Held),
        ]],
    },
    Schedule {
        name: "busy while a commit is named, and stale once somebody has stamped it",
        domain: THREE_OBJECTS,
        turns: &[&[
            (0, Enter, Entered(0)),
            (0, Lock(0), Held),
            (1, Enter, Entered(0)),
            (0, Now, Clock(0, 0, None)),
            (0, Name, Named(1)),
            (1, Lock(0), Busy(0)),
            (2, Enter, Entered(1)),
            (1, Lock(0), Stale(1)),
            (2, Lock(0), Held),
            (1, Lock(0), Busy(2)),
            (2, Commit, Done(2)),
        ]],
    },
    Schedule {
        name: "what was aborted is free for others",
        domain: THREE_OBJECTS,
        turns: &[&[
            (0, Enter, Entered(0)),
            (0, Lock(0), Held),
            (1, Enter, Entered(0)),
            (1, Lock(0), Busy(0)),
            (0, Abort, Aborted),
            (1, Lock(0), Held),
            (1, Commit, Done(1)),
            (0, Enter, Entered(1)),
            (0, Lock(0), Held),
            (0, Commit, Done(2)),
        ]],
    },
    Schedule {
        name: "an abort over a committed version leaves that version",
        domain: THREE_OBJECTS,
        turns: &[&[
            (0, Enter, Entered(0)),
            (0, Lock(0), Held),
            (0, Write(0, [1; 6]), Written),
            (0, Commit, Done(1)),
            (1, Enter, Entered(1)),
            (1, Lock(0), Held),
            (1, Write(0, [2; 6]), Written),
            (1, Abort, Aborted),
            (2, Enter, Entered(1)),
            (2, Read(0), Words([1; 6])),
            (2, Lock(0), Held),
            (1, Enter, Entered(1)),
            (1, Lock(0), Busy(2)),
        ]],
    },
    Schedule {
        name: "a lock over the version of a stopped commit is given up",
        domain: THREE_OBJECTS,
        turns: &[&[
            (0, Enter, Entered(0)),
            (0, Lock(0), Held),
            (0, Write(0, [1; 6]), Written),
            (0, Now, Clock(0, 0, None)),
            (0, Name, Named(1)),
            (1, Enter, Entered(1)),
            (1, Lock(0), Held),
            (1, Abort, Aborted),
            (0, Finish, Finished),
            (2, Enter, Entered(1)),
            (2, Read(0), Words([1; 6])),
        ]],
    },
    Schedule {
        name: "each of two holders finds the object of the other one busy",
        domain: THREE_OBJECTS,
        turns: &[&[
            (0, Enter, Entered(0)),
            (1, Enter, Entered(0)),
            (0, Lock(0), Held),
            (1, Lock(1), Held),
            (0, Lock(1), Busy(1)),
            (1, Lock(0), Busy(0)),
            (0, Abort, Aborted),
            (1, Lock(0), Held),
            (1, Commit, Done(1)),
            (0, Enter, Entered(1)),
            (0, Lock(1), Held),
        ]],
    },
    Schedule {
        name: "a refused lock leaves what the section holds, which commits",
        domain: THREE_OBJECTS,
        turns: &[&[
            (0, Enter, Entered(0)),
            (1, Enter, Entered(0)),
            (0, Lock(0), Held),
            (1, Lock(1), Held),
            (1, Lock(0), Busy(0)),
            (0, Commit, Done(1)),
            (1, Lock(0), Stale(1)),
            (1, Commit, Done(2)),
            (0, Enter, Entered(2)),
        ]],
    },
    Schedule {
        name: "an older section is refused at each object of a commit, and commits another",
        domain: THREE_OBJECTS,
        turns: &[&[
            (1, Enter, Entered(0)),
            (0, Enter, Entered(0)),
            (0, Lock(0), Held),
            (0, Lock(1), Held),
            (1, Lock(2), Held),
            (0, Commit, Done(1)),
            (1, Lock(0), Stale(1)),
            (1, Lock(1), Stale(1)),
            (0, Enter, Entered(1)),
            (0, Lock(2), Busy(1)),
            (1, Commit, Done(2)),
            (0, Lock(2), Stale(2)),
        ]],
    },
    Schedule {
        name: "a full set leaves the object that it holds held",
        domain: Config {
            objects: 2,
            write_max: 1,
            ..SMALL
        },
        turns: &[&[
            (0, Enter, Entered(0)),
            (0, Lock(0), Held),
            (0, Lock(1), SetFull),
            (0, Lock(0), Held),
            (0, Commit, Done(1)),
            (0, Enter, Entered(1)),
            (0, Lock(1), Held),
        ]],
    },
    Schedule {
        name: "a full set of two objects, which are busy for another seat",
        domain: Config {
            write_max: 2,
            ..THREE_OBJECTS
        },
        turns: &[&[
            (0, Enter, Entered(0)),
            (0, Lock(2), Held),
            (0, Lock(1), Held),
            (0, Lock(0), SetFull),
            (1, Enter, Entered(0)),
            (1, Lock(1), Busy(0)),
            (1, Lock(0), Held),
            (1, Commit, Done(1)),
            (0, Commit, Done(2)),
        ]],
    },
];

#[test]
fn locks_meet(rt: HostRuntime) -> Result<(), Fail> {
    play_schedules(&rt, rt.alloc(), &SCHEDULES)
}
