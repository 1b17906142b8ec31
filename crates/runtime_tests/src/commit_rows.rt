// Commits of two and three seats: lost exchanges of CLOCK, helps, and commits that stopped.
use crate::moves::Answer::{
    Aborted, Clock, Counts, Done, End, Entered, Finished, Held, Lost, Named, Words, Written,
};
use crate::moves::Move::{Abort, Commit, Enter, Finish, Lock, Name, Now, Read, Table, Write};
use crate::{SMALL, Schedule, play_schedules};
use mv_history::LogTable;
use mv_layout::{Config, LAST};
use std::test::Fail;

const THREE_OBJECTS: Config = Config {
    seats: 3,
    objects: 3,
    ..SMALL
};

static SCHEDULES: [Schedule; 10] = [
    Schedule {
        name: "a name is lost, and at the end the clock names the last commit",
        domain: Config {
            seats: 2,
            objects: 2,
            ..SMALL
        },
        turns: &[&[
            (0, Enter, Entered(0)),
            (0, Lock(0), Held),
            (1, Enter, Entered(0)),
            (1, Lock(1), Held),
            (0, Now, Clock(0, 0, None)),
            (1, Commit, Done(1)),
            (0, Name, Lost(1, 1)),
            (0, Commit, Done(2)),
            (1, Enter, Entered(2)),
            (1, Now, Clock(2, 0, Some(0))),
        ]],
    },
    Schedule {
        name: "two commits of others come between a load of the clock and the exchange",
        domain: THREE_OBJECTS,
        turns: &[&[
            (0, Enter, Entered(0)),
            (0, Lock(0), Held),
            (1, Enter, Entered(0)),
            (1, Lock(1), Held),
            (2, Enter, Entered(0)),
            (2, Lock(2), Held),
            (0, Now, Clock(0, 0, None)),
            (1, Commit, Done(1)),
            (0, Name, Lost(1, 1)),
            (0, Now, Clock(1, 1, Some(0))),
            (2, Commit, Done(2)),
            (0, Name, Lost(2, 2)),
            (0, Commit, Done(3)),
            (0, Enter, Entered(3)),
        ]],
    },
    Schedule {
        name: "what a lost exchange leaves held is given up",
        domain: THREE_OBJECTS,
        turns: &[&[
            (0, Enter, Entered(0)),
            (0, Lock(0), Held),
            (1, Enter, Entered(0)),
            (1, Lock(1), Held),
            (0, Now, Clock(0, 0, None)),
            (1, Commit, Done(1)),
            (0, Name, Lost(1, 1)),
            (0, Abort, Aborted),
            (1, Enter, Entered(1)),
            (1, Lock(0), Held),
            (1, Commit, Done(2)),
        ]],
    },
    Schedule {
        name: "a rival that stopped after its name wins, and is helped before the next exchange",
        domain: THREE_OBJECTS,
        turns: &[&[
            (0, Enter, Entered(0)),
            (0, Lock(0), Held),
            (1, Enter, Entered(0)),
            (1, Lock(1), Held),
            (1, Write(1, [2; 6]), Written),
            (0, Now, Clock(0, 0, None)),
            (1, Now, Clock(0, 0, None)),
            (1, Name, Named(1)),
            (0, Name, Lost(1, 1)),
            (0, Commit, Done(2)),
            (2, Enter, Entered(2)),
            (2, Read(1), Words([2; 6])),
        ]],
    },
    Schedule {
        name: "another seat takes the last time",
        domain: Config {
            base: LAST - 1,
            ..THREE_OBJECTS
        },
        turns: &[&[
            (0, Enter, Entered(LAST - 1)),
            (0, Lock(0), Held),
            (1, Enter, Entered(LAST - 1)),
            (1, Lock(1), Held),
            (0, Now, Clock(LAST - 1, 0, None)),
            (1, Commit, Done(LAST)),
            (0, Name, Lost(1, LAST)),
            (0, Commit, End),
            (0, Abort, Aborted),
            (0, Enter, Entered(LAST)),
            (0, Read(0), Words([0; 6])),
        ]],
    },
    Schedule {
        name: "a section helps the commit that was named before it, and reads it",
        domain: Config { seats: 3, ..SMALL },
        turns: &[&[
            (2, Enter, Entered(0)),
            (0, Enter, Entered(0)),
            (0, Lock(0), Held),
            (0, Write(0, [1, 2, 3, 4, 5, 6]), Written),
            (0, Now, Clock(0, 0, None)),
            (0, Name, Named(1)),
            (1, Enter, Entered(1)),
            (1, Read(0), Words([1, 2, 3, 4, 5, 6])),
            (2, Read(0), Words([0; 6])),
        ]],
    },
    Schedule {
        name: "a commit helps the one that was named before it",
        domain: THREE_OBJECTS,
        turns: &[&[
            (0, Enter, Entered(0)),
            (0, Lock(0), Held),
            (0, Write(0, [1; 6]), Written),
            (1, Enter, Entered(0)),
            (1, Lock(1), Held),
            (1, Write(1, [2; 6]), Written),
            (0, Now, Clock(0, 0, None)),
            (0, Name, Named(1)),
            (1, Commit, Done(2)),
            (2, Enter, Entered(2)),
            (2, Read(0), Words([1; 6])),
            (2, Read(1), Words([2; 6])),
            (0, Finish, Finished),
            (0, Enter, Entered(2)),
            (0, Read(0), Words([1; 6])),
            (0, Read(1), Words([2; 6])),
        ]],
    },
    Schedule {
        name: "of two named commits the later one is finished first",
        domain: THREE_OBJECTS,
        turns: &[&[
            (0, Enter, Entered(0)),
            (0, Lock(0), Held),
            (0, Write(0, [1; 6]), Written),
            (1, Enter, Entered(0)),
            (1, Lock(1), Held),
            (1, Write(1, [2; 6]), Written),
            (0, Now, Clock(0, 0, None)),
            (0, Name, Named(1)),
            (1, Now, Clock(1, 0, Some(0))),
            (1, Name, Named(2)),
            (2, Enter, Entered(2)),
            (2, Read(0), Words([1; 6])),
            (2, Read(1), Words([2; 6])),
            (1, Finish, Finished),
            (0, Finish, Finished),
        ]],
    },
    Schedule {
        name: "the exchange of the own stamp is lost to a helper",
        domain: THREE_OBJECTS,
        turns: &[&[
            (0, Enter, Entered(0)),
            (0, Lock(0), Held),
            (0, Write(0, [1; 6]), Written),
            (0, Now, Clock(0, 0, None)),
            (0, Name, Named(1)),
            (1, Enter, Entered(1)),
            (1, Read(0), Words([1; 6])),
            (0, Finish, Finished),
            (0, Enter, Entered(1)),
            (0, Read(0), Words([1; 6])),
        ]],
    },
    Schedule {
        name: "the table of a log counts a commit and an abort",
        domain: Config { seats: 3, ..SMALL },
        turns: &[&[
            (0, Enter, Entered(0)),
            (0, Lock(0), Held),
            (0, Commit, Done(1)),
            (0, Enter, Entered(1)),
            (0, Lock(0), Held),
            (0, Abort, Aborted),
            (
                0,
                Table,
                Counts(LogTable {
                    live: 2,
                    freed: 0,
                    back: 0,
                    commits: 1,
                    aborts: 1,
                    rests: 0,
                }),
            ),
        ]],
    },
];

#[test]
fn commits_meet(rt: HostRuntime) -> Result<(), Fail> {
    play_schedules(&rt, rt.alloc(), &SCHEDULES)
}
