// Write-backs by their parts: why one doesn't start, one that is given up, and locks whose chain is cut.
use crate::moves::Answer::{
    Aborted, BackEnded, Busy, Counts, Done, Entered, Held, Left, LockStarted, NoBack, Started,
    Stored, Tidied, Walked, Words, Written,
};
use crate::moves::Found;
use crate::moves::Move::{
    Abort, BackFinish, BackStart, BackWord, Commit, Enter, Leave, Lock, LockEnd, LockStart, Read,
    ReadFound, Round, Table, Tidy, WalkStart, WalkStep, Write,
};
use crate::{SMALL, Schedule, play_schedules};
use log_reclaim::BackEnd::Cut;
use log_reclaim::NoBack::{Above, Gone, Young};
use mv_history::Holder::{Fresh, Mark};
use mv_history::LogTable;
use mv_layout::Config;
use std::test::Fail;

const DOMAIN: Config = Config { seats: 2, ..SMALL };

static SCHEDULES: [Schedule; 8] = [
    Schedule {
        name: "too young: a section may not read the version yet",
        domain: DOMAIN,
        turns: &[&[
            (1, Enter, Entered(0)),
            (0, Enter, Entered(0)),
            (0, Lock(0), Held),
            (0, Commit, Done(1)),
            (0, BackStart(0), NoBack(Young)),
            (1, Leave, Left),
            (0, BackStart(0), Started),
            (0, Leave, Left),
        ]],
    },
    Schedule {
        name: "gone: a later version was committed and cut",
        domain: DOMAIN,
        turns: &[&[
            (0, Enter, Entered(0)),
            (0, Lock(0), Held),
            (0, Commit, Done(1)),
            (1, Enter, Entered(1)),
            (1, Lock(0), Held),
            (1, Commit, Done(2)),
            (1, Tidy, Tidied(1, 0, None)),
            (0, BackStart(0), NoBack(Gone)),
            (0, Tidy, Tidied(1, 0, None)),
        ]],
    },
    Schedule {
        name: "above: another seat holds the object, and then the own seat has committed it again",
        domain: DOMAIN,
        turns: &[&[
            (0, Enter, Entered(0)),
            (0, Lock(0), Held),
            (0, Commit, Done(1)),
            (1, Enter, Entered(1)),
            (1, Lock(0), Held),
            (0, BackStart(0), NoBack(Above { seat: 1 })),
            (1, Abort, Aborted),
            (0, Enter, Entered(1)),
            (0, Lock(0), Held),
            (0, Commit, Done(2)),
            (0, BackStart(0), NoBack(Above { seat: 0 })),
        ]],
    },
    Schedule {
        name: "the words of a write-back that is given up are never read, and are written over",
        domain: DOMAIN,
        turns: &[&[
            (0, Enter, Entered(0)),
            (0, Lock(0), Held),
            (0, Write(0, [1; 6]), Written),
            (0, Commit, Done(1)),
            (0, BackStart(0), Started),
            (0, BackWord, Stored),
            (0, BackWord, Stored),
            (0, BackWord, Stored),
            (0, Leave, Left),
            (1, Enter, Entered(1)),
            (1, Read(0), Words([1; 6])),
            (1, Lock(0), Held),
            (1, Write(0, [2; 6]), Written),
            (1, Commit, Done(2)),
            (1, Tidy, Tidied(1, 0, None)),
            (1, Enter, Entered(3)),
            (1, Read(0), Words([2; 6])),
            (1, Leave, Left),
            (0, Tidy, Tidied(1, 0, None)),
        ]],
    },
    Schedule {
        name: "a chain that was cut is read in the master, and a round makes no rest",
        domain: DOMAIN,
        turns: &[&[
            (0, Enter, Entered(0)),
            (0, Lock(0), Held),
            (0, Write(0, [1; 6]), Written),
            (0, Commit, Done(1)),
            (0, BackStart(0), Started),
            (0, BackWord, Stored),
            (0, BackWord, Stored),
            (0, BackWord, Stored),
            (0, BackWord, Stored),
            (0, BackWord, Stored),
            (0, BackWord, Stored),
            (0, BackFinish, BackEnded(Cut)),
            (1, Enter, Entered(1)),
            (1, WalkStart(0), Started),
            (1, WalkStep, Walked(Some(Found::Master))),
            (1, ReadFound, Words([1; 6])),
            (1, Leave, Left),
            (0, Round(false), Tidied(0, 1, Some(Fresh { time: 2 }))),
            (0, Tidy, Tidied(1, 0, None)),
            (
                0,
                Table,
                Counts(LogTable {
                    live: 0,
                    freed: 1,
                    back: 1,
                    commits: 1,
                    aborts: 0,
                    rests: 1,
                }),
            ),
        ]],
    },
    Schedule {
        name: "a round without write-backs leaves a version that nobody wrote again, at its own time",
        domain: DOMAIN,
        turns: &[&[
            (0, Enter, Entered(0)),
            (0, Lock(0), Held),
            (0, Commit, Done(1)),
            (0, Round(false), Tidied(0, 1, Some(Fresh { time: 1 }))),
            (0, Tidy, Tidied(1, 0, None)),
        ]],
    },
    Schedule {
        name: "a lock whose chain is cut tries its exchange again at the master",
        domain: DOMAIN,
        turns: &[&[
            (1, Enter, Entered(0)),
            (1, Lock(0), Held),
            (1, Write(0, [1; 6]), Written),
            (1, Commit, Done(1)),
            (0, Enter, Entered(1)),
            (0, LockStart(0), LockStarted),
            (1, Tidy, Tidied(0, 1, Some(Mark { seat: 0, low: 1 }))),
            (0, LockEnd, Held),
            (0, Read(0), Words([1; 6])),
            (0, Write(0, [2; 6]), Written),
            (0, Commit, Done(3)),
            (1, Tidy, Tidied(1, 0, None)),
            (1, Enter, Entered(3)),
            (1, Read(0), Words([2; 6])),
        ]],
    },
    Schedule {
        name: "a lock whose chain is cut finds another seat holding the object by then",
        domain: DOMAIN,
        turns: &[&[
            (1, Enter, Entered(0)),
            (1, Lock(0), Held),
            (1, Write(0, [1; 6]), Written),
            (1, Commit, Done(1)),
            (0, Enter, Entered(1)),
            (0, LockStart(0), LockStarted),
            (1, Tidy, Tidied(0, 1, Some(Mark { seat: 0, low: 1 }))),
            (1, Enter, Entered(2)),
            (1, Lock(0), Held),
            (0, LockEnd, Busy(1)),
            (0, Read(0), Words([1; 6])),
            (1, Abort, Aborted),
            (0, Lock(0), Held),
        ]],
    },
];

#[test]
fn write_backs_by_their_parts(rt: HostRuntime) -> Result<(), Fail> {
    play_schedules(&rt, rt.alloc(), &SCHEDULES)
}
