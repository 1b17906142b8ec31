// A seat stops after the parts of a write-back. Then another one enters, reads, locks, writes and commits the object,
// and tidies its log, which names the seat that holds it.
use crate::moves::Answer::{
    BackEnded, Done, Entered, Held, Left, Started, Stored, Tidied, Words, Written,
};
use crate::moves::Move::{
    BackFinish, BackStart, BackWord, Commit, Enter, Leave, Lock, Read, Tidy, Write,
};
use crate::{SMALL, Schedule, Turn, play_schedules};
use log_reclaim::BackEnd::{Above, Cut};
use mv_history::Holder::Mark;
use mv_layout::Config;
use std::test::Fail;

const TWO_SEATS: Config = Config {
    seats: 2,
    objects: 2,
    ..SMALL
};

// Seat 0 has committed object 0, and begins to write it back.
const BEGUN: [Turn; 5] = [
    (0, Enter, Entered(0)),
    (0, Lock(0), Held),
    (0, Write(0, [1; 6]), Written),
    (0, Commit, Done(1)),
    (0, BackStart(0), Started),
];

// The same over a version of seat 1.
const BEGUN_OVER_ANOTHERS: [Turn; 9] = [
    (1, Enter, Entered(0)),
    (1, Lock(0), Held),
    (1, Write(0, [9; 6]), Written),
    (1, Commit, Done(1)),
    (0, Enter, Entered(1)),
    (0, Lock(0), Held),
    (0, Write(0, [1; 6]), Written),
    (0, Commit, Done(2)),
    (0, BackStart(0), Started),
];

// It stores a word in the master.
const WORD: Turn = (0, BackWord, Stored);

// It has stored all six words.
const STORED: [Turn; 6] = [WORD; 6];

// And seat 1 holds the object by then.
const OVERTAKEN: [Turn; 3] = [
    (1, Enter, Entered(1)),
    (1, Lock(0), Held),
    (1, Write(0, [2; 6]), Written),
];

// The object has the words that were committed, and is free.
const FREE: [Turn; 8] = [
    (1, Enter, Entered(1)),
    (1, Read(0), Words([1; 6])),
    (1, Lock(0), Held),
    (1, Write(0, [2; 6]), Written),
    (1, Commit, Done(2)),
    (1, Enter, Entered(2)),
    (1, Read(0), Words([2; 6])),
    (1, Leave, Left),
];

// So it has in the section that holds it already.
const TAKEN: [Turn; 5] = [
    (1, Read(0), Words([1; 6])),
    (1, Commit, Done(2)),
    (1, Enter, Entered(2)),
    (1, Read(0), Words([2; 6])),
    (1, Leave, Left),
];

// So it has at time 2.
const FREE_LATER: [Turn; 8] = [
    (1, Enter, Entered(2)),
    (1, Read(0), Words([1; 6])),
    (1, Lock(0), Held),
    (1, Write(0, [2; 6]), Written),
    (1, Commit, Done(3)),
    (1, Enter, Entered(3)),
    (1, Read(0), Words([2; 6])),
    (1, Leave, Left),
];

// The section of the write-back may not read the new version.
const MARKED: Turn = (1, Tidy, Tidied(0, 1, Some(Mark { seat: 0, low: 1 })));

// Nobody needs what the other seat committed.
const FREED: Turn = (1, Tidy, Tidied(1, 0, None));

const BOTH_FREED: Turn = (1, Tidy, Tidied(2, 0, None));

static SCHEDULES: [Schedule; 10] = [
    Schedule {
        name: "after the store of no word",
        domain: TWO_SEATS,
        turns: &[&BEGUN, &FREE, &[MARKED]],
    },
    Schedule {
        name: "after the store of one word",
        domain: TWO_SEATS,
        turns: &[&BEGUN, &[WORD; 1], &FREE, &[MARKED]],
    },
    Schedule {
        name: "after the store of two words",
        domain: TWO_SEATS,
        turns: &[&BEGUN, &[WORD; 2], &FREE, &[MARKED]],
    },
    Schedule {
        name: "after the store of three words",
        domain: TWO_SEATS,
        turns: &[&BEGUN, &[WORD; 3], &FREE, &[MARKED]],
    },
    Schedule {
        name: "after the store of four words",
        domain: TWO_SEATS,
        turns: &[&BEGUN, &[WORD; 4], &FREE, &[MARKED]],
    },
    Schedule {
        name: "after the store of five words",
        domain: TWO_SEATS,
        turns: &[&BEGUN, &[WORD; 5], &FREE, &[MARKED]],
    },
    Schedule {
        name: "after the store of six words",
        domain: TWO_SEATS,
        turns: &[&BEGUN, &STORED, &FREE, &[MARKED]],
    },
    Schedule {
        name: "after its end, where the exchange of HEAD is won",
        domain: TWO_SEATS,
        turns: &[
            &BEGUN,
            &STORED,
            &[(0, BackFinish, BackEnded(Cut))],
            &FREE,
            &[FREED],
        ],
    },
    Schedule {
        name: "after its end, where the exchange of HEAD is lost",
        domain: TWO_SEATS,
        turns: &[
            &BEGUN,
            &STORED,
            &OVERTAKEN,
            &[(0, BackFinish, BackEnded(Above { seat: 1 }))],
            &TAKEN,
            &[FREED],
        ],
    },
    Schedule {
        name: "after its end, where the exchange is won over another seat's version",
        domain: TWO_SEATS,
        turns: &[
            &BEGUN_OVER_ANOTHERS,
            &STORED,
            &[(0, BackFinish, BackEnded(Cut))],
            &FREE_LATER,
            &[BOTH_FREED],
        ],
    },
];

#[test]
fn stops_within_and_after_a_write_back(rt: HostRuntime) -> Result<(), Fail> {
    play_schedules(&rt, rt.alloc(), &SCHEDULES)
}
