// The passes of a domain are joined after a schedule: CLOCK then has the word of the last entry.
use crate::moves::Answer::{Clock, Done, Entered, Held, Helped, Left, Rested, Skipped};
use crate::moves::Move::{Commit, Enter, Help, Join, Leave, Lock, Now, Rest};
use crate::{SMALL, Schedule, Turn, play_schedules};
use mv_layout::Config;
use std::test::Fail;

const THREE_SEATS: Config = Config { seats: 3, ..SMALL };

// Nobody made an entry.
const NOTHING: [Turn; 2] = [(0, Enter, Entered(7)), (0, Leave, Left)];

// The last entry is the commit of seat 2, in the first slot of its log.
const COMMITS: [Turn; 7] = [
    (0, Enter, Entered(0)),
    (0, Lock(0), Held),
    (0, Commit, Done(1)),
    (2, Enter, Entered(1)),
    (2, Lock(0), Held),
    (2, Commit, Done(2)),
    (1, Enter, Entered(2)),
];

static SCHEDULES: [Schedule; 5] = [
    Schedule {
        name: "one seat, and no entry",
        domain: Config { base: 7, ..SMALL },
        turns: &[&NOTHING, &[(0, Join, Clock(7, 0, None))]],
    },
    Schedule {
        name: "three seats, and no entry",
        domain: Config {
            base: 7,
            ..THREE_SEATS
        },
        turns: &[&NOTHING, &[(2, Join, Clock(7, 0, None))]],
    },
    Schedule {
        name: "commits",
        domain: THREE_SEATS,
        turns: &[
            &COMMITS,
            &[(1, Leave, Left)],
            &[(2, Join, Clock(2, 2, Some(0)))],
        ],
    },
    Schedule {
        name: "a rest",
        domain: Config { seats: 2, ..SMALL },
        turns: &[
            // The last entry is the rest of seat 1.
            &[
                (0, Enter, Entered(0)),
                (0, Lock(0), Held),
                (0, Commit, Done(1)),
                (1, Now, Clock(1, 0, Some(0))),
                (1, Help, Helped),
                (1, Rest, Rested(2)),
            ],
            &[(1, Join, Clock(2, 1, None))],
        ],
    },
    Schedule {
        name: "a seat in a section",
        domain: THREE_SEATS,
        turns: &[&COMMITS, &[(2, Join, Skipped)]],
    },
];

#[test]
fn joined_passes_find_the_last_entry(rt: HostRuntime) -> Result<(), Fail> {
    play_schedules(&rt, rt.alloc(), &SCHEDULES)
}
