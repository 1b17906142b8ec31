// Marks and watermarks, and an `enter` by its parts.
use crate::moves::Answer::{
    Clock, Done, Entered, Held, Helped, Left, Marked, Named, Skipped, Stored, Time, Words, Written,
};
use crate::moves::Move::{
    Commit, Enter, Help, Known, Leave, LoadLow, LoadTime, Lock, Name, Now, Read, Scan, StoreMark,
    Write,
};
use crate::{SMALL, Schedule, play_schedules};
use mv_layout::Config;
use reader_marks::Watermark;
use std::test::Fail;

const DOMAIN: Config = Config { seats: 3, ..SMALL };

const AT_TWO: Watermark = Watermark {
    time: 2,
    low: 2,
    marked: false,
    seat: 0,
};

const LOW_BELOW_GRACE: Watermark = Watermark {
    time: 2,
    low: 0,
    marked: true,
    seat: 1,
};

static SCHEDULES: [Schedule; 3] = [
    Schedule {
        name: "a mark below GRACE holds the low time of a scan down, but not GRACE",
        domain: DOMAIN,
        turns: &[
            // A low time without its mark holds no watermark down.
            &[
                (1, LoadLow, Time(0)),
                (0, Enter, Entered(0)),
                (0, Lock(0), Held),
                (0, Commit, Done(1)),
                (0, Enter, Entered(1)),
                (0, Lock(0), Held),
                (0, Commit, Done(2)),
                (2, Scan, Marked(AT_TWO)),
            ],
            // Its mark holds the low time of a scan down, but not GRACE.
            &[
                (1, StoreMark(0), Stored),
                (0, Scan, Marked(LOW_BELOW_GRACE)),
            ],
            // The section that begins then has a time that isn't below GRACE.
            &[(1, LoadTime, Time(2)), (2, Known, Marked(AT_TWO))],
        ],
    },
    Schedule {
        name: "an `enter` ends by helping the commit that was named when its time was loaded",
        domain: DOMAIN,
        turns: &[&[
            (0, Enter, Entered(0)),
            (0, Lock(0), Held),
            (0, Write(0, [1; 6]), Written),
            (0, Now, Clock(0, 0, None)),
            (1, LoadLow, Time(0)),
            (1, StoreMark(1), Skipped),
            (0, Name, Named(1)),
            (1, StoreMark(0), Stored),
            (1, LoadTime, Time(1)),
            (1, Read(0), Skipped),
            (1, Help, Helped),
            (1, Read(0), Words([1; 6])),
            (1, Leave, Left),
        ]],
    },
    Schedule {
        name: "the lower of two marks holds the watermark down, and after it the other one",
        domain: DOMAIN,
        turns: &[&[
            (1, Enter, Entered(0)),
            (0, Enter, Entered(0)),
            (0, Lock(0), Held),
            (0, Commit, Done(1)),
            (2, Enter, Entered(1)),
            (0, Enter, Entered(1)),
            (0, Lock(0), Held),
            (0, Commit, Done(2)),
            (
                0,
                Scan,
                Marked(Watermark {
                    time: 0,
                    low: 0,
                    marked: true,
                    seat: 1,
                }),
            ),
            (1, Leave, Left),
            (
                0,
                Scan,
                Marked(Watermark {
                    time: 1,
                    low: 1,
                    marked: true,
                    seat: 2,
                }),
            ),
            (
                0,
                Known,
                Marked(Watermark {
                    time: 1,
                    low: 1,
                    marked: false,
                    seat: 0,
                }),
            ),
        ]],
    },
];

#[test]
fn marks_and_watermarks(rt: HostRuntime) -> Result<(), Fail> {
    play_schedules(&rt, rt.alloc(), &SCHEDULES)
}
