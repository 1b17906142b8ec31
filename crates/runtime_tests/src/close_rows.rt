// A domain is closed after a schedule: its last words are those that the moves left.
use crate::comparing::assert_same;
use crate::moves::Answer::{Done, Entered, Held, Left, Tidied, Written};
use crate::moves::Move::{Commit, Enter, Leave, Lock, Tidy, Write};
use crate::{LastWords, SMALL, Schedule, Turn, closed_after};
use mv_layout::Config;
use std::alloc::Global;
use std::process::Abort;
use std::test::Fail;

// Seat 0 commits object 0 at time 1, and seat 1 both objects at time 2.
const COMMITS: [Turn; 8] = [
    (0, Enter, Entered(0)),
    (0, Lock(0), Held),
    (0, Commit, Done(1)),
    (1, Enter, Entered(1)),
    (1, Lock(1), Held),
    (1, Lock(0), Held),
    (1, Write(0, [9; 6]), Written),
    (1, Commit, Done(2)),
];

// A schedule, and the words that it leaves: CLOCK, MARK of both seats, and HEAD and the first master word
// of both objects.
#[derive(Clone, Copy)]
struct Closing<'a> {
    schedule: Schedule<'a>,
    clock: u64,
    marks: [u64; 2],
    heads: [u64; 2],
    masters: [u64; 2],
}

const DOMAIN: Config = Config {
    seats: 2,
    objects: 2,
    ..SMALL
};

// A clock word is a time times 2^19, a seat times 2^13 and a slot, 8191 where it names no commit; a link word is a position
// and the next seat times 2^57; and a mark is the next time.
static CLOSINGS: [Closing; 4] = [
    Closing {
        schedule: Schedule {
            name: "nobody makes an entry",
            domain: Config { base: 7, ..DOMAIN },
            turns: &[&[(0, Enter, Entered(7)), (0, Leave, Left)]],
        },
        clock: (7 << 19) + 8191,
        marks: [0, 0],
        heads: [0, 0],
        masters: [0, 0],
    },
    Closing {
        schedule: Schedule {
            name: "commits",
            domain: DOMAIN,
            turns: &[&COMMITS],
        },
        clock: (2 << 19) + (1 << 13),
        marks: [0, 0],
        heads: [(2 << 57) + 1, 2 << 57],
        masters: [0, 0],
    },
    Closing {
        schedule: Schedule {
            name: "commits, and a lock in a section of time 2",
            domain: DOMAIN,
            turns: &[&COMMITS, &[(0, Enter, Entered(2)), (0, Lock(1), Held)]],
        },
        clock: (2 << 19) + (1 << 13),
        marks: [3, 0],
        heads: [(2 << 57) + 1, (1 << 57) + 1],
        masters: [0, 0],
    },
    Closing {
        schedule: Schedule {
            name: "a write-back by a tidy, which makes a rest at time 2",
            domain: DOMAIN,
            turns: &[&[
                (1, Enter, Entered(0)),
                (1, Lock(1), Held),
                (1, Write(1, [5; 6]), Written),
                (1, Commit, Done(1)),
                (1, Tidy, Tidied(1, 0, None)),
            ]],
        },
        clock: (2 << 19) + (1 << 13) + 8191,
        marks: [0, 0],
        heads: [0, 0],
        masters: [0, 5],
    },
];

// The last words of the schedule of a closing.
fn assert_closed(rt: &impl Abort, closing: &Closing<'_>, words: &LastWords) {
    let name = closing.schedule.name;
    assert_same(rt, &words.clock, &closing.clock, name);
    assert_same(rt, &words.marks.as_slice(), &closing.marks.as_slice(), name);
    assert_same(rt, &words.heads.as_slice(), &closing.heads.as_slice(), name);
    assert_same(
        rt,
        &words.masters.as_slice(),
        &closing.masters.as_slice(),
        name,
    );
}

// Closes a new domain after a schedule, whose turns are to be answered as wanted.
fn close_after(rt: &impl Abort, alloc: Global, closing: &Closing<'_>) -> Result<(), Fail> {
    let closed = closed_after(alloc, &closing.schedule)?;
    assert_same(rt, &closed.is_some(), &true, closing.schedule.name);
    if let Some(words) = closed {
        assert_closed(rt, closing, &words);
    }
    Ok(())
}

// Closes a new domain after each of these schedules.
fn close_after_each(rt: &impl Abort, alloc: Global, closings: &[Closing<'_>]) -> Result<(), Fail> {
    for closing in closings {
        close_after(rt, alloc, closing)?;
    }
    Ok(())
}

#[test]
fn the_last_words_are_what_the_moves_left(rt: HostRuntime) -> Result<(), Fail> {
    close_after_each(&rt, rt.alloc(), &CLOSINGS)
}
