// Replays: the text of a given schedule, and what is no plan.
use crate::comparing::{assert_same, must};
use crate::limits::{USAGE, line_ends};
use crate::row::{PLAIN, REFUSED, Row, print_texts, run_refused, run_rows, run_text};
use host_io::OpenGate;
use mvrlu_run::LeftDomain;
use std::alloc::{AllocError, Global};
use std::process::Abort;
use std::sync::Wait;
use std::test::Fail;
use std::thread::Threads;

// A replay that has its text.
const REPLAY: Row<'static> = Row {
    name: "entering and leaving, and a turn with no call left",
    words: &["replay", "a"],
    script: b"seats 1\nobjects 1\nslots 64\nbase 0\nseat 0 enter\nseat 0 leave\nstep 0 0 0 0 0\n",
    out: b"1 0 load 0 8191\n2 0 store 2 1\n3 0 load 0 8191\n0 enter 0\n4 0 store 2 0\n0 leave\n0 idle\nend 0\n",
    ..PLAIN
};

// Schedules that are replayed.
static SCHEDULES: [Row<'static>; 4] = [
    REPLAY,
    Row {
        name: "a call that is skipped, a section, and a read of the master",
        script: b"seats 2\nobjects 1\nslots 64\nbase 3\nseat 1 leave\nseat 1 enter\nseat 1 read 0\nseat 1 leave\nstep 1 1 1 1 1 1 1 1 1 1 1\n",
        out: b"1 skip leave\n1 1 load 0 1581055\n2 1 store 3 4\n3 1 load 0 1581055\n1 enter 3\n4 1 load 4 0\n5 1 load 5 0\n\
            6 1 load 6 0\n7 1 load 7 0\n8 1 load 8 0\n9 1 load 9 0\n10 1 load 10 0\n1 read 0 0 0 0 0 0\n11 1 store 3 0\n1 leave\nend 3\n",
        ..REPLAY
    },
    Row {
        name: "comments, blanks, CR, and a last line without end",
        script: b"# a plan\r\n\tseats  01 # one\r\n\r\nobjects 1\nslots 64\nbase 0\nseat 0 enter\nstep 0 0\nseat 0 leave\nstep 0 0 0",
        ..REPLAY
    },
    Row {
        name: "no turn",
        script: b"seats 64\nobjects 1024\nslots 256\nbase 35184372088831",
        out: b"end 35184372088831\n",
        ..REPLAY
    },
];

#[test]
fn schedules_have_their_text(rt: HostRuntime) -> Result<(), Fail> {
    run_rows(&rt, rt.alloc(), &SCHEDULES)
}

// A plan that is refused, and the line on standard error.
type Refused = (&'static [u8], &'static [u8]);

static BROKEN_HEADS: [Refused; 17] = [
    (b"seats 65", b"script 0 line 1: bad number\n"),
    (b"seats 0\n", b"script 0 line 1: bad number\n"),
    (b"seats -1\n", b"script 0 line 1: bad number\n"),
    (
        b"seats 000000000000000000001\n",
        b"script 0 line 1: bad number\n",
    ),
    (b"seats\n", b"script 0 line 1: wrong number of words\n"),
    (b"seats x 2\n", b"script 0 line 1: wrong number of words\n"),
    (b"", b"script 0 line 1: unknown command\n"),
    (b"Seats 1\n", b"script 0 line 1: unknown command\n"),
    (b"objects 1\n", b"script 0 line 1: unknown command\n"),
    (b"seats 1\nstep 0\n", b"script 0 line 2: unknown command\n"),
    (b"seats 1\nobjects 0\n", b"script 0 line 2: bad number\n"),
    (b"seats 1\nobjects 1025\n", b"script 0 line 2: bad number\n"),
    (
        b"seats 1\nobjects 1\nslots 63\n",
        b"script 0 line 3: bad number\n",
    ),
    (
        b"seats 1\nobjects 1\nslots 257\n",
        b"script 0 line 3: bad number\n",
    ),
    (
        b"seats 1\nobjects 1\nslots 64\nbase 35184372088832\n",
        b"script 0 line 4: bad number\n",
    ),
    (
        b"seats 1\nobjects 1\nslots 64\n",
        b"script 0 line 3: unknown command\n",
    ),
    (
        b"seats 1\n\n# and no more",
        b"script 0 line 3: unknown command\n",
    ),
];

// The first four lines of the plans below.
const HEADS: &[u8] = b"seats 2\nobjects 1\nslots 64\nbase 0\n";

static BROKEN_BODIES: [Refused; 19] = [
    (b"seats 2", b"script 0 line 5: unknown command\n"),
    (b"Step 0\n", b"script 0 line 5: unknown command\n"),
    (b"step\n", b"script 0 line 5: wrong number of words\n"),
    (b"step 2\n", b"script 0 line 5: bad number\n"),
    (b"step 0 x\n", b"script 0 line 5: bad number\n"),
    (b"seat\n", b"script 0 line 5: wrong number of words\n"),
    (b"seat x\n", b"script 0 line 5: wrong number of words\n"),
    (b"seat x fly\n", b"script 0 line 5: unknown command\n"),
    (b"seat 0 Enter\n", b"script 0 line 5: unknown command\n"),
    (b"seat 2 enter\n", b"script 0 line 5: bad number\n"),
    (
        b"seat 2 enter 1\n",
        b"script 0 line 5: wrong number of words\n",
    ),
    (
        b"seat 2 read\n",
        b"script 0 line 5: wrong number of words\n",
    ),
    (b"seat 0 read 1\n", b"script 0 line 5: bad number\n"),
    (b"seat 0 lock x\n", b"script 0 line 5: bad number\n"),
    (
        b"seat 0 lock 0 0\n",
        b"script 0 line 5: wrong number of words\n",
    ),
    (
        b"seat 0 write 0 1 2 3 4 5\n",
        b"script 0 line 5: wrong number of words\n",
    ),
    (
        b"seat 0 write 1 1 2 3 4 5 6\n",
        b"script 0 line 5: bad number\n",
    ),
    (
        b"seat 0 write 0 1 2 3 4 5 18446744073709551616\n",
        b"script 0 line 5: bad number\n",
    ),
    (
        b"seat 0 enter\n\nstep 9\nfly\n",
        b"script 0 line 7: bad number\n",
    ),
];

// Replays the text behind the front, and compares the refusal.
fn refuses<R: Abort + Threads + Wait + Sync>(
    rt: &R,
    alloc: Global,
    front: &[u8],
    refused: &Refused,
) -> Result<(), Fail> {
    let mut plan = front.to_vec(alloc)?;
    plan.extend_from_slice(refused.0)?;
    run_refused(
        rt,
        alloc,
        "a broken plan",
        &["replay", "a"],
        &plan,
        3,
        refused.1,
    )
}

#[test]
fn what_is_no_plan_is_refused(rt: HostRuntime) -> Result<(), Fail> {
    for refused in &BROKEN_HEADS {
        refuses(&rt, rt.alloc(), b"", refused)?;
    }
    for refused in &BROKEN_BODIES {
        refuses(&rt, rt.alloc(), HEADS, refused)?;
    }
    Ok(())
}

// Words of a replay that are refused, with the status and the line.
type Words = (&'static [&'static str], u8, &'static [u8]);

static WORDS: [Words; 6] = [
    (&["replay"], 2, USAGE),
    (&["replay", "-a"], 2, USAGE),
    (&["replay", ""], 2, USAGE),
    (&["replay", "a", "a"], 2, USAGE),
    (&["replay", "--base", "1", "a"], 2, USAGE),
    (&["replay", "b"], 5, b"read fault: script 0\n"),
];

#[test]
fn bad_words_of_a_replay_are_refused(rt: HostRuntime) -> Result<(), Fail> {
    for (words, status, err) in &WORDS {
        run_refused(
            &rt,
            rt.alloc(),
            "a refused replay",
            words,
            PLAIN.script,
            *status,
            err,
        )?;
    }
    Ok(())
}

// Calls of the outside that fail.
static FAILING: [Row<'static>; 3] = [
    Row {
        name: "a read that fails",
        file_fails: &[2],
        status: 5,
        out: b"",
        err: b"read fault: script 0\n",
        ..REPLAY
    },
    Row {
        name: "the first write fails",
        out_fails: &[1],
        status: 6,
        out: b"",
        err: b"write fault\n",
        ..REPLAY
    },
    Row {
        name: "the second write fails",
        out_fails: &[2],
        most: 4,
        status: 6,
        out: b"1 0 ",
        err: b"write fault\n",
        ..REPLAY
    },
];

#[test]
fn calls_of_the_outside_fail_in_a_replay(rt: HostRuntime) -> Result<(), Fail> {
    run_rows(&rt, rt.alloc(), &FAILING)
}

// A plan of one seat with so many turns and no call, all on one line.
fn turns(alloc: Global, count: u32) -> Result<Vec<u8>, AllocError> {
    let mut plan = Vec::from_slice(alloc, b"seats 1\nobjects 1\nslots 64\nbase 0\nstep")?;
    for _ in 0..count {
        plan.extend_from_slice(b" 0")?;
    }
    plan.push(b'\n')?;
    Ok(plan)
}

// One step more than a plan may have.
const MORE_STEPS: Row<'static> = Row {
    name: "65,537 steps",
    words: &["replay", "a"],
    most: 1 << 16,
    status: 4,
    err: b"limit: script 0 line 5 commands\n",
    ..REFUSED
};

// Two steps more, and a bad number behind them.
static LATER_NUMBER: Row<'static> = Row {
    name: "65,538 steps, and a bad number behind them",
    err: b"limit: script 0 line 7 commands\n",
    ..MORE_STEPS
};

// A bad number on the line with that step.
static NUMBER: Row<'static> = Row {
    name: "a bad number on the line with the 65,537th step",
    status: 3,
    err: b"script 0 line 6: bad number\n",
    ..MORE_STEPS
};

// Runs the plan of so many turns with this text behind them.
fn run_turns<R: Abort + Threads + Wait + Sync>(
    rt: &R,
    alloc: Global,
    row: &Row<'_>,
    count: u32,
    behind: &[u8],
) -> Result<(), Fail> {
    let mut plan = turns(alloc, count)?;
    plan.extend_from_slice(behind)?;
    run_text(rt, alloc, row, &plan, &OpenGate)
}

#[test]
fn the_steps_of_a_plan_are_limited(rt: HostRuntime) -> Result<(), Fail> {
    let alloc = rt.alloc();
    run_turns(&rt, alloc, &MORE_STEPS, 65_537, b"")?;
    run_turns(&rt, alloc, &LATER_NUMBER, 65_536, b"\nstep 0 0\nstep 1\n")?;
    run_turns(&rt, alloc, &NUMBER, 65_536, b"step 0 1\n")
}

// One byte more than a plan may have.
static MORE_BYTES: Row<'static> = Row {
    name: "1,048,577 bytes",
    words: &["replay", "a"],
    most: 1 << 16,
    status: 4,
    err: b"limit: script 0 bytes\n",
    ..REFUSED
};

#[test]
fn the_bytes_of_a_plan_are_limited(rt: HostRuntime) -> Result<(), Fail> {
    let alloc = rt.alloc();
    run_text(
        &rt,
        alloc,
        &MORE_BYTES,
        &line_ends(alloc, 1_048_577)?,
        &OpenGate,
    )
}

#[test]
fn as_many_steps_as_may_be_are_replayed_on_no_domain(rt: HostRuntime) -> Result<(), Fail> {
    let alloc = rt.alloc();
    let plan = turns(alloc, 65_536)?;
    let printed = print_texts(&rt, alloc, &["replay", "a"], &[("a", &plan)], &OpenGate)?;
    let ended = (printed.status, printed.err.bytes());
    assert_same(&rt, &ended, &(0, b"".as_slice()), "the end");
    must(&rt, matches!(&printed.closed, LeftDomain::No), "no domain");
    expect_idle(&rt, printed.out.bytes());
    Ok(())
}

// Looks that as many turns as may be are idle.
fn expect_idle(rt: &impl Abort, text: &[u8]) {
    assert_same(rt, &text.len(), &(65_536 * 7 + 6), "bytes");
    let begins = text.starts_with(b"0 idle\n0 idle\n");
    must(
        rt,
        begins && text.ends_with(b"0 idle\nend 0\n"),
        "idle turns",
    );
}
