// The order and the text of runs.
use crate::comparing::{assert_same, must};
use mv_history::LogTable;
use run_report::{Line, order, render, summary};
use section_work::Place;
use set_model::{Catalogue, Reply};
use std::alloc::{AllocError, Global};
use std::process::Abort;
use std::test::Fail;

const NO_TABLE: LogTable = LogTable {
    live: 0,
    freed: 0,
    back: 0,
    commits: 0,
    aborts: 0,
    rests: 0,
};

// A line: its seat, its number, its place and its reply.
type Row = (u32, u32, Place, Reply);

fn lines_of(alloc: Global, rows: &[Row]) -> Result<Vec<Line>, AllocError> {
    let mut lines = Vec::new(alloc);
    for (seat, number, place, reply) in rows {
        lines.push(Line {
            seat: *seat,
            number: *number,
            place: *place,
            reply: *reply,
        })?;
    }
    Ok(lines)
}

/// Looks that these are the lines.
pub fn expect_lines(rt: &impl Abort, found: &[Line], want: &[Line]) {
    assert_same(rt, &found, &want, "lines");
}

// Looks that this is the text.
fn expect_text(rt: &impl Abort, found: &[u8], want: &[u8]) {
    assert_same(rt, &found, &want, "a text");
}

// A set, a key, and its value.
type Key = (u32, u32, u64);

fn end_of(rt: &impl Abort, alloc: Global, keys: &[Key]) -> Result<Catalogue, AllocError> {
    let mut end = Catalogue::new(alloc)?;
    for (name, key, value) in keys {
        must(rt, *name < 30, "a set");
        end.insert(*name, *key, *value)?;
    }
    Ok(end)
}

// Looks that a run of these lines, keys at its end and tables has this text.
fn prints(
    rt: &impl Abort,
    alloc: Global,
    rows: &[Row],
    keys: &[Key],
    tables: &[LogTable],
    text: &[u8],
) -> Result<(), AllocError> {
    let lines = lines_of(alloc, rows)?;
    let end = end_of(rt, alloc, keys)?;
    let found = render(alloc, &lines, &end, tables)?;
    expect_text(rt, &found, text);
    Ok(())
}

const TABLE_OF_ONE: LogTable = LogTable {
    live: 2,
    commits: 1,
    ..NO_TABLE
};

static TWO: [Row; 2] = [
    (0, 1, Place::Commit(1), Reply::Yes),
    (0, 2, Place::Read(1), Reply::Yes),
];

static FIVE: [Key; 1] = [(0, 5, 0)];

const WITHOUT_LOG: &[u8] = b"0.1 c1 yes\n0.2 r1 yes\nl0 5\n";

const WITH_LOG: &[u8] =
    b"0.1 c1 yes\n0.2 r1 yes\nl0 5\nlog 0 live 2 freed 0 back 0 commits 1 aborts 0 rests 0\n";

#[test]
fn add_then_has(rt: HostRuntime) -> Result<(), Fail> {
    prints(&rt, rt.alloc(), &TWO, &FIVE, &[], WITHOUT_LOG)?;
    prints(&rt, rt.alloc(), &TWO, &FIVE, &[TABLE_OF_ONE], WITH_LOG)?;
    Ok(())
}

const EMPTY: &[u8] = b"log 0 live 0 freed 0 back 0 commits 0 aborts 0 rests 0\n";

#[test]
fn empty_file(rt: HostRuntime) -> Result<(), Fail> {
    Ok(prints(&rt, rt.alloc(), &[], &[], &[NO_TABLE], EMPTY)?)
}

static UNCHANGED: [Row; 3] = [
    (63, 65536, Place::Read(35184372088831), Reply::Worn),
    (0, 1, Place::Read(0), Reply::Full),
    (0, 2, Place::Read(0), Reply::No),
];

static OF_EACH_KIND: [Key; 5] = [
    (29, 4294967295, 18446744073709551615),
    (20, 7, 0),
    (19, 1, 1),
    (9, 3, 0),
    (9, 2, 10),
];

const IN_ORDER: &[u8] =
    b"63.65536 r35184372088831 worn\n0.1 r0 full\n0.2 r0 no\nl9 2=10 3\nh9 1=1\nt0 7\nt9 4294967295=18446744073709551615\n";

#[test]
fn sets_stand_in_the_order_of_their_names(rt: HostRuntime) -> Result<(), Fail> {
    Ok(prints(&rt, rt.alloc(), &UNCHANGED, &OF_EACH_KIND, &[], IN_ORDER)?)
}

static ORDERED: [Row; 6] = [
    (1, 1, Place::Read(0), Reply::No),
    (1, 2, Place::Commit(1), Reply::Yes),
    (0, 1, Place::Read(1), Reply::Yes),
    (0, 2, Place::Read(1), Reply::No),
    (2, 1, Place::Read(1), Reply::No),
    (0, 3, Place::Commit(2), Reply::Yes),
];

// The same lines.
static SHUFFLED: [Row; 6] = [
    (0, 3, Place::Commit(2), Reply::Yes),
    (0, 1, Place::Read(1), Reply::Yes),
    (0, 2, Place::Read(1), Reply::No),
    (2, 1, Place::Read(1), Reply::No),
    (1, 2, Place::Commit(1), Reply::Yes),
    (1, 1, Place::Read(0), Reply::No),
];

#[test]
fn lines_stand_by_time_and_commits_before_reads(rt: HostRuntime) -> Result<(), Fail> {
    let mut lines = lines_of(rt.alloc(), &SHUFFLED)?;
    order(&mut lines);
    let ordered = lines_of(rt.alloc(), &ORDERED)?;
    expect_lines(&rt, &lines, &ordered);
    Ok(())
}

static REPLIES: [(Reply, &str); 13] = [
    (Reply::Yes, "yes"),
    (Reply::No, "no"),
    (Reply::Full, "full"),
    (Reply::Worn, "worn"),
    (
        Reply::Both {
            first: false,
            second: false,
        },
        "no no",
    ),
    (
        Reply::Both {
            first: false,
            second: true,
        },
        "no yes",
    ),
    (
        Reply::Both {
            first: true,
            second: false,
        },
        "yes no",
    ),
    (
        Reply::Both {
            first: true,
            second: true,
        },
        "yes yes",
    ),
    (Reply::Count { count: 2 }, "2"),
    (Reply::Key { key: 4294967295 }, "4294967295"),
    (Reply::NoKey, "none"),
    (Reply::Value { value: 0 }, "0"),
    (
        Reply::Value {
            value: 18446744073709551615,
        },
        "18446744073709551615",
    ),
];

#[test]
fn every_reply_is_printed(rt: HostRuntime) -> Result<(), Fail> {
    for (reply, word) in &REPLIES {
        let want = format!(in rt.alloc(); "0.1 r2 {word}\n")?;
        let row = (0, 1, Place::Read(2), *reply);
        prints(&rt, rt.alloc(), &[row], &[], &[], want.as_bytes())?;
    }
    Ok(())
}

const TABLE_OF_THREE: LogTable = LogTable {
    live: 7,
    commits: 3,
    ..NO_TABLE
};

static VALUES: [Row; 7] = [
    (0, 1, Place::Commit(1), Reply::Yes),
    (0, 2, Place::Read(1), Reply::No),
    (0, 3, Place::Read(1), Reply::Value { value: 7 }),
    (0, 4, Place::Commit(2), Reply::Yes),
    (0, 5, Place::Commit(3), Reply::Yes),
    (0, 6, Place::Read(3), Reply::Value { value: 7 }),
    (0, 7, Place::Read(3), Reply::NoKey),
];

static WITH_VALUE: [Key; 2] = [(0, 6, 0), (20, 5, 7)];

const VALUES_TEXT: &[u8] =
    b"0.1 c1 yes\n0.2 r1 no\n0.3 r1 7\n0.4 c2 yes\n0.5 c3 yes\n0.6 r3 7\n0.7 r3 none\n\
    l0 6\nt0 5=7\nlog 0 live 7 freed 0 back 0 commits 3 aborts 0 rests 0\n";

#[test]
fn values_follow_their_keys(rt: HostRuntime) -> Result<(), Fail> {
    prints(
        &rt,
        rt.alloc(),
        &VALUES,
        &WITH_VALUE,
        &[TABLE_OF_THREE],
        VALUES_TEXT,
    )?;
    Ok(())
}

static COUNTED: [Row; 12] = [
    (0, 1, Place::Commit(1), Reply::Yes),
    (1, 1, Place::Commit(2), Reply::Yes),
    (0, 2, Place::Read(2), Reply::Yes),
    (0, 3, Place::Read(2), Reply::No),
    (1, 2, Place::Read(2), Reply::No),
    (2, 1, Place::Read(2), Reply::No),
    (3, 1, Place::Read(2), Reply::No),
    (2, 2, Place::Read(35184372088831), Reply::Worn),
    (3, 2, Place::Read(2), Reply::Full),
    (
        3,
        3,
        Place::Read(2),
        Reply::Both {
            first: true,
            second: false,
        },
    ),
    (3, 4, Place::Read(2), Reply::Count { count: 2 }),
    (3, 5, Place::Read(2), Reply::NoKey),
];

static COUNTED_KEYS: [Key; 5] = [
    (29, 3, 0),
    (9, 7, 0),
    (9, 2, 0),
    (10, 5, 0),
    (9, 4294967295, 0),
];

const COUNTED_TEXT: &[u8] =
    b"work 18446744073709551615\nyes 3\nno 4\nworn 1\ncommits 2\nl9 3\nh0 1\nt9 1\n";

// Looks that the work of this number, of these lines and keys at its end, has this summary.
fn sums(
    rt: &impl Abort,
    alloc: Global,
    number: u64,
    rows: &[Row],
    keys: &[Key],
    text: &[u8],
) -> Result<(), AllocError> {
    let lines = lines_of(alloc, rows)?;
    let end = end_of(rt, alloc, keys)?;
    let found = summary(alloc, number, &lines, &end)?;
    expect_text(rt, &found, text);
    Ok(())
}

#[test]
fn replies_and_commits_are_counted(rt: HostRuntime) -> Result<(), Fail> {
    sums(
        &rt,
        rt.alloc(),
        18446744073709551615,
        &COUNTED,
        &COUNTED_KEYS,
        COUNTED_TEXT,
    )?;
    let none = b"work 0\nyes 0\nno 0\nworn 0\ncommits 0\n";
    sums(&rt, rt.alloc(), 0, &[], &[], none)?;
    Ok(())
}
