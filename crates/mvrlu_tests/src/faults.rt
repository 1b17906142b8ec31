// What fails outside, and what is wrong with a script.
use crate::comparing::must;
use crate::row::{PLAIN, REFUSED, Row, Text, expect_print, run_refused, run_row, run_rows};
use std::alloc::Global;
use std::process::Abort;
use std::sync::Wait;
use std::test::Fail;
use std::thread::Threads;

// A run of a file that isn't there.
const NO_TEXT: Row<'static> = Row {
    name: "no text of the name",
    words: &["run", "b"],
    status: 5,
    out: b"",
    err: b"read fault: script 0\n",
    ..PLAIN
};

// Calls of the outside that fail.
static FAILING: [Row<'static>; 6] = [
    NO_TEXT,
    Row {
        name: "no text of the second name",
        words: &["run", "a", "b"],
        err: b"read fault: script 1\n",
        ..NO_TEXT
    },
    Row {
        name: "a name with no text stands twice",
        words: &["run", "a", "b", "b"],
        err: b"read fault: script 1\n",
        ..NO_TEXT
    },
    Row {
        name: "the second opening of a text fails",
        words: &["run", "a", "a"],
        file_fails: &[4],
        ..NO_TEXT
    },
    Row {
        name: "the second write of four bytes fails",
        out_fails: &[2],
        most: 4,
        status: 6,
        out: b"0.1 ",
        err: b"write fault\n",
        ..PLAIN
    },
    Row {
        name: "standard error fails",
        script: b"add l0 4294967296\n",
        err_fails: &[1],
        ..REFUSED
    },
];

#[test]
fn each_failing_call_has_its_status(rt: HostRuntime) -> Result<(), Fail> {
    run_rows(&rt, rt.alloc(), &FAILING)
}

const FIRST_FAULT: &[u8] = b"script 1 line 2: bad key\n";

static FAULTY: [Text<'static>; 3] = [
    ("good", b"add h0 5\n"),
    ("key", b"has h0 5\nadd h0 x\n"),
    ("word", b"sub h0 5\n"),
];

// Of a good script, two faulty ones and a name with no text, the first faulty one is told.
#[test]
fn the_first_faulty_file_is_told(rt: HostRuntime) -> Result<(), Fail> {
    for run in ["run", "block", "grow"] {
        let words = [run, "good", "key", "word", "none"];
        let _closed = expect_print(&rt, rt.alloc(), &words, &FAULTY, 3, b"", FIRST_FAULT)?;
    }
    Ok(())
}

// A read that would fail, and isn't made.
static ALL_READ: Row<'static> = Row {
    name: "a read that isn't made",
    file_fails: &[21],
    most: 1,
    ..PLAIN
};

// A run over a file of which this call fails.
fn run_failing_read<R: Abort + Threads + Wait + Sync>(
    rt: &R,
    alloc: Global,
    call: u64,
) -> Result<(), Fail> {
    let row = Row {
        name: "a failing read",
        file_fails: &[call],
        most: 1,
        status: 5,
        err: b"read fault: script 0\n",
        ..REFUSED
    };
    run_row(rt, alloc, &row)
}

#[test]
fn a_failing_read_is_status_5(rt: HostRuntime) -> Result<(), Fail> {
    // One call opens the file of 18 bytes, 18 read a byte each, and the last finds its end.
    for call in 1..=20 {
        run_failing_read(&rt, rt.alloc(), call)?;
    }
    run_row(&rt, rt.alloc(), &ALL_READ)
}

// A write that would fail, and isn't made.
static ALL_WRITTEN: Row<'static> = Row {
    name: "a write that isn't made",
    out_fails: &[83],
    most: 1,
    ..PLAIN
};

// A run whose output fails behind so many bytes.
fn run_failing_write<R: Abort + Threads + Wait + Sync>(
    rt: &R,
    alloc: Global,
    written: usize,
) -> Result<(), Fail> {
    must(rt, written < PLAIN.out.len(), "a part of the output");
    let row = Row {
        name: "a failing write",
        out_fails: &[written as u64 + 1],
        most: 1,
        status: 6,
        out: &PLAIN.out[..written],
        err: b"write fault\n",
        ..PLAIN
    };
    run_row(rt, alloc, &row)
}

#[test]
fn a_failing_write_is_status_6(rt: HostRuntime) -> Result<(), Fail> {
    for written in 0..PLAIN.out.len() {
        run_failing_write(&rt, rt.alloc(), written)?;
    }
    run_row(&rt, rt.alloc(), &ALL_WRITTEN)
}

// What is wrong with a script, the script, and the line on standard error.
type Broken = (&'static str, &'static [u8], &'static [u8]);

const WORD: &[u8] = b"script 0 line 1: unknown command\n";

const COUNT: &[u8] = b"script 0 line 1: wrong number of words\n";

const NAME: &[u8] = b"script 0 line 1: unknown name\n";

const KEY: &[u8] = b"script 0 line 1: bad key\n";

static BROKEN: [Broken; 26] = [
    ("upper case", b"ADD l0 1\n", WORD),
    ("one letter in upper case", b"Has l0 1\n", WORD),
    ("no text", b"\xff", WORD),
    ("put in format 1", b"put l0 5 7\n", WORD),
    ("no key", b"add l0\n", COUNT),
    ("a comment in place of the key", b"add l0 #1\n", COUNT),
    ("two keys of a pair", b"pair l0 l0 1 2\n", COUNT),
    (
        "after a good line",
        b"has l0 1\nhas l0",
        b"script 0 line 2: wrong number of words\n",
    ),
    (
        "lines without words count",
        b"\n\nsize\n",
        b"script 0 line 3: wrong number of words\n",
    ),
    (
        "format 3",
        b"format 3\n",
        b"script 0 line 1: unknown format\n",
    ),
    ("no such list", b"add l10 1\n", NAME),
    ("two digits of a list", b"add l00 1\n", NAME),
    ("a name in upper case", b"add L0 1\n", NAME),
    ("a name in upper case, and no key", b"add L0 x\n", NAME),
    ("two unknown names, and no key", b"move q0 q1 x\n", NAME),
    (
        "the second name, and a key too large",
        b"move l0 x 99999999999\n",
        NAME,
    ),
    (
        "a move onto itself",
        b"move l0 l0 4\n",
        b"script 0 line 1: same name twice\n",
    ),
    ("no key, and a move onto itself", b"move l0 l0 x\n", KEY),
    ("a key too large", b"add l0 4294967296\n", KEY),
    ("eleven digits", b"next t9 00000000001\n", KEY),
    ("a sign before the key", b"add l0 -1\n", KEY),
    ("a sign behind the key", b"add l0 1#x\n", KEY),
    ("a key that is no text", b"add l0 \xff\n", KEY),
    ("two CR", b"has l0 1\r\r\n", KEY),
    (
        "no key and no value",
        b"format 2\nput l0 x y\n",
        b"script 0 line 2: bad key\n",
    ),
    (
        "a value too large",
        b"format 2\nput h0 1 18446744073709551616\n",
        b"script 0 line 2: bad value\n",
    ),
];

#[test]
fn each_broken_script_has_its_line(rt: HostRuntime) -> Result<(), Fail> {
    for (name, script, err) in &BROKEN {
        run_refused(&rt, rt.alloc(), name, PLAIN.words, script, 3, err)?;
    }
    Ok(())
}
