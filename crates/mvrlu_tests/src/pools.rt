// Pools: one file, whose commands any of several seats takes.
use crate::comparing::{assert_same, must};
use crate::limits::USAGE;
use crate::row::{PLAIN, REFUSED, Row, print_texts, run_refused, run_row};
use crate::texts::{count_ends, count_starts, number_in, sum_after};
use host_io::{Gate, OpenGate};
use mvrlu_run::LeftDomain;
use std::alloc::Global;
use std::fmt::Write;
use std::process::Abort;
use std::sync::{Mutex, Wait};
use std::test::Fail;
use std::thread::Threads;

// A pool of one seat.
static ONE_SEAT: Row<'static> = Row {
    name: "a pool of one seat",
    words: &["pool", "1", "a"],
    script: b"add l1 1\nadd l1 3\nadd l1 2\ndel l1 3\n",
    out: b"0.1 c1 yes\n0.2 c2 yes\n0.3 c3 yes\n0.4 c4 yes\nl1 1 2\nlog 0 live 8 freed 0 back 0 commits 4 aborts 0 rests 0\n",
    ..PLAIN
};

#[test]
fn a_pool_of_one_seat_does_all_in_order(rt: HostRuntime) -> Result<(), Fail> {
    run_row(&rt, rt.alloc(), &ONE_SEAT)
}

// Words of a pool that are refused, with the status and the line.
type Refused = (&'static [&'static str], u8, &'static [u8]);

static POOLS: [Refused; 9] = [
    (&["pool", "0", "a"], 4, b"limit: seats\n"),
    (&["pool", "9", "b"], 4, b"limit: seats\n"),
    (&["pool", "99999999999999999999", "b"], 4, b"limit: seats\n"),
    (&["pool", "000000000000000000001", "a"], 2, USAGE),
    (&["pool", "1"], 2, USAGE),
    (&["pool", "1", "a", "a"], 2, USAGE),
    (&["pool", "one", "a"], 2, USAGE),
    (&["pool", "9", "-a"], 2, USAGE),
    (&["pool", "1", "b"], 5, b"read fault: script 0\n"),
];

// A pool over a broken script.
static BROKEN: Row<'static> = Row {
    name: "a pool over a broken script",
    words: &["pool", "2", "a"],
    script: b"has l0 1\nhas l0\n",
    err: b"script 0 line 2: wrong number of words\n",
    ..REFUSED
};

#[test]
fn bad_words_of_a_pool_are_refused(rt: HostRuntime) -> Result<(), Fail> {
    for (words, status, err) in &POOLS {
        run_refused(
            &rt,
            rt.alloc(),
            "a refused pool",
            words,
            PLAIN.script,
            *status,
            err,
        )?;
    }
    run_row(&rt, rt.alloc(), &BROKEN)
}

// Lines that add the keys from 0 on to `l0`, and the line of the set that has them all.
fn adds(alloc: Global, count: u32) -> Result<(String, String), Fail> {
    let mut script = String::new(alloc);
    let mut set = String::from_str(alloc, "\nl0")?;
    for key in 0..count {
        writeln!(script, "add l0 {key}")?;
        write!(set, " {key}")?;
    }
    writeln!(set)?;
    Ok((script, set))
}

#[test]
fn three_seats_do_300_commands_once(rt: HostRuntime) -> Result<(), Fail> {
    let (script, set) = adds(rt.alloc(), 300)?;
    let texts = [("a", script.as_str().as_bytes())];
    let printed = print_texts(&rt, rt.alloc(), &["pool", "3", "a"], &texts, &OpenGate)?;
    assert_same(&rt, &printed.status, &0, "the status");
    must(
        &rt,
        matches!(&printed.closed, LeftDomain::Sets(_)),
        "a domain of sets",
    );
    expect_300(&rt, printed.out.bytes(), &set);
    expect_own_lines(&rt, printed.out.bytes());
    Ok(())
}

// How the lines of each seat begin, and its table.
static SEATS: [(&str, &str); 3] = [("0.", "log 0 "), ("1.", "log 1 "), ("2.", "log 2 ")];

// Looks that each seat has as many lines as commits, of a pool whose every line is a commit.
fn expect_own_lines(rt: &impl Abort, text: &[u8]) {
    for (lines, table) in &SEATS {
        let count = count_starts(text, lines);
        assert_eq!(rt; number_in(text, table, "commits"), Some(count), "{table}");
    }
}

// Looks that each command was done once, and at the line of the set.
fn expect_300(rt: &impl Abort, text: &[u8], set: &str) {
    let lines = (count_ends(text, " yes"), count_ends(text, ""));
    assert_same(rt, &lines, &(300, 304), "lines of yes, and all");
    assert_same(rt, &sum_after(text, "commits"), &300, "commits");
    let text = str::from_utf8(text).ok().unwrap_or("");
    must(rt, text.contains(set), "the line of the set");
}

// How often a held worker looks whether the others are done.
const TURNS: u32 = 1_000_000;

#[derive(Drop)]
struct Seen {
    others_done: u32,
    ran_out: bool,
}

// It holds one command until the four others are done.
#[derive(Drop)]
struct HoldGate<'r, R: Wait> {
    rt: &'r R,
    held: u32,
    seen: Mutex<Seen>,
}

impl<'r, R: Wait + Sync> Gate for HoldGate<'r, R> {
    fn before(&self, _seat: u32, number: u32) {
        if number != self.held {
            return;
        }
        for _ in 0..TURNS {
            if self.seen.lock(self.rt).others_done == 4 {
                return;
            }
        }
        self.seen.lock(self.rt).ran_out = true;
    }

    fn after(&self, _seat: u32, number: u32) {
        if number != self.held {
            let mut seen = self.seen.lock(self.rt);
            seen.others_done = seen.others_done.wrapping_add(1);
        }
    }
}

const FIVE: &[u8] = b"add l0 1\nadd l0 2\nadd l0 3\nadd l0 4\nadd l0 5\n";

// Two seats do five commands, of which this one waits for all others.
fn hold<R: Threads + Wait + Abort + Sync>(rt: &R, alloc: Global, held: u32) -> Result<(), Fail> {
    let gate = HoldGate {
        rt,
        held,
        seen: Mutex::new(Seen {
            others_done: 0,
            ran_out: false,
        }),
    };
    let printed = print_texts(rt, alloc, &["pool", "2", "a"], &[("a", FIVE)], &gate)?;
    assert_same(rt, &printed.status, &0, "the status");
    let HoldGate {
        rt: _,
        held: _,
        seen,
    } = gate;
    let waited = !seen.into_inner().ran_out;
    must(
        rt,
        waited,
        "each of two seats takes a command while the other one is held",
    );
    Ok(())
}

#[test]
fn a_held_command_waits_for_all_others(rt: HostRuntime) -> Result<(), Fail> {
    hold(&rt, rt.alloc(), 1)?;
    hold(&rt, rt.alloc(), 2)
}
