// Gates: one is called around each command, and others hold one seat for another.
use crate::comparing::{assert_same, must};
use crate::row::{PLAIN, Text, print_texts, run_text};
use crate::texts::has_no_worn_of_8000;
use host_io::Gate;
use std::alloc::Global;
use std::process::Abort;
use std::sync::atomic::{AtomicU64, Ordering};
use std::sync::{Mutex, Wait};
use std::test::Fail;
use std::thread::Threads;

// The calls so far, a decimal digit for each: 1 and 2 around command 1, 3 and 4 around command 2.
#[derive(Drop)]
struct Digits {
    calls: AtomicU64,
}

impl Digits {
    fn note(&self, seat: u32, digit: u64) {
        let calls = self.calls.load(Ordering::SeqCst);
        let next = calls
            .wrapping_mul(10)
            .wrapping_add(digit)
            .wrapping_add(seat as u64);
        self.calls.store(next, Ordering::SeqCst);
    }
}

impl Gate for Digits {
    fn before(&self, seat: u32, number: u32) {
        self.note(seat, (number as u64).wrapping_mul(2).wrapping_sub(1));
    }

    fn after(&self, seat: u32, number: u32) {
        self.note(seat, (number as u64).wrapping_mul(2));
    }
}

#[test]
fn the_gate_is_called_around_each_command(rt: HostRuntime) -> Result<(), Fail> {
    let gate = Digits {
        calls: AtomicU64::new(0),
    };
    run_text(&rt, rt.alloc(), &PLAIN, PLAIN.script, &gate)?;
    let calls = gate.calls.load(Ordering::SeqCst);
    assert_same(&rt, &calls, &1234, "calls of the gate");
    Ok(())
}

// How often a held seat looks whether the other is done.
const TURNS: u32 = 1_000_000;

#[derive(Drop)]
struct Seen {
    other_is_done: bool,
    ran_out: bool,
}

// It holds one seat's first command until the other seat's is done.
#[derive(Drop)]
struct HoldGate<'r, R: Wait> {
    rt: &'r R,
    held: u32,
    other: u32,
    seen: Mutex<Seen>,
}

impl<'r, R: Wait + Sync> Gate for HoldGate<'r, R> {
    fn before(&self, seat: u32, number: u32) {
        if seat != self.held || number != 1 {
            return;
        }
        for _ in 0..TURNS {
            if self.seen.lock(self.rt).other_is_done {
                return;
            }
        }
        self.seen.lock(self.rt).ran_out = true;
    }

    fn after(&self, seat: u32, number: u32) {
        if seat == self.other && number == 1 {
            self.seen.lock(self.rt).other_is_done = true;
        }
    }
}

// The text of these words over these texts, where seat `held` waits for seat `other`.
fn print_held<R: Threads + Wait + Abort + Sync>(
    rt: &R,
    alloc: Global,
    held: u32,
    words: &[&str],
    texts: &[Text<'_>],
) -> Result<Vec<u8>, Fail> {
    let gate = HoldGate {
        rt,
        held,
        other: 1u32.saturating_sub(held),
        seen: Mutex::new(Seen {
            other_is_done: false,
            ran_out: false,
        }),
    };
    let printed = print_texts(rt, alloc, words, texts, &gate)?;
    assert_same(rt, &printed.status, &0, "the status");
    let HoldGate {
        rt: _,
        held: _,
        other: _,
        seen,
    } = gate;
    let waited = !seen.into_inner().ran_out;
    must(rt, waited, "the seats run at once");
    Ok(printed.out.bytes().to_vec(alloc)?)
}

// Runs the words over these texts, where either of two seats waits for the other, and compares how the texts begin.
fn expect_held<R: Threads + Wait + Abort + Sync>(
    rt: &R,
    alloc: Global,
    words: &[&str],
    texts: &[Text<'_>],
    starts: &[(u32, &[u8])],
) -> Result<(), Fail> {
    for (held, start) in starts {
        let text = print_held(rt, alloc, *held, words, texts)?;
        assert_same(
            rt,
            &(*held, text.starts_with(start)),
            &(*held, true),
            "the seat that waits",
        );
    }
    Ok(())
}

static SCRIPTS: [Text<'static>; 2] = [("a", b"add l0 1\n"), ("b", b"add l1 1\n")];

// The seat that waits, and the text.
static SCRIPTS_HELD: [(u32, &[u8]); 2] = [
    (1, b"0.1 c1 yes\n1.1 c2 yes\nl0 1\nl1 1\nlog 0 live "),
    (0, b"1.1 c1 yes\n0.1 c2 yes\nl0 1\nl1 1\nlog 0 live "),
];

#[test]
fn either_of_two_files_waits_for_the_other(rt: HostRuntime) -> Result<(), Fail> {
    expect_held(&rt, rt.alloc(), &["run", "a", "b"], &SCRIPTS, &SCRIPTS_HELD)
}

static BLOCKS: [Text<'static>; 2] = [
    ("a", b"begin\nadd l0 1\nadd t0 1\nend\n"),
    ("b", b"begin\nadd l1 1\nhas t0 1\nend\n"),
];

static BLOCKS_HELD: [(u32, &[u8]); 2] = [
    (
        1,
        b"0.1 c1 yes\n0.2 c1 yes\n1.1 c2 yes\n1.2 c2 yes\nl0 1\nl1 1\nt0 1\nlog 0 live ",
    ),
    (
        0,
        b"1.1 c1 yes\n1.2 c1 no\n0.1 c2 yes\n0.2 c2 yes\nl0 1\nl1 1\nt0 1\nlog 0 live ",
    ),
];

#[test]
fn either_of_two_files_of_blocks_waits_for_the_other(rt: HostRuntime) -> Result<(), Fail> {
    expect_held(&rt, rt.alloc(), &["block", "a", "b"], &BLOCKS, &BLOCKS_HELD)
}

#[test]
fn generated_work_gives_one_text(rt: HostRuntime) -> Result<(), Fail> {
    let first = print_held(&rt, rt.alloc(), 0, &["work", "1"], &[])?;
    let second = print_held(&rt, rt.alloc(), 1, &["work", "1"], &[])?;
    assert_same(&rt, &first, &second, "two texts of one work");
    must(
        &rt,
        has_no_worn_of_8000(&first),
        "8,000 replies, none of them worn",
    );
    Ok(())
}
