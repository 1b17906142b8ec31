// The limits of words, bytes and commands.
use crate::comparing::assert_same;
use crate::row::{PLAIN, Row, ZERO, owned, print, run_refused, run_text};
use host_io::OpenGate;
use std::alloc::{AllocError, Global};
use std::test::Fail;

/// The line for words that are out of form.
pub const USAGE: &[u8] =
    b"usage: run [--objects N] [--slots N] [--base N] FILE... or gen NUMBER SEAT or work NUMBER \
    or block FILE... or pool SEATS FILE or grow FILE... or replay FILE\n";

static OUT_OF_FORM: [&[&str]; 27] = [
    &[],
    &["run"],
    &["walk", "a"],
    &["--help"],
    &["run", "--"],
    &["run", "--help", "a"],
    &["run", "a", "--objects", "200"],
    &["run", "--objects=200", "a"],
    &["run", "--objects", "200"],
    &["run", "--slots", "x", "a"],
    &["run", "--base", "", "a"],
    &["run", "--base", "-1", "a"],
    &["run", "--base", "123456789012345678901", "a"],
    &["run", "--base", "1", "--base", "1", "a"],
    &["run", "a", ""],
    &["gen", "1"],
    &["gen", "1", "0", "0"],
    &["gen", "x", "4"],
    &["work"],
    &["work", "+1"],
    &["block"],
    &["block", "--objects", "200", "a"],
    &["block", "a", "-b"],
    &["block", "a", ""],
    &["grow"],
    &["grow", "--objects", "200", "a"],
    &["grow", "a", "-b"],
];

#[test]
fn words_out_of_form_show_the_usage(rt: HostRuntime) -> Result<(), Fail> {
    for words in &OUT_OF_FORM {
        run_refused(
            &rt,
            rt.alloc(),
            "out of form",
            words,
            PLAIN.script,
            2,
            USAGE,
        )?;
    }
    Ok(())
}

// Words in form with a number out of its range, and the line on standard error.
type Beyond = (&'static [&'static str], &'static [u8]);

static BEYOND: [Beyond; 10] = [
    (&["run", "--objects", "180", "a"], b"limit: objects\n"),
    (
        &[
            "run",
            "--base",
            "99999999999999999999",
            "--objects",
            "65536",
            "a",
        ],
        b"limit: objects\n",
    ),
    (&["run", "--slots", "63", "b"], b"limit: slots\n"),
    (&["run", "--slots", "4097", "a"], b"limit: slots\n"),
    (&["run", "--base", "35184372088832", "a"], b"limit: base\n"),
    (&["gen", "1", "4"], b"limit: seat\n"),
    (&["gen", "0", "99999999999999999999"], b"limit: seat\n"),
    (&["gen", "18446744073709551616", "4"], b"limit: number\n"),
    (&["work", "18446744073709551616"], b"limit: number\n"),
    (&["work", "99999999999999999999"], b"limit: number\n"),
];

#[test]
fn numbers_of_the_words_are_limited(rt: HostRuntime) -> Result<(), Fail> {
    for (words, err) in &BEYOND {
        run_refused(
            &rt,
            rt.alloc(),
            "beyond a limit",
            words,
            PLAIN.script,
            4,
            err,
        )?;
    }
    Ok(())
}

#[test]
fn files_are_limited(rt: HostRuntime) -> Result<(), Fail> {
    let alloc = rt.alloc();
    let mut words = owned(alloc, &["run"])?;
    for _ in 0..65 {
        words.push(String::from_str(alloc, "b")?)?;
    }
    let printed = print(&rt, alloc, &words, Vec::new(alloc), &OpenGate)?;
    let found = (printed.status, printed.err.bytes());
    assert_same(&rt, &found, &(4, b"limit: files\n".as_slice()), "65 files");
    Ok(())
}

/// So many line ends. The number is a variable, since a proof would compute a list of a literal length.
pub fn line_ends(alloc: Global, count: usize) -> Result<Vec<u8>, AllocError> {
    vec![in alloc; b'\n'; count]
}

// As many bytes as a script may have.
const MOST_BYTES: Row<'static> = Row {
    name: "1,048,576 bytes",
    most: 1 << 16,
    out: ZERO,
    ..PLAIN
};

// One byte more.
static MORE_BYTES: Row<'static> = Row {
    name: "1,048,577 bytes",
    status: 4,
    out: b"",
    err: b"limit: script 0 bytes\n",
    ..MOST_BYTES
};

#[test]
fn the_bytes_of_a_script_are_limited(rt: HostRuntime) -> Result<(), Fail> {
    let alloc = rt.alloc();
    run_text(
        &rt,
        alloc,
        &MOST_BYTES,
        &line_ends(alloc, 1_048_576)?,
        &OpenGate,
    )?;
    run_text(
        &rt,
        alloc,
        &MORE_BYTES,
        &line_ends(alloc, 1_048_577)?,
        &OpenGate,
    )
}

// So many lines that ask for a key.
fn questions(alloc: Global, count: u32) -> Result<Vec<u8>, AllocError> {
    let mut script = Vec::new(alloc);
    for _ in 0..count {
        for byte in b"has l0 1\n" {
            script.push(*byte)?;
        }
    }
    Ok(script)
}

// One command more than a script may have.
const MORE_COMMANDS: Row<'static> = Row {
    name: "65,537 commands",
    most: 1 << 16,
    status: 4,
    out: b"",
    err: b"limit: script 0 line 65537 commands\n",
    ..PLAIN
};

// The same in blocks.
static MORE_BLOCKS: Row<'static> = Row {
    name: "65,537 blocks of one",
    words: &["block", "a"],
    ..MORE_COMMANDS
};

#[test]
fn the_commands_of_a_script_are_limited(rt: HostRuntime) -> Result<(), Fail> {
    let alloc = rt.alloc();
    let questions = questions(alloc, 65_537)?;
    run_text(&rt, alloc, &MORE_COMMANDS, &questions, &OpenGate)?;
    run_text(&rt, alloc, &MORE_BLOCKS, &questions, &OpenGate)
}
