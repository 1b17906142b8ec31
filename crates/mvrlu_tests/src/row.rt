// One run of the program in memory, and what it must leave.
ghost use Rattle.std.specs.Prelude.{◌<◌, IfOk};
ghost use Rattle.mvrlu_run.specs.Outcome.{ReadsSets};

use crate::comparing::{assert_same, must};
use host_io::{Gate, OpenGate};
use memory_io::{MemFiles, MemSink, MemText};
use mvrlu_run::{LeftDomain, Ran, run_program};
use std::alloc::{AllocError, Global};
use std::process::Abort;
use std::sync::Wait;
use std::test::Fail;
use std::thread::Threads;

/// A run of these words over one text, named `a`, and what becomes of it.
#[derive(Clone, Copy)]
pub struct Row<'a> {
    pub name: &'static str,
    pub words: &'static [&'static str],
    pub script: &'static [u8],
    /// The calls of the files that fail.
    pub file_fails: &'a [u64],
    /// The calls of the output that fail.
    pub out_fails: &'a [u64],
    /// The calls of standard error that fail.
    pub err_fails: &'a [u64],
    /// How many bytes a call moves at most.
    pub most: usize,
    pub status: u8,
    pub out: &'a [u8],
    pub err: &'static [u8],
}

/// An add, and a question for its key.
pub const PLAIN: Row<'static> = Row {
    name: "add then has",
    words: &["run", "a"],
    script: b"add l0 5\nhas l0 5\n",
    file_fails: &[],
    out_fails: &[],
    err_fails: &[],
    most: 4096,
    status: 0,
    out: b"0.1 c1 yes\n0.2 r1 yes\nl0 5\nlog 0 live 2 freed 0 back 0 commits 1 aborts 0 rests 0\n",
    err: b"",
};

/// The text of an empty script.
pub const ZERO: &[u8] = b"log 0 live 0 freed 0 back 0 commits 0 aborts 0 rests 0\n";

/// A run that refuses its words or its script.
pub const REFUSED: Row<'static> = Row {
    name: "refused",
    status: 3,
    out: b"",
    ..PLAIN
};

/// Runs the row and compares.
pub fn run_row<R: Abort + Threads + Wait + Sync>(
    rt: &R,
    alloc: Global,
    row: &Row<'_>,
) -> Result<(), Fail> {
    run_text(rt, alloc, row, row.script, &OpenGate)
}

/// Runs the rows, one after another, and compares.
pub fn run_rows<R: Abort + Threads + Wait + Sync>(
    rt: &R,
    alloc: Global,
    rows: &[Row<'_>],
) -> Result<(), Fail> {
    for row in rows {
        run_row(rt, alloc, row)?;
    }
    Ok(())
}

/// Runs the words over this text, and compares its status and its line on standard error. Nothing else comes out.
pub fn run_refused<R: Abort + Threads + Wait + Sync>(
    rt: &R,
    alloc: Global,
    name: &'static str,
    words: &'static [&'static str],
    script: &[u8],
    status: u8,
    err: &'static [u8],
) -> Result<(), Fail> {
    let row = Row {
        name,
        words,
        status,
        err,
        ..REFUSED
    };
    run_text(rt, alloc, &row, script, &OpenGate)
}

/// Runs a row over this text in place of the row's, with this gate.
pub fn run_text<R: Abort + Threads + Wait + Sync, G: Gate>(
    rt: &R,
    alloc: Global,
    row: &Row<'_>,
    script: &[u8],
    gate: &G,
) -> Result<(), Fail> {
    must(rt, row.most > 0, "a call moves some bytes");
    let words = owned(alloc, row.words)?;
    let mut files = file(alloc, script, row.most, row.file_fails)?;
    let mut out = sink(alloc, row.most, row.out_fails)?;
    let mut err = sink(alloc, row.most, row.err_fails)?;
    let ran = call(rt, alloc, &words, &mut files, &mut out, &mut err, gate);
    compare(rt, row, ran.status, out.bytes(), err.bytes());
    Ok(())
}

// The file `a` of this text.
fn file(alloc: Global, script: &[u8], most: usize, fails: &[u64]) -> Result<MemFiles, AllocError>
    requires { 0 < most }
{
    let mut texts = Vec::new(alloc);
    texts.push(named(alloc, "a", script)?)?;
    Ok(MemFiles::new(texts, most, fails.to_vec(alloc)?))
}

// A sink with room for what the rows print.
fn sink(alloc: Global, most: usize, fails: &[u64]) -> Result<MemSink, AllocError>
    requires { 0 < most }
{
    MemSink::new(alloc, 4096, most, fails.to_vec(alloc)?)
}

// Compares how a run ended with what its row wants.
fn compare(rt: &impl Abort, row: &Row<'_>, status: u8, out: &[u8], err: &[u8]) {
    assert_same(
        rt,
        &(status, out, err),
        &(row.status, row.out, row.err),
        row.name,
    );
}

// Calls the program, with what the tests use of its contract.
fn call<R: Threads + Wait + Sync, G: Gate>(
    rt: &R,
    alloc: Global,
    words: &[String],
    files: &mut MemFiles,
    out: &mut MemSink,
    err: &mut MemSink,
    gate: &G,
) -> Ran
    ensures { ReadsSets result.closed }
{
    run_program(rt, alloc, words, files, out, err, gate)
}

/// The words as the program takes them.
pub fn owned(alloc: Global, words: &[&str]) -> Result<Vec<String>, AllocError> {
    let mut owned = Vec::new(alloc);
    for word in words {
        owned.push(String::from_str(alloc, word)?)?;
    }
    Ok(owned)
}

/// A text of this name.
pub fn named(alloc: Global, name: &str, bytes: &[u8]) -> Result<MemText, AllocError> {
    Ok(MemText {
        name: String::from_str(alloc, name)?,
        bytes: bytes.to_vec(alloc)?,
    })
}

/// What the program printed where nothing failed, and what is left of its domain.
#[derive(Drop)]
pub struct Printed {
    pub status: u8,
    pub closed: LeftDomain,
    pub out: MemSink,
    pub err: MemSink,
}

/// Runs the words over these texts, where nothing fails and there is room for half a million bytes.
pub fn print<R: Threads + Wait + Sync, G: Gate>(
    rt: &R,
    alloc: Global,
    words: &[String],
    texts: Vec<MemText>,
    gate: &G,
) -> Result<Printed, AllocError>
    ensures { IfOk result (λ printed. ReadsSets printed.closed) }
{
    let mut files = MemFiles::new(texts, 65_536, Vec::new(alloc));
    let mut out = MemSink::new(alloc, 500_000, 65_536, Vec::new(alloc))?;
    let mut err = MemSink::new(alloc, 4096, 4096, Vec::new(alloc))?;
    let Ran { status, closed } = call(rt, alloc, words, &mut files, &mut out, &mut err, gate);
    Ok(Printed {
        status,
        closed,
        out,
        err,
    })
}

/// Runs the words over these texts, as `print` does, and looks that it ends well. It answers what was printed.
pub fn print_well<R: Abort + Threads + Wait + Sync>(
    rt: &R,
    alloc: Global,
    words: &[String],
    texts: Vec<MemText>,
) -> Result<MemSink, AllocError> {
    let Printed {
        status,
        closed: _,
        out,
        err: _,
    } = print(rt, alloc, words, texts, &OpenGate)?;
    assert_same(rt, &status, &0, "the status");
    Ok(out)
}

/// The name of a file, and its bytes.
pub type Text<'a> = (&'a str, &'a [u8]);

/// Runs the words over these texts, as `print` does.
pub fn print_texts<R: Threads + Wait + Sync, G: Gate>(
    rt: &R,
    alloc: Global,
    words: &[&str],
    texts: &[Text<'_>],
    gate: &G,
) -> Result<Printed, AllocError> {
    let words = owned(alloc, words)?;
    let mut files = Vec::new(alloc);
    for (name, bytes) in texts {
        files.push(named(alloc, name, bytes)?)?;
    }
    print(rt, alloc, &words, files, gate)
}

/// Runs the words over these texts, and compares. It answers what is left of the domain.
pub fn expect_print<R: Abort + Threads + Wait + Sync>(
    rt: &R,
    alloc: Global,
    words: &[&str],
    texts: &[Text<'_>],
    status: u8,
    out: &[u8],
    err: &[u8],
) -> Result<LeftDomain, AllocError> {
    let printed = print_texts(rt, alloc, words, texts, &OpenGate)?;
    let found = (printed.status, printed.out.bytes(), printed.err.bytes());
    assert_eq!(rt; found, (status, out, err), "of {words:?}");
    Ok(printed.closed)
}
