// The line on standard error. Making it takes no memory.
ghost use Rattle.std.specs.Prelude.{◌≡◌, ◌≤◌, ◌+◌, ◌++◌, codes, length, take, decimal};
ghost use Rattle.run_ends.specs.Sent.{Sent};
ghost use Rattle.run_ends.specs.Status.{block_fault_end, block_fault_start, fault_end, fault_start, limit_word, line_of};
ghost use Rattle.run_ends.specs.Status.{plan_fault_end, plan_fault_start, stop_line};

use crate::finish::Finish;
use crate::sending::send;
use host_io::Sink;
use itoa::Buffer;
use run_words::Limit;
use script_files::Stop;
use script_files::block_parser::BlockKind;
use script_files::step_replay::PlanKind;
use script_parser::FaultKind;

// The room of the longest line.
const ROOM: usize = 192;

const USAGE: &[u8] =
    b"usage: run [--objects N] [--slots N] [--base N] FILE... or gen NUMBER SEAT or work NUMBER \
    or block FILE... or pool SEATS FILE or grow FILE... or replay FILE\n";

/// Writes the line of an end, as far as the sink takes it.
pub fn report<E: Sink>(err: &mut E, finish: &Finish)
    ensures { Sent (E.written err.old) (E.written err.new) (E.faults err.old) (E.faults err.new) (line_of finish.now) }
{
    let mut buffer = [0u8; ROOM];
    let count = make_line(&mut buffer, finish);
    let _ = send(err, &buffer[..count]);
}

// Makes the line of an end at the front of a buffer, and gives its length.
fn make_line(buffer: &mut [u8], finish: &Finish) -> usize
    requires { ROOM ≤ length buffer.old }
    ensures within { result ≤ length buffer.new }
    ensures line { take result buffer.new ≡ line_of finish.now }
{
    match finish {
        Finish::Done(_) => 0,
        Finish::Usage => put(buffer, 0, USAGE),
        Finish::Limit(limit) => {
            let at = put(buffer, 0, b"limit: ");
            let at = put(buffer, at, limit_word(*limit));
            put(buffer, at, b"\n")
        }
        Finish::Stopped(stop) => make_stop(buffer, stop),
        Finish::Write => put(buffer, 0, b"write fault\n"),
    }
}

// The same of a stop.
fn make_stop(buffer: &mut [u8], stop: &Stop) -> usize
    requires { ROOM ≤ length buffer.old }
    ensures within { result ≤ length buffer.new }
    ensures line { take result buffer.new ≡ stop_line stop.now }
{
    match stop {
        Stop::Script { script, line, kind } => {
            put_fault(buffer, *script, *line, fault_words(*kind))
        }
        Stop::BlockScript { script, line, kind } => {
            put_fault(buffer, *script, *line, block_fault_words(*kind))
        }
        Stop::Plan { script, line, kind } => {
            put_fault(buffer, *script, *line, plan_fault_words(*kind))
        }
        Stop::Bytes { script } => {
            let at = put(buffer, 0, b"limit: script ");
            let at = put_number(buffer, at, *script);
            put(buffer, at, b" bytes\n")
        }
        Stop::Read { script } => {
            let at = put(buffer, 0, b"read fault: script ");
            let at = put_number(buffer, at, *script);
            put(buffer, at, b"\n")
        }
        Stop::Memory => put(buffer, 0, b"out of memory\n"),
    }
}

// The word for a number that is out of its range.
fn limit_word(limit: Limit) -> &'static [u8]
    ensures word { result.now ≡ limit_word limit }
    ensures room { length result.now ≤ 10 }
{
    match limit {
        Limit::Objects => b"objects".as_slice(),
        Limit::Slots => b"slots",
        Limit::Base => b"base",
        Limit::Files => b"files",
        Limit::Number => b"number",
        Limit::Seat => b"seat",
        Limit::Seats => b"seats",
    }
}

// What stands before the number of a faulty script, and what behind the number of its line.
fn fault_words(kind: FaultKind) -> (&'static [u8], &'static [u8])
    ensures start { result.0.now ≡ fault_start kind }
    ensures end { result.1.now ≡ fault_end kind }
    ensures room { length result.0.now + 30 + length result.1.now ≤ ROOM }
{
    let end = match kind {
        FaultKind::Word => b": unknown command\n".as_slice(),
        FaultKind::Count => b": wrong number of words\n",
        FaultKind::Format => b": unknown format\n",
        FaultKind::Name => b": unknown name\n",
        FaultKind::Key => b": bad key\n",
        FaultKind::Value => b": bad value\n",
        FaultKind::Same => b": same name twice\n",
        FaultKind::Many => return (b"limit: script ", b" commands\n"),
    };
    (b"script ", end)
}

// The same of a script of blocks.
fn block_fault_words(kind: BlockKind) -> (&'static [u8], &'static [u8])
    ensures start { result.0.now ≡ block_fault_start kind }
    ensures end { result.1.now ≡ block_fault_end kind }
    ensures room { length result.0.now + 30 + length result.1.now ≤ ROOM }
{
    let end = match kind {
        BlockKind::Line(kind) => return fault_words(kind),
        BlockKind::Nested => b": nested block\n".as_slice(),
        BlockKind::Stray => b": end without begin\n",
        BlockKind::Empty => b": empty block\n",
        BlockKind::Long => b": block too long\n",
        BlockKind::Apart => b": not in a block\n",
        BlockKind::Unended => b": block without end\n",
    };
    (b"script ", end)
}

// The same of a plan.
fn plan_fault_words(kind: PlanKind) -> (&'static [u8], &'static [u8])
    ensures start { result.0.now ≡ plan_fault_start kind }
    ensures end { result.1.now ≡ plan_fault_end kind }
    ensures room { length result.0.now + 30 + length result.1.now ≤ ROOM }
{
    let end = match kind {
        PlanKind::Word => b": unknown command\n".as_slice(),
        PlanKind::Count => b": wrong number of words\n",
        PlanKind::Number => b": bad number\n",
        PlanKind::Many => return (b"limit: script ", b" commands\n"),
    };
    (b"script ", end)
}

// Puts the line of a faulty script at the front of a buffer: its number and that of the line, between these words.
fn put_fault(
    buffer: &mut [u8],
    script: u32,
    line: u32,
    words: (&'static [u8], &'static [u8]),
) -> usize
    requires { length words.0.now + 30 + length words.1.now ≤ length buffer.old }
    ensures within { result ≤ length buffer.new }
    ensures line { take result buffer.new ≡ words.entry.0.now ++ decimal script ++ codes " line " ++ decimal line ++ words.entry.1.now }
{
    let (start, end) = words;
    let at = put(buffer, 0, start);
    let at = put_number(buffer, at, script);
    let at = put(buffer, at, b" line ");
    let at = put_number(buffer, at, line);
    put(buffer, at, end)
}

// Puts a number in decimal digits at a place, and gives the place behind it.
fn put_number(buffer: &mut [u8], at: usize, number: u32) -> usize
    requires { at + 10 ≤ length buffer.old }
    ensures within { result ≤ at + 10 }
    ensures front { take result buffer.new ≡ take at buffer.old ++ decimal number }
{
    let mut digits = Buffer::new();
    put(buffer, at, digits.format(number).as_bytes())
}

// Puts a piece at a place, and gives the place behind it.
fn put(buffer: &mut [u8], at: usize, piece: &[u8]) -> usize
    requires { at + length piece.now ≤ length buffer.old }
    ensures count { result ≡ at + length piece.now }
    ensures front { take result buffer.new ≡ take at buffer.old ++ piece.now }
{
    buffer[at..at + piece.len()].copy_from_slice(piece);
    at + piece.len()
}
