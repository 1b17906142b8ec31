// The top call.
ghost use Rattle.std.specs.Prelude.{◌≡◌, ◌≢◌, ◌↔◌, map, string_bytes, Err, Ok};
ghost use Rattle.host_io.specs.Outside.{Rose};
ghost use Rattle.run_words.specs.declared.request.BadWords.TheVariants.{Form};
ghost use Rattle.run_words.specs.Words.{Asks, asked};
ghost use Rattle.mvrlu_run.specs.Outcome.{outside, Cause, IsComplete, IsPrinted, IsReadFault, NeverRead, Outcome, ReadsSets};

use crate::texts::{Made, make_text};
use host_io::{Files, Gate, Sink};
use run_ends::{Finish, LeftDomain, Ran, into_closed, report, send, status};
use run_words::{BadWords, read_words};
use std::alloc::Global;
use std::sync::Wait;
use std::thread::Threads;

/// Does what the words after the program's name ask for, and answers its status.
///
/// - 0: the whole text was written to `out`. Where scripts were run, `closed` is what is left of their domain.
/// - 2 exactly where the words are out of form.
/// - 3 exactly where a script is outside the grammar; its first faulty line is answered.
/// - 4 exactly where a number is beyond its limit: one of the words, the files, of which there are at most 64, the bytes
///   of a script, of which there are at most 1,048,576, or its commands, of which there are at most 65,536, as are the
///   steps of a plan.
/// - 5 only where opening or reading a file failed in this call, and no other call of `files`. The file is the one that is
///   named, by the first place of its name among the words, and the scripts before it are within the limits.
/// - 6 only where a call of `out` failed in this call; the bytes written are a prefix of the text.
/// - 7: want of memory, which may come at each point before the first write.
///
/// Each "exactly where" holds where nothing earlier was answered, in the order: the form of the words, their numbers,
/// and then for each file in order its opening and reading, its bytes, and its lines one by one. Where the status is
/// neither 0 nor 6, nothing is written to `out`: the whole text is made first, and each write offers all that is left
/// of it. Where the status is not 0, its line is written to `err`, as far as `err` takes it; a fault of `err` changes no
/// status. `closed` is `No` on every status but 0, and where a script is generated or a plan is replayed.
///
/// Scripts are run by one worker for each, script i as seat i of a domain of its own; the gate is called around each
/// command. Scripts of blocks are run likewise, each block as one entry or one read, and the gate is called around each
/// block. So are scripts on a growing set, whose seats split a bucket behind each second add that replied yes. A pool
/// does the commands of its one file, each on the seat that takes it next, and its lines have that seat and the
/// command's number in the file. A plan is replayed on no thread and by no domain: its steps are made one after another,
/// and the gate isn't called.
pub fn run_program<R: Threads + Wait + Sync, F: Files, O: Sink, E: Sink, G: Gate>(
    rt: &R,
    alloc: Global,
    words: &[String],
    files: &mut F,
    out: &mut O,
    err: &mut E,
    gate: &G,
) -> Ran
    // One way to end, with its status, what is left of the domain, its cause and its line on `err`.
    ensures outcome { let old = outside F.texts F.steady F.faults files.old O.written O.faults out.old in
        let new = outside F.texts F.steady F.faults files.new O.written O.faults out.new in
        Outcome (map string_bytes words.now) old new (E.written err.old) (E.written err.new) (E.faults err.old) (E.faults err.new) result }

    // Status 0: the text that is asked for is printed. That of a run over a domain is of the one history of it, which `closed` has.
    ensures printed { let old = outside F.texts F.steady F.faults files.old O.written O.faults out.old in
        let new = outside F.texts F.steady F.faults files.new O.written O.faults out.new in
        (asks : Asks) → asked (map string_bytes words.now) ≡ Ok asks → result.status ≡ 0 → IsPrinted asks old new result.closed }

    // Refusals come for these causes alone, and leave the output as it was.
    ensures usage { (result.status ≡ 2) ↔ (asked (map string_bytes words.now) ≡ Err Form) }
    ensures read { let old = outside F.texts F.steady F.faults files.old O.written O.faults out.old in
        let new = outside F.texts F.steady F.faults files.new O.written O.faults out.new in
        result.status ≡ 5
        → IsReadFault (map string_bytes words.now) old new (E.written err.old) (E.written err.new) (E.faults err.old) (E.faults err.new) }
    ensures write { result.status ≡ 6 → Rose (O.faults out.old) (O.faults out.new) }
    ensures untouched { result.status ≢ 0 → result.status ≢ 6 → O.written out.new ≡ O.written out.old }
    ensures lawful { ReadsSets result.closed }
    ensures none_closed { result.status ≢ 0 → result.closed ≡ LeftDomain.No }

    // Where the texts are told and nothing failed, the words and the scripts alone decide, but for want of memory.
    ensures complete { let old = outside F.texts F.steady F.faults files.old O.written O.faults out.old in
        let new = outside F.texts F.steady F.faults files.new O.written O.faults out.new in
        IsComplete (map string_bytes words.now) old new result.status }
{
    let finish = carry_out(rt, alloc, words, files, out, gate);
    report(err, &finish);
    let status = status(&finish);
    Ran {
        status,
        closed: into_closed(finish),
    }
}

// Does what the words ask for, and says how it ended.
fn carry_out<R: Threads + Wait + Sync, F: Files, O: Sink, G: Gate>(
    rt: &R,
    alloc: Global,
    words: &[String],
    files: &mut F,
    out: &mut O,
    gate: &G,
) -> Finish
    ensures cause { let old = outside F.texts F.steady F.faults files.old O.written O.faults out.old in
        let new = outside F.texts F.steady F.faults files.new O.written O.faults out.new in
        Cause result (map string_bytes words.now) old new }
    ensures never_read { NeverRead result (map string_bytes words.now) (outside F.texts F.steady F.faults files.old O.written O.faults out.old) }
{
    let request = match read_words(words) {
        Ok(request) => request,
        Err(BadWords::Form) => return Finish::Usage,
        Err(BadWords::Beyond(limit)) => return Finish::Limit(limit),
    };
    let Made { text, closed } = match make_text(rt, alloc, request, files, gate) {
        Ok(made) => made,
        Err(stop) => return Finish::Stopped(stop),
    };
    match send(out, &text) {
        Ok(()) => Finish::Done(closed),
        Err(_) => Finish::Write,
    }
}
