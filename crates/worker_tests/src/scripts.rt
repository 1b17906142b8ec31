// Scripts over a plain store, whose one seat has the number 0.
ghost use Rattle.std.specs.Prelude.{◌≡◌, ◌<◌, IfOk, length};
ghost use Rattle.plain_store.specs.Meaning.{seat_of};

use crate::comparing::assert_same;
use crate::reports::expect_lines;
use host_io::OpenGate;
use mv_history::WORDS;
use plain_store::PlainStore;
use run_report::Line;
use script_workers::run_scripts;
use section_work::Place;
use set_model::{Command, Name, Reply, SetRules};
use std::alloc::{AllocError, Global};
use std::sync::Wait;
use std::test::Fail;
use std::thread::Threads;

// A store of so many objects of zeros, whose times begin at 40.
fn open(alloc: Global, count: u32) -> Result<PlainStore<SetRules>, AllocError>
    requires some { 180 < count }
    requires few { count < 65536 }
    ensures number { IfOk result (λ store. (seat_of store).number ≡ 0) }
    ensures write_max { IfOk result (λ store. (seat_of store).write_max ≡ 16) }
{
    let zeros = vec![in alloc; [0; WORDS]; count as usize]?;
    PlainStore::new(alloc, &zeros, 40, 8)
}

// Adds a key twice, counts, takes it out, and counts again.
fn five(alloc: Global) -> Result<Vec<Command>, Fail>
    ensures { IfOk result (λ script. length script.items ≡ 5) }
{
    let name = Name::new(12).ok_or("12 is the index of a name")?;
    let key = 7;
    let add = Command::Add { name, key };
    let size = Command::Size { name };
    Ok(vec![in alloc; add, add, size, Command::Del { name, key }, size]?)
}

// Where each of them takes place, and its reply.
static DONE: [Line; 5] = [
    Line {
        seat: 0,
        number: 1,
        place: Place::Commit(41),
        reply: Reply::Yes,
    },
    Line {
        seat: 0,
        number: 2,
        place: Place::Read(41),
        reply: Reply::No,
    },
    Line {
        seat: 0,
        number: 3,
        place: Place::Read(41),
        reply: Reply::Count { count: 1 },
    },
    Line {
        seat: 0,
        number: 4,
        place: Place::Commit(42),
        reply: Reply::Yes,
    },
    Line {
        seat: 0,
        number: 5,
        place: Place::Read(42),
        reply: Reply::Count { count: 0 },
    },
];

// Runs a script over a new store. It answers how many stores come back, and the lines.
fn run<R: Threads + Wait + Sync>(
    rt: &R,
    alloc: Global,
    script: Vec<Command>,
) -> Result<(usize, Vec<Line>), Fail>
    requires { length script.items ≡ 5 }
{
    let scripts = vec![in alloc; script]?;
    let stores = vec![in alloc; open(alloc, 190)?]?;
    match run_scripts(rt, alloc, stores, &scripts, &OpenGate) {
        Ok((stores, lines)) => Ok((stores.len(), lines)),
        Err((_stores, error)) => Err(error.into()),
    }
}

#[test]
fn a_line_for_each_command_in_order(rt: HostRuntime) -> Result<(), Fail> {
    let (back, lines) = run(&rt, rt.alloc(), five(rt.alloc())?)?;
    assert_same(&rt, &back, &1, "stores");
    expect_lines(&rt, &lines, &DONE);
    Ok(())
}

#[test]
fn no_line_where_there_is_no_script(rt: HostRuntime) -> Result<(), Fail> {
    let alloc = rt.alloc();
    let stores: Vec<PlainStore<SetRules>> = Vec::new(alloc);
    let (stores, lines) = match run_scripts(&rt, alloc, stores, &[], &OpenGate) {
        Ok(ran) => ran,
        Err((_stores, error)) => return Err(error.into()),
    };
    let counts = (stores.len(), lines.len());
    assert_same(&rt, &counts, &(0, 0), "stores and lines");
    Ok(())
}
