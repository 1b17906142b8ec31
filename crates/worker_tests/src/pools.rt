// Pools over plain stores, each of which is the one seat of its own history.
ghost use Rattle.std.specs.Prelude.{◌≡◌, ◌<◌, ◌≤◌, All, IfOk, length};
ghost use Rattle.plain_store.specs.Meaning.{seat_of};

use crate::comparing::{assert_same, must};
use command_pool::run_pool;
use host_io::{Gate, OpenGate};
use mv_history::WORDS;
use plain_store::PlainStore;
use run_report::Line;
use section_work::Place;
use set_model::{Command, Name, Reply, SetRules};
use std::alloc::{AllocError, Global};
use std::process::Abort;
use std::sync::{Mutex, Wait};
use std::test::Fail;
use std::thread::Threads;

// A store of so many objects of zeros, whose times begin at 0, with room for 300 commits.
fn open(alloc: Global, count: u32) -> Result<PlainStore<SetRules>, AllocError>
    requires some { 180 < count }
    requires few { count < 65536 }
    ensures write_max { IfOk result (λ store. (seat_of store).write_max ≡ 16) }
{
    let zeros = vec![in alloc; [0; WORDS]; count as usize]?;
    PlainStore::new(alloc, &zeros, 0, 300)
}

// One, two or three such stores.
fn open_one(alloc: Global) -> Result<Vec<PlainStore<SetRules>>, Fail>
    ensures count { IfOk result (λ stores. length stores.items ≡ 1) }
    ensures write_max { IfOk result (λ stores. All (λ store. (seat_of store).write_max ≡ 16) stores.items) }
{
    Ok(vec![in alloc; open(alloc, 500)?]?)
}

fn open_two(alloc: Global) -> Result<Vec<PlainStore<SetRules>>, Fail>
    ensures count { IfOk result (λ stores. length stores.items ≡ 2) }
    ensures write_max { IfOk result (λ stores. All (λ store. (seat_of store).write_max ≡ 16) stores.items) }
{
    let first = open(alloc, 500)?;
    let second = open(alloc, 500)?;
    Ok(vec![in alloc; first, second]?)
}

fn open_three(alloc: Global) -> Result<Vec<PlainStore<SetRules>>, Fail>
    ensures count { IfOk result (λ stores. length stores.items ≡ 3) }
    ensures write_max { IfOk result (λ stores. All (λ store. (seat_of store).write_max ≡ 16) stores.items) }
{
    let first = open(alloc, 500)?;
    let second = open(alloc, 500)?;
    let third = open(alloc, 500)?;
    Ok(vec![in alloc; first, second, third]?)
}

// Does the commands in a pool of these stores. It answers how many stores come back, and the lines.
fn run<R: Threads + Wait + Sync, G: Gate>(
    rt: &R,
    alloc: Global,
    stores: Vec<PlainStore<SetRules>>,
    commands: &[Command],
    gate: &G,
) -> Result<(usize, Vec<Line>), Fail>
    requires some { 1 ≤ length stores.items }
    requires few { length stores.items ≤ 3 }
    requires short { length commands.now ≤ 300 }
    requires write_max { All (λ store. (seat_of store).write_max ≡ 16) stores.items }
{
    match run_pool(rt, alloc, stores, commands, gate) {
        Ok((stores, lines)) => Ok((stores.len(), lines)),
        Err((_stores, error)) => Err(error.into()),
    }
}

// Four commands on a set.
fn four() -> Result<[Command; 4], Fail> {
    let name = Name::new(1).ok_or("1 is the index of a name")?;
    Ok([
        Command::Add { name, key: 1 },
        Command::Add { name, key: 3 },
        Command::Has { name, key: 2 },
        Command::Del { name, key: 3 },
    ])
}

// Where each of them takes place, and its reply.
static DONE: [Line; 4] = [
    Line {
        seat: 0,
        number: 1,
        place: Place::Commit(1),
        reply: Reply::Yes,
    },
    Line {
        seat: 0,
        number: 2,
        place: Place::Commit(2),
        reply: Reply::Yes,
    },
    Line {
        seat: 0,
        number: 3,
        place: Place::Read(2),
        reply: Reply::No,
    },
    Line {
        seat: 0,
        number: 4,
        place: Place::Commit(3),
        reply: Reply::Yes,
    },
];

// Looks that these are the lines.
fn expect_lines(rt: &impl Abort, found: &[Line], want: &[Line]) {
    assert_same(rt, &found, &want, "lines");
}

#[test]
fn one_store_does_all_in_order(rt: HostRuntime) -> Result<(), Fail> {
    let commands = four()?;
    let stores = open_one(rt.alloc())?;
    let (back, lines) = run(&rt, rt.alloc(), stores, &commands, &OpenGate)?;
    assert_same(&rt, &back, &1, "stores");
    expect_lines(&rt, &lines, &DONE);
    Ok(())
}

#[test]
fn no_commands_have_no_lines(rt: HostRuntime) -> Result<(), Fail> {
    let stores = open_two(rt.alloc())?;
    let (back, lines) = run(&rt, rt.alloc(), stores, &[], &OpenGate)?;
    assert_same(&rt, &(back, lines.len()), &(2, 0), "stores and lines");
    Ok(())
}

// Adds of the keys 0 to `count - 1` to `l0`.
fn adds(alloc: Global, count: u32) -> Result<Vec<Command>, Fail>
    requires { count ≤ 300 }
    ensures { IfOk result (λ commands. length commands.items ≡ count) }
{
    let Some(name) = Name::new(0) else {
        return Err(Fail::new("0 is the index of a name"));
    };
    let mut commands = Vec::with_capacity(alloc, count as usize)?;
    for key in 0..count {
        commands.push_reserved(Command::Add { name, key });
    }
    Ok(commands)
}

// How often a yes to this command is among them.
fn count_yes(lines: &[Line], number: u32) -> usize {
    lines
        .iter()
        .filter(|one| one.number == number && one.reply == Reply::Yes)
        .count()
}

#[test]
fn three_stores_do_each_of_300_commands_once(rt: HostRuntime) -> Result<(), Fail> {
    let commands = adds(rt.alloc(), 300)?;
    let stores = open_three(rt.alloc())?;
    let (back, lines) = run(&rt, rt.alloc(), stores, &commands, &OpenGate)?;
    assert_same(&rt, &(back, lines.len()), &(3, 300), "stores and lines");
    for number in 1..301 {
        let found = (number, count_yes(&lines, number));
        assert_same(&rt, &found, &(number, 1), "how often a command is done");
    }
    Ok(())
}

// How often a held worker looks whether the others are done.
const TURNS: u32 = 1_000_000;

#[derive(Drop)]
struct Seen {
    others_done: u32,
    ran_out: bool,
}

// It holds one command until four others are done.
#[derive(Drop)]
struct HoldGate<'r, R: Wait> {
    rt: &'r R,
    held: u32,
    seen: Mutex<Seen>,
}

impl<'r, R: Wait + Sync> Gate for HoldGate<'r, R> {
    fn before(&self, _seat: u32, number: u32) {
        if number != self.held {
            return;
        }
        for _ in 0..TURNS {
            if self.seen.lock(self.rt).others_done == 4 {
                return;
            }
        }
        self.seen.lock(self.rt).ran_out = true;
    }

    fn after(&self, _seat: u32, number: u32) {
        if number != self.held {
            let mut seen = self.seen.lock(self.rt);
            seen.others_done = seen.others_done.wrapping_add(1);
        }
    }
}

// Two stores do five commands, of which this one waits for all others.
fn hold<R: Threads + Wait + Abort + Sync>(rt: &R, alloc: Global, held: u32) -> Result<(), Fail> {
    let commands = adds(alloc, 5)?;
    let gate = HoldGate {
        rt,
        held,
        seen: Mutex::new(Seen {
            others_done: 0,
            ran_out: false,
        }),
    };
    let (_back, lines) = run(rt, alloc, open_two(alloc)?, &commands, &gate)?;
    assert_same(rt, &lines.len(), &5, "lines");
    let HoldGate {
        rt: _,
        held: _,
        seen,
    } = gate;
    let waited = !seen.into_inner().ran_out;
    must(
        rt,
        waited,
        "each of two workers takes a command while the other one is held",
    );
    Ok(())
}

#[test]
fn a_held_command_waits_for_all_others(rt: HostRuntime) -> Result<(), Fail> {
    hold(&rt, rt.alloc(), 1)?;
    hold(&rt, rt.alloc(), 2)
}
