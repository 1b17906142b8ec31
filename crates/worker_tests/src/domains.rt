// Two scripts over a domain of two seats, from its opening to its meeting.
ghost use Rattle.std.specs.Prelude.{◌≡◌, ◌<◌, ◌≤◌, All, IfOk, length, replicate};
ghost use Rattle.mvrlu.specs.Meeting.{AreAll};
ghost use Rattle.mvrlu.specs.Opened.{IsOpened};
ghost use Rattle.set_model.specs.Objects.{no_words};
ghost use Rattle.set_model.specs.declared.script.TheConstants.{MOST_COMMANDS};

use crate::comparing::{assert_same, must};
use host_io::OpenGate;
use mv_history::LogTable;
use mv_layout::Config;
use mvrlu::{Closing, Domain, OpenFault, Seat, open_zeros};
use run_report::Line;
use script_domain::run_domain;
use section_work::Place;
use set_model::{Command, Name, Reply, SetRules};
use std::alloc::{AllocError, Global};
use std::process::Abort;
use std::sync::Wait;
use std::test::Fail;
use std::thread::Threads;

// Two seats, and times from 40 on.
const TWO: Config = Config {
    seats: 2,
    objects: 200,
    slots: 64,
    write_max: 16,
    low: 32,
    high: 48,
    base: 40,
};

// A domain of the sets of these numbers.
fn open_sets(alloc: Global, config: Config) -> Result<(Domain<SetRules>, Vec<Seat<SetRules>>), Fail>
    requires some { 180 < config.objects }
    requires few { config.objects < 65536 }
    ensures { IfOk result (λ r. IsOpened config (replicate config.objects no_words) r.0 r.1.items) }
{
    match open_zeros(alloc, config) {
        Ok(opened) => Ok(opened),
        Err(OpenFault::Memory) => Err(AllocError.into()),
        Err(OpenFault::Config(_)) => Err(Fail::new("the numbers are in range")),
    }
}

// Seats can't be let go, so they meet.
fn let_meet(domain: Domain<SetRules>, seats: Vec<Seat<SetRules>>)
    requires all { AreAll domain seats.items }
{
    let _ = domain.meet(seats);
}

type Ran = (Closing<SetRules>, Vec<Line>);

// Runs a script for each seat over a new domain of these numbers.
fn run_each<R: Threads + Wait + Sync>(
    rt: &R,
    alloc: Global,
    config: Config,
    scripts: &[Vec<Command>],
) -> Result<Ran, Fail>
    requires some { 180 < config.objects }
    requires few { config.objects < 65536 }
    requires most { 5 ≤ config.write_max }
    requires as_many { length scripts.now ≡ config.seats }
    requires short { All (λ script. length script.items ≤ MOST_COMMANDS) scripts.now }
{
    let (domain, seats) = open_sets(alloc, config)?;
    match run_domain(rt, alloc, domain, seats, scripts, &OpenGate) {
        Ok(ran) => Ok(ran),
        Err((domain, seats, error)) => {
            let_meet(domain, seats);
            Err(error.into())
        }
    }
}

// A script of an add to the first set, and one of an add and a question for the second.
fn two_scripts(alloc: Global) -> Result<Vec<Vec<Command>>, Fail>
    ensures as_many { IfOk result (λ scripts. length scripts.items ≡ 2) }
    ensures short { IfOk result (λ scripts. All (λ script. length script.items ≤ MOST_COMMANDS) scripts.items) }
{
    let first = Name::new(0).ok_or("0 is the index of a name")?;
    let second = Name::new(1).ok_or("1 is the index of a name")?;
    let short = vec![in alloc;
        Command::Add {
            name: first,
            key: 5
        },
    ]?;
    let long = vec![in alloc;
        Command::Add {
            name: second,
            key: 7
        },
        Command::Has {
            name: second,
            key: 7
        },
    ]?;
    Ok(vec![in alloc; short, long]?)
}

// The three lists of lines that can come. The commits are the two entries, in either order, and the read comes behind
// its own seat's.
static LINES: [[Line; 3]; 3] = [
    [
        Line {
            seat: 0,
            number: 1,
            place: Place::Commit(41),
            reply: Reply::Yes,
        },
        Line {
            seat: 1,
            number: 1,
            place: Place::Commit(42),
            reply: Reply::Yes,
        },
        Line {
            seat: 1,
            number: 2,
            place: Place::Read(42),
            reply: Reply::Yes,
        },
    ],
    [
        Line {
            seat: 0,
            number: 1,
            place: Place::Commit(42),
            reply: Reply::Yes,
        },
        Line {
            seat: 1,
            number: 1,
            place: Place::Commit(41),
            reply: Reply::Yes,
        },
        Line {
            seat: 1,
            number: 2,
            place: Place::Read(41),
            reply: Reply::Yes,
        },
    ],
    [
        Line {
            seat: 0,
            number: 1,
            place: Place::Commit(42),
            reply: Reply::Yes,
        },
        Line {
            seat: 1,
            number: 1,
            place: Place::Commit(41),
            reply: Reply::Yes,
        },
        Line {
            seat: 1,
            number: 2,
            place: Place::Read(42),
            reply: Reply::Yes,
        },
    ],
];

// Looks that it is one of them.
fn expect_lines(rt: &impl Abort, lines: &[Line]) {
    let can_come = LINES.iter().any(|can_come| lines == can_come.as_slice());
    must(rt, can_come, "lines that can come");
}

// Looks at the tables of the two logs: one commit of two objects each, and one or two objects for each attempt that met the other
// seat's and was given up.
fn expect_tables(rt: &impl Abort, tables: &[LogTable]) {
    for table in tables {
        let LogTable {
            live,
            freed,
            back: _,
            commits,
            aborts,
            rests,
        } = *table;
        assert_same(rt, &(commits, rests, freed), &(1, 0, 0), "counts");
        let given_up = live.saturating_sub(2);
        let fits = given_up >= aborts && given_up.saturating_sub(aborts) <= aborts;
        must(
            rt,
            live >= 2 && fits,
            "objects of attempts that were given up",
        );
    }
    assert_same(rt, &tables.len(), &2, "tables");
}

#[test]
fn two_scripts_make_one_history(rt: HostRuntime) -> Result<(), Fail> {
    let scripts = two_scripts(rt.alloc())?;
    let (closing, lines) = run_each(&rt, rt.alloc(), TWO, &scripts)?;
    assert_same(&rt, &closing.time(), &42, "the last time");
    expect_lines(&rt, &lines);
    expect_tables(&rt, closing.tables());
    Ok(())
}
