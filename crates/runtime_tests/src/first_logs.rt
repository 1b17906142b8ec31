// A log of a new domain: a version is built and given up, and what became of one is noted.
ghost use Rattle.std.specs.Prelude.{◌≡◌, [], ◌+◌, ◌<◌, ◌≤◌, ◌^◌, length, None};
ghost use Rattle.mv_core.specs.EnterSteps.{MayLoadLow};
ghost use Rattle.mv_core.specs.Passes.{view, IsOf, IsSame, config_of};
ghost use Rattle.seat_log.specs.Notes.{next_of, IsBuilt};
ghost use Rattle.seat_log.specs.Stands.{Stands};
ghost use Rattle.seat_log.specs.Builds.{IsOpen};

use crate::comparing::assert_same;
use mv_core::{Pass, Shared, Steps};
use mv_history::{AnyRules, Protocol, Words};
use mv_layout::{Config, clock_time};
use seat_log::{
    Log, Note, build, clear_previous, drop_built, live, new_log, note, note_abort, note_commit,
    note_cut, note_held, note_rest, put_word, retire, room,
};
use std::alloc::{AllocError, Global};
use std::marker::Brand;
use std::sync::ledger::{Blank, Ledger};
use std::test::Fail;

const WORDS: Words = [1, 2, 3, 4, 5, 6];

// Begins a section.
fn begin<L: Ledger>(
    shared: &Shared<AnyRules>,
    pass: &mut Pass<AnyRules>,
    log: &Log,
    steps: &mut Steps<L>,
)
    requires of { IsOf shared.now pass.old }
    requires may { MayLoadLow (view pass.old) }
    requires stands { Stands (config_of shared.now) (view pass.old) log.now }
    ensures same { IsSame pass.old pass.new }
    ensures open { IsOpen (view pass.new) }
    ensures stands { Stands (config_of shared.now) (view pass.new) log.now }
{
    let _ = log;
    let low = shared.load_low(pass, steps);
    shared.store_mark(pass, clock_time(low), steps);
    let _ = shared.load_time(pass, steps);
}

// Builds a version, changes it, and gives it up. It answers its position, and the room before and
// after it was given up.
fn build_and_drop<L: Ledger>(
    shared: &Shared<AnyRules>,
    pass: &mut Pass<AnyRules>,
    log: &mut Log,
    steps: &mut Steps<L>,
) -> (u64, u32, u32)
    requires of { IsOf shared.now pass.old }
    requires stands { Stands (config_of shared.now) (view pass.old) log.old }
    requires open { IsOpen (view pass.old) }
    requires unbuilt { log.old.built ≡ None }
    requires room { length log.old.live < log.old.slots }
    ensures same { IsSame pass.old pass.new }
    ensures position { result.0 ≡ next_of log.old }
    ensures stands { Stands (config_of shared.now) (view pass.new) log.new }
    ensures open { IsOpen (view pass.new) }
    ensures log { log.new ≡ log.old }
{
    let position = build(shared, pass, log, 0, 7, WORDS, steps);
    let full = room(log);
    clear_previous(shared, pass, log, position, steps);
    put_word(shared, pass, log, position, 2, 9, steps);
    drop_built(log, position);
    (position, full, room(log))
}

// The same, and then a version that is built in its place, in a section of seat 0.
fn build_again<L: Ledger>(
    shared: &Shared<AnyRules>,
    pass: &mut Pass<AnyRules>,
    log: &mut Log,
    steps: &mut Steps<L>,
) -> (u64, u32, u32, u64)
    requires of { IsOf shared.now pass.old }
    requires may { MayLoadLow (view pass.old) }
    requires stands { Stands (config_of shared.now) (view pass.old) log.old }
    requires unbuilt { log.old.built ≡ None }
    requires room { length log.old.live < log.old.slots }
    ensures built { IsBuilt log.new result.3 }
    ensures position { result.3 ≡ next_of log.new }
    ensures notes { (log.new.live ≡ log.old.live) × (log.new.held ≡ log.old.held) × (log.new.freed ≡ log.old.freed)
        × (log.new.back ≡ log.old.back) × (log.new.rests ≡ log.old.rests) }
{
    begin(shared, pass, log, steps);
    let (position, full, free) = build_and_drop(shared, pass, log, steps);
    (
        position,
        full,
        free,
        build(shared, pass, log, 0, 7, WORDS, steps),
    )
}

// What is noted of a version that is committed, and then dead.
fn committed_note(log: &mut Log, position: u64) -> (Note, u32)
    requires built { IsBuilt log.old position }
    requires position { position ≡ next_of log.old }
    requires first { log.old.live ≡ [] }
    requires back { log.old.back ≡ 0 }
    requires rests { log.old.rests ≡ 0 }
{
    note_held(log, position);
    note_commit(log, 5);
    retire(log, position, 8);
    note_cut(log);
    note_rest(log);
    (note(log, 0), live(log))
}

// What is noted of a version that is aborted.
fn aborted_note(log: &mut Log, position: u64) -> (Note, u32)
    requires built { IsBuilt log.old position }
    requires first { log.old.live ≡ [] }
{
    note_held(log, position);
    note_abort(log, 3);
    (note(log, 0), live(log))
}

// A section of seat 0 of a new domain that builds a version, which is then noted as committed or as
// aborted.
fn first_section<L: Ledger>(
    alloc: Global,
    blank: Blank,
    commits: bool,
) -> Result<((u64, u32, u32, u64), (Note, u32)), AllocError>
    requires name { blank.name ≡ L.name }
    requires parts { (blank.parts ≡ L.parts) × (0 < L.parts) }
{
    let config = Config {
        seats: 2,
        objects: 1,
        slots: 64,
        write_max: 1,
        low: 1,
        high: 1,
        base: 0,
    };
    let (shared, mut passes) = Shared::<AnyRules>::new(alloc, &config, &[[0; 6]])?;
    let mut log = new_log(alloc, &config, 0)?;
    let mut steps = Steps::<L>::open(blank);
    let built = build_again(&shared, &mut passes[0], &mut log, &mut steps);
    let noted = if commits {
        committed_note(&mut log, built.3)
    } else {
        aborted_note(&mut log, built.3)
    };
    Ok((built, noted))
}

#[test]
fn a_version_is_built_again(rt: HostRuntime) -> Result<(), Fail> {
    let (built, _) = first_section::<Brand>(rt.alloc(), Blank::new(1), true)?;
    assert_same(&rt, &built, &(0, 63, 64, 0), "what is built");
    Ok(())
}

#[test]
fn a_commit_is_noted(rt: HostRuntime) -> Result<(), Fail> {
    let (_, noted) = first_section::<Brand>(rt.alloc(), Blank::new(1), true)?;
    let note = Note {
        position: 0,
        first: 0,
        object: 0,
        previous: 7,
        words: WORDS,
        time: 5,
        dead: 8,
    };
    assert_same(&rt, &noted, &(note, 1), "the note of a commit");
    Ok(())
}

#[test]
fn an_abort_is_noted(rt: HostRuntime) -> Result<(), Fail> {
    let (_, noted) = first_section::<Brand>(rt.alloc(), Blank::new(1), false)?;
    let note = Note {
        position: 0,
        first: 0,
        object: 0,
        previous: 7,
        words: WORDS,
        time: 0,
        dead: 3,
    };
    assert_same(&rt, &noted, &(note, 1), "the note of an abort");
    Ok(())
}

fn must_send<T: Send>(it: T) -> T {
    it
}

fn must_share<T: Sync>(_: &T) {}

// The words of a domain are shared by threads; a pass and its log may go to one.
fn goes_to_a_thread<P: Protocol + Send + Sync>(
    shared: &Shared<P>,
    pass: Pass<P>,
    log: Log,
) -> (Pass<P>, Log) {
    must_share(shared);
    (must_send(pass), must_send(log))
}

// Opens a domain, and answers the seat of a pass and the live slots of its log once both were sent.
fn sent(alloc: Global) -> Result<Option<(u32, u32)>, AllocError> {
    let config = Config {
        seats: 1,
        objects: 1,
        slots: 64,
        write_max: 16,
        low: 32,
        high: 48,
        base: 0,
    };
    let (shared, mut passes) = Shared::<AnyRules>::new(alloc, &config, &[[0; 6]])?;
    let log = new_log(alloc, &config, 0)?;
    let Some(pass) = passes.pop() else {
        return Ok(None);
    };
    let (pass, log) = goes_to_a_thread(&shared, pass, log);
    Ok(Some((pass.seat(), live(&log))))
}

#[test]
fn a_pass_and_its_log_go_to_a_thread(rt: HostRuntime) -> Result<(), Fail> {
    assert_same(&rt, &sent(rt.alloc())?, &Some((0, 0)), "seat and slots");
    Ok(())
}
