// Reading a log's notes, and noting what became of its versions.
ghost use Rattle.std.specs.Prelude.{◌≡◌, ◌+◌, ◌<◌, ◌≤◌, ◌^◌, length, IfOk, None};
ghost use Rattle.std.specs.VecDeque.{deque_len, deque_capacity};
ghost use Rattle.mv_layout.specs.Limits.{Checked};
ghost use Rattle.seat_log.specs.declared.version.Note.{Note};
ghost use Rattle.seat_log.specs.Notes.{next_of, built_count, IsNoteAt, IsBuilt, IsLive, nothing_noted, dropped, held_noted, from_place};
ghost use Rattle.seat_log.specs.Notes.{committed_noted, aborted_noted, retired, back_noted, rest_noted};

use crate::log::Log;
use crate::version::Note;
use mv_layout::Config;
use std::alloc::{AllocError, Global};
use std::collections::VecDeque;

/// A log with nothing in it, for this seat of a domain with these numbers. It takes all its memory
/// here, and refuses only for want of it.
pub fn new_log(alloc: Global, config: &Config, seat: u32) -> Result<Log, AllocError>
    requires checked { Checked config.now }
    requires range { seat < config.now.seats }
    ensures { IfOk result (λ l. l ≡ nothing_noted seat config.now.slots) }
{
    let live = VecDeque::with_capacity(alloc, config.slots as usize)?;
    Ok(Log {
        seat,
        slots: config.slots,
        live,
        built: None,
        held: 0,
        freed: 0,
        back: 0,
        commits: 0,
        aborts: 0,
        rests: 0,
    })
}

/// How many slots are free. A slot whose built version was given up is among them.
pub fn room(log: &Log) -> u32
    ensures { result + length log.now.live + built_count log.now.built ≡ log.now.slots }
{
    let built = if log.built.is_some() { 1 } else { 0 };
    log.slots - log.live.len() as u32 - built
}

/// How many versions are live.
pub fn live(log: &Log) -> u32
    ensures { result ≡ length log.now.live }
{
    log.live.len() as u32
}

/// How many of the live versions, the last ones, are held.
pub fn held(log: &Log) -> u32
    ensures held { result ≡ log.now.held }
    ensures few { result ≤ length log.now.live }
{
    log.held
}

/// The live version at this index, from the oldest on.
pub fn note(log: &Log, index: u32) -> Note
    requires { index < length log.now.live }
    ensures { IsNoteAt log.now index result }
{
    log.live[index as usize]
}

/// Takes the built version, which was never in a chain, out of the notes. Its position is used
/// again by the next that is built.
pub fn drop_built(log: &mut Log, position: u64)
    requires built { IsBuilt log.old position }
    ensures { log.new ≡ dropped log.old }
{
    let _ = position;
    log.built = None;
}

/// Notes that the built version is held.
pub fn note_held(log: &mut Log, position: u64)
    requires built { IsBuilt log.old position }
    ensures { log.new ≡ held_noted log.old }
{
    let _ = position;
    if let Some(note) = log.built {
        log.live.push_back_reserved(note);
        log.built = None;
        log.held += 1;
    }
}

// The time of each note from a place on.
fn set_times(live: &mut VecDeque<Note, Global>, from: usize, time: u64)
    requires { from ≤ deque_len live.old }
    ensures items { live.new.items ≡ from_place (λ n. record n { time = time }) from live.old.items }
    ensures capacity { deque_capacity live.new ≡ deque_capacity live.old }
{
    for i in from..live.len() {
        live[i].time = time;
    }
}

// The time of death of each note from a place on.
fn set_deaths(live: &mut VecDeque<Note, Global>, from: usize, dead: u64)
    requires { from ≤ deque_len live.old }
    ensures items { live.new.items ≡ from_place (λ n. record n { dead = dead }) from live.old.items }
    ensures capacity { deque_capacity live.new ≡ deque_capacity live.old }
{
    for i in from..live.len() {
        live[i].dead = dead;
    }
}

/// Notes that all held versions are committed at this time, and counts a commit. Something is held,
/// and nothing is being built.
pub fn note_commit(log: &mut Log, time: u64)
    requires some_held { 0 < log.old.held }
    requires unbuilt { log.old.built ≡ None }
    ensures { log.new ≡ committed_noted log.old time }
{
    let from = log.live.len() - log.held as usize;
    set_times(&mut log.live, from, time);
    log.held = 0;
    log.commits += 1;
}

/// Notes that all held versions are aborted and dead from this time on, and counts an abort where
/// something was held. Nothing is being built.
pub fn note_abort(log: &mut Log, dead: u64)
    requires unbuilt { log.old.built ≡ None }
    ensures { log.new ≡ aborted_noted log.old dead }
{
    if log.held == 0 {
        return;
    }
    let from = log.live.len() - log.held as usize;
    set_deaths(&mut log.live, from, dead);
    log.held = 0;
    log.aborts += 1;
}

/// Notes from which time on the live version at a position is dead.
pub fn retire(log: &mut Log, position: u64, dead: u64)
    requires live { IsLive log.old position }
    ensures { log.new ≡ retired log.old position dead }
{
    let at = (position - log.freed) as usize;
    log.live[at].dead = dead;
}

/// Counts a finished write-back. There are fewer so far than versions that were ever in a chain.
pub fn note_cut(log: &mut Log)
    requires { log.old.back < next_of log.old }
    ensures { log.new ≡ back_noted log.old }
{
    log.back += 1;
}

/// Counts a rest.
pub fn note_rest(log: &mut Log)
    requires { log.old.rests + 1 < 2 ^ 63 }
    ensures { log.new ≡ rest_noted log.old }
{
    log.rests += 1;
}
