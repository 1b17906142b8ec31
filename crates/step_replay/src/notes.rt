// The notes of a seat's log.
ghost use Rattle.std.specs.Prelude.{◌≡◌, ◌+◌, ◌<◌, length, slice_index, slice_set, OnOk, IfOk};
ghost use Rattle.replay_text.specs.replay_rules.SeatNotes.{passes, first_from, first_behind, version_at, held, place_held, holds, live, dead_count, edited};
ghost use Rattle.replay_text.specs.replay_rules.SeatNotes.{edited_from, applied};

use mv_history::{WORDS, Words};
use replay_text::replay_rules::{Edit, NotedVersion, State, Test};
use std::alloc::AllocError;

// Whether a version is what is looked for.
fn passes(test: Test, version: &NotedVersion) -> bool
    ensures { result ≡ passes test version.now }
{
    match test {
        Test::IsOf { object } => version.object == object,
        Test::IsUntimed => version.dead == 0,
        Test::IsLinked => version.previous != 0,
        Test::IsDeadAbove { time } => version.dead > time,
        Test::EndsSet { first, time } => {
            version.first != first || version.dead == 0 || version.dead > time
        }
    }
}

/// The position of the first version from one on that is what is looked for, or the next position where none is.
pub fn first_from(log: &[NotedVersion], from: usize, test: Test) -> usize
    ensures { result ≡ first_from log.now from test }
{
    for at in from..log.len() {
        if passes(test, &log[at]) {
            return at;
        }
    }
    log.len()
}

/// The same behind a position.
pub fn first_behind(log: &[NotedVersion], at: usize, test: Test) -> usize
    ensures { result ≡ first_behind log.now at test }
{
    if at < log.len() {
        first_from(log, at + 1, test)
    } else {
        log.len()
    }
}

/// The version at a position.
pub fn version_at(log: &[NotedVersion], at: usize) -> NotedVersion
    ensures { result ≡ version_at log.now at }
{
    match log.get(at) {
        Some(version) => *version,
        None => NotedVersion {
            first: 0,
            object: 0,
            previous: 0,
            words: [0; WORDS],
            time: 0,
            dead: 0,
            above: None,
        },
    }
}

/// A word of six.
pub fn word_of(words: &Words, word: u32) -> u64
    ensures { result ≡ slice_index words.now word }
{
    match word {
        0..6 => words[word as usize],
        _ => 0,
    }
}

/// Six words with another one.
pub fn with_word(words: Words, word: u32, value: u64) -> Words
    ensures { result ≡ slice_set words word value }
{
    let mut changed = words;
    if word < 6 {
        changed[word as usize] = value;
    }
    changed
}

/// How many versions the section holds.
pub fn held(log: &[NotedVersion], state: &State) -> usize
    ensures { result ≡ held log.now state.now }
{
    log.len().saturating_sub(state.from)
}

/// The position of the section's version of an object, or the next position where it doesn't hold the object.
pub fn place_held(log: &[NotedVersion], state: &State, object: u32) -> usize
    ensures { result ≡ place_held log.now state.now object }
{
    first_from(log, state.from, Test::IsOf { object })
}

/// Whether the section holds the object.
pub fn holds(log: &[NotedVersion], state: &State, object: u32) -> bool
    ensures { result ≡ holds log.now state.now object }
{
    place_held(log, state, object) < log.len()
}

/// How many versions are live.
pub fn live(log: &[NotedVersion], state: &State) -> usize
    ensures { result ≡ live log.now state.now }
{
    log.len().saturating_sub(state.freed)
}

/// How many versions the oldest write set has, where all of them are dead at this time, and else 0.
pub fn dead_count(log: &[NotedVersion], state: &State, time: u64) -> usize
    ensures { result ≡ dead_count log.now state.now time }
{
    let freed = state.freed;
    let end = first_from(log, freed, Test::EndsSet { first: freed, time });
    if end < log.len() && version_at(log, end).first == freed {
        return 0;
    }
    end.saturating_sub(freed)
}

// The version with what a step changes in it, at this position.
fn edited(edit: Edit, place: usize, version: NotedVersion) -> NotedVersion
    ensures { result ≡ edited edit place version }
{
    match edit {
        Edit::WordPut { at, word, value } if at == place => NotedVersion {
            words: with_word(version.words, word, value),
            ..version
        },
        Edit::CommittedFrom { from, time } if from <= place => NotedVersion { time, ..version },
        Edit::AbortedFrom { from, dead } if from <= place => NotedVersion { dead, ..version },
        Edit::Retired { at, dead } if at == place => NotedVersion { dead, ..version },
        Edit::AboveNoted { at, seat } if at == place => NotedVersion {
            above: seat,
            ..version
        },
        _ => version,
    }
}

// Each version with what a step changes in it.
fn edit_all(log: &mut Vec<NotedVersion>, edit: Edit)
    ensures { log.new.items ≡ edited_from edit 0 log.old.items }
{
    for at in 0..log.len() {
        log[at] = edited(edit, at, log[at]);
    }
}

/// Changes the notes so.
pub fn apply(log: &mut Vec<NotedVersion>, edit: Edit) -> Result<(), AllocError>
    ensures { OnOk result (log.new.items ≡ applied edit log.old.items) }
{
    match edit {
        Edit::Kept => Ok(()),
        Edit::Pushed(version) => {
            log.push(version)?;
            Ok(())
        }
        _ => {
            edit_all(log, edit);
            Ok(())
        }
    }
}
