// Building a version in the next slot of the own log.
ghost use Rattle.std.specs.Prelude.{◌≡◌, ◌⊎◌, ℕ, ◌+◌, ◌<◌, ◌^◌, ◌==◌, if◌then◌else◌, length, None};
ghost use Rattle.mv_layout.specs.Words.{unset_of};
ghost use Rattle.reader_marks.specs.mv_core.Passes.{view, IsOf, IsOwnSlot, IsSame, config_of};
ghost use Rattle.reader_marks.specs.mv_core.LockSteps.{FitsField};
ghost use Rattle.seat_log.specs.Notes.{IsBuilt, next_of, first_of, next_note, built_noted, without_previous, cleared, IsHeld};
ghost use Rattle.seat_log.specs.Notes.{built_word_noted, word_noted};
ghost use Rattle.seat_log.specs.Stands.{Stands};
ghost use Rattle.seat_log.specs.Builds.{IsOpen, MayBuild, first_in, stored_next, begun, linked, words_stored, slot_built, build_cost, word_stored, ChangesLog};

use crate::log::Log;
use crate::version::Note;
use mv_history::{Protocol, Words};
use mv_layout::{
    DATA_OFFSET, FIRST_OFFSET, PREV_OFFSET, STAMP_OFFSET, SUPER_OFFSET, WIDTH, unset_stamp,
};
use reader_marks::mv_core::{Pass, Shared, Steps};
use std::sync::ledger::Ledger;

// Stores one word of the version that is built, whose slot begins at this cell.
fn store_next<P: Protocol, L: Ledger>(
    shared: &Shared<P>,
    pass: &mut Pass<P>,
    position: u64,
    slot: u32,
    field: u32,
    value: u64,
    steps: &mut Steps<L>,
)
    requires of { IsOf shared.now pass.old }
    requires slot { IsOwnSlot (config_of shared.now) pass.old position slot }
    requires may { MayBuild (config_of shared.now) (view pass.old) position }
    requires fits { FitsField (first_in (view pass.old)) position field value }
    ensures same { IsSame pass.old pass.new }
    ensures may { MayBuild (config_of shared.now) (view pass.new) position }
    ensures first { first_in (view pass.new) ≡ first_in (view pass.old) }
    ensures view { view pass.new ≡ stored_next (config_of shared.now) (view pass.old) position field value }
    ensures range { position < 2 ^ 57 }
    ensures step { steps.new ≡ steps.old + 1 }
{
    shared.store_built(pass, position, slot, field, value, steps);
}

// Stores FIRST, and STAMP in the first slot of the write set.
fn begin_slot<P: Protocol, L: Ledger>(
    shared: &Shared<P>,
    pass: &mut Pass<P>,
    position: u64,
    slot: u32,
    first: u64,
    steps: &mut Steps<L>,
)
    requires of { IsOf shared.now pass.old }
    requires slot { IsOwnSlot (config_of shared.now) pass.old position slot }
    requires may { MayBuild (config_of shared.now) (view pass.old) position }
    requires first { first ≡ first_in (view pass.old) }
    ensures same { IsSame pass.old pass.new }
    ensures may { MayBuild (config_of shared.now) (view pass.new) position }
    ensures view { view pass.new ≡ begun (config_of shared.now) (view pass.old) position first }
    ensures range { position < 2 ^ 57 }
    ensures cost { steps.new ≡ steps.old + (if first == position then 2 else 1) }
{
    store_next(shared, pass, position, slot, FIRST_OFFSET, first, steps);
    if first == position {
        store_next(
            shared,
            pass,
            position,
            slot,
            STAMP_OFFSET,
            unset_stamp(position),
            steps,
        );
    }
}

// Then stores PREV, and SUPER 0.
fn link_slot<P: Protocol, L: Ledger>(
    shared: &Shared<P>,
    pass: &mut Pass<P>,
    position: u64,
    slot: u32,
    first: u64,
    previous: u64,
    steps: &mut Steps<L>,
)
    requires of { IsOf shared.now pass.old }
    requires slot { IsOwnSlot (config_of shared.now) pass.old position slot }
    requires may { MayBuild (config_of shared.now) (view pass.old) position }
    requires first { first ≡ first_in (view pass.old) }
    ensures same { IsSame pass.old pass.new }
    ensures may { MayBuild (config_of shared.now) (view pass.new) position }
    ensures view { view pass.new ≡ linked (config_of shared.now) (view pass.old) position first previous }
    ensures range { position < 2 ^ 57 }
    ensures cost { steps.new ≡ steps.old + (if first == position then 4 else 3) }
{
    begin_slot(shared, pass, position, slot, first, steps);
    store_next(shared, pass, position, slot, PREV_OFFSET, previous, steps);
    store_next(shared, pass, position, slot, SUPER_OFFSET, 0, steps);
}

// Stores the six data words.
fn store_words<P: Protocol, L: Ledger>(
    shared: &Shared<P>,
    pass: &mut Pass<P>,
    position: u64,
    slot: u32,
    words: &Words,
    steps: &mut Steps<L>,
)
    requires of { IsOf shared.now pass.old }
    requires slot { IsOwnSlot (config_of shared.now) pass.old position slot }
    requires may { MayBuild (config_of shared.now) (view pass.old) position }
    ensures same { IsSame pass.old pass.new }
    ensures view { view pass.new ≡ words_stored (config_of shared.now) (view pass.old) position words.now 6 }
    ensures wide { length words.now ≡ 6 }
    ensures cost { steps.new ≡ steps.old + 6 }
{
    for word in 0..WIDTH {
        store_next(
            shared,
            pass,
            position,
            slot,
            DATA_OFFSET + word,
            words[word as usize],
            steps,
        );
    }
}

/// Builds a version of an object in the next slot of the own log, in an open section: stores FIRST,
/// STAMP in the first slot of the write set, PREV, SUPER 0 and the six data words, in that order. It
/// answers the position, which is not yet in a chain, and notes the version as built. There is room,
/// and nothing else is being built. It makes ten steps, and nine where something is held.
pub fn build<P: Protocol, L: Ledger>(
    shared: &Shared<P>,
    pass: &mut Pass<P>,
    log: &mut Log,
    object: u32,
    previous: u64,
    words: Words,
    steps: &mut Steps<L>,
) -> u64
    requires of { IsOf shared.now pass.old }
    requires stands { Stands (config_of shared.now) (view pass.old) log.old }
    requires open { IsOpen (view pass.old) }
    requires unbuilt { log.old.built ≡ None }
    requires room { length log.old.live < log.old.slots }
    ensures same { IsSame pass.old pass.new }
    ensures stands { Stands (config_of shared.now) (view pass.new) log.new }
    ensures position { result ≡ next_of log.old }
    ensures range { result < 2 ^ 57 }
    ensures log { log.new ≡ built_noted log.old (next_note log.old object previous words) }
    ensures view { view pass.new ≡ slot_built (config_of shared.now) (view pass.old) (next_of log.old) (first_of log.old) previous words }
    ensures rest { ChangesLog (view pass.old) (view pass.new) }
    ensures cost { steps.new ≡ steps.old + build_cost (next_of log.old) (first_of log.old) }
{
    let position = log.freed + log.live.len() as u64;
    let first = position - log.held as u64;
    let slot = shared.own_slot(pass, position);
    link_slot(shared, pass, position, slot, first, previous, steps);
    store_words(shared, pass, position, slot, &words, steps);
    log.built = Some(Note {
        position,
        first,
        object,
        previous,
        words,
        time: 0,
        dead: 0,
    });
    position
}

// The built version with PREV 0.
fn clear_note_previous(built: Option<Note>) -> Option<Note>
    ensures { result ≡ without_previous built }
{
    let mut note = built?;
    note.previous = 0;
    Some(note)
}

/// Stores 0 into PREV of the version that was built for this position, in an open section: one step.
pub fn clear_previous<P: Protocol, L: Ledger>(
    shared: &Shared<P>,
    pass: &mut Pass<P>,
    log: &mut Log,
    position: u64,
    steps: &mut Steps<L>,
)
    requires of { IsOf shared.now pass.old }
    requires stands { Stands (config_of shared.now) (view pass.old) log.old }
    requires open { IsOpen (view pass.old) }
    requires built { IsBuilt log.old position }
    ensures same { IsSame pass.old pass.new }
    ensures stands { Stands (config_of shared.now) (view pass.new) log.new }
    ensures log { log.new ≡ cleared log.old }
    ensures view { view pass.new ≡ stored_next (config_of shared.now) (view pass.old) position PREV_OFFSET 0 }
    ensures rest { ChangesLog (view pass.old) (view pass.new) }
    ensures step { steps.new ≡ steps.old + 1 }
{
    let slot = shared.own_slot(pass, position);
    store_next(shared, pass, position, slot, PREV_OFFSET, 0, steps);
    log.built = clear_note_previous(log.built);
}

/// Stores a data word of the version at a position, which is built or held, in an open section: one
/// step.
pub fn put_word<P: Protocol, L: Ledger>(
    shared: &Shared<P>,
    pass: &mut Pass<P>,
    log: &mut Log,
    position: u64,
    word: u32,
    value: u64,
    steps: &mut Steps<L>,
)
    requires of { IsOf shared.now pass.old }
    requires stands { Stands (config_of shared.now) (view pass.old) log.old }
    requires open { IsOpen (view pass.old) }
    requires there { IsBuilt log.old position ⊎ IsHeld log.old position }
    requires range { word < 6 }
    ensures same { IsSame pass.old pass.new }
    ensures stands { Stands (config_of shared.now) (view pass.new) log.new }
    ensures built { IsBuilt log.old position → (log.new ≡ built_word_noted log.old word value)
        × (view pass.new ≡ stored_next (config_of shared.now) (view pass.old) position (DATA_OFFSET + word) value) }
    ensures held { IsHeld log.old position → (log.new ≡ word_noted log.old position word value)
        × (view pass.new ≡ word_stored (config_of shared.now) (view pass.old) position word value) }
    ensures rest { ChangesLog (view pass.old) (view pass.new) }
    ensures step { steps.new ≡ steps.old + 1 }
{
    let slot = shared.own_slot(pass, position);
    if position == log.freed + log.live.len() as u64 {
        store_next(
            shared,
            pass,
            position,
            slot,
            DATA_OFFSET + word,
            value,
            steps,
        );
        if let Some(note) = &mut log.built {
            note.words[word as usize] = value;
        }
        return;
    }
    shared.store_data(pass, position, slot, word, value, steps);
    let at = (position - log.freed) as usize;
    log.live[at].words[word as usize] = value;
}
