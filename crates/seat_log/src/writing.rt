// Writing all data words of a held version.
ghost use Rattle.std.specs.Prelude.{◌≡◌, ◌+◌, length};
ghost use Rattle.reader_marks.specs.mv_core.Passes.{view, IsOf, IsSame, config_of};
ghost use Rattle.seat_log.specs.Notes.{IsHeld, with_words, some_noted, words_noted};
ghost use Rattle.seat_log.specs.Stands.{Stands};
ghost use Rattle.seat_log.specs.Builds.{IsOpen, words_put, ChangesLog};

use crate::log::Log;
use crate::version::Note;
use mv_history::{Protocol, Words};
use mv_layout::WIDTH;
use reader_marks::mv_core::{Pass, Shared, Steps};
use std::sync::ledger::Ledger;

// Stores these words, in order, and notes nothing.
fn store_held<P: Protocol, L: Ledger>(
    shared: &Shared<P>,
    pass: &mut Pass<P>,
    log: &Log,
    position: u64,
    words: &Words,
    steps: &mut Steps<L>,
)
    requires of { IsOf shared.now pass.old }
    requires stands { Stands (config_of shared.now) (view pass.old) log.now }
    requires open { IsOpen (view pass.old) }
    requires held { IsHeld log.now position }
    ensures same { IsSame pass.old pass.new }
    ensures stands { Stands (config_of shared.now) (view pass.new) (some_noted log.now position words.now 6) }
    ensures view { view pass.new ≡ words_put (config_of shared.now) (view pass.old) position words.now 6 }
    ensures cost { steps.new ≡ steps.old + 6 }
{
    let _ = log;
    let slot = shared.own_slot(pass, position);
    for word in 0..WIDTH {
        shared.store_data(pass, position, slot, word, words[word as usize], steps);
    }
}

// Notes other data words.
fn set_words(note: &mut Note, words: Words)
    ensures words { note.new ≡ with_words words note.old }
    ensures wide { (length note.old.words ≡ 6) × (length words ≡ 6) }
{
    note.words = words;
}

/// Gives the held version at a position these data words, in an open section: six steps, in the order
/// of the words. The cell of its slot is found once.
pub fn put_words<P: Protocol, L: Ledger>(
    shared: &Shared<P>,
    pass: &mut Pass<P>,
    log: &mut Log,
    position: u64,
    words: Words,
    steps: &mut Steps<L>,
)
    requires of { IsOf shared.now pass.old }
    requires stands { Stands (config_of shared.now) (view pass.old) log.old }
    requires open { IsOpen (view pass.old) }
    requires held { IsHeld log.old position }
    ensures same { IsSame pass.old pass.new }
    ensures stands { Stands (config_of shared.now) (view pass.new) log.new }
    ensures log { log.new ≡ words_noted log.old position words }
    ensures view { view pass.new ≡ words_put (config_of shared.now) (view pass.old) position words 6 }
    ensures rest { ChangesLog (view pass.old) (view pass.new) }
    ensures cost { steps.new ≡ steps.old + 6 }
{
    store_held(shared, pass, log, position, &words, steps);
    let at = (position - log.freed) as usize;
    set_words(&mut log.live[at], words);
}
