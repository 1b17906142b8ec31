// The words of a domain as plain data, and the steps on them.
ghost use Rattle.std.specs.Prelude.{◌≡◌, IfOk, [], length, replicate, slice_set, Some, None, max};
ghost use Rattle.mv_layout.specs.Limits.{Checked};
ghost use Rattle.mv_layout.specs.Cells.{cells, cell_of};
ghost use Rattle.mv_layout.specs.Words.{clock_of};

use crate::places::place_cell;
use mv_layout::{CLOCK_CELL, Config, GRACE_CELL, NO_SLOT, SharedWord, clock_word, total_cells};
use std::alloc::{AllocError, Global};

/// The words of a domain, which one thread alone reads and writes, behind steps of the seats (`IsBehind`): each of
/// them, its seat and its kind, and so the state after them, with the history and the view of each seat, is data for
/// the proof alone.
///
/// Each call but `new` and `config` reads and writes one word, and is any step that does just that and whose condition
/// holds of its seat's view (`Makes`): then the machine is behind that step too.
#[derive(Drop)]
pub struct Machine {
    config: Config,
    words: Vec<u64>,
    ghost checked: { Checked config },
    ghost sized: { length words.items ≡ cells config },
}

// The words of a new domain of these numbers whose objects are all zeros.
fn opening_words(alloc: Global, config: &Config) -> Result<Vec<u64>, AllocError>
    requires checked { Checked config.now }
    ensures { IfOk result (λ words. words.items
        ≡ slice_set (slice_set (replicate (cells config.now) 0) 6 (clock_of config.now.base 0 8191)) 22 config.now.base) }
{
    let mut words = Vec::from_elem(alloc, 0u64, total_cells(config) as usize)?;
    words[CLOCK_CELL as usize] = clock_word(config.base, 0, NO_SLOT);
    words[GRACE_CELL as usize] = config.base;
    Ok(words)
}

// The greater of two words.
fn greater(word: u64, other: u64) -> u64
    ensures { result ≡ max word other }
{
    word.max(other)
}

impl Machine {
    ghost use Rattle.mv_core.specs.EnterSteps.{stored_if};
    ghost use Rattle.mv_layout.specs.Places.{IsPlace};
    ghost use Rattle.step_replay.specs.Machines.{IsBehind, Makes, config_of};
    ghost use Rattle.replay_text.specs.replay_rules.Words.{word_at, words_with, new_words};

    /// A new domain of these numbers whose objects are all zeros, with all its seats. The error is want of memory.
    pub fn new(alloc: Global, config: &Config) -> Result<Machine, AllocError>
        requires checked { Checked config.now }
        ensures numbers { IfOk result (λ machine. config_of machine ≡ config.now) }
        ensures behind { IfOk result (λ machine. IsBehind machine []) }
        ensures words { IfOk result (λ machine. machine.words.items ≡ new_words config.now) }
    {
        let words = opening_words(alloc, config)?;
        Ok(Machine {
            config: *config,
            words,
        })
    }

    /// The numbers of the domain.
    pub fn config(&self) -> &Config
        ensures { result.now ≡ config_of self.now }
    {
        &self.config
    }

    /// A load of a word. It answers the word, and changes no word, but the view of the seat.
    pub fn load(&self, place: SharedWord) -> u64
        requires { IsPlace (config_of self.now) place }
        ensures makes { Makes self.now self.now place result (λ found. None) }
        ensures word { result ≡ word_at (config_of self.now) self.now.words.items place }
    {
        self.words[place_cell(&self.config, place) as usize]
    }

    /// A store of `new` into a word. It answers the word that was there.
    pub fn store(&mut self, place: SharedWord, new: u64) -> u64
        requires { IsPlace (config_of self.old) place }
        ensures numbers { config_of self.new ≡ config_of self.old }
        ensures makes { Makes self.old self.new place result (λ found. Some new) }
        ensures word { result ≡ word_at (config_of self.old) self.old.words.items place }
        ensures words { self.new.words.items ≡ words_with (config_of self.old) self.old.words.items place (Some new) }
    {
        let index = place_cell(&self.config, place) as usize;
        let found = self.words[index];
        self.words[index] = new;
        found
    }

    /// An exchange of a word from `old` to `new`, which is won where the word is `old`. It answers the word that was
    /// there.
    pub fn swap(&mut self, place: SharedWord, old: u64, new: u64) -> u64
        requires { IsPlace (config_of self.old) place }
        ensures numbers { config_of self.new ≡ config_of self.old }
        ensures makes { Makes self.old self.new place result (λ found. stored_if found old new) }
        ensures word { result ≡ word_at (config_of self.old) self.old.words.items place }
        ensures words { self.new.words.items ≡ words_with (config_of self.old) self.old.words.items place (stored_if result old new) }
    {
        let index = place_cell(&self.config, place) as usize;
        let found = self.words[index];
        if found == old {
            self.words[index] = new;
        }
        found
    }

    /// A fetch_max of a word by `by`: the greater of the two is stored. It answers the word that was there.
    pub fn raise(&mut self, place: SharedWord, by: u64) -> u64
        requires { IsPlace (config_of self.old) place }
        ensures numbers { config_of self.new ≡ config_of self.old }
        ensures makes { Makes self.old self.new place result (λ found. Some (max found by)) }
        ensures word { result ≡ word_at (config_of self.old) self.old.words.items place }
        ensures words { self.new.words.items ≡ words_with (config_of self.old) self.old.words.items place (Some (max result by)) }
    {
        let index = place_cell(&self.config, place) as usize;
        let found = self.words[index];
        self.words[index] = greater(found, by);
        found
    }
}
