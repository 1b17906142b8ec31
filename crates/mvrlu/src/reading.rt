// Reading an object in a section.
ghost use Rattle.std.specs.Prelude.{◌≡◌, ◌+◌, ◌<◌, length, slice_index_or};
ghost use Rattle.mv_history.specs.Meaning.{IsSection, snapshot_of, state_of, words_at};
ghost use Rattle.mv_history.specs.Fours.{four_from};
ghost use Rattle.object_lock.specs.mv_core.Passes.{start_of};
ghost use Rattle.mvrlu.specs.Placed.{section_from, Fits};
ghost use Rattle.mvrlu.specs.Standing.{Stays};
ghost use Rattle.mvrlu.specs.Bounds.{MakesAtMost, read_most, pair_most, four_most};

use crate::holding::held_words;
use crate::places::Busy;
use mv_history::{Protocol, Words};
use object_lock::mv_core::{Shared, Steps};
use object_lock::version_chain::{
    find, read_master, read_master_four, read_master_pair, read_version, read_version_four,
    read_version_pair,
};
use std::sync::ledger::{Blank, Ledger};

// The words of an object in the section's snapshot.
#[inline(always)]
fn read_below<P: Protocol, L: Ledger>(
    shared: &Shared<P>,
    busy: &mut Busy<P>,
    object: u32,
    blank: Blank,
) -> Words
    requires name { blank.name ≡ L.name }
    requires parts { (blank.parts ≡ L.parts) × (0 < L.parts) }
    requires fits { Fits shared.now busy.old }
    requires range { object < length (start_of shared.now) }
    ensures fits { Fits shared.now busy.new }
    ensures lawful { IsSection P.start P.allowed (section_from busy.new) }
    ensures words { result ≡ words_at (snapshot_of (section_from busy.old)) object }
    ensures stays { Stays (section_from busy.old) (section_from busy.new) }
    ensures aborts { busy.new.log.aborts ≡ busy.old.log.aborts }
    ensures bound { MakesAtMost (section_from busy.old).seat (section_from busy.new).seat (read_most (section_from busy.old) (section_from busy.new)) }
{
    let mut steps = Steps::<L>::open(blank);
    let pass = &mut busy.place.pass;
    match find(shared, pass, object, &mut steps) {
        None => read_master(shared, pass, object, &mut steps),
        Some(at) => read_version(shared, pass, at, &mut steps),
    }
}

// The words of an object in a section: those of its own version, where it holds the object.
#[inline(always)]
pub(crate) fn read_in<P: Protocol, L: Ledger>(
    shared: &Shared<P>,
    busy: &mut Busy<P>,
    object: u32,
    blank: Blank,
) -> Words
    requires name { blank.name ≡ L.name }
    requires parts { (blank.parts ≡ L.parts) × (0 < L.parts) }
    requires fits { Fits shared.now busy.old }
    requires range { object < length (start_of shared.now) }
    ensures fits { Fits shared.now busy.new }
    ensures lawful { IsSection P.start P.allowed (section_from busy.new) }
    ensures words { result ≡ words_at (state_of (section_from busy.old)) object }
    ensures stays { Stays (section_from busy.old) (section_from busy.new) }
    ensures aborts { busy.new.log.aborts ≡ busy.old.log.aborts }
    ensures bound { MakesAtMost (section_from busy.old).seat (section_from busy.new).seat (read_most (section_from busy.old) (section_from busy.new)) }
{
    match held_words(busy, object) {
        Some(words) => words,
        None => read_below::<P, L>(shared, busy, object, blank),
    }
}

// Two words of an object in the section's snapshot, the one at this place and the one after it.
#[inline(always)]
fn read_pair_below<P: Protocol, L: Ledger>(
    shared: &Shared<P>,
    busy: &mut Busy<P>,
    object: u32,
    place: u32,
    blank: Blank,
) -> (u64, u64)
    requires name { blank.name ≡ L.name }
    requires parts { (blank.parts ≡ L.parts) × (0 < L.parts) }
    requires fits { Fits shared.now busy.old }
    requires range { object < length (start_of shared.now) }
    requires place { place < 5 }
    ensures fits { Fits shared.now busy.new }
    ensures lawful { IsSection P.start P.allowed (section_from busy.new) }
    ensures first { result.0 ≡ slice_index_or (words_at (snapshot_of (section_from busy.old)) object) place 0 }
    ensures second { result.1 ≡ slice_index_or (words_at (snapshot_of (section_from busy.old)) object) (place + 1) 0 }
    ensures stays { Stays (section_from busy.old) (section_from busy.new) }
    ensures aborts { busy.new.log.aborts ≡ busy.old.log.aborts }
    ensures bound { MakesAtMost (section_from busy.old).seat (section_from busy.new).seat (pair_most (section_from busy.old) (section_from busy.new)) }
{
    let mut steps = Steps::<L>::open(blank);
    let pass = &mut busy.place.pass;
    match find(shared, pass, object, &mut steps) {
        None => read_master_pair(shared, pass, object, place, &mut steps),
        Some(at) => read_version_pair(shared, pass, at, place, &mut steps),
    }
}

// Two words of an object in a section, the one at this place and the one after it: of its own version,
// where it holds the object.
#[inline(always)]
pub(crate) fn read_pair_in<P: Protocol, L: Ledger>(
    shared: &Shared<P>,
    busy: &mut Busy<P>,
    object: u32,
    place: u32,
    blank: Blank,
) -> (u64, u64)
    requires name { blank.name ≡ L.name }
    requires parts { (blank.parts ≡ L.parts) × (0 < L.parts) }
    requires fits { Fits shared.now busy.old }
    requires range { object < length (start_of shared.now) }
    requires place { place < 5 }
    ensures fits { Fits shared.now busy.new }
    ensures lawful { IsSection P.start P.allowed (section_from busy.new) }
    ensures first { result.0 ≡ slice_index_or (words_at (state_of (section_from busy.old)) object) place 0 }
    ensures second { result.1 ≡ slice_index_or (words_at (state_of (section_from busy.old)) object) (place + 1) 0 }
    ensures stays { Stays (section_from busy.old) (section_from busy.new) }
    ensures aborts { busy.new.log.aborts ≡ busy.old.log.aborts }
    ensures bound { MakesAtMost (section_from busy.old).seat (section_from busy.new).seat (pair_most (section_from busy.old) (section_from busy.new)) }
{
    match held_words(busy, object) {
        Some(words) => (words[place as usize], words[place as usize + 1]),
        None => read_pair_below::<P, L>(shared, busy, object, place, blank),
    }
}

// Four words of an object in the section's snapshot, from this place on.
#[inline(always)]
fn read_four_below<P: Protocol, L: Ledger>(
    shared: &Shared<P>,
    busy: &mut Busy<P>,
    object: u32,
    place: u32,
    blank: Blank,
) -> [u64; 4]
    requires name { blank.name ≡ L.name }
    requires parts { (blank.parts ≡ L.parts) × (0 < L.parts) }
    requires fits { Fits shared.now busy.old }
    requires range { object < length (start_of shared.now) }
    requires place { place < 3 }
    ensures fits { Fits shared.now busy.new }
    ensures lawful { IsSection P.start P.allowed (section_from busy.new) }
    ensures words { result ≡ four_from place (words_at (snapshot_of (section_from busy.old)) object) }
    ensures stays { Stays (section_from busy.old) (section_from busy.new) }
    ensures aborts { busy.new.log.aborts ≡ busy.old.log.aborts }
    ensures bound { MakesAtMost (section_from busy.old).seat (section_from busy.new).seat (four_most (section_from busy.old) (section_from busy.new)) }
{
    let mut steps = Steps::<L>::open(blank);
    let pass = &mut busy.place.pass;
    match find(shared, pass, object, &mut steps) {
        None => read_master_four(shared, pass, object, place, &mut steps),
        Some(at) => read_version_four(shared, pass, at, place, &mut steps),
    }
}

// Four words of an object in a section, from this place on: of its own version, where it holds the object.
#[inline(always)]
pub(crate) fn read_four_in<P: Protocol, L: Ledger>(
    shared: &Shared<P>,
    busy: &mut Busy<P>,
    object: u32,
    place: u32,
    blank: Blank,
) -> [u64; 4]
    requires name { blank.name ≡ L.name }
    requires parts { (blank.parts ≡ L.parts) × (0 < L.parts) }
    requires fits { Fits shared.now busy.old }
    requires range { object < length (start_of shared.now) }
    requires place { place < 3 }
    ensures fits { Fits shared.now busy.new }
    ensures lawful { IsSection P.start P.allowed (section_from busy.new) }
    ensures words { result ≡ four_from place (words_at (state_of (section_from busy.old)) object) }
    ensures stays { Stays (section_from busy.old) (section_from busy.new) }
    ensures aborts { busy.new.log.aborts ≡ busy.old.log.aborts }
    ensures bound { MakesAtMost (section_from busy.old).seat (section_from busy.new).seat (four_most (section_from busy.old) (section_from busy.new)) }
{
    match held_words(busy, object) {
        Some(words) => {
            let first = place as usize;
            [
                words[first],
                words[first + 1],
                words[first + 2],
                words[first + 3],
            ]
        }
        None => read_four_below::<P, L>(shared, busy, object, place, blank),
    }
}
