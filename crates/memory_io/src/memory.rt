// Files and a sink in memory, which fail at the calls that they are told.
ghost use Rattle.std.specs.Prelude.{◌≡◌, ◌≢◌, ◌≤◌, ◌<◌, ◌+◌, ◌-◌, ◌↔◌, ◌⊎◌, ◌==◌, ◌++◌, []};
ghost use Rattle.std.specs.Prelude.{◌∷◌, Contains, List, ℕ, length, take, drop, min, map, Option, Some, None, is_some, MatchOption, OnOk};
ghost use Rattle.std.specs.Prelude.{OnErr, IfOk, IfSome, IsOk, IsErr, IsSome, IsNone, IsTrue, string_bytes, vec_capacity};
ghost use Rattle.std.specs.Io.{ReadsAtMost};
ghost use Rattle.std.specs.Io.KnownBytes.{ReadConsumes};
ghost use Rattle.host_io.specs.Outside.{HasCause, HasText, IsTold, Starts, Takes};
ghost use Rattle.host_io.specs.Outside.{next_count};
ghost use Rattle.memory_io.specs.Memory.{faults_in, text_of, named, left_from, FilesState, SinkState};

use host_io::{CallRecord, Failed, Files, Sink};
use std::alloc::{AllocError, Global};
use std::marker::Model;

/// A text of files in memory.
#[derive(Drop)]
pub struct MemText {
    /// The name that `open` finds it by.
    pub name: String,
    /// All its bytes.
    pub bytes: Vec<u8>,
}

/// Files in memory. They tell their texts, and are steady exactly where no call is to fail. Of two texts of one name
/// the first is found.
#[derive(Drop)]
pub struct MemFiles {
    texts: Vec<MemText>,
    most: usize,
    fails: Vec<u64>,
    calls: u64,
    faults: u64,
    opened: Option<usize>,
    told: CallRecord,
    place: usize,
}

impl Model for MemFiles {
    ghost use Rattle.std.specs.Prelude.{◌<◌, ◌≤◌, ◌≡◌, map, length};
    ghost use Rattle.std.specs.Option.{ForSome};
    ghost use Rattle.std.specs.Option.{option_map};
    ghost use Rattle.memory_io.specs.Memory.{FilesState, named, left_from};
    ghost use Rattle.host_io.specs.Told.{name_in, failures_in};

    ghost Value = { FilesState };

    ghost view = { λ s. record {
      texts = map named s.texts.items;
      most = s.most;
      fails = s.fails.items;
      calls = s.calls;
      faults = s.faults;
      failures = failures_in s.told;
      opened = option_map (λ i. name_in s.told) s.opened;
      left = left_from (map named s.texts.items) s.opened s.place;
    } };

    ghost invariant = { λ s. (0 < s.most) × ForSome s.opened (λ i. i < length s.texts.items) };
}

impl MemFiles {
    ghost use Rattle.memory_io.specs.Memory.{named};

    /// Files of these texts, of which a read gives at most `most` bytes. Calls of `open` and `read` count together,
    /// from 1; each call whose number is in `fails` fails.
    pub fn new(texts: Vec<MemText>, most: usize, fails: Vec<u64>) -> MemFiles
        requires { 0 < most }
        ensures { result ≡ record {
          texts = map named texts.items;
          most = most;
          fails = fails.items;
          calls = 0;
          faults = 0;
          failures = [];
          opened = None;
          left = None;
        } }
    {
        MemFiles {
            texts,
            most,
            fails,
            calls: 0,
            faults: 0,
            opened: None,
            told: CallRecord::new(),
            place: 0,
        }
    }
}

/// A sink in memory with room for so many bytes. It tells what was written.
#[derive(Drop)]
pub struct MemSink {
    room: usize,
    most: usize,
    fails: Vec<u64>,
    calls: u64,
    faults: u64,
    written: Vec<u8>,
}

impl Model for MemSink {
    ghost use Rattle.std.specs.Prelude.{◌≡◌, ◌≤◌, ◌<◌, ◌+◌, ◌-◌, length, vec_len, vec_capacity};
    ghost use Rattle.memory_io.specs.Memory.{SinkState};

    ghost Value = { SinkState };

    ghost view = { λ s. record { room = s.room; most = s.most; fails = s.fails.items; calls = s.calls; faults = s.faults; written = s.written.items } };

    ghost invariant = { λ s. (0 < s.most) × (vec_len s.written ≤ s.room) × (s.room ≤ vec_capacity s.written) };
}

impl MemSink {
    /// An empty sink with room for `room` bytes, which takes at most `most` bytes in one call. Calls count from 1; each
    /// call whose number is in `fails` fails, and so does each call once the room is spent. An error is want of memory.
    pub fn new(
        alloc: Global,
        room: usize,
        most: usize,
        fails: Vec<u64>,
    ) -> Result<MemSink, AllocError>
        requires { 0 < most }
        ensures { IfOk result (λ s. s ≡ record { room = room; most = most; fails = fails.items; calls = 0; faults = 0; written = [] }) }
    {
        Ok(MemSink {
            room,
            most,
            fails,
            calls: 0,
            faults: 0,
            written: Vec::with_capacity(alloc, room)?,
        })
    }

    /// The bytes written so far.
    pub fn bytes(&self) -> &[u8]
        ensures { result.now ≡ self.now.written }
    {
        &self.written
    }
}

// Whether a call of this number is to fail.
fn is_listed(fails: &[u64], number: u64) -> bool
    ensures { IsTrue result ↔ Contains fails.now number }
{
    fails.contains(&number)
}

impl Sink for MemSink {
    ghost written = { λ s. Some s.written };

    ghost faults = { λ s. s.faults };

    /// Fails exactly where the call's number is in `fails` or the room is spent.
    fn write(&mut self, piece: &[u8]) -> Result<usize, Failed>
        requires { 0 < length piece.now }
        ensures takes { Takes (Some self.old.written) (Some self.new.written) result piece.now }
        ensures cause { HasCause self.old.faults self.new.faults result }
        ensures fails { IsErr result ↔ (Contains self.old.fails (next_count self.old.calls) ⊎ (self.old.room ≤ length self.old.written)) }
        ensures count { IfOk result (λ n. n ≡ min (length piece.now) (min self.old.most (self.old.room - length self.old.written))) }
        ensures ok { OnOk result (self.new ≡ record self.old { calls = next_count self.old.calls; written = self.new.written }) }
        ensures err { OnErr result (self.new ≡ record self.old { calls = next_count self.old.calls; faults = next_count self.old.faults }) }
    {
        self.calls = self.calls.saturating_add(1);
        if is_listed(&self.fails, self.calls) || self.written.len() >= self.room {
            self.faults = self.faults.saturating_add(1);
            return Err(Failed);
        }
        let count = piece
            .len()
            .min(self.most)
            .min(self.room - self.written.len());
        put_all(&mut self.written, &piece[..count]);
        Ok(count)
    }
}

// Appends bytes for which there is room.
fn put_all(into: &mut Vec<u8>, bytes: &[u8])
    requires { length into.old.items + length bytes.now ≤ vec_capacity into.old }
    ensures items { into.new.items ≡ into.old.items ++ bytes.now }
    ensures capacity { vec_capacity into.new ≡ vec_capacity into.old }
{
    for byte in bytes {
        into.push_reserved(*byte);
    }
}

// The index of the first text of this name.
fn find_text(texts: &[MemText], name: &str) -> Option<usize>
    ensures { MatchOption result (text_of (map named texts.now) name.now ≡ None)
        (λ i. (i < length texts.now) × (text_of (map named texts.now) name.now ≡ left_from (map named texts.now) (Some i) 0)) }
{
    for (place, text) in texts.iter().enumerate() {
        if text.name.as_str() == name {
            return Some(place);
        }
    }
    None
}

impl Files for MemFiles {
    ghost use Rattle.std.specs.Prelude.{◌==◌, length, Some, true, is_some, None, refl};
    ghost use Rattle.memory_io.specs.Memory.{faults_in, text_of};

    ghost texts = { λ s. Some (text_of s.texts) };

    ghost left = { λ s. s.left };

    ghost opened = { λ s. s.opened };

    ghost faults = { λ s. faults_in s };

    ghost steady = { λ s. length s.fails == 0 };

    ghost tells = { λ s h. refl };

    /// Fails exactly where the call's number is in `fails` or no text has the name. After a failure the text that was
    /// open stays open.
    fn open(&mut self, name: &str) -> Result<(), Failed>
        ensures opened { OnOk result (self.new.opened ≡ Some name.now) }
        ensures starts { OnOk result (Starts (Some (text_of self.old.texts)) name.now self.new.left) }
        ensures texts { Some (text_of self.new.texts) ≡ Some (text_of self.old.texts) }
        ensures steady { (length self.new.fails == 0) ≡ (length self.old.fails == 0) }
        ensures told { IsTold (faults_in self.old) (faults_in self.new) name.now result }
        ensures succeeds { IsTrue (length self.old.fails == 0) → HasText (Some (text_of self.old.texts)) name.now → IsOk result }
        ensures fails { IsErr result ↔ (Contains self.old.fails (next_count self.old.calls) ⊎ (text_of self.old.texts name.now ≡ None)) }
        ensures ok { OnOk result (self.new
            ≡ record self.old { calls = next_count self.old.calls; left = text_of self.old.texts name.now; opened = Some name.now }) }
        ensures err { OnErr result (self.new
            ≡ record self.old { calls = next_count self.old.calls; faults = next_count self.old.faults; failures = self.new.failures }) }
    {
        self.calls = self.calls.saturating_add(1);
        if is_listed(&self.fails, self.calls) {
            self.told.open_fails(name);
            self.faults = self.faults.saturating_add(1);
            return Err(Failed);
        }
        let Some(place) = find_text(&self.texts, name) else {
            self.told.open_fails(name);
            self.faults = self.faults.saturating_add(1);
            return Err(Failed);
        };
        self.opened = Some(place);
        self.told.opens(name);
        self.place = 0;
        Ok(())
    }

    /// Fails exactly where the call's number is in `fails`.
    fn read(&mut self, into: &mut [u8]) -> Result<usize, Failed>
        requires opened { IsSome self.old.opened }
        requires room { 0 < length into.old }
        ensures bound { ReadsAtMost result into.new }
        ensures bytes { ReadConsumes self.old.left self.new.left result into.new }
        ensures opened { self.new.opened ≡ self.old.opened }
        ensures texts { Some (text_of self.new.texts) ≡ Some (text_of self.old.texts) }
        ensures steady { (length self.new.fails == 0) ≡ (length self.old.fails == 0) }
        ensures told { IfSome self.old.opened (λ name. IsTold (faults_in self.old) (faults_in self.new) name result) }
        ensures succeeds { IsTrue (length self.old.fails == 0) → IsOk result }
        ensures fails { IsErr result ↔ Contains self.old.fails (next_count self.old.calls) }
        ensures count { IfOk result (λ n. IfSome self.old.left (λ left. n ≡ min (length left) (min self.old.most (length into.old)))) }
        ensures ok { OnOk result (self.new ≡ record self.old { calls = next_count self.old.calls; left = self.new.left }) }
        ensures err { OnErr result (self.new
            ≡ record self.old { calls = next_count self.old.calls; faults = next_count self.old.faults; failures = self.new.failures }) }
    {
        self.calls = self.calls.saturating_add(1);
        if is_listed(&self.fails, self.calls) {
            self.told.read_fails();
            self.faults = self.faults.saturating_add(1);
            return Err(Failed);
        }
        let Some(opened) = self.opened else {
            unreachable!()
        };
        let count = move_bytes(&self.texts[opened].bytes, self.place, self.most, into);
        self.place += count;
        Ok(count)
    }
}

// Copies the bytes from a place on, at most `most`, and answers how many.
fn move_bytes(bytes: &[u8], place: usize, most: usize, into: &mut [u8]) -> usize
    ensures count { result ≡ min (length bytes.now - place) (min most (length into.old)) }
    ensures moved { drop place bytes.now ≡ take result into.new ++ drop (place + result) bytes.now }
{
    if place >= bytes.len() {
        return 0;
    }
    let left = &bytes[place..];
    let count = left.len().min(most).min(into.len());
    into[..count].copy_from_slice(&left[..count]);
    count
}
