// Locking objects in a section, and writing what it holds.
ghost use Rattle.std.specs.Prelude.{◌≡◌, ◌≢◌, ◌↔◌, ℕ, ◌<◌, ◌≤◌, length, All, false, unwrap_or, IfSome, IfNone};
ghost use Rattle.mv_history.specs.State.{touches, maker_of};
ghost use Rattle.mv_history.specs.Meaning.{IsSection, state_of, words_at, Holds, Lacks};
ghost use Rattle.mv_history.specs.Calls.{GoesOn, IsAsBefore, IsSetFull, IsLogFull, LocksWith, Rewrites, IsStale};
ghost use Rattle.mv_history.specs.declared.answers.LockAnswer.TheVariants.{Held, Busy as IsTaken, Stale, SetFull, LogFull};
ghost use Rattle.object_lock.specs.mv_core.Passes.{start_of};
ghost use Rattle.object_lock.specs.seat_log.Notes.{held_from, IsNoteAt};
ghost use Rattle.object_lock.specs.Locks.{HoldsObject, most_to_lock};
ghost use Rattle.mvrlu.specs.Placed.{section_from, Fits};
ghost use Rattle.mvrlu.specs.Causes.{FoundLocked};
ghost use Rattle.mvrlu.specs.Bounds.{MakesAtMost};
ghost use Rattle.mvrlu.specs.Holding.{seats_of};

use crate::places::{Busy, SeatState};
use mv_history::{LockAnswer, Protocol, Words};
use object_lock::mv_core::{Shared, Steps};
use object_lock::seat_log::{Log, Note, held, live, note};
use object_lock::{lock_new, write};
use std::sync::ledger::{Blank, Ledger};

// The note of the section's version of an object, if it holds the object.
fn find_note(log: &Log, object: u32) -> Option<Note>
    ensures some { IfSome result (λ n. (i : ℕ) × IsNoteAt log.now i n × (held_from log.now ≤ i) × (n.object ≡ object)) }
    ensures none { IfNone result (HoldsObject log.now object → ⊥) }
{
    if held(log) == 0 {
        return None;
    }
    let end = live(log);
    for index in end - held(log)..end {
        let version = note(log, index);
        if version.object == object {
            return Some(version);
        }
    }
    None
}

// The words of an object that the section holds.
pub(crate) fn held_words<P: Protocol>(busy: &Busy<P>, object: u32) -> Option<Words>
    ensures some { IfSome result (λ words. Holds (section_from busy.now) object × (words ≡ words_at (state_of (section_from busy.now)) object)) }
    ensures none { IfNone result (Lacks (section_from busy.now) object) }
    ensures lawful { IsSection P.start P.allowed (section_from busy.now) }
{
    match find_note(&busy.place.log, object) {
        Some(version) => Some(version.words),
        None => None,
    }
}

// Tries to hold an object that isn't held, with the given words, or else with those that the section reads.
pub(crate) fn lock_at<P: Protocol, L: Ledger>(
    shared: &Shared<P>,
    busy: &mut Busy<P>,
    object: u32,
    given: Option<Words>,
    blank: Blank,
) -> LockAnswer
    requires name { blank.name ≡ L.name }
    requires parts { (blank.parts ≡ L.parts) × (0 < L.parts) }
    requires fits { Fits shared.now busy.old }
    requires range { object < length (start_of shared.now) }
    requires lacks { Lacks (section_from busy.old) object }
    ensures fits { Fits shared.now busy.new }
    ensures lawful { IsSection P.start P.allowed (section_from busy.new) }
    ensures goes_on { GoesOn (section_from busy.old) (section_from busy.new) }
    ensures refused { result ≢ Held → IsAsBefore (section_from busy.old) (section_from busy.new) }
    ensures set_full { (result ≡ SetFull) ↔ (Lacks (section_from busy.old) object × IsSetFull (section_from busy.old)) }
    ensures log_full { (result ≡ LogFull) ↔ (Lacks (section_from busy.old) object × ¬ IsSetFull (section_from busy.old) × IsLogFull (section_from busy.old)) }
    ensures taken { (seat : ℕ) → result ≡ IsTaken seat →
        (seat ≢ (section_from busy.old).seat.number) × FoundLocked (section_from busy.old) (section_from busy.new) object seat }
    ensures stale { (time : ℕ) → result ≡ Stale time → IsStale (section_from busy.new) object time }
    ensures range { (section_from busy.old).seat.number < seats_of (section_from busy.old).seat }
    ensures makers { All (λ e. maker_of e < seats_of (section_from busy.old).seat) (section_from busy.new).seat.seen }
    ensures held { result ≡ Held → LocksWith (section_from busy.old) (section_from busy.new) object
        (unwrap_or given (words_at (state_of (section_from busy.old)) object)) }
    ensures aborts { busy.new.log.aborts ≡ busy.old.log.aborts }
    ensures bound { MakesAtMost (section_from busy.old).seat (section_from busy.new).seat (most_to_lock given) }
{
    let mut steps = Steps::<L>::open(blank);
    let SeatState { pass, log } = &mut *busy.place;
    lock_new(shared, pass, log, object, given, &mut steps)
}

// Gives a held object these words.
pub(crate) fn write_at<P: Protocol, L: Ledger>(
    shared: &Shared<P>,
    busy: &mut Busy<P>,
    object: u32,
    words: Words,
    blank: Blank,
)
    requires name { blank.name ≡ L.name }
    requires parts { (blank.parts ≡ L.parts) × (0 < L.parts) }
    requires fits { Fits shared.now busy.old }
    requires held { Holds (section_from busy.old) object }
    ensures fits { Fits shared.now busy.new }
    ensures lawful { IsSection P.start P.allowed (section_from busy.new) }
    ensures goes_on { GoesOn (section_from busy.old) (section_from busy.new) }
    ensures rewrites { Rewrites (section_from busy.old) (section_from busy.new) object words }
    ensures aborts { busy.new.log.aborts ≡ busy.old.log.aborts }
    ensures bound { MakesAtMost (section_from busy.old).seat (section_from busy.new).seat 6 }
{
    let mut steps = Steps::<L>::open(blank);
    let SeatState { pass, log } = &mut *busy.place;
    write(shared, pass, log, object, words, &mut steps)
}
