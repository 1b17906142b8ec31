// Locking an object.
ghost use Rattle.std.specs.Prelude.{◌≡◌, ◌≢◌, ℕ, ◌+◌, ◌<◌, ◌≤◌, ◌^◌, true, false, List, [], length, None, unwrap_or, Err, IfOk, IfErr, OnErr};
ghost use Rattle.mv_history.specs.State.{touches};
ghost use Rattle.mv_layout.specs.Words.{link_seat_of};
ghost use Rattle.seat_log.specs.mv_core.declared.view.WalkStage.TheVariants.{Master};
ghost use Rattle.seat_log.specs.mv_core.Rings.{own_of};
ghost use Rattle.seat_log.specs.mv_core.Passes.{view, IsOf, IsSame, config_of};
ghost use Rattle.seat_log.specs.mv_core.WalkSteps.{IsLinkOf};
ghost use Rattle.seat_log.specs.mv_core.LockSteps.{StandsToLock, LockTold, OneMoreWrite};
ghost use Rattle.seat_log.specs.mv_core.Swaps.{found_by, IsSwap};
ghost use Rattle.mv_history.specs.declared.answers.LockAnswer.TheVariants.{Held};
ghost use Rattle.seat_log.specs.Notes.{IsBuilt};
ghost use Rattle.seat_log.specs.Stands.{Stands};
ghost use Rattle.version_chain.specs.Walks.{MayWalk, section_in};
ghost use Rattle.version_chain.specs.Reads.{words_in};
ghost use Rattle.object_lock.specs.Tops.{Tries};
ghost use Rattle.object_lock.specs.Locks.{HoldsObject, IsBuiltFor, built_words, CameFirst, KeepsOwn, AnswersWith, LockAnswers, IsStarted, Starts};
ghost use Rattle.object_lock.specs.Locks.{TriesFew, FewOutcome, OneOutcome, LostOutcome, most_to_start, most_to_lock};
ghost use Rattle.object_lock.specs.Writes.{Rewrites};

use crate::top::{stamp_at, top_of};
use crate::writing::{holds, write};
use mv_history::{LockAnswer, Protocol, Words};
use mv_layout::{is_unset, link_seat};
use seat_log::mv_core::{Pass, Shared, Steps, Swap};
use seat_log::{Log, build, clear_previous, drop_built, held, note_held, room};
use std::sync::ledger::Ledger;

// Exchanges HEAD of the object from this link to that of the version that was built at a position.
pub(crate) fn exchange<P: Protocol, L: Ledger>(
    shared: &Shared<P>,
    pass: &mut Pass<P>,
    log: &Log,
    object: u32,
    previous: u64,
    position: u64,
    steps: &mut Steps<L>,
) -> Swap
    requires of { IsOf shared.now pass.old }
    requires may { MayWalk (view pass.old) }
    requires range { object < (config_of shared.now).objects }
    requires stands { Stands (config_of shared.now) (view pass.old) log.now }
    requires built { IsBuiltFor log.now position object previous (built_words log.now) }
    requires lock { StandsToLock (view pass.old) (section_in (view pass.old)) object previous }
    requires unheld { ¬ (HoldsObject log.now object) }
    requires few { log.now.held < (config_of shared.now).write_max }
    ensures same { IsSame pass.old pass.new }
    ensures told { LockTold (config_of shared.now) (view pass.old) object previous position (built_words log.now)
        (found_by previous result) (view pass.new) }
    ensures swap { IsSwap previous result }
    ensures own { found_by previous result ≡ previous
        → OneMoreWrite (config_of shared.now) (view pass.old) object (built_words log.now) (view pass.new) }
    ensures link { found_by previous result ≢ previous → IsLinkOf (config_of shared.now) (found_by previous result) }
    ensures other { found_by previous result ≢ previous → found_by previous result ≢ 0
        → link_seat_of (found_by previous result) ≢ (view pass.old).number }
    ensures step { steps.new ≡ steps.old + 1 }
{
    let first = position - held(log) as u64;
    shared.lock_head(pass, object, previous, first, position, steps)
}

// Gives the built version up, and looks at what came first where a lost exchange put the walk. That was put
// there after the section looked, so its stamp is unset or later than the section, and the answer is `Busy`
// or `Stale`.
fn lost<P: Protocol, L: Ledger>(
    shared: &Shared<P>,
    pass: &mut Pass<P>,
    log: &mut Log,
    object: u32,
    position: u64,
    link: u64,
    steps: &mut Steps<L>,
) -> LockAnswer
    requires of { IsOf shared.now pass.old }
    requires may { MayWalk (view pass.old) }
    requires stands { Stands (config_of shared.now) (view pass.old) log.old }
    requires built { IsBuilt log.old position }
    requires first { CameFirst (config_of shared.now) (view pass.old) object link }
    ensures same { IsSame pass.old pass.new }
    ensures outcome { LostOutcome (config_of shared.now) (view pass.old) (view pass.new) log.new object link result steps.old steps.new }
    ensures refused { result ≢ Held }
    ensures aborts { log.new.aborts ≡ log.old.aborts }
    ensures step { steps.new ≡ steps.old + 2 }
{
    drop_built(log, position);
    let slot = shared.slot_linked(link);
    let stamp = stamp_at(shared, pass, link, slot, steps);
    if is_unset(stamp) {
        return LockAnswer::Busy {
            seat: link_seat(link),
        };
    }
    LockAnswer::Stale { time: stamp }
}

// Tries once more, at the master, where the chain was cut since the section looked at it.
fn hold_again<P: Protocol, L: Ledger>(
    shared: &Shared<P>,
    pass: &mut Pass<P>,
    log: &mut Log,
    object: u32,
    position: u64,
    steps: &mut Steps<L>,
) -> LockAnswer
    requires of { IsOf shared.now pass.old }
    requires may { MayWalk (view pass.old) }
    requires range { object < (config_of shared.now).objects }
    requires stands { Stands (config_of shared.now) (view pass.old) log.old }
    requires built { (previous : ℕ) × IsBuiltFor log.old position object previous (built_words log.old) }
    requires master { (view pass.old).walk ≡ Master object }
    requires unheld { ¬ (HoldsObject log.old object) }
    requires few { log.old.held < (config_of shared.now).write_max }
    ensures same { IsSame pass.old pass.new }
    ensures outcome { OneOutcome (config_of shared.now) (view pass.old) (view pass.new) log.new object (built_words log.old) result steps.old steps.new }
    ensures aborts { log.new.aborts ≡ log.old.aborts }
    ensures bound { steps.new ≤ steps.old + 4 }
{
    clear_previous(shared, pass, log, position, steps);
    match exchange(shared, pass, log, object, 0, position, steps) {
        Swap::Won => {
            note_held(log, position);
            LockAnswer::Held
        }
        Swap::Found(link) => lost(shared, pass, log, object, position, link, steps),
    }
}

/// A lock under way: a version of the object was built, and HEAD of the object wasn't exchanged yet.
#[derive(Clone, Copy, Debug, PartialEq, Eq)]
pub struct StartedLock {
    /// The object.
    pub object: u32,
    /// What is on top of its chain, and will be below the version: the link that the exchange expects.
    pub link: u64,
    /// The position of the version that was built.
    pub position: u64,
}

// All of a lock before its first exchange of HEAD, of an object that the section doesn't hold, with
// the given words, or else with those that the section reads.
fn start<P: Protocol, L: Ledger>(
    shared: &Shared<P>,
    pass: &mut Pass<P>,
    log: &mut Log,
    object: u32,
    given: Option<Words>,
    steps: &mut Steps<L>,
) -> Result<StartedLock, LockAnswer>
    requires of { IsOf shared.now pass.old }
    requires may { MayWalk (view pass.old) }
    requires range { object < (config_of shared.now).objects }
    requires stands { Stands (config_of shared.now) (view pass.old) log.old }
    requires unbuilt { log.old.built ≡ None }
    requires few { log.old.held ≤ (config_of shared.now).write_max }
    requires unheld { ¬ (HoldsObject log.old object) }
    ensures same { IsSame pass.old pass.new }
    ensures may { MayWalk (view pass.new) }
    ensures stands { Stands (config_of shared.now) (view pass.new) log.new }
    ensures few { log.new.held ≤ (config_of shared.now).write_max }
    ensures tries { Tries (view pass.old) (view pass.new) steps.old steps.new [] }
    ensures keeps { KeepsOwn (config_of shared.now) (view pass.old) (view pass.new) }
    ensures started { IfOk result (λ lock. Starts (config_of shared.now) (view pass.old) (view pass.new) log.new object
        (unwrap_or given (words_in (config_of shared.now) (view pass.new) object)) lock) }
    ensures unbuilt { OnErr result (log.new.built ≡ None) }
    ensures answers { IfErr result (λ answer. (words : List ℕ)
        → AnswersWith (config_of shared.now) (view pass.old) (view pass.new) object words answer) }
    ensures aborts { log.new.aborts ≡ log.old.aborts }
    ensures bound { steps.new ≤ steps.old + most_to_start given }
{
    if held(log) == shared.config().write_max {
        return Err(LockAnswer::SetFull);
    }
    if room(log) == 0 {
        return Err(LockAnswer::LogFull);
    }
    let (previous, words) = match top_of(shared, pass, object, given, steps) {
        Ok(top) => top,
        Err(answer) => return Err(answer),
    };
    let position = build(shared, pass, log, object, previous, words, steps);
    Ok(StartedLock {
        object,
        link: previous,
        position,
    })
}

/// Begins a lock: all of `lock` before its first exchange of HEAD, with the same condition. It answers
/// `Err` where `lock` is answered without an exchange, which then is `lock`'s answer. Else a version of
/// the object was built, with the words that the section reads, over what is on top of its chain, and `lock_end` goes on from there, now or
/// after steps of others. What the section holds and how many slots are free is as before in either
/// case. It makes at most 19 steps.
pub fn lock_start<P: Protocol, L: Ledger>(
    shared: &Shared<P>,
    pass: &mut Pass<P>,
    log: &mut Log,
    object: u32,
    steps: &mut Steps<L>,
) -> Result<StartedLock, LockAnswer>
    requires of { IsOf shared.now pass.old }
    requires may { MayWalk (view pass.old) }
    requires range { object < (config_of shared.now).objects }
    requires stands { Stands (config_of shared.now) (view pass.old) log.old }
    requires unbuilt { log.old.built ≡ None }
    requires few { log.old.held ≤ (config_of shared.now).write_max }
    ensures same { IsSame pass.old pass.new }
    ensures may { MayWalk (view pass.new) }
    ensures stands { Stands (config_of shared.now) (view pass.new) log.new }
    ensures few { log.new.held ≤ (config_of shared.now).write_max }
    ensures tries { Tries (view pass.old) (view pass.new) steps.old steps.new [] }
    ensures keeps { KeepsOwn (config_of shared.now) (view pass.old) (view pass.new) }
    ensures again { touches (own_of (config_of shared.now) (view pass.old).ring) object ≡ true
        → (result ≡ Err Held) × (view pass.new ≡ view pass.old) × (log.new ≡ log.old) }
    ensures started { IfOk result (λ lock. Starts (config_of shared.now) (view pass.old) (view pass.new) log.new object
        (words_in (config_of shared.now) (view pass.new) object) lock) }
    ensures unbuilt { OnErr result (log.new.built ≡ None) }
    ensures answers { IfErr result (λ answer. touches (own_of (config_of shared.now) (view pass.old).ring) object ≡ false
        → LockAnswers (config_of shared.now) (view pass.old) (view pass.new) object answer) }
    ensures aborts { log.new.aborts ≡ log.old.aborts }
    ensures bound { steps.new ≤ steps.old + 19 }
{
    if holds(log, object) {
        return Err(LockAnswer::Held);
    }
    start(shared, pass, log, object, None, steps)
}

/// Ends a lock that was begun, in the same section, with nothing done for its seat since. It puts the
/// built version on top of the object's chain by an exchange of HEAD, and answers as `lock` does; what
/// others did since the lock was begun may lose the exchange. It makes at most five steps, and tries at
/// most two exchanges; the second comes only where the first found a chain that was cut meanwhile.
pub fn lock_end<P: Protocol, L: Ledger>(
    shared: &Shared<P>,
    pass: &mut Pass<P>,
    log: &mut Log,
    started: StartedLock,
    steps: &mut Steps<L>,
) -> LockAnswer
    requires of { IsOf shared.now pass.old }
    requires started { IsStarted (config_of shared.now) (view pass.old) log.old started }
    ensures same { IsSame pass.old pass.new }
    ensures outcome { FewOutcome (config_of shared.now) (view pass.old) (view pass.new) log.new started.object (built_words log.old) result
        steps.old steps.new }
    ensures few { log.new.held ≤ (config_of shared.now).write_max }
    ensures aborts { log.new.aborts ≡ log.old.aborts }
    ensures bound { steps.new ≤ steps.old + 5 }
{
    let StartedLock {
        object,
        link: previous,
        position,
    } = started;
    match exchange(shared, pass, log, object, previous, position, steps) {
        Swap::Won => {
            note_held(log, position);
            LockAnswer::Held
        }
        Swap::Found(link) => {
            let cut = link == 0;
            if cut {
                return hold_again(shared, pass, log, object, position, steps);
            }
            lost(shared, pass, log, object, position, link, steps)
        }
    }
}

/// Locks an object that the section doesn't hold, for a caller who has looked: with the given words as
/// `lock_with`, or where none are given with those that the section reads as `lock`. The condition but
/// for that, the answers and what is left are theirs. It makes at most 18 steps, or 24.
pub fn lock_new<P: Protocol, L: Ledger>(
    shared: &Shared<P>,
    pass: &mut Pass<P>,
    log: &mut Log,
    object: u32,
    given: Option<Words>,
    steps: &mut Steps<L>,
) -> LockAnswer
    requires of { IsOf shared.now pass.old }
    requires may { MayWalk (view pass.old) }
    requires range { object < (config_of shared.now).objects }
    requires stands { Stands (config_of shared.now) (view pass.old) log.old }
    requires unbuilt { log.old.built ≡ None }
    requires few { log.old.held ≤ (config_of shared.now).write_max }
    requires unheld { ¬ (HoldsObject log.old object) }
    ensures same { IsSame pass.old pass.new }
    ensures may { MayWalk (view pass.new) }
    ensures stands { Stands (config_of shared.now) (view pass.new) log.new }
    ensures unbuilt { log.new.built ≡ None }
    ensures few { log.new.held ≤ (config_of shared.now).write_max }
    ensures tries { TriesFew (config_of shared.now) (view pass.old) (view pass.new) object steps.old steps.new }
    ensures answers { AnswersWith (config_of shared.now) (view pass.old) (view pass.new) object
        (unwrap_or given (words_in (config_of shared.now) (view pass.new) object)) result }
    ensures refused { result ≢ Held → KeepsOwn (config_of shared.now) (view pass.old) (view pass.new) }
    ensures aborts { log.new.aborts ≡ log.old.aborts }
    ensures bound { steps.new ≤ steps.old + most_to_lock given }
{
    match start(shared, pass, log, object, given, steps) {
        Ok(started) => lock_end(shared, pass, log, started, steps),
        Err(answer) => answer,
    }
}

/// Tries to hold an object for the section. The pass is in an open section, past its help, with no
/// write-back under way, nothing is being built in its log, and it holds no more than it may. The answers are tried in this order:
///
/// - `Held` where the section holds the object already; then nothing changes and no step is made.
/// - `SetFull` exactly where it holds as many objects as it may, and `LogFull` exactly where its log
///   has no free slot; then no step is made either.
/// - `Busy` only where the last three steps of this call found HEAD of the object naming a version of
///   that other seat, and the stamp of its write set unset. That seat holds the object, or its commit
///   isn't finished.
/// - `Stale` only where a commit of that printed time, after the section's, writes the object; it was
///   seen.
/// - Else `Held`: the object joins those that are held, with the words that the section reads, and
///   the log has one free slot less.
///
/// After a refusal the section holds what it held, and the log has as many free slots. The log's count
/// of aborts stays in any case. It makes at most 24 steps, and tries at most two exchanges on HEAD; the
/// second comes only where the first found a chain that was cut meanwhile.
pub fn lock<P: Protocol, L: Ledger>(
    shared: &Shared<P>,
    pass: &mut Pass<P>,
    log: &mut Log,
    object: u32,
    steps: &mut Steps<L>,
) -> LockAnswer
    requires of { IsOf shared.now pass.old }
    requires may { MayWalk (view pass.old) }
    requires range { object < (config_of shared.now).objects }
    requires stands { Stands (config_of shared.now) (view pass.old) log.old }
    requires unbuilt { log.old.built ≡ None }
    requires few { log.old.held ≤ (config_of shared.now).write_max }
    ensures same { IsSame pass.old pass.new }
    ensures may { MayWalk (view pass.new) }
    ensures stands { Stands (config_of shared.now) (view pass.new) log.new }
    ensures unbuilt { log.new.built ≡ None }
    ensures few { log.new.held ≤ (config_of shared.now).write_max }
    ensures tries { TriesFew (config_of shared.now) (view pass.old) (view pass.new) object steps.old steps.new }
    ensures again { touches (own_of (config_of shared.now) (view pass.old).ring) object ≡ true
        → (result ≡ Held) × (view pass.new ≡ view pass.old) × (log.new ≡ log.old) }
    ensures answers { touches (own_of (config_of shared.now) (view pass.old).ring) object ≡ false
        → LockAnswers (config_of shared.now) (view pass.old) (view pass.new) object result }
    ensures refused { result ≢ Held → KeepsOwn (config_of shared.now) (view pass.old) (view pass.new) }
    ensures aborts { log.new.aborts ≡ log.old.aborts }
    ensures bound { steps.new ≤ steps.old + 24 }
{
    if holds(log, object) {
        return LockAnswer::Held;
    }
    lock_new(shared, pass, log, object, None, steps)
}

/// Tries to hold an object for the section, with these words. The condition is `lock`'s, and so are
/// the answers, but that the object has the given words then:
///
/// - `Held` where the section holds the object already: it has these words then, by the six stores of
///   `write`.
/// - The refusals come as `lock`'s do, and leave what the section holds and how many slots are free.
/// - Else `Held`: the object joins those that are held, with these words, and the log has one free
///   slot less.
///
/// The log's count of aborts stays in any case. It makes at most 18 steps, and tries at most two
/// exchanges on HEAD; the second comes only where the first found a chain that was cut.
pub fn lock_with<P: Protocol, L: Ledger>(
    shared: &Shared<P>,
    pass: &mut Pass<P>,
    log: &mut Log,
    object: u32,
    words: Words,
    steps: &mut Steps<L>,
) -> LockAnswer
    requires of { IsOf shared.now pass.old }
    requires may { MayWalk (view pass.old) }
    requires range { object < (config_of shared.now).objects }
    requires stands { Stands (config_of shared.now) (view pass.old) log.old }
    requires unbuilt { log.old.built ≡ None }
    requires few { log.old.held ≤ (config_of shared.now).write_max }
    ensures same { IsSame pass.old pass.new }
    ensures may { MayWalk (view pass.new) }
    ensures stands { Stands (config_of shared.now) (view pass.new) log.new }
    ensures unbuilt { log.new.built ≡ None }
    ensures few { log.new.held ≤ (config_of shared.now).write_max }
    ensures again { touches (own_of (config_of shared.now) (view pass.old).ring) object ≡ true
        → (result ≡ Held) × Rewrites (config_of shared.now) (view pass.old) (view pass.new) object words steps.old steps.new }
    ensures tries { touches (own_of (config_of shared.now) (view pass.old).ring) object ≡ false
        → TriesFew (config_of shared.now) (view pass.old) (view pass.new) object steps.old steps.new }
    ensures answers { touches (own_of (config_of shared.now) (view pass.old).ring) object ≡ false
        → AnswersWith (config_of shared.now) (view pass.old) (view pass.new) object words result }
    ensures refused { result ≢ Held → KeepsOwn (config_of shared.now) (view pass.old) (view pass.new) }
    ensures aborts { log.new.aborts ≡ log.old.aborts }
    ensures bound { steps.new ≤ steps.old + 18 }
{
    if holds(log, object) {
        write(shared, pass, log, object, words, steps);
        return LockAnswer::Held;
    }
    lock_new(shared, pass, log, object, Some(words), steps)
}
