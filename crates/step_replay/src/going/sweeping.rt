// Behind the steps of a tidy: its frees, its scan, its write-backs and its rest.
ghost use Rattle.std.specs.Prelude.{◌≡◌, ◌+◌};
ghost use Rattle.mv_layout.specs.Limits.{Checked};
ghost use Rattle.replay_text.specs.replay_rules.declared.seats.Then.TheVariants.{Goes};
ghost use Rattle.replay_text.specs.replay_rules.declared.seats.NextStep.TheVariants.{Tidies};
ghost use Rattle.replay_text.specs.replay_rules.GoesOn.{helped_in_tidy};
ghost use Rattle.replay_text.specs.replay_rules.Sweeps.{rest_is_due, by_mark, holder_of, holder, tidied};
ghost use Rattle.replay_text.specs.replay_rules.Sweeps.{after_frees, free, after_free, look_at, settle, settle_behind};
ghost use Rattle.replay_text.specs.replay_rules.Sweeps.{after_super, back_by, after_top, after_master, after_cut, after_back, after_sweeping};

use super::ending::end;
use crate::access::{link_to, next_clock};
use crate::learning::other_seat;
use crate::notes::{dead_count, first_behind, first_from, live, version_at};
use mv_history::{Holder, Words};
use mv_layout::{Config, LAST, NO_SLOT, clock_time};
use replay_text::replay_rules::{
    CallAnswer, Ending, Entering, NextStep, NotedVersion, Reclaimed, Scanned, State, Sweep,
    Sweeping, Test, Then, WriteBackEnd,
};

fn sweep(step: Sweeping) -> Then
    ensures { result ≡ Goes (Tidies step) }
{
    Then::Goes(NextStep::Tidies(step))
}

// What a tidy does once a word is helped: in a section it looks at HEAD of the object that it writes back, and outside it
// tries a rest, but at the last time.
pub(super) fn helped_in_tidy(log: &[NotedVersion], state: &State, word: u64) -> Then
    ensures { result ≡ helped_in_tidy log.now state.now word }
{
    if state.time.is_some() {
        let at = state.sweep.at;
        let object = version_at(log, at).object;
        return sweep(Sweeping::LoadTop { at, object });
    }
    if clock_time(word) == LAST {
        return sweep(Sweeping::LoadGrace { again: true });
    }
    sweep(Sweeping::NameRest {
        word,
        new: next_clock(word, state.seat, NO_SLOT),
    })
}

// Whether a version is dead only from a time above those that the tidy found in CLOCK, and the last time isn't reached.
fn rest_is_due(log: &[NotedVersion], state: &State) -> bool
    ensures { result ≡ rest_is_due log.now state.now }
{
    let latest = state.sweep.latest;
    let dead = Test::IsDeadAbove { time: latest };
    latest != LAST && first_from(log, state.freed, dead) < log.len()
}

fn by_mark(scan: &Scanned) -> Holder
    ensures { result ≡ by_mark scan.now }
{
    Holder::Mark {
        seat: scan.seat,
        low: scan.low,
    }
}

// Why a version isn't dead by the last scan's watermark.
fn holder_of(version: &NotedVersion, sweep: &Sweep) -> Holder
    ensures { result ≡ holder_of version.now sweep.now }
{
    if version.dead > LAST {
        return Holder::End;
    }
    if version.dead > sweep.last.clock {
        return Holder::Fresh { time: version.dead };
    }
    if version.dead != 0 {
        return by_mark(&sweep.last);
    }
    match version.above {
        Some(seat) => Holder::Above {
            object: version.object,
            seat,
        },
        None => by_mark(&sweep.first),
    }
}

// Who holds the oldest write set, if one is left.
fn holder(log: &[NotedVersion], state: &State) -> Option<Holder>
    ensures { result ≡ holder log.now state.now }
{
    let first = state.freed;
    if first >= log.len() {
        return None;
    }
    let time = state.sweep.last.time;
    let due = first_from(log, first, Test::EndsSet { first, time });
    Some(holder_of(&version_at(log, due), &state.sweep))
}

fn tidied(log: &[NotedVersion], state: &State) -> Then
    ensures { result ≡ tidied log.now state.now }
{
    Then::Ends(CallAnswer::Tidied(Reclaimed {
        freed: state.freed.saturating_sub(state.sweep.began),
        live: live(log, state),
        held: holder(log, state),
    }))
}

// Behind all frees of a round: the scan where it hasn't scanned and something is left, and else the end of the round.
fn after_frees(log: &[NotedVersion], state: &State) -> Then
    ensures { result ≡ after_frees log.now state.now }
{
    if !state.sweep.swept && live(log, state) > 0 {
        return sweep(Sweeping::LoadScan);
    }
    if state.sweep.again {
        return tidied(log, state);
    }
    if rest_is_due(log, state) {
        return end(Ending::LoadNow);
    }
    sweep(Sweeping::LoadGrace { again: true })
}

// The free of the oldest write set, where it is dead.
fn free(log: &[NotedVersion], state: &State) -> Then
    ensures { result ≡ free log.now state.now }
{
    let left = dead_count(log, state, state.sweep.bound);
    if left == 0 {
        return after_frees(log, state);
    }
    sweep(Sweeping::Free {
        at: state.freed,
        left,
    })
}

fn after_free(log: &[NotedVersion], state: &State, left: usize) -> Then
    ensures { result ≡ after_free log.now state.now left }
{
    if left <= 1 {
        return free(log, state);
    }
    sweep(Sweeping::Free {
        at: state.freed,
        left: left - 1,
    })
}

// The mark of the seat, or of the next one where this is the own; behind the last one GRACE is raised.
fn look_at(config: &Config, state: &State, seat: u32) -> Then
    ensures { result ≡ look_at config.now state.now seat }
{
    if seat != state.seat && seat < config.seats {
        return sweep(Sweeping::LoadMark { seat });
    }
    if seat < config.seats && seat + 1 < config.seats {
        return sweep(Sweeping::LoadMark { seat: seat + 1 });
    }
    sweep(Sweeping::RaiseGrace {
        low: state.sweep.last.low,
    })
}

fn after_mark(config: &Config, state: &State, seat: u32) -> Then
    ensures { result ≡ look_at config.now state.now (seat + 1) }
{
    if seat < config.seats {
        return look_at(config, state, seat + 1);
    }
    sweep(Sweeping::RaiseGrace {
        low: state.sweep.last.low,
    })
}

// Looks at the version at this position, which has no time of death; behind the last one the round frees.
fn settle(log: &[NotedVersion], state: &State, at: usize) -> Then
    ensures { result ≡ settle log.now state.now at }
{
    if at < log.len() {
        return sweep(Sweeping::LoadSuper { at });
    }
    free(log, state)
}

fn settle_behind(log: &[NotedVersion], state: &State, at: usize) -> Then
    ensures { result ≡ settle_behind log.now state.now at }
{
    settle(log, state, first_behind(log, at, Test::IsUntimed))
}

// In a round with write-backs a version that is old enough is written back, in a section.
fn after_super(log: &[NotedVersion], state: &State, at: usize, found: u64) -> Then
    ensures { result ≡ after_super log.now state.now at found }
{
    if found != 0 || state.sweep.again || version_at(log, at).time > state.sweep.last.time {
        return settle_behind(log, state, at);
    }
    Then::Goes(NextStep::Enters(Entering::LoadLow))
}

fn above(state: &State, link: u64) -> WriteBackEnd
    ensures { result ≡ back_by state.now link }
{
    if link == 0 {
        return WriteBackEnd::WasGone;
    }
    WriteBackEnd::WasAbove {
        seat: other_seat(state.seat, link),
    }
}

fn after_top(log: &[NotedVersion], state: &State, at: usize, object: u32, found: u64) -> Then
    ensures { result ≡ after_top log.now state.now at object found }
{
    if found == link_to(state.seat, at) {
        let words = version_at(log, at).words;
        return sweep(Sweeping::StoreMaster {
            at,
            object,
            words,
            word: 0,
        });
    }
    let back = above(state, found);
    sweep(Sweeping::LeaveBack { at, back })
}

fn after_master(at: usize, object: u32, words: Words, word: u32) -> Then
    ensures { result ≡ after_master at object words word }
{
    if word < 5 {
        return sweep(Sweeping::StoreMaster {
            at,
            object,
            words,
            word: word + 1,
        });
    }
    sweep(Sweeping::CutHead { at, object })
}

fn after_cut(state: &State, at: usize, found: u64) -> Then
    ensures { result ≡ after_cut state.now at found }
{
    if found == link_to(state.seat, at) {
        return sweep(Sweeping::LoadCutDeath { at });
    }
    let back = above(state, found);
    sweep(Sweeping::LeaveBack { at, back })
}

fn after_back(log: &[NotedVersion], state: &State, at: usize, back: WriteBackEnd) -> Then
    ensures { result ≡ after_back back log.now state.now at }
{
    match back {
        WriteBackEnd::WasGone => sweep(Sweeping::LoadSuperAgain { at }),
        _ => settle_behind(log, state, at),
    }
}

pub(super) fn after_sweeping(
    config: &Config,
    log: &[NotedVersion],
    state: &State,
    step: Sweeping,
    found: u64,
) -> Then
    requires { Checked config.now }
    ensures { result ≡ after_sweeping step config.now log.now state.now found }
{
    match step {
        Sweeping::LoadGrace { again: _ } => free(log, state),
        Sweeping::Free { at: _, left } => after_free(log, state, left),
        Sweeping::LoadScan => look_at(config, state, 0),
        Sweeping::LoadMark { seat } => after_mark(config, state, seat),
        Sweeping::RaiseGrace { low: _ } => {
            settle(log, state, first_from(log, state.freed, Test::IsUntimed))
        }
        Sweeping::LoadSuper { at } => after_super(log, state, at, found),
        Sweeping::LoadTop { at, object } => after_top(log, state, at, object, found),
        Sweeping::StoreMaster {
            at,
            object,
            words,
            word,
        } => after_master(at, object, words, word),
        Sweeping::CutHead { at, object: _ } => after_cut(state, at, found),
        Sweeping::LoadCutDeath { at } => sweep(Sweeping::LeaveBack {
            at,
            back: WriteBackEnd::WasCut {
                dead: clock_time(found) + 1,
            },
        }),
        Sweeping::LeaveBack { at, back } => after_back(log, state, at, back),
        Sweeping::LoadSuperAgain { at } => settle_behind(log, state, at),
        Sweeping::NameRest { word: _, new: _ } => sweep(Sweeping::LoadGrace { again: true }),
    }
}
