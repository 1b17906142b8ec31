// What a step changes of what its seat is at, and of the notes of its log.
ghost use Rattle.std.specs.Prelude.{◌≡◌};
ghost use Rattle.replay_text.specs.replay_rules.Learns.{with_clock, entered, helped, ended, scanning, lowered, scanned, freed_one, swept, state_after};
ghost use Rattle.replay_text.specs.replay_rules.Learns.{edit_of_end, edit_of_super};
ghost use Rattle.replay_text.specs.replay_rules.Learns.{edit_of_sweep, edit_of, other_seat};

use crate::access::seat_of_link;
use crate::notes::word_of;
use mv_layout::{clock_time, mark_low};
use replay_text::replay_rules::{
    Edit, Ending, Entering, Helping, Leaving, Locking, NextStep, NotedVersion, Scanned, State,
    Sweep, Sweeping, WriteBackEnd,
};

// With a time that was found in CLOCK.
fn with_clock(state: State, word: u64) -> State
    ensures { result ≡ with_clock state word }
{
    State {
        sweep: Sweep {
            latest: state.sweep.latest.max(clock_time(word)),
            ..state.sweep
        },
        ..state
    }
}

fn entered(state: State, step: Entering, found: u64) -> State
    ensures { result ≡ entered step state found }
{
    match step {
        Entering::LoadLow | Entering::StoreMark { mark: _ } => state,
        Entering::LoadTime => with_clock(
            State {
                time: Some(clock_time(found)),
                ..state
            },
            found,
        ),
    }
}

fn helped(state: State, step: Helping, found: u64) -> State
    ensures { result ≡ helped step state found }
{
    match step {
        Helping::LoadCheck { word: _, unset: _ } => with_clock(state, found),
        _ => state,
    }
}

fn ended(log: &[NotedVersion], state: State, step: Ending) -> State
    ensures { result ≡ ended step log.now state }
{
    match step {
        Ending::Leave(_) => State {
            time: None,
            from: log.len(),
            ..state
        },
        _ => state,
    }
}

// The first scan of a tidy that has loaded CLOCK.
fn scanning(state: State, word: u64) -> State
    ensures { result ≡ scanning state word }
{
    let clock = clock_time(word);
    let last = Scanned {
        time: clock,
        low: clock,
        seat: 0,
        clock,
    };
    with_clock(
        State {
            sweep: Sweep {
                last,
                ..state.sweep
            },
            ..state
        },
        word,
    )
}

// The scan with a mark more, of a seat above all before.
fn lowered(scan: Scanned, seat: u32, mark: u64) -> Scanned
    ensures { result ≡ lowered scan seat mark }
{
    if mark == 0 {
        return scan;
    }
    let low = mark_low(mark);
    if low >= scan.low {
        return scan;
    }
    Scanned { low, seat, ..scan }
}

// The scan is whole.
fn scanned(sweep: Sweep, found: u64) -> Sweep
    ensures { result ≡ scanned sweep found }
{
    let time = sweep.last.low.max(found);
    let last = Scanned { time, ..sweep.last };
    let first = if sweep.again { sweep.first } else { last };
    Sweep {
        swept: true,
        bound: time,
        first,
        last,
        ..sweep
    }
}

fn with_sweep(state: State, sweep: Sweep) -> State
    ensures { result ≡ record state { sweep = sweep } }
{
    State { sweep, ..state }
}

fn freed_one(log: &[NotedVersion], state: State) -> State
    ensures { result ≡ freed_one log.now state }
{
    if state.freed < log.len() {
        State {
            freed: state.freed + 1,
            ..state
        }
    } else {
        state
    }
}

fn swept(log: &[NotedVersion], state: State, step: Sweeping, found: u64) -> State
    ensures { result ≡ swept step log.now state found }
{
    let sweep = state.sweep;
    match step {
        Sweeping::LoadGrace { again } => with_sweep(
            state,
            Sweep {
                again,
                swept: false,
                bound: found,
                ..sweep
            },
        ),
        Sweeping::Free { at: _, left: _ } => freed_one(log, state),
        Sweeping::LoadScan => scanning(state, found),
        Sweeping::LoadMark { seat } => with_sweep(
            state,
            Sweep {
                last: lowered(sweep.last, seat, found),
                ..sweep
            },
        ),
        Sweeping::RaiseGrace { low: _ } => with_sweep(state, scanned(sweep, found)),
        Sweeping::LoadSuper { at } => with_sweep(state, Sweep { at, ..sweep }),
        Sweeping::LoadCutDeath { at: _ } => with_clock(state, found),
        Sweeping::LeaveBack { at: _, back: _ } => State {
            time: None,
            ..state
        },
        _ => state,
    }
}

/// What a seat is at behind a step that found this, of which the notes of its log tell nothing yet.
pub fn state_after(log: &[NotedVersion], state: State, task: NextStep, found: u64) -> State
    ensures { result ≡ state_after task log.now state found }
{
    match task {
        NextStep::Enters(step) => entered(state, step, found),
        NextStep::Helps(step) => helped(state, step, found),
        NextStep::Walks { object: _, next: _ } => state,
        NextStep::Locks {
            version: _,
            at: _,
            next: _,
        } => state,
        NextStep::Writes {
            at: _,
            words: _,
            word: _,
        } => state,
        NextStep::EndsSection(step) => ended(log, state, step),
        NextStep::Tidies(step) => swept(log, state, step, found),
    }
}

fn edit_of_end(from: usize, step: Ending) -> Edit
    ensures { result ≡ edit_of_end from step }
{
    match step {
        Ending::Leave(Leaving::WithCommit { time }) => Edit::CommittedFrom { from, time },
        Ending::Leave(Leaving::WithAbort { dead }) => Edit::AbortedFrom { from, dead },
        _ => Edit::Kept,
    }
}

// A time that was found in SUPER is that of the version's death.
fn edit_of_super(at: usize, found: u64) -> Edit
    ensures { result ≡ edit_of_super at found }
{
    if found == 0 {
        Edit::Kept
    } else {
        Edit::Retired { at, dead: found }
    }
}

fn edit_of_sweep(state: &State, step: Sweeping, found: u64) -> Edit
    ensures { result ≡ edit_of_sweep step state.now found }
{
    match step {
        Sweeping::LoadSuper { at } if found == 0 && !state.sweep.again => {
            Edit::AboveNoted { at, seat: None }
        }
        Sweeping::LoadSuper { at } => edit_of_super(at, found),
        Sweeping::LoadSuperAgain { at } => edit_of_super(at, found),
        Sweeping::LeaveBack {
            at,
            back: WriteBackEnd::WasCut { dead },
        } => Edit::Retired { at, dead },
        Sweeping::LeaveBack {
            at,
            back: WriteBackEnd::WasAbove { seat },
        } => Edit::AboveNoted { at, seat },
        _ => Edit::Kept,
    }
}

/// What the step of a seat that found this changes in the notes of its log.
pub fn edit_of(state: &State, task: NextStep, found: u64) -> Edit
    ensures { result ≡ edit_of task state.now found }
{
    match task {
        NextStep::Locks {
            version,
            at: _,
            next: Locking::LockHead,
        } if found == version.previous => { Edit::Pushed(version) }
        NextStep::Writes { at, words, word } => Edit::WordPut {
            at,
            word,
            value: word_of(&words, word),
        },
        NextStep::EndsSection(step) => edit_of_end(state.from, step),
        NextStep::Tidies(step) => edit_of_sweep(state, step, found),
        _ => Edit::Kept,
    }
}

/// The seat of a link, if it is another than this one.
pub fn other_seat(seat: u32, link: u64) -> Option<u32>
    ensures { result ≡ other_seat seat link }
{
    let other = seat_of_link(link);
    if other == seat { None } else { Some(other) }
}
