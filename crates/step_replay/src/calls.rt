// How calls begin: their conditions, and their first step.
ghost use Rattle.std.specs.Prelude.{◌≡◌};
ghost use Rattle.replay_text.specs.replay_rules.Begins.{may_begin, new_sweep, begun, begin_lock, unlock, begin_abort, begin_call};

use crate::notes::{held, holds, live, place_held, version_at};
use mv_history::LockAnswer;
use mv_layout::Config;
use replay_text::replay_rules::{
    Call, CallAnswer, Ending, Entering, Leaving, NextStep, NotedVersion, Scanned, State, Sweep,
    Sweeping, Then, Walking,
};

/// Whether a seat that has no call under way may make this one: `enter` and `tidy` outside a section, all others in one;
/// `read` needs an object that is not held, `write` one that is; `commit` needs something held, and `leave` nothing.
pub fn may_begin(log: &[NotedVersion], state: &State, call: Call) -> bool
    ensures { result ≡ may_begin log.now state.now call }
{
    let inside = state.time.is_some();
    match call {
        Call::Enter | Call::Tidy => !inside,
        Call::Read { object } => inside && !holds(log, state, object),
        Call::Lock { object: _ } => inside,
        Call::Write { object, words: _ } => inside && holds(log, state, object),
        Call::Commit => inside && held(log, state) > 0,
        Call::Abort => inside,
        Call::Leave => inside && held(log, state) == 0,
    }
}

/// A tidy that has made no step.
pub fn new_sweep(began: usize) -> Sweep
    ensures { result ≡ new_sweep began }
{
    let none = Scanned {
        time: 0,
        low: 0,
        seat: 0,
        clock: 0,
    };
    Sweep {
        again: false,
        swept: false,
        bound: 0,
        first: none,
        last: none,
        latest: 0,
        at: 0,
        began,
    }
}

/// What a seat is at that begins a call.
pub fn begun(state: State, call: Call) -> State
    ensures { result ≡ begun state call }
{
    State {
        call,
        sweep: new_sweep(state.freed),
        ..state
    }
}

fn begin_lock(config: &Config, log: &[NotedVersion], state: &State, object: u32) -> Then
    ensures { result ≡ begin_lock config.now log.now state.now object }
{
    if holds(log, state, object) {
        return Then::Ends(CallAnswer::Locked(LockAnswer::Held));
    }
    if held(log, state) == config.write_max as usize {
        return Then::Ends(CallAnswer::Locked(LockAnswer::SetFull));
    }
    if live(log, state) == config.slots as usize {
        return Then::Ends(CallAnswer::Locked(LockAnswer::LogFull));
    }
    Then::Goes(NextStep::Walks {
        object,
        next: Walking::LoadHead,
    })
}

/// The step that gives HEAD of the object back of the version held at a position, which is given up.
pub fn unlock(log: &[NotedVersion], at: usize) -> NextStep
    ensures { result ≡ unlock log.now at }
{
    let version = version_at(log, at);
    NextStep::EndsSection(Ending::Unlock {
        at,
        object: version.object,
        previous: version.previous,
    })
}

fn begin_abort(log: &[NotedVersion], state: &State) -> NextStep
    ensures { result ≡ begin_abort log.now state.now }
{
    if held(log, state) == 0 {
        return NextStep::EndsSection(Ending::Leave(Leaving::Plainly));
    }
    unlock(log, state.from)
}

/// The first step of the call that the seat begins, or the answer of a call that needs no step.
pub fn begin(config: &Config, log: &[NotedVersion], state: &State) -> Then
    ensures { result ≡ begin_call (state.now).call config.now log.now state.now }
{
    match state.call {
        Call::Enter => Then::Goes(NextStep::Enters(Entering::LoadLow)),
        Call::Read { object } => Then::Goes(NextStep::Walks {
            object,
            next: Walking::LoadHead,
        }),
        Call::Lock { object } => begin_lock(config, log, state, object),
        Call::Write { object, words } => Then::Goes(NextStep::Writes {
            at: place_held(log, state, object),
            words,
            word: 0,
        }),
        Call::Commit => Then::Goes(NextStep::EndsSection(Ending::LoadNow)),
        Call::Abort => Then::Goes(begin_abort(log, state)),
        Call::Leave => Then::Goes(NextStep::EndsSection(Ending::Leave(Leaving::Plainly))),
        Call::Tidy => Then::Goes(NextStep::Tidies(Sweeping::LoadGrace { again: false })),
    }
}
