// How a call goes on behind a step.
ghost use Rattle.std.specs.Prelude.{◌≡◌};
ghost use Rattle.mv_layout.specs.Limits.{Checked};
ghost use Rattle.replay_text.specs.replay_rules.Sweeps.{then_after};

mod ending;
mod helping;
mod locking;
mod sweeping;
mod walking;

use ending::after_ending;
use helping::{after_entering, after_helping};
use locking::{after_locking, after_writing};
use mv_layout::Config;
use replay_text::replay_rules::{NextStep, NotedVersion, State, Then};
use sweeping::after_sweeping;
use walking::after_walking;

/// How the call of a seat goes on behind a step that found this, with the state and the notes behind the step.
pub fn then_after(
    config: &Config,
    log: &[NotedVersion],
    state: &State,
    task: NextStep,
    found: u64,
) -> Then
    requires { Checked config.now }
    ensures { result ≡ then_after task config.now log.now state.now found }
{
    match task {
        NextStep::Enters(step) => after_entering(config, log, state, step, found),
        NextStep::Helps(step) => after_helping(config, log, state, step, found),
        NextStep::Walks { object, next } => after_walking(config, log, state, object, next, found),
        NextStep::Locks { version, at, next } => after_locking(version, at, next, found),
        NextStep::Writes { at, words, word } => after_writing(at, words, word),
        NextStep::EndsSection(step) => after_ending(config, log, state, step, found),
        NextStep::Tidies(step) => after_sweeping(config, log, state, step, found),
    }
}
