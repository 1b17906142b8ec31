// Behind the steps of an enter and of helping.
ghost use Rattle.std.specs.Prelude.{◌≡◌};
ghost use Rattle.mv_layout.specs.Limits.{Checked};
ghost use Rattle.replay_text.specs.replay_rules.GoesOn.{helped_in, help, after_entering, after_helping};

use super::ending::name;
use super::sweeping::helped_in_tidy;
use mv_layout::{Config, NO_SLOT, clock_slot, clock_time, is_unset, mark_word};
use replay_text::replay_rules::{
    Call, CallAnswer, Entering, Helping, NextStep, NotedVersion, State, Then,
};

// What a call does once a clock word is helped.
fn helped(config: &Config, log: &[NotedVersion], state: &State, word: u64) -> Then
    requires { Checked config.now }
    ensures { result ≡ helped_in (state.now).call config.now log.now state.now word }
{
    match state.call {
        Call::Commit => name(config, state, word),
        Call::Tidy => helped_in_tidy(log, state, word),
        _ => Then::Ends(CallAnswer::AtTime(clock_time(word))),
    }
}

// The help of a clock word, and what the call does afterwards.
pub(super) fn help(config: &Config, log: &[NotedVersion], state: &State, word: u64) -> Then
    requires { Checked config.now }
    ensures { result ≡ help config.now log.now state.now word }
{
    if clock_slot(word) == NO_SLOT {
        return helped(config, log, state, word);
    }
    Then::Goes(NextStep::Helps(Helping::LoadNamed { word }))
}

pub(super) fn after_entering(
    config: &Config,
    log: &[NotedVersion],
    state: &State,
    step: Entering,
    found: u64,
) -> Then
    requires { Checked config.now }
    ensures { result ≡ after_entering step config.now log.now state.now found }
{
    match step {
        Entering::LoadLow => Then::Goes(NextStep::Enters(Entering::StoreMark {
            mark: mark_word(clock_time(found)),
        })),
        Entering::StoreMark { mark: _ } => Then::Goes(NextStep::Enters(Entering::LoadTime)),
        Entering::LoadTime => help(config, log, state, found),
    }
}

pub(super) fn after_helping(
    config: &Config,
    log: &[NotedVersion],
    state: &State,
    step: Helping,
    found: u64,
) -> Then
    requires { Checked config.now }
    ensures { result ≡ after_helping step config.now log.now state.now found }
{
    match step {
        Helping::LoadNamed { word } if is_unset(found) => {
            Then::Goes(NextStep::Helps(Helping::LoadCheck { word, unset: found }))
        }
        Helping::LoadNamed { word } => helped(config, log, state, word),
        Helping::LoadCheck { word, unset } if found == word => {
            Then::Goes(NextStep::Helps(Helping::SwapStamp { word, unset }))
        }
        Helping::LoadCheck { word, unset: _ } => helped(config, log, state, word),
        Helping::SwapStamp { word, unset: _ } => helped(config, log, state, word),
    }
}
