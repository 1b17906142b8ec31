// Behind the steps that end a section: a commit's, an abort's and a leave's.
ghost use Rattle.std.specs.Prelude.{◌≡◌};
ghost use Rattle.mv_layout.specs.Limits.{Checked};
ghost use Rattle.replay_text.specs.replay_rules.declared.seats.Then.TheVariants.{Goes};
ghost use Rattle.replay_text.specs.replay_rules.declared.seats.NextStep.TheVariants.{EndsSection};
ghost use Rattle.replay_text.specs.replay_rules.GoesOn.{name, store_super, after_name, after_unlock};
ghost use Rattle.replay_text.specs.replay_rules.GoesOn.{after_leaving, after_now, after_ending};

use super::helping::help;
use crate::access::commit_clock;
use crate::calls::unlock;
use crate::notes::{first_behind, first_from, version_at};
use commit_abort::Ended;
use mv_history::Rival;
use mv_layout::{Config, LAST, clock_seat, clock_time};
use replay_text::replay_rules::{
    Call, CallAnswer, Ending, Leaving, NextStep, NotedVersion, State, Test, Then,
};

pub(super) fn end(step: Ending) -> Then
    ensures { result ≡ Goes (EndsSection step) }
{
    Then::Goes(NextStep::EndsSection(step))
}

// The exchange of CLOCK that a commit tries once the word is helped.
pub(super) fn name(config: &Config, state: &State, word: u64) -> Then
    requires { Checked config.now }
    ensures { result ≡ name config.now state.now word }
{
    if clock_time(word) == LAST {
        return Then::Ends(CallAnswer::Committed(Ended::End));
    }
    end(Ending::Name {
        word,
        new: commit_clock(config, word, state.seat, state.from),
    })
}

// The store of SUPER below the version at this position, if there is one and something is below.
fn store_super(log: &[NotedVersion], at: usize, time: u64) -> Then
    ensures { result ≡ store_super log.now at time }
{
    if at < log.len() {
        return end(Ending::StoreSuper {
            at,
            link: version_at(log, at).previous,
            time,
        });
    }
    end(Ending::Leave(Leaving::WithCommit { time }))
}

fn after_name(state: &State, word: u64, found: u64) -> Then
    ensures { result ≡ after_name state.now word found }
{
    if found != word {
        return Then::Ends(CallAnswer::Committed(Ended::Again(Rival {
            seat: clock_seat(found),
            time: clock_time(found),
        })));
    }
    end(Ending::StampOwn {
        first: state.from,
        time: clock_time(word) + 1,
    })
}

fn after_unlock(log: &[NotedVersion], at: usize) -> Then
    ensures { result ≡ after_unlock log.now at }
{
    if at < log.len() && at + 1 < log.len() {
        Then::Goes(unlock(log, at + 1))
    } else {
        end(Ending::LoadDeath)
    }
}

fn after_leaving(leaving: Leaving) -> Then
    ensures { result ≡ after_leaving leaving }
{
    Then::Ends(match leaving {
        Leaving::WithCommit { time } => CallAnswer::Committed(Ended::Done(time)),
        _ => CallAnswer::Silent,
    })
}

// A commit at the last time ends; a rest helps there all the same.
fn after_now(config: &Config, log: &[NotedVersion], state: &State, found: u64) -> Then
    requires { Checked config.now }
    ensures { result ≡ after_now (state.now).call config.now log.now state.now found }
{
    if state.call == Call::Commit && clock_time(found) == LAST {
        return Then::Ends(CallAnswer::Committed(Ended::End));
    }
    help(config, log, state, found)
}

pub(super) fn after_ending(
    config: &Config,
    log: &[NotedVersion],
    state: &State,
    step: Ending,
    found: u64,
) -> Then
    requires { Checked config.now }
    ensures { result ≡ after_ending step config.now log.now state.now found }
{
    match step {
        Ending::LoadNow => after_now(config, log, state, found),
        Ending::Name { word, new: _ } => after_name(state, word, found),
        Ending::StampOwn { first, time } => {
            store_super(log, first_from(log, first, Test::IsLinked), time)
        }
        Ending::StoreSuper { at, link: _, time } => {
            store_super(log, first_behind(log, at, Test::IsLinked), time)
        }
        Ending::Unlock {
            at,
            object: _,
            previous: _,
        } => after_unlock(log, at),
        Ending::LoadDeath => end(Ending::Leave(Leaving::WithAbort {
            dead: clock_time(found) + 1,
        })),
        Ending::Leave(leaving) => after_leaving(leaving),
    }
}
