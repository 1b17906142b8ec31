// Behind the steps of a walk down a version chain: a read's, and a lock's.
ghost use Rattle.std.specs.Prelude.{◌≡◌};
ghost use Rattle.mv_layout.specs.Limits.{Checked};
ghost use Rattle.replay_text.specs.replay_rules.declared.seats.Then.TheVariants.{Goes};
ghost use Rattle.replay_text.specs.replay_rules.declared.seats.NextStep.TheVariants.{Walks};
ghost use Rattle.replay_text.specs.replay_rules.GoesOn.{stand, refusal, is_lock, after_stamp, after_words, after_walking};

use crate::access::seat_of_link;
use crate::notes::with_word;
use mv_history::{LockAnswer, WORDS, Words};
use mv_layout::{Config, is_unset};
use replay_text::replay_rules::{
    Call, CallAnswer, Locking, NextStep, NotedVersion, State, Then, Walking,
};

fn walk(object: u32, next: Walking) -> Then
    ensures { result ≡ Goes (Walks object next) }
{
    Then::Goes(NextStep::Walks { object, next })
}

// Where a walk goes on at a link.
fn stand(object: u32, link: u64) -> Then
    ensures { result ≡ stand object link }
{
    if link == 0 {
        return walk(
            object,
            Walking::LoadWord {
                link,
                words: [0; WORDS],
                word: 0,
            },
        );
    }
    walk(object, Walking::LoadFirst { link })
}

// The refusal of a lock by a version with this stamp.
pub(super) fn refusal(link: u64, stamp: u64) -> Then
    ensures { result ≡ refusal link stamp }
{
    let answer = if is_unset(stamp) {
        LockAnswer::Busy {
            seat: seat_of_link(link),
        }
    } else {
        LockAnswer::Stale { time: stamp }
    };
    Then::Ends(CallAnswer::Locked(answer))
}

fn is_lock(call: Call) -> bool
    ensures { result ≡ is_lock call }
{
    matches!(call, Call::Lock { object: _ })
}

// What a walk does with the stamp of the version where it stands.
fn after_stamp(state: &State, object: u32, link: u64, stamp: u64) -> Then
    ensures { result ≡ after_stamp state.now object link stamp }
{
    if !is_unset(stamp) && stamp <= state.time.unwrap_or(0) {
        return walk(
            object,
            Walking::LoadWord {
                link,
                words: [0; WORDS],
                word: 0,
            },
        );
    }
    if is_lock(state.call) {
        return refusal(link, stamp);
    }
    walk(object, Walking::LoadPrev { link })
}

// A lock builds a version once the words are read, and a read answers them.
fn after_words(log: &[NotedVersion], state: &State, object: u32, link: u64, words: Words) -> Then
    ensures { result ≡ after_words log.now state.now object link words }
{
    if !is_lock(state.call) {
        return Then::Ends(CallAnswer::SixWords(words));
    }
    let version = NotedVersion {
        first: state.from,
        object,
        previous: link,
        words,
        time: 0,
        dead: 0,
        above: None,
    };
    Then::Goes(NextStep::Locks {
        version,
        at: log.len(),
        next: Locking::Build { field: 0 },
    })
}

pub(super) fn after_walking(
    config: &Config,
    log: &[NotedVersion],
    state: &State,
    object: u32,
    step: Walking,
    found: u64,
) -> Then
    requires { Checked config.now }
    ensures { result ≡ after_walking step config.now log.now state.now object found }
{
    match step {
        Walking::LoadHead => stand(object, found),
        Walking::LoadFirst { link } => walk(object, Walking::LoadStamp { link, first: found }),
        Walking::LoadStamp { link, first: _ } => after_stamp(state, object, link, found),
        Walking::LoadPrev { link: _ } => stand(object, found),
        Walking::LoadWord { link, words, word } => {
            let words = with_word(words, word, found);
            if word < 5 {
                walk(
                    object,
                    Walking::LoadWord {
                        link,
                        words,
                        word: word + 1,
                    },
                )
            } else {
                after_words(log, state, object, link, words)
            }
        }
    }
}
