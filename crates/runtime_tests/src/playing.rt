// Schedules: what their turns are answered in a new domain.
ghost use Rattle.std.specs.Prelude.{◌≡◌, ◌<◌, All, IfOk};
ghost use Rattle.runtime_tests.specs.Clients.{IsPlayable, AreReady};

use crate::clients::{Client, UnderWay};
use crate::comparing::assert_same;
use crate::joining::joining;
use crate::moves::{Answer, Move, make};
use crate::opening::open;
use crate::walks::walking;
use crate::write_backs::{back_starting, writing_back};
use mv_core::{Shared, Steps};
use mv_history::AnyRules;
use mv_layout::Config;
use std::alloc::{AllocError, Global};
use std::marker::Brand;
use std::process::Abort;
use std::sync::ledger::{Blank, Ledger};
use std::test::Fail;

/// A turn of a schedule: the number of a seat, its move, and the answer that is wanted.
pub type Turn = (usize, Move, Answer);

/// A schedule: the turns of its parts, one after another, in a new domain.
#[derive(Clone, Copy)]
pub struct Schedule<'a> {
    /// What it shows.
    pub name: &'a str,
    /// The numbers of the domain. They are not checked: `played` does that.
    pub domain: Config,
    /// Its parts.
    pub turns: &'a [&'a [Turn]],
}

/// The first turn of a schedule that was answered otherwise than was wanted.
#[derive(Clone, Copy)]
pub struct Otherwise {
    /// The number of the part.
    pub part: usize,
    /// The number of the turn in that part.
    pub turn: usize,
    /// What it was answered.
    pub answer: Answer,
}

/// One seat and one object, sets of up to 16 objects, logs of 64 slots, and 0 as the opening time.
pub const SMALL: Config = Config {
    seats: 1,
    objects: 1,
    slots: 64,
    write_max: 16,
    low: 32,
    high: 48,
    base: 0,
};

// Makes a move of a client, and answers what it was answered. What the client has under way ends with
// every move that doesn't go on with it.
fn make_next<L: Ledger>(
    shared: &Shared<AnyRules>,
    client: &mut Client,
    next: Move,
    steps: &mut Steps<L>,
) -> Answer
    requires ready { IsPlayable shared.now client.old }
    ensures ready { IsPlayable shared.now client.new }
{
    match next {
        Move::WalkStart(_) | Move::WalkStep | Move::ReadFound => {
            walking(shared, client, next, steps)
        }
        Move::BackStart(index) => back_starting(shared, client, index, steps),
        Move::BackWord | Move::BackFinish => writing_back(shared, client, next, steps),
        _ => {
            let answer = make(shared, client, next, steps);
            client.under_way = UnderWay::Nothing;
            answer
        }
    }
}

// Makes the move of a seat, where there is a client for it.
fn make_turn<L: Ledger>(
    shared: &Shared<AnyRules>,
    clients: &mut Vec<Client>,
    seat: usize,
    next: Move,
    steps: &mut Steps<L>,
) -> Answer
    requires ready { AreReady shared.now clients.old.items }
    ensures ready { AreReady shared.now clients.new.items }
{
    if seat >= clients.len() {
        return Answer::Skipped;
    }
    match next {
        Move::Join => joining(shared, clients, steps),
        _ => make_next(shared, &mut clients[seat], next, steps),
    }
}

// Plays a part of a schedule. It answers the first turn that was answered otherwise, with that answer.
fn play<L: Ledger>(
    shared: &Shared<AnyRules>,
    clients: &mut Vec<Client>,
    turns: &[Turn],
    steps: &mut Steps<L>,
) -> Option<(usize, Answer)>
    requires ready { AreReady shared.now clients.old.items }
    ensures ready { AreReady shared.now clients.new.items }
{
    for at in 0..turns.len() {
        let (seat, next, wanted) = turns[at];
        let answer = make_turn(shared, clients, seat, next, steps);
        if answer != wanted {
            return Some((at, answer));
        }
    }
    None
}

// Plays the parts of a schedule.
fn play_parts<L: Ledger>(
    shared: &Shared<AnyRules>,
    clients: &mut Vec<Client>,
    parts: &[&[Turn]],
    steps: &mut Steps<L>,
) -> Option<Otherwise>
    requires ready { AreReady shared.now clients.old.items }
    ensures ready { AreReady shared.now clients.new.items }
{
    for part in 0..parts.len() {
        if let Some((turn, answer)) = play(shared, clients, parts[part], steps) {
            return Some(Otherwise { part, turn, answer });
        }
    }
    None
}

// Plays a schedule in a new domain, with a counter of steps. It answers the domain with its clients as
// the last turn left them.
fn play_new<L: Ledger>(
    alloc: Global,
    config: &Config,
    parts: &[&[Turn]],
    blank: Blank,
) -> Result<Result<(Shared<AnyRules>, Vec<Client>), Otherwise>, AllocError>
    requires name { blank.name ≡ L.name }
    requires parts { (blank.parts ≡ L.parts) × (0 < L.parts) }
    ensures ready { IfOk result (λ r. IfOk r (λ left. AreReady left.0 left.1.items)) }
{
    let Ok(()) = config.check() else {
        return Ok(Err(Otherwise {
            part: 0,
            turn: 0,
            answer: Answer::Skipped,
        }));
    };
    let mut steps = Steps::<L>::open(blank);
    let (shared, mut clients) = open(alloc, config)?;
    match play_parts(&shared, &mut clients, parts, &mut steps) {
        Some(otherwise) => Ok(Err(otherwise)),
        None => Ok(Ok((shared, clients))),
    }
}

// The same, with a counter of its own.
pub(crate) fn play_once(
    alloc: Global,
    schedule: &Schedule,
) -> Result<Result<(Shared<AnyRules>, Vec<Client>), Otherwise>, AllocError>
    ensures ready { IfOk result (λ r. IfOk r (λ left. AreReady left.0 left.1.items)) }
{
    let Schedule { domain, turns, .. } = *schedule;
    play_new::<Brand>(alloc, &domain, turns, Blank::new(1))
}

/// Plays a schedule in a new domain. It answers the first turn that was answered otherwise, and makes no
/// turn after it; `None` is that every turn was answered as wanted. Numbers that are no domain are answered as the first turn,
/// `Skipped`. Where memory is refused for a domain, no turn was made in it.
pub fn played(alloc: Global, schedule: &Schedule) -> Result<Option<Otherwise>, AllocError> {
    Ok(play_once(alloc, schedule)?.err())
}

/// Plays schedules. Every turn of each is to be answered as wanted; else its part and its place there are told.
pub fn play_schedules(
    rt: &impl Abort,
    alloc: Global,
    schedules: &[Schedule<'_>],
) -> Result<(), Fail> {
    for schedule in schedules {
        let place = match played(alloc, schedule)? {
            Some(Otherwise { part, turn, .. }) => Some((part, turn)),
            None => None,
        };
        assert_same(rt, &place, &None, schedule.name);
    }
    Ok(())
}
