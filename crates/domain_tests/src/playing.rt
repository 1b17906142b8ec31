// Schedules: what their turns are answered in a new domain, and how it closes.
ghost use Rattle.std.specs.Prelude.{◌≡◌, ◌≤◌, [], vec_len, vec_capacity};
ghost use Rattle.mvrlu.specs.Meant.{numbers_of, seat_of};
ghost use Rattle.mvrlu.specs.Orders.{AreRising, AreFalling};
ghost use Rattle.domain_tests.specs.Clients.{seat_in};

use crate::clients::Client;
use crate::comparing::assert_same;
use crate::lending::{give_back, lend};
use crate::moves::{Answer, Move, make};
use mv_history::{AnyRules, LogTable, View, Words};
use mv_layout::Config;
use mvrlu::{Closing, Domain, OpenFault, Seat, open_zeros};
use std::alloc::{AllocError, Global};
use std::process::Abort;
use std::test::Fail;

/// A turn of a schedule: the number of a seat, its move, and the answer that is wanted.
pub type Turn = (usize, Move, Answer);

/// A schedule of one thread in a new domain whose objects are all zeros: its turns, and the closing that is
/// wanted then.
#[derive(Clone, Copy)]
pub struct Schedule<'a> {
    /// What it shows.
    pub name: &'a str,
    /// The numbers of the domain.
    pub domain: Config,
    /// Its turns, part by part.
    pub turns: &'a [&'a [Turn]],
    /// Its turns after all seats were given back and lent again; a section that was left open is given up.
    pub again: &'a [Turn],
    /// The time of the closing, and the words of its first objects. A seat whose last turn told its table has that table
    /// there too.
    pub closing: (u64, &'a [Words]),
}

/// What was first otherwise than was wanted.
#[derive(Clone, Copy)]
pub enum Otherwise {
    /// What a turn of a part was answered.
    Turn {
        part: usize,
        turn: usize,
        answer: Answer,
    },
    /// The time of the closing.
    Time(u64),
    /// The words of an object of the closing; None where there is no such object.
    Object(u32, Option<Words>),
    /// The closing's table of the seat of this number; None where there is no such table.
    Table(usize, Option<LogTable>),
}

/// One seat and one object, sets of up to 16 objects, logs of 64 slots, and 0 as the opening time.
pub const SMALL: Config = Config {
    seats: 1,
    objects: 1,
    slots: 64,
    write_max: 16,
    low: 32,
    high: 48,
    base: 0,
};

// Makes the move of a seat, where there is a client for it. The clients stand the last first.
fn make_turn(
    domain: &Domain<AnyRules>,
    clients: &mut Vec<Client<'_>>,
    seat: usize,
    next: Move,
) -> Answer
    requires falling { AreFalling seat_in domain.now (numbers_of domain.now).seats clients.old.items }
    ensures falling { AreFalling seat_in domain.now (numbers_of domain.now).seats clients.new.items }
    ensures many { vec_len clients.new ≡ vec_len clients.old }
    ensures room { vec_capacity clients.new ≡ vec_capacity clients.old }
{
    if seat >= clients.len() {
        return Answer::Skipped;
    }
    let place = clients.len() - 1 - seat;
    make(&mut clients[place], next)
}

// Plays a part of a schedule. It answers the first turn that was answered otherwise, with that answer.
fn play(
    domain: &Domain<AnyRules>,
    clients: &mut Vec<Client<'_>>,
    turns: &[Turn],
) -> Option<(usize, Answer)>
    requires falling { AreFalling seat_in domain.now (numbers_of domain.now).seats clients.old.items }
    ensures falling { AreFalling seat_in domain.now (numbers_of domain.now).seats clients.new.items }
    ensures many { vec_len clients.new ≡ vec_len clients.old }
    ensures room { vec_capacity clients.new ≡ vec_capacity clients.old }
{
    for at in 0..turns.len() {
        let (seat, next, wanted) = turns[at];
        let answer = make_turn(domain, clients, seat, next);
        if answer != wanted {
            return Some((at, answer));
        }
    }
    None
}

// Plays the parts of a schedule.
fn play_parts(
    domain: &Domain<AnyRules>,
    clients: &mut Vec<Client<'_>>,
    parts: &[&[Turn]],
) -> Option<Otherwise>
    requires falling { AreFalling seat_in domain.now (numbers_of domain.now).seats clients.old.items }
    ensures falling { AreFalling seat_in domain.now (numbers_of domain.now).seats clients.new.items }
    ensures many { vec_len clients.new ≡ vec_len clients.old }
    ensures room { vec_capacity clients.new ≡ vec_capacity clients.old }
{
    for part in 0..parts.len() {
        if let Some((turn, answer)) = play(domain, clients, parts[part]) {
            return Some(Otherwise::Turn { part, turn, answer });
        }
    }
    None
}

// What of a closing is otherwise than was wanted.
fn closed_otherwise(mut closing: Closing<AnyRules>, wanted: (u64, &[Words])) -> Option<Otherwise> {
    let (time, objects) = wanted;
    if closing.time() != time {
        return Some(Otherwise::Time(closing.time()));
    }
    let mut object = 0;
    for words in objects {
        if object >= closing.objects() {
            return Some(Otherwise::Object(object, None));
        }
        let found = closing.read(object);
        if found != *words {
            return Some(Otherwise::Object(object, Some(found)));
        }
        object += 1;
    }
    None
}

// The table that the last of these turns of a seat told; where it has none, the one that was told before.
fn told_last(turns: &[Turn], seat: usize, before: Option<LogTable>) -> Option<LogTable> {
    let mut told = before;
    for turn in turns {
        if turn.0 == seat {
            told = match turn.2 {
                Answer::Counts(table) => Some(table),
                _ => None,
            };
        }
    }
    told
}

// What of a closing's tables is otherwise than the last turns of the seats told.
fn tables_otherwise(closing: &Closing<AnyRules>, schedule: &Schedule) -> Option<Otherwise> {
    let tables = closing.tables();
    for seat in 0..schedule.domain.seats as usize {
        let mut told = None;
        for part in schedule.turns {
            told = told_last(part, seat, told);
        }
        told = told_last(schedule.again, seat, told);
        let found = tables.get(seat).copied();
        if found.is_none() || (told.is_some() && found != told) {
            return Some(Otherwise::Table(seat, found));
        }
    }
    None
}

// Lends the domain to the seats, plays parts of a schedule, and gives the domain back.
fn play_lent<'d>(
    domain: &'d Domain<AnyRules>,
    seats: &mut Vec<Seat<AnyRules>>,
    clients: &mut Vec<Client<'d>>,
    parts: &[&[Turn]],
) -> Option<Otherwise>
    requires many { vec_len seats.old ≡ (numbers_of domain.now).seats }
    requires rising { AreRising seat_of domain.now seats.old.items }
    requires empty { clients.old.items ≡ [] }
    requires room { vec_len seats.old ≤ vec_capacity clients.old }
    ensures many { vec_len seats.new ≡ (numbers_of domain.now).seats }
    ensures rising { AreRising seat_of domain.now seats.new.items }
    ensures empty { clients.new.items ≡ [] }
    ensures room { vec_capacity clients.new ≡ vec_capacity clients.old }
{
    lend(domain, seats, clients);
    let otherwise = play_parts(domain, clients, parts);
    give_back(domain, clients, seats);
    otherwise
}

// Plays a schedule, and gives the domain back. It answers the first turn that was answered otherwise.
fn play_all<'d>(
    domain: &'d Domain<AnyRules>,
    mut seats: Vec<Seat<AnyRules>>,
    mut clients: Vec<Client<'d>>,
    schedule: &Schedule,
) -> (Vec<Seat<AnyRules>>, Option<Otherwise>)
    requires many { vec_len seats ≡ (numbers_of domain.now).seats }
    requires rising { AreRising seat_of domain.now seats.items }
    requires empty { clients.items ≡ [] }
    requires room { vec_len seats ≤ vec_capacity clients }
    ensures many { vec_len result.0 ≡ (numbers_of domain.now).seats }
    ensures rising { AreRising seat_of domain.now result.0.items }
{
    let first = play_lent(domain, &mut seats, &mut clients, schedule.turns);
    let then = play_lent(domain, &mut seats, &mut clients, &[schedule.again]);
    clients.destroy_empty();
    (seats, first.or(then))
}

/// Plays a schedule in a new domain, and lets its seats meet; a section that is left open is given up. It
/// answers what was first otherwise; `None` is that all was as wanted.
///
/// The error is that of `open`, or want of memory for the clients; no turn was made then.
pub fn played(alloc: Global, schedule: &Schedule) -> Result<Option<Otherwise>, OpenFault> {
    let (domain, seats) = open_zeros::<AnyRules>(alloc, schedule.domain)?;
    let clients = match Vec::with_capacity(alloc, seats.len()) {
        Ok(clients) => clients,
        Err(AllocError) => {
            let _ = domain.meet(seats);
            return Err(OpenFault::Memory);
        }
    };
    let (seats, otherwise) = play_all(&domain, seats, clients, schedule);
    let closing = domain.meet(seats);
    let tables = tables_otherwise(&closing, schedule);
    let closed = closed_otherwise(closing, schedule.closing);
    Ok(otherwise.or(tables).or(closed))
}

// What was otherwise, and where: the part and the turn, the object, or the seat.
fn place_of(otherwise: Option<Otherwise>) -> (&'static str, usize, usize) {
    match otherwise {
        Some(Otherwise::Turn { part, turn, .. }) => ("a turn", part, turn),
        Some(Otherwise::Time(_)) => ("the last time", 0, 0),
        Some(Otherwise::Object(object, _)) => ("an object", object as usize, 0),
        Some(Otherwise::Table(seat, _)) => ("a table", seat, 0),
        None => ("nothing", 0, 0),
    }
}

/// Plays schedules. Every turn of each is to be answered as wanted; else its part and its place there are told.
pub fn play_schedules(
    rt: &impl Abort,
    alloc: Global,
    schedules: &[Schedule<'_>],
) -> Result<(), Fail> {
    for schedule in schedules {
        let place = place_of(played(alloc, schedule)?);
        assert_same(rt, &place, &("nothing", 0, 0), schedule.name);
    }
    Ok(())
}
