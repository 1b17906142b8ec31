// What a client may do next, and what it is answered.
ghost use Rattle.std.specs.Prelude.{◌≡◌};
ghost use Rattle.mvrlu.specs.Orders.{IsSameSeat};
ghost use Rattle.mvrlu.specs.Meant.{handled, section_of};
ghost use Rattle.domain_tests.specs.Clients.{seat_in};

use crate::clients::Client;
use core::mem::replace_with;
use mv_history::{
    AnyRules, CommitAnswer, Holder, LockAnswer, LogTable, Rival, Room, Section, Store, View, Words,
};
use mvrlu::{Handle, Session};

/// A call of a handle or of a session.
#[derive(Clone, Copy)]
pub enum Move {
    /// Of a handle: they are made outside a section.
    Enter,
    Prepare,
    Tidy,
    Table,
    /// Of a session: they are made in a section.
    Read(u32),
    Lock(u32),
    Write(u32, Words),
    Commit,
    Abort,
    Leave,
}

/// What a move is answered.
#[derive(Clone, Copy, PartialEq, Eq)]
pub enum Answer {
    /// The time of the section.
    Entered(u64),
    Room(Room),
    /// How many slots were freed, how many are live then, and who holds the oldest write set.
    Tidied(u32, u32, Option<Holder>),
    Counts(LogTable),
    Words(Words),
    Tried(LockAnswer),
    Written,
    Done(u64),
    Again(Rival),
    End,
    Aborted,
    Left,
    /// The move isn't one of the client as it stands, and nothing was done.
    Skipped,
}

// Begins a section.
fn enter<'d>(handle: Handle<'d, AnyRules>) -> (Client<'d>, Answer)
    ensures { IsSameSeat (handled handle.entry) (seat_in result.0) }
{
    let session = handle.enter();
    let time = session.at();
    (Client::Inside(session), Answer::Entered(time))
}

// A move outside a section that begins none.
fn between(handle: &mut Handle<'_, AnyRules>, next: Move) -> Answer
    ensures { IsSameSeat (handled handle.old) (handled handle.new) }
{
    match next {
        Move::Prepare => Answer::Room(handle.prepare()),
        Move::Tidy => {
            let tidied = handle.tidy();
            Answer::Tidied(tidied.freed, tidied.live, tidied.held)
        }
        Move::Table => Answer::Counts(handle.table()),
        _ => Answer::Skipped,
    }
}

// A move outside a section.
fn outside<'d>(mut handle: Handle<'d, AnyRules>, next: Move) -> (Client<'d>, Answer)
    ensures { IsSameSeat (handled handle.entry) (seat_in result.0) }
{
    match next {
        Move::Enter => enter(handle),
        _ => {
            let answer = between(&mut handle, next);
            (Client::Outside(handle), answer)
        }
    }
}

// Commits what a section holds.
fn commit<'d>(session: Session<'d, AnyRules>) -> (Client<'d>, Answer)
    ensures { IsSameSeat (section_of session.entry).seat (seat_in result.0) }
{
    if session.held() == 0 {
        return (Client::Inside(session), Answer::Skipped);
    }
    match session.try_commit([0; 4]) {
        CommitAnswer::Done(handle, time) => (Client::Outside(handle), Answer::Done(time)),
        CommitAnswer::Again(session, rival) => (Client::Inside(session), Answer::Again(rival)),
        CommitAnswer::End(session) => (Client::Inside(session), Answer::End),
    }
}

// Leaves a section that holds nothing.
fn leave<'d>(session: Session<'d, AnyRules>) -> (Client<'d>, Answer)
    ensures { IsSameSeat (section_of session.entry).seat (seat_in result.0) }
{
    if session.held() > 0 {
        return (Client::Inside(session), Answer::Skipped);
    }
    (Client::Outside(session.leave()), Answer::Left)
}

// A move in a section that goes on.
fn within(session: &mut Session<'_, AnyRules>, next: Move) -> Answer
    ensures { IsSameSeat (section_of session.old).seat (section_of session.new).seat }
{
    match next {
        Move::Read(object) if object < session.objects() => Answer::Words(session.read(object)),
        Move::Lock(object) if object < session.objects() => Answer::Tried(session.try_lock(object)),
        Move::Write(object, words) if session.has_lock(object) => {
            session.write(object, words);
            Answer::Written
        }
        _ => Answer::Skipped,
    }
}

// A move in a section.
fn inside<'d>(mut session: Session<'d, AnyRules>, next: Move) -> (Client<'d>, Answer)
    ensures { IsSameSeat (section_of session.entry).seat (seat_in result.0) }
{
    match next {
        Move::Commit => commit(session),
        Move::Leave => leave(session),
        Move::Abort => (Client::Outside(session.abort()), Answer::Aborted),
        _ => {
            let answer = within(&mut session, next);
            (Client::Inside(session), answer)
        }
    }
}

// A move of a client.
fn made<'d>(client: Client<'d>, next: Move) -> (Client<'d>, Answer)
    ensures { IsSameSeat (seat_in client.entry) (seat_in result.0) }
{
    match client {
        Client::Outside(handle) => outside(handle, next),
        Client::Inside(session) => inside(session, next),
    }
}

// Makes a move of a client, which keeps its seat.
pub(crate) fn make(client: &mut Client<'_>, next: Move) -> Answer
    ensures { IsSameSeat (seat_in client.old) (seat_in client.new) }
{
    replace_with(
        client,
        next,
        |client, next|
            ensures { IsSameSeat (seat_in client.entry) (seat_in result.0) }
        { made(client, next) },
    )
}
