// Moves in an open section.
ghost use Rattle.std.specs.Prelude.{◌≡◌, ◌<◌};
ghost use Rattle.mv_core.specs.Passes.{view, config_of};
ghost use Rattle.version_chain.specs.Walks.{HasFound};
ghost use Rattle.runtime_tests.specs.Clients.{IsReady};

use crate::clients::{Client, Stage};
use crate::commits::committing;
use crate::moves::{Answer, Move, clock, tried};
use crate::parts::enter_part;
use commit_abort::abort;
use commit_clock::{help, now};
use mv_core::{Shared, Steps};
use mv_history::AnyRules;
use object_lock::{holds, lock, lock_start, lock_with, write};
use reader_marks::leave;
use seat_log::held;
use std::sync::ledger::Ledger;
use version_chain::{FoundVersion, find, read_master, read_version};

// Reads an object where a walk has found it.
pub(crate) fn read_found<L: Ledger>(
    shared: &Shared<AnyRules>,
    client: &mut Client,
    object: u32,
    found: Option<FoundVersion>,
    steps: &mut Steps<L>,
) -> Answer
    requires ready { IsReady shared.now client.old }
    requires found { HasFound (config_of shared.now) (view client.old.pass) object found }
    requires range { object < (config_of shared.now).objects }
    ensures ready { IsReady shared.now client.new }
    ensures under_way { client.new.under_way ≡ client.old.under_way }
{
    let Stage::Inside(_) = client.stage else {
        return Answer::Skipped;
    };
    let pass = &mut client.pass;
    Answer::Words(match found {
        None => read_master(shared, pass, object, steps),
        Some(at) => read_version(shared, pass, at, steps),
    })
}

// Makes a lock, or the part of one before its exchange of HEAD, or else a move of `committing`.
fn locking<L: Ledger>(
    shared: &Shared<AnyRules>,
    client: &mut Client,
    next: Move,
    steps: &mut Steps<L>,
) -> Answer
    requires ready { IsReady shared.now client.old }
    ensures ready { IsReady shared.now client.new }
{
    let Stage::Inside(_) = client.stage else {
        return Answer::Skipped;
    };
    let objects = shared.config().objects;
    let has_room = held(&client.log) <= shared.config().write_max;
    match next {
        Move::Lock(object) if has_room && object < objects => {
            tried(lock(shared, &mut client.pass, &mut client.log, object, steps))
        }
        Move::LockWith(object, words) if has_room && object < objects => {
            let pass = &mut client.pass;
            tried(lock_with(shared, pass, &mut client.log, object, words, steps))
        }
        Move::LockStart(object) if has_room && object < objects => {
            match lock_start(shared, &mut client.pass, &mut client.log, object, steps) {
                Ok(started) => {
                    client.stage = Stage::Locking(started);
                    Answer::LockStarted
                }
                Err(answer) => tried(answer),
            }
        }
        _ => committing(shared, client, next, steps),
    }
}

// Makes a move of a client in an open section, or else a part of a call.
pub(crate) fn inside<L: Ledger>(
    shared: &Shared<AnyRules>,
    client: &mut Client,
    next: Move,
    steps: &mut Steps<L>,
) -> Answer
    requires ready { IsReady shared.now client.old }
    ensures ready { IsReady shared.now client.new }
{
    let Stage::Inside(_) = client.stage else {
        return enter_part(shared, client, next, steps);
    };
    match next {
        Move::Read(object) if object < shared.config().objects => {
            let found = find(shared, &mut client.pass, object, steps);
            read_found(shared, client, object, found, steps)
        }
        Move::Write(object, words) if holds(&client.log, object) => {
            let pass = &mut client.pass;
            write(shared, pass, &mut client.log, object, words, steps);
            Answer::Written
        }
        Move::Now => {
            let word = now(shared, &mut client.pass, steps);
            help(shared, &mut client.pass, word, steps);
            client.stage = Stage::Inside(Some(word));
            clock(word)
        }
        Move::Leave if held(&client.log) == 0 => {
            leave(shared, &mut client.pass, steps);
            client.stage = Stage::Outside;
            Answer::Left
        }
        Move::Abort => {
            abort(shared, &mut client.pass, &mut client.log, steps);
            client.stage = Stage::Outside;
            Answer::Aborted
        }
        _ => locking(shared, client, next, steps),
    }
}
