// The parts of a call, each at the stage that the part before it has left.
ghost use Rattle.runtime_tests.specs.Clients.{IsReady};

use crate::clients::{Client, Stage};
use crate::moves::{Answer, Move, tried};
use commit_abort::finish;
use commit_clock::{Named, help, rest};
use mv_core::{Shared, Steps};
use mv_history::AnyRules;
use mv_layout::{LAST, clock_time};
use object_lock::lock_end;
use reader_marks::{enter_mark, enter_time, leave};
use seat_log::note_rest;
use std::sync::ledger::Ledger;

// Makes the last part of a commit, a lock, a rest or a write-back that is given up. A rest isn't tried at the last time.
fn last_part<L: Ledger>(
    shared: &Shared<AnyRules>,
    client: &mut Client,
    next: Move,
    steps: &mut Steps<L>,
) -> Answer
    requires ready { IsReady shared.now client.old }
    ensures ready { IsReady shared.now client.new }
{
    match (client.stage, next) {
        (Stage::Named(time), Move::Finish) => {
            finish(shared, &mut client.pass, &mut client.log, time, steps);
            client.stage = Stage::Outside;
            Answer::Finished
        }
        (Stage::Locking(started), Move::LockEnd) => {
            client.stage = Stage::Inside(None);
            tried(lock_end(shared, &mut client.pass, &mut client.log, started, steps))
        }
        (Stage::WritingBack, Move::Leave) => {
            leave(shared, &mut client.pass, steps);
            client.stage = Stage::Outside;
            Answer::Left
        }
        (Stage::Helped(word), Move::Rest) => {
            client.stage = Stage::Outside;
            if clock_time(word) >= LAST {
                return Answer::End;
            }
            match rest(shared, &mut client.pass, word, steps) {
                Named::Done(time) => {
                    note_rest(&mut client.log);
                    Answer::Rested(time)
                }
                Named::Lost(rival) => Answer::Lost(rival.seat, rival.time),
            }
        }
        _ => Answer::Skipped,
    }
}

// Makes a part of an `enter`, helps the word of CLOCK that was loaded outside a section, or else makes a last part.
pub(crate) fn enter_part<L: Ledger>(
    shared: &Shared<AnyRules>,
    client: &mut Client,
    next: Move,
    steps: &mut Steps<L>,
) -> Answer
    requires ready { IsReady shared.now client.old }
    ensures ready { IsReady shared.now client.new }
{
    match (client.stage, next) {
        (Stage::Lowered(low), Move::StoreMark(mark)) if mark == low => {
            enter_mark(shared, &mut client.pass, low, steps);
            client.stage = Stage::Marked;
            Answer::Stored
        }
        (Stage::Marked, Move::LoadTime) => {
            let word = enter_time(shared, &mut client.pass, steps);
            client.stage = Stage::Taken(word);
            Answer::Time(clock_time(word))
        }
        (Stage::Taken(word), Move::Help) => {
            help(shared, &mut client.pass, word, steps);
            client.stage = Stage::Inside(None);
            Answer::Helped
        }
        (Stage::Loaded(word), Move::Help) => {
            help(shared, &mut client.pass, word, steps);
            client.stage = Stage::Helped(word);
            Answer::Helped
        }
        _ => last_part(shared, client, next, steps),
    }
}
