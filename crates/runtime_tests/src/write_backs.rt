// A write-back by its parts: it stays under way between two moves of its client.
ghost use Rattle.runtime_tests.specs.Clients.{IsPlayable};

use crate::clients::{Client, Stage, UnderWay};
use crate::moves::{Answer, Move};
use log_reclaim::{back_finish, back_start, back_word};
use mv_core::{Shared, Steps};
use mv_history::AnyRules;
use reader_marks::scan;
use seat_log::{live, note};
use std::mem::replace;
use std::sync::ledger::Ledger;

pub(crate) fn back_starting<L: Ledger>(
    shared: &Shared<AnyRules>,
    client: &mut Client,
    index: u32,
    steps: &mut Steps<L>,
) -> Answer
    requires ready { IsPlayable shared.now client.old }
    ensures ready { IsPlayable shared.now client.new }
{
    let Stage::Outside = client.stage else {
        return Answer::Skipped;
    };
    if index >= live(&client.log) {
        return Answer::Skipped;
    }
    let version = note(&client.log, index);
    if version.time == 0 {
        return Answer::Skipped;
    }
    let mark = scan(shared, &mut client.pass, steps);
    let position = version.position;
    match back_start(
        shared,
        &mut client.pass,
        &client.log,
        position,
        &mark,
        steps,
    ) {
        Ok(back) => {
            client.stage = Stage::WritingBack;
            client.under_way = UnderWay::WriteBack(back, 0);
            Answer::Started
        }
        Err(cause) => {
            client.under_way = UnderWay::Nothing;
            Answer::NoBack(cause)
        }
    }
}

// Stores a word of the write-back that is under way, or ends it once all six are stored.
pub(crate) fn writing_back<L: Ledger>(
    shared: &Shared<AnyRules>,
    client: &mut Client,
    next: Move,
    steps: &mut Steps<L>,
) -> Answer
    requires ready { IsPlayable shared.now client.old }
    ensures ready { IsPlayable shared.now client.new }
{
    let under_way = replace(&mut client.under_way, UnderWay::Nothing);
    let UnderWay::WriteBack(mut back, stored) = under_way else {
        return Answer::Skipped;
    };
    let Stage::WritingBack = client.stage else {
        return Answer::Skipped;
    };
    match next {
        Move::BackWord if stored < 6 => {
            back_word(shared, &mut client.pass, &mut back, steps);
            client.under_way = UnderWay::WriteBack(back, stored + 1);
            Answer::Stored
        }
        Move::BackFinish if stored == 6 => {
            client.stage = Stage::Outside;
            let log = &mut client.log;
            Answer::BackEnded(back_finish(shared, &mut client.pass, log, back, steps))
        }
        _ => Answer::Skipped,
    }
}
