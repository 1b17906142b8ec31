// Commits, whole or by their calls.
ghost use Rattle.runtime_tests.specs.Clients.{IsReady};

use crate::clients::{Client, Stage};
use crate::moves::{Answer, Move};
use commit_abort::{Ended, commit};
use commit_clock::{Named, name};
use mv_core::{Shared, Steps};
use mv_history::AnyRules;
use mv_layout::{LAST, clock_time};
use seat_log::held;
use std::sync::ledger::Ledger;

// The tag of each commit. The rules allow every one.
const TAG: [u64; 4] = [1, 2, 3, 4];

// Commits a section that holds something, or names its commit.
pub(crate) fn committing<L: Ledger>(
    shared: &Shared<AnyRules>,
    client: &mut Client,
    next: Move,
    steps: &mut Steps<L>,
) -> Answer
    requires ready { IsReady shared.now client.old }
    ensures ready { IsReady shared.now client.new }
{
    let Stage::Inside(kept) = client.stage else {
        return Answer::Skipped;
    };
    if held(&client.log) == 0 {
        return Answer::Skipped;
    }
    match (next, kept) {
        (Move::Name, Some(word)) if clock_time(word) < LAST => {
            client.stage = Stage::Inside(None);
            match name(shared, &mut client.pass, word, TAG, steps) {
                Named::Done(time) => {
                    client.stage = Stage::Named(time);
                    Answer::Named(time)
                }
                Named::Lost(rival) => Answer::Lost(rival.seat, rival.time),
            }
        }
        (Move::Commit, _) => {
            client.stage = Stage::Inside(None);
            match commit(shared, &mut client.pass, &mut client.log, TAG, steps) {
                Ended::Done(time) => {
                    client.stage = Stage::Outside;
                    Answer::Done(time)
                }
                Ended::Again(rival) => Answer::Again(rival.seat, rival.time),
                Ended::End => Answer::End,
            }
        }
        _ => Answer::Skipped,
    }
}
