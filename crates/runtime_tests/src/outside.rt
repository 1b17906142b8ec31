// Moves outside a section.
ghost use Rattle.runtime_tests.specs.Clients.{IsReady};

use crate::clients::{Client, Stage};
use crate::inside::inside;
use crate::moves::{Answer, Move, clock};
use commit_clock::now;
use log_reclaim::{Tidy, round, tidy};
use mv_core::{Shared, Steps};
use mv_history::AnyRules;
use reader_marks::{enter, enter_low, known, scan};
use std::sync::ledger::Ledger;

fn tidied(done: Tidy) -> Answer {
    Answer::Tidied(done.freed, done.live, done.held)
}

// Makes a move of a client that is outside a section, or else one of `inside`.
pub(crate) fn outside<L: Ledger>(
    shared: &Shared<AnyRules>,
    client: &mut Client,
    next: Move,
    steps: &mut Steps<L>,
) -> Answer
    requires ready { IsReady shared.now client.old }
    ensures ready { IsReady shared.now client.new }
{
    let Stage::Outside = client.stage else {
        return inside(shared, client, next, steps);
    };
    match next {
        Move::Enter => {
            let time = enter(shared, &mut client.pass, steps);
            client.stage = Stage::Inside(None);
            Answer::Entered(time)
        }
        Move::LoadLow => {
            let low = enter_low(shared, &mut client.pass, steps);
            client.stage = Stage::Lowered(low);
            Answer::Time(low)
        }
        Move::Now => {
            let word = now(shared, &mut client.pass, steps);
            client.stage = Stage::Loaded(word);
            clock(word)
        }
        Move::Scan => Answer::Marked(scan(shared, &mut client.pass, steps)),
        Move::Known => Answer::Marked(known(shared, &mut client.pass, steps)),
        Move::Round(back) => tidied(round(shared, &mut client.pass, &mut client.log, back, steps)),
        Move::Tidy => tidied(tidy(shared, &mut client.pass, &mut client.log, steps)),
        _ => Answer::Skipped,
    }
}
