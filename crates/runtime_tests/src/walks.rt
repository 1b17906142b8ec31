// Walks by their looks: a walk stays under way between two moves of its client.
ghost use Rattle.runtime_tests.specs.Clients.{IsPlayable};

use crate::clients::{Client, Stage, UnderWay};
use crate::inside::read_found;
use crate::moves::{Answer, Move, by_position};
use mv_core::{Shared, Steps};
use mv_history::AnyRules;
use std::mem::replace;
use std::sync::ledger::Ledger;
use version_chain::{walk_start, walk_step};

// Begins a walk, makes a look of it, or reads what its last look found.
pub(crate) fn walking<L: Ledger>(
    shared: &Shared<AnyRules>,
    client: &mut Client,
    next: Move,
    steps: &mut Steps<L>,
) -> Answer
    requires ready { IsPlayable shared.now client.old }
    ensures ready { IsPlayable shared.now client.new }
{
    let under_way = replace(&mut client.under_way, UnderWay::Nothing);
    let Stage::Inside(_) = client.stage else {
        return Answer::Skipped;
    };
    match (next, under_way) {
        (Move::WalkStart(object), _) if object < shared.config().objects => {
            let walk = walk_start(shared, &mut client.pass, object, steps);
            client.under_way = UnderWay::Walking(object, walk);
            Answer::Started
        }
        (Move::WalkStep, UnderWay::Walking(object, walk)) => {
            match walk_step(shared, &mut client.pass, walk, steps) {
                Ok(found) => {
                    client.under_way = UnderWay::Ended(object, found);
                    Answer::Walked(Some(by_position(found)))
                }
                Err(on) => {
                    client.under_way = UnderWay::Walking(object, on);
                    Answer::Walked(None)
                }
            }
        }
        (Move::ReadFound, UnderWay::Ended(object, found)) => {
            read_found(shared, client, object, found, steps)
        }
        _ => Answer::Skipped,
    }
}
