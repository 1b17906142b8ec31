// Joining the passes of clients, and the load of CLOCK after it.
ghost use Rattle.std.specs.Prelude.{◌≡◌};
ghost use Rattle.runtime_tests.specs.Clients.{AreReady};

use crate::clients::{Client, Stage};
use crate::moves::{Answer, clock};
use mv_core::{Shared, Steps};
use mv_history::AnyRules;
use std::sync::ledger::Ledger;

// Joins the passes of all clients into that of the last one, and answers the word that CLOCK then has.
// It is skipped where one of them isn't outside a section, or where there is none. The clients whose
// passes were taken are gone, also where it is skipped.
pub(crate) fn joining<L: Ledger>(
    shared: &Shared<AnyRules>,
    clients: &mut Vec<Client>,
    steps: &mut Steps<L>,
) -> Answer
    requires ready { AreReady shared.now clients.old.items }
    ensures ready { AreReady shared.now clients.new.items }
{
    let Some(
        Client {
            mut pass,
            stage: Stage::Outside,
            ..
        },
    ) = clients.pop()
    else {
        return Answer::Skipped;
    };
    while let Some(other) = clients.pop() {
        let Client {
            pass: joins,
            stage: Stage::Outside,
            ..
        } = other
        else {
            return Answer::Skipped;
        };
        shared.join(&mut pass, joins, steps);
    }
    clock(shared.load_joined(&mut pass, steps))
}
