// What a command comes to that may change something, with its plan beside it.
ghost use Rattle.std.specs.Prelude.{◌≡◌};
ghost use Rattle.set_catalog.specs.Findings.{with_plan};

use crate::finding::Finding;
use crate::plan::Vacated;
use set_model::Reply;
use tree_balance::WritePlan;

/// What a command comes to whose writes are planned in a plan of the caller's.
#[derive(Clone, Copy, Drop)]
pub enum PlanOutcome {
    /// It changes nothing, and this is its reply.
    Settled(Reply),
    /// It changes something by the planned writes, and a del leaves these objects vacant.
    Open(Vacated),
}

impl PlanOutcome {
    // The same, with what was planned.
    pub(crate) fn with(self, plan: WritePlan) -> Finding
        ensures { result ≡ with_plan self plan }
    {
        match self {
            PlanOutcome::Settled(reply) => Finding::Settled(reply),
            PlanOutcome::Open(gone) => Finding::Open { plan, gone },
        }
    }
}
