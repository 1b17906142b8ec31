// What a run over a domain tells, and its text.
ghost use Rattle.std.specs.Prelude.{◌≡◌, IfOk};
ghost use Rattle.mvrlu.specs.Meant.{whole_of};
ghost use Rattle.run_report.specs.InOrder.{IsTextInOrder};

use mv_history::Protocol;
use mvrlu::Closing;
use run_report::{Line, render_in_order};
use set_model::Catalogue;
use std::alloc::{AllocError, Global};
use std::thread::Threads;

/// What a run tells: what is left of its domain, which has the table of each seat's log, its lines, and how it ended.
#[derive(Drop)]
pub struct RunAnswer<P: Protocol, End: Drop> {
    pub closing: Closing<P>,
    pub lines: Vec<Line>,
    pub end: End,
}

/// The text of a run, and what is left of its domain.
pub type FromRun<P> = (Vec<u8>, Closing<P>);

/// Makes the text of what a run on the sets tells, which has its lines in their order, on so many threads at most. The error is
/// want of memory.
pub fn tell<R: Threads + Sync, P: Protocol>(
    rt: &R,
    alloc: Global,
    threads: usize,
    told: RunAnswer<P, Catalogue>,
) -> Result<FromRun<P>, AllocError>
    ensures left { IfOk result (λ r. r.1 ≡ told.closing) }
    ensures text { IfOk result (λ r. IsTextInOrder told.lines.items told.end (whole_of told.closing).tables r.0.items) }
{
    let RunAnswer {
        closing,
        mut lines,
        end,
    } = told;
    let text = render_in_order(rt, alloc, threads, &mut lines, &end, closing.tables())?;
    Ok((text, closing))
}
