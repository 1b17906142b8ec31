// The text of lines in their order, which are given in any: by several threads where there are enough of them.
ghost use Rattle.std.specs.Prelude.{IfOk};
ghost use Rattle.run_report.specs.InOrder.{HasInOrder, IsTextInOrder};

use crate::line::{Line, order};
use crate::lines::{append, write_lines};
use crate::parts::{ROOM, text_in_parts};
use crate::text::text_behind;
use mv_history::LogTable;
use set_model::Catalogue;
use std::alloc::{AllocError, Global};
use std::thread::Threads;

// How many lines a thread orders and renders at least.
const LEAST: usize = 2048;

// How many threads do so at most, as each has memory of its own for its part of the text, which stands there twice once it is joined.
const MOST: usize = 4;

/// The text of a run, as [`render`] makes it, of lines that come in any order: they are put in theirs, as [`order`] does.
///
/// So many threads, but at most four, put them in order and render them, each an even part, where there are enough lines and memory for
/// it, and where the lines of each seat stand together in order; else this thread does all. Where a thread can't be started, another does its work.
/// The lines stay, in some order. The error is want of memory.
///
/// [`render`]: crate::render
#[tactic(auto, using(crate::proofs::InParts::in_order_with_rest))]
pub fn render_in_order<R: Threads + Sync>(
    rt: &R,
    alloc: Global,
    threads: usize,
    lines: &mut Vec<Line>,
    end: &Catalogue,
    tables: &[LogTable],
) -> Result<Vec<u8>, AllocError>
    ensures { IfOk result (λ text. IsTextInOrder lines.old.items end.now tables.now text.items) }
{
    let mut text = text_in_order(rt, alloc, threads, lines)?;
    let rest = text_behind(alloc, end, tables)?;
    append(&mut text, rest.as_bytes())?;
    Ok(text)
}

// The text of the lines in their order.
#[tactic(auto, using(crate::proofs::InParts::has_ordered))]
fn text_in_order<R: Threads + Sync>(
    rt: &R,
    alloc: Global,
    threads: usize,
    lines: &mut Vec<Line>,
) -> Result<Vec<u8>, AllocError>
    ensures { IfOk result (λ text. HasInOrder lines.old.items text.items) }
{
    let parts = threads.min(MOST).min(lines.len() / LEAST);
    if parts > 1 {
        if let Ok(text) = text_in_parts(rt, alloc, parts, lines) {
            return Ok(text);
        }
    }
    order(lines);
    let mut text = Vec::with_capacity(alloc, lines.len().saturating_mul(ROOM))?;
    write_lines(&mut text, lines)?;
    Ok(text)
}
