// The text of lines in their order, made in even parts, each by a thread that merges its stretches and renders them.
ghost use Rattle.std.specs.Prelude.{◌≡◌, ◌<◌, ◌++◌, false, IfOk, OnOk, length, slice_index_or};
ghost use Rattle.std.specs.List.{flat_map};
ghost use Rattle.std.specs.List.Sorted.{IsPermutation};
ghost use Rattle.std.specs.Thread.{IsSync};
ghost use Rattle.run_report.specs.InOrder.{HasInOrder, IsPart, IsPartBehind, lines_at, lines_of};
ghost use Rattle.run_report.specs.Order.{IsOrdered, is_ahead};
ghost use Rattle.run_report.specs.Text.{text_of_line};

use crate::cuts::{cut, pivot_of, stretches_of};
use crate::line::Line;
use crate::lines::append;
use crate::row::{ROW, put_line};
use std::alloc::{AllocError, Global};
use std::thread::{Threads, join};

/// For how many bytes a line there is room from the start. Most lines have fewer.
pub(crate) const ROOM: usize = 24;

// About how many lines a thread puts in order at a time, so that it has references to these alone, not to those of its whole part.
const PIECE: usize = 4096;

// The text of a part, with its first and its last line.
#[derive(Drop)]
struct Part {
    text: Vec<u8>,
    first: Line,
    last: Line,
}

/// The text of these lines in their order, made in so many parts. The error is want of memory, or lines of a seat that don't stand
/// together in order.
#[tactic(auto, using(crate::proofs::InParts::has_part))]
pub(crate) fn text_in_parts<R: Threads + Sync>(
    rt: &R,
    alloc: Global,
    parts: usize,
    lines: &[Line],
) -> Result<Vec<u8>, AllocError>
    ensures { IfOk result (λ text. HasInOrder lines.now text.items) }
{
    let stretches = stretches_of(alloc, lines)?;
    let each = lines.len() / parts.max(1);
    let text = Vec::with_capacity(alloc, lines.len().saturating_mul(ROOM))?;
    let Part { text, .. } = part_of(rt, alloc, parts, each, text, stretches)?;
    Ok(text)
}

// The text of the lines of these stretches, made in so many parts of about so many lines, in the memory of this text. Before a thread
// starts, this one takes the memory of its text; the first part's has room for those behind it, which isn't copied twice.
#[cycle(parts)]
fn part_of<R: Threads + Sync>(
    rt: &R,
    alloc: Global,
    parts: usize,
    each: usize,
    text: Vec<u8>,
    stretches: Vec<&[Line]>,
) -> Result<Part, AllocError>
    ensures { IfOk result (λ part. IsPart (lines_of stretches.entry.items) part.text.items part.first part.last) }
{
    if parts < 2 {
        return merged(alloc, each, text, &stretches);
    }
    let low = parts / 2;
    let high = parts - low;
    let pivot = pivot_of(alloc, low, parts, each, &stretches)?;
    let (fronts, backs) = cut(alloc, &stretches, &pivot)?;
    let other = Vec::with_capacity(alloc, count_of(&backs).saturating_mul(ROOM))?;
    let first = move || -> Result<Part, AllocError>
        requires { IsSync R.row }
        ensures { IfOk result (λ part. IsPart (lines_of fronts.entry.items) part.text.items part.first part.last) }
    { part_of(rt, alloc, low, each, text, fronts) };
    let second = move || -> Result<Part, AllocError>
        requires { IsSync R.row }
        ensures { IfOk result (λ part. IsPart (lines_of backs.entry.items) part.text.items part.first part.last) }
    { part_of(rt, alloc, high, each, other, backs) };
    let (behind, front) = join(rt, second, first);
    let front = front?;
    let behind = behind?;
    both(front, behind)
}

// A part with another behind it. The error is want of memory, or that its last line isn't ahead of the other's first.
fn both(front: Part, behind: Part) -> Result<Part, AllocError>
    ensures { IfOk result (λ part. (is_ahead behind.first front.last ≡ false) × (part.text.items ≡ front.text.items ++ behind.text.items)
        × (part.first ≡ front.first) × (part.last ≡ behind.last)) }
{
    if behind.first.is_ahead(&front.last) {
        return Err(AllocError);
    }
    let Part {
        mut text,
        first,
        last: _,
    } = front;
    append(&mut text, &behind.text)?;
    Ok(Part {
        text,
        first,
        last: behind.last,
    })
}

// The text of the lines of these stretches, made by this thread in pieces, in the memory of this text. The error is want of memory, or
// that a piece has no line.
#[tactic(auto, using(crate::proofs::InParts::behind_nothing))]
fn merged(
    alloc: Global,
    each: usize,
    mut text: Vec<u8>,
    stretches: &[&[Line]],
) -> Result<Part, AllocError>
    ensures { IfOk result (λ part. IsPart (lines_of stretches.now) part.text.items part.first part.last) }
{
    text.clear();
    let (first, last) = write_pieces(alloc, &mut text, each / PIECE, stretches)?;
    Ok(Part { text, first, last })
}

// Appends the text of the lines of these stretches, in so many pieces, each behind the one before it. Gives the first line and the last.
fn write_pieces(
    alloc: Global,
    text: &mut Vec<u8>,
    pieces: usize,
    stretches: &[&[Line]],
) -> Result<(Line, Line), AllocError>
    ensures { IfOk result (λ ends. IsPartBehind text.old.items (lines_of stretches.now) text.new.items ends.0 ends.1) }
{
    if pieces < 2 {
        return write_piece(alloc, text, stretches);
    }
    let low = pieces / 2;
    let high = pieces - low;
    let pivot = pivot_of(alloc, low, pieces, PIECE, stretches)?;
    let (fronts, backs) = cut(alloc, stretches, &pivot)?;
    let (first, last) = write_pieces(alloc, text, low, &fronts)?;
    let (next, end) = write_pieces(alloc, text, high, &backs)?;
    if next.is_ahead(&last) {
        return Err(AllocError);
    }
    Ok((first, end))
}

// Appends the text of the lines of these stretches in their order, which are put in it all at once.
fn write_piece(
    alloc: Global,
    text: &mut Vec<u8>,
    stretches: &[&[Line]],
) -> Result<(Line, Line), AllocError>
    ensures { IfOk result (λ ends. IsPartBehind text.old.items (lines_of stretches.now) text.new.items ends.0 ends.1) }
{
    let lines = sorted(alloc, stretches)?;
    let count = lines.len();
    if count == 0 {
        return Err(AllocError);
    }
    write_each(text, &lines)?;
    Ok((line_at(&lines, 0), line_at(&lines, count - 1)))
}

fn line_at(lines: &[&Line], at: usize) -> Line
    requires { at < length lines.now }
    ensures { result ≡ slice_index_or (lines_at lines.now) at result }
{
    *lines[at]
}

// The lines of these stretches in their order.
fn sorted<'a>(alloc: Global, stretches: &[&'a [Line]]) -> Result<Vec<&'a Line>, AllocError>
    ensures same { IfOk result (λ lines. IsPermutation (lines_of stretches.now) (lines_at lines.items)) }
    ensures in_order { IfOk result (λ lines. IsOrdered (lines_at lines.items)) }
{
    let mut lines = Vec::with_capacity(alloc, count_of(stretches))?;
    for stretch in stretches {
        add_lines(&mut lines, *stretch)?;
    }
    lines.sort_by_key(|line: &&Line| line.order_key())?;
    Ok(lines)
}

// How many lines the stretches have.
fn count_of(stretches: &[&[Line]]) -> usize {
    let mut count: usize = 0;
    for stretch in stretches {
        count = count.saturating_add(stretch.len());
    }
    count
}

fn add_lines<'a>(all: &mut Vec<&'a Line>, lines: &'a [Line]) -> Result<(), AllocError>
    ensures { OnOk result (lines_at all.new.items ≡ lines_at all.old.items ++ lines.now) }
{
    for line in lines {
        all.push(line)?;
    }
    Ok(())
}

// Appends the text of each of these lines.
fn write_each(text: &mut Vec<u8>, lines: &[&Line]) -> Result<(), AllocError>
    ensures { OnOk result (text.new.items ≡ text.old.items ++ flat_map text_of_line (lines_at lines.now)) }
{
    let mut row = [0; ROW];
    for line in lines {
        let start = put_line(&mut row, *line);
        append(text, &row[start..])?;
    }
    Ok(())
}
