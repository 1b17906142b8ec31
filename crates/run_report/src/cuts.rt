// Stretches of lines, and where they are cut into parts.
ghost use Rattle.std.specs.Prelude.{◌≡◌, ◌≤◌, ◌<◌, ◌++◌, IfOk, length};
ghost use Rattle.std.specs.List.Sorted.{IsPermutation};
ghost use Rattle.run_report.specs.InOrder.{lines_of};

use crate::line::{Line, order};
use std::alloc::{AllocError, Global};

// How many lines of a part are looked at to choose a pivot.
const SAMPLES: usize = 32;

/// These lines, cut where the lines of another seat begin.
pub(crate) fn stretches_of<'a>(
    alloc: Global,
    lines: &'a [Line],
) -> Result<Vec<&'a [Line]>, AllocError>
    ensures { IfOk result (λ stretches. lines_of stretches.items ≡ lines.now) }
{
    let mut stretches = Vec::new(alloc);
    let mut rest = lines;
    while !rest.is_empty() {
        let (stretch, others) = rest.split_at(first_seat(rest));
        stretches.push(stretch)?;
        rest = others;
    }
    Ok(stretches)
}

// How many lines at the front are of the first one's seat, where the lines of a seat stand together: at least one.
fn first_seat(lines: &[Line]) -> usize
    requires { 0 < length lines.now }
    ensures { (1 ≤ result) × (result ≤ length lines.now) }
{
    let seat = lines[0].seat;
    lines
        .partition_point(|line: &Line| line.seat == seat)
        .max(1)
}

/// The stretches cut in two, where a line comes that isn't ahead of the pivot.
pub(crate) fn cut<'a>(
    alloc: Global,
    stretches: &[&'a [Line]],
    pivot: &Line,
) -> Result<(Vec<&'a [Line]>, Vec<&'a [Line]>), AllocError>
    ensures { IfOk result (λ halves. IsPermutation (lines_of stretches.now) (lines_of halves.0.items ++ lines_of halves.1.items)) }
{
    let mut fronts = Vec::new(alloc);
    let mut backs = Vec::new(alloc);
    for stretch in stretches {
        let at = stretch.partition_point(|line: &Line| line.is_ahead(pivot));
        let (front, back) = stretch.split_at(at);
        fronts.push(front)?;
        backs.push(back)?;
    }
    Ok((fronts, backs))
}

/// A line of the stretches, ahead of which about `low` of `parts` parts of so many lines stand. The error is want of memory, or
/// that there is no line.
pub(crate) fn pivot_of(
    alloc: Global,
    low: usize,
    parts: usize,
    each: usize,
    stretches: &[&[Line]],
) -> Result<Line, AllocError>
    requires { 0 < parts }
{
    let step = (each / SAMPLES).max(1);
    let mut samples = Vec::new(alloc);
    for stretch in stretches {
        for few in stretch.chunks(step) {
            samples.push(few[0])?;
        }
    }
    order(&mut samples);
    match samples.get(samples.len().saturating_mul(low) / parts) {
        Some(pivot) => Ok(*pivot),
        None => Err(AllocError),
    }
}
