// The text of long runs, whose lines several threads put in order and render: it is that of one thread.
use crate::comparing::must;
use run_report::{Line, order, render, render_in_order};
use section_work::Place;
use set_model::{Catalogue, Reply};
use std::alloc::{AllocError, Global};
use std::process::Abort;
use std::test::Fail;
use std::thread::Threads;

// How many lines each seat has, of which there are three: enough for three parts.
const EACH: u32 = 2500;

// A commit at each fourth number, and reads at its time.
fn line_of(seat: u32, number: u32) -> Line {
    let time = (number / 4) as u64;
    let place = if number % 4 == 0 {
        Place::Commit(time)
    } else {
        Place::Read(time)
    };
    Line {
        seat,
        number,
        place,
        reply: Reply::Yes,
    }
}

// The lines of each seat, from the first on.
fn lines_in_turn(alloc: Global) -> Result<Vec<Line>, AllocError> {
    let mut lines = Vec::new(alloc);
    for seat in 0..3 {
        for number in 1..=EACH {
            lines.push(line_of(seat, number))?;
        }
    }
    Ok(lines)
}

// The lines of each seat, from the last on.
fn lines_backwards(alloc: Global) -> Result<Vec<Line>, AllocError> {
    let mut lines = Vec::new(alloc);
    for seat in 0..3 {
        for number in 1..=EACH {
            lines.push(line_of(seat, EACH + 1 - number))?;
        }
    }
    Ok(lines)
}

// Looks that so many threads make the text of these lines that one makes once they are in order.
fn same_text<R: Abort + Threads + Sync>(
    rt: &R,
    alloc: Global,
    threads: usize,
    mut lines: Vec<Line>,
) -> Result<(), AllocError> {
    let end = Catalogue::new(alloc)?;
    let mut ordered = lines.clone()?;
    order(&mut ordered);
    let want = render(alloc, &ordered, &end, &[])?;
    let found = render_in_order(rt, alloc, threads, &mut lines, &end, &[])?;
    must(rt, found == want, "the text of one thread");
    Ok(())
}

#[test]
fn several_threads_make_the_text_of_one(rt: HostRuntime) -> Result<(), Fail> {
    for threads in 0..5 {
        same_text(&rt, rt.alloc(), threads, lines_in_turn(rt.alloc())?)?;
    }
    Ok(())
}

#[test]
fn lines_of_a_seat_that_are_out_of_order_are_sorted(rt: HostRuntime) -> Result<(), Fail> {
    same_text(&rt, rt.alloc(), 3, lines_backwards(rt.alloc())?)?;
    Ok(())
}
