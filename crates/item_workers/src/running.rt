// One item after another, by one runner.
ghost use Rattle.std.specs.Prelude.{◌≡◌, ◌≤◌, [], vec_capacity};
ghost use Rattle.item_workers.specs.Chains.{OnTried};
ghost use Rattle.item_workers.specs.Serving.{IsServed};

use crate::runner::{Answer, Runner, Tried};
use crate::source::{Given, Source};
use core::mem::replace_with;
use host_io::Gate;
use std::sync::Wait;
use std::thread;

/// Tries an item until it is done. Behind each attempt that was given up the thread gives its processor away.
///
/// It goes on for ever where others always come first.
pub fn run_item<R: Wait, W: Runner>(rt: &R, runner: &mut W, item: &W::Item) -> W::Done
    requires ready { W.ready runner.old }
    requires does { W.does item.now }
    ensures link { W.link (W.kept_of runner.old) (W.kept_of runner.new) item.now result }
    ensures ready { W.ready runner.new }
{
    for _ in rt.forever() {
        match try_item(runner, item) {
            Tried::Done(done) => return done,
            Tried::Again => thread::yield_now(),
        }
    }
    unreachable!()
}

// One attempt. What runs can't be copied or left out, so it is taken out of its place and put back.
fn try_item<W: Runner>(runner: &mut W, item: &W::Item) -> Tried<W::Done>
    requires does { W.does item.now }
    requires under { (s : W.Kept) × W.under s item.now runner.old }
    ensures { (s : W.Kept) → W.under s item.now runner.old → OnTried (λ d. W.link s (W.kept_of runner.new) item.now d × W.ready runner.new)
        (W.under s item.now runner.new) result }
{
    replace_with(
        runner,
        item,
        |runner, item|
            requires does { W.does item.now }
            requires under { (s : W.Kept) × W.under s item.now runner }
            ensures { (s : W.Kept) → W.under s item.now runner → OnTried (λ d. W.link s (W.kept_of result.0) item.now d × W.ready result.0)
                (W.under s item.now result.0) result.1 }
        { runner.attempt(item) },
    )
}

/// Does the items that the source gives, until it has none to give, with an answer for each. There is room for the answers.
///
/// The gate is called ahead of an item's first attempt and once it is done.
pub fn run_from<R: Wait, W: Runner, P: Source<W>, G: Gate>(
    rt: &R,
    runner: &mut W,
    source: &mut P,
    gate: &G,
    answers: &mut Vec<Answer<W::Done>>,
)
    requires ready { W.ready runner.old }
    requires may { P.may source.old }
    requires empty { answers.old.items ≡ [] }
    requires room { P.left source.old ≤ vec_capacity answers.old }
    ensures served { IsServed W.seat_of W.link P.gives P.ended (W.kept_of runner.old) source.old (W.kept_of runner.new) source.new answers.new.items }
    ensures ready { W.ready runner.new }
{
    let seat = runner.seat();
    for _ in rt.forever() {
        match source.take(rt) {
            Some(Given { place, number }) => {
                let item = &source.items()[place];
                gate.before(seat, number);
                let done = run_item(rt, runner, item);
                gate.after(seat, number);
                answers.push_reserved(Answer { seat, number, done });
            }
            None => return,
        }
    }
    unreachable!()
}
