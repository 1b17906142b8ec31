// The run of scripts on a growing hash set over a domain, up to the meeting of its seats.
ghost use Rattle.std.specs.Prelude.{◌≡◌, ◌≤◌, length, map, All, IfOk, IfErr};
ghost use Rattle.grow_hash.specs.Tables.{grow_levels};
ghost use Rattle.grow_hash.specs.Grown.{IsGrownOpening, grown_catalogue};
ghost use Rattle.grow_hash.specs.GrowPlans.{IsOfGrown};
ghost use Rattle.grow_hash.specs.Splits.{count_splits};
ghost use Rattle.set_model.specs.declared.script.TheConstants.{MOST_COMMANDS};
ghost use Rattle.mvrlu.specs.Meant.{numbers_of, opening_of, seat_of, whole_of};
ghost use Rattle.mvrlu.specs.Whole.{last_state};
ghost use Rattle.grow_report.specs.Turns.{AllRanGrow};
ghost use Rattle.grow_report.specs.Whole.{GrowRunOf};
ghost use Rattle.script_workers.specs.Workers.{items_of};
ghost use Rattle.script_workers.specs.GrowLinks.{AllLinkedTurns};
ghost use Rattle.grow_hash.specs.GrowRules.{IsGrowCommit};
ghost use Rattle.domain_loan.specs.Met.{MetAlong};
ghost use Rattle.domain_loan.specs.New.{AreNewFrom};
ghost use Rattle.domain_loan.specs.Shown.{handle_causes};
ghost use Rattle.domain_lines.specs.Joined.{past_of_whole};

use domain_loan::{lend_all, meet_all, take_back};
use grow_hash::{GROW_LEVELS, GrowRules};
use host_io::Gate;
use mvrlu::{Closing, Domain, Seat};
use run_report::Line;
use script_workers::run_grow;
use set_model::Command;
use std::alloc::{AllocError, Global};
use std::sync::Wait;
use std::thread::Threads;

/// Runs a script on each seat of a domain, in a thread for each, and then lets all seats meet. Behind each second add of a
/// script that replied yes its seat splits a bucket, or finds that none can be split.
///
/// It needs all seats of the domain, as `open` gave them, in order of number, a script for each, of at most 65,536 adds, dels,
/// has, sizes and nexts of `h0`, and an opening state of at least 1,026 objects whose words are all 0. `write_max` must be at
/// least 64, which is as many objects as a split locks at most. `gate` is called around each command.
///
/// It answers the closing of the domain, which has the tables of the logs by seat, and the lines, whose order is left open
/// (`order_grown` of `grow_report` orders them). They are those of one run in the closing's history: every reply is the one that
/// the sequential catalogue gives at the line's printed place, and each commit of the history has exactly one line or is
/// a split that was due.
///
/// Each seat went along the chain of its lines, from the one that `open` gave to one that met (`MetAlong`), and the
/// tables are those of the seats that these chains lead to.
///
/// The error is want of memory. It comes only before the first command, and hands back the domain and the seats, which
/// mean what they meant, so the call can be tried again. After the workers have ended nothing is refused.
pub fn run_grow_domain<R: Threads + Wait + Sync, G: Gate>(
    rt: &R,
    alloc: Global,
    domain: Domain<GrowRules<GROW_LEVELS>>,
    seats: Vec<Seat<GrowRules<GROW_LEVELS>>>,
    scripts: &[Vec<Command>],
    gate: &G,
) -> Result<
    (Closing<GrowRules<GROW_LEVELS>>, Vec<Line>),
    (
        Domain<GrowRules<GROW_LEVELS>>,
        Vec<Seat<GrowRules<GROW_LEVELS>>>,
        AllocError,
    ),
>
    requires new { AreNewFrom domain 0 (map seat_of seats.items) }
    requires all { length seats.items ≡ (numbers_of domain).seats }
    requires opening { IsGrownOpening grow_levels (opening_of domain) }
    requires as_many { length scripts.now ≡ length seats.items }
    requires short { All (λ script. length script.items ≤ MOST_COMMANDS) scripts.now }
    requires growing { All (λ script. All IsOfGrown script.items) scripts.now }
    requires most { 64 ≤ (numbers_of domain).write_max }
    ensures ran { IfOk result (λ done.
        GrowRunOf (past_of_whole (whole_of done.0)) (map items_of scripts.now) done.1.items (grown_catalogue grow_levels (last_state (whole_of done.0)))
        (count_splits (whole_of done.0).history) (whole_of done.0).tables) }
    ensures linked { IfOk result (λ done. MetAlong
        (λ firsts met. AllLinkedTurns (handle_causes (IsGrownOpening grow_levels) (IsGrowCommit grow_levels)) firsts met
        (map items_of scripts.now) done.1.items)
        (IsGrowCommit grow_levels) (numbers_of domain) (opening_of domain) (map seat_of seats.items) (whole_of done.0)) }
    ensures opening { IfOk result (λ done.
        ((whole_of done.0).start ≡ opening_of domain) × ((whole_of done.0).base ≡ (numbers_of domain).base)) }
    ensures err { IfErr result (λ refused. (refused.0 ≡ domain) × (map seat_of refused.1.items ≡ map seat_of seats.items)) }
{
    match run_seats(rt, alloc, &domain, seats, scripts, gate) {
        Ok((seats, lines)) => Ok((meet_all(domain, seats), lines)),
        Err((seats, error)) => Err((domain, seats, error)),
    }
}

// What a run of the seats leaves: the seats and the lines; or the seats as they were.
type FromSeats = Result<
    (Vec<Seat<GrowRules<GROW_LEVELS>>>, Vec<Line>),
    (Vec<Seat<GrowRules<GROW_LEVELS>>>, AllocError),
>;

// Runs a script on each seat.
fn run_seats<R: Threads + Wait + Sync, G: Gate>(
    rt: &R,
    alloc: Global,
    domain: &Domain<GrowRules<GROW_LEVELS>>,
    seats: Vec<Seat<GrowRules<GROW_LEVELS>>>,
    scripts: &[Vec<Command>],
    gate: &G,
) -> FromSeats
    requires new { AreNewFrom domain.now 0 (map seat_of seats.items) }
    requires as_many { length scripts.now ≡ length seats.items }
    requires short { All (λ script. length script.items ≤ MOST_COMMANDS) scripts.now }
    requires growing { All (λ script. All IsOfGrown script.items) scripts.now }
    requires most { 64 ≤ (numbers_of domain.now).write_max }
    ensures ran { IfOk result (λ done. AllRanGrow (map seat_of seats.items) (map seat_of done.0.items) (map items_of scripts.now) done.1.items) }
    ensures linked { IfOk result (λ done. AllLinkedTurns (handle_causes (IsGrownOpening grow_levels) (IsGrowCommit grow_levels))
        (map seat_of seats.items) (map seat_of done.0.items) (map items_of scripts.now) done.1.items) }
    ensures err { IfErr result (λ refused. map seat_of refused.0.items ≡ map seat_of seats.items) }
{
    let (handles, left) = lend_all(alloc, domain, seats)?;
    match run_grow(rt, alloc, handles, scripts, gate) {
        Ok((handles, lines)) => Ok((take_back(handles, left), lines)),
        Err((handles, error)) => Err((take_back(handles, left), error)),
    }
}
