// The run of scripts over a domain, up to the meeting of its seats.
ghost use Rattle.std.specs.Prelude.{◌≡◌, ◌≤◌, length, map, All, IfOk, IfErr};
ghost use Rattle.set_model.specs.CatalogueOf.{catalogue_of};
ghost use Rattle.set_model.specs.Lawful.{IsOpening};
ghost use Rattle.set_model.specs.Rules.{IsSetCommit};
ghost use Rattle.set_model.specs.declared.script.TheConstants.{MOST_COMMANDS};
ghost use Rattle.mvrlu.specs.Meant.{numbers_of, opening_of, seat_of, whole_of};
ghost use Rattle.mvrlu.specs.Whole.{last_state};
ghost use Rattle.run_report.specs.Whole.{RunOf};
ghost use Rattle.run_report.specs.Worked.{AllRan};
ghost use Rattle.script_workers.specs.Links.{AllLinked};
ghost use Rattle.script_workers.specs.Workers.{items_of};
ghost use Rattle.domain_loan.specs.Met.{MetAlong};
ghost use Rattle.domain_loan.specs.New.{AreNewFrom};
ghost use Rattle.domain_loan.specs.Shown.{handle_causes};
ghost use Rattle.domain_lines.specs.Joined.{past_of_whole};

use domain_loan::{lend_all, meet_all, take_back};
use host_io::Gate;
use mvrlu::{Closing, Domain, Seat};
use run_report::Line;
use script_workers::run_scripts;
use set_model::{Command, SetRules};
use std::alloc::{AllocError, Global};
use std::sync::Wait;
use std::thread::Threads;

/// Runs a script on each seat of a domain, in a thread for each, and then lets all seats meet.
///
/// It needs all seats of the domain, as `open` gave them, in order of number, a script for each, of at most 65,536
/// commands, and an opening state of at least 181 objects whose words are all 0. `write_max` must be at least 5, which is
/// as many objects as a command locks at most. `gate` is called around each command.
///
/// It answers the closing of the domain, which has the tables of the logs by seat, and the lines, whose order is left open
/// (`order` of `run_report` orders them). They are those of one run in the closing's history: every reply is the one that
/// the sequential catalogue gives at the line's printed place, and each commit of the history has exactly one line.
///
/// Each seat went along the chain of its lines, from the one that `open` gave to one that met (`MetAlong`), and the
/// tables are those of the seats that these chains lead to. A read is of a section that its own command entered, so its
/// place isn't below any commit that its seat had seen when the command began.
///
/// The error is want of memory. It comes only before the first command, and hands back the domain and the seats, which
/// mean what they meant, so the call can be tried again. After the workers have ended nothing is refused.
pub fn run_domain<R: Threads + Wait + Sync, G: Gate>(
    rt: &R,
    alloc: Global,
    domain: Domain<SetRules>,
    seats: Vec<Seat<SetRules>>,
    scripts: &[Vec<Command>],
    gate: &G,
) -> Result<(Closing<SetRules>, Vec<Line>), (Domain<SetRules>, Vec<Seat<SetRules>>, AllocError)>
    requires new { AreNewFrom domain 0 (map seat_of seats.items) }
    requires all { length seats.items ≡ (numbers_of domain).seats }
    requires opening { IsOpening (opening_of domain) }
    requires as_many { length scripts.now ≡ length seats.items }
    requires short { All (λ script. length script.items ≤ MOST_COMMANDS) scripts.now }
    requires most { 5 ≤ (numbers_of domain).write_max }
    ensures ran { IfOk result (λ done.
        RunOf (past_of_whole (whole_of done.0)) (map items_of scripts.now) done.1.items (catalogue_of (last_state (whole_of done.0)))
        (whole_of done.0).tables) }
    ensures linked { IfOk result (λ done. MetAlong
        (λ firsts met. AllLinked (handle_causes IsOpening IsSetCommit) firsts met (map items_of scripts.now) done.1.items)
        IsSetCommit (numbers_of domain) (opening_of domain) (map seat_of seats.items) (whole_of done.0)) }
    ensures opening { IfOk result (λ done.
        ((whole_of done.0).start ≡ opening_of domain) × ((whole_of done.0).base ≡ (numbers_of domain).base)) }
    ensures err { IfErr result (λ refused. (refused.0 ≡ domain) × (map seat_of refused.1.items ≡ map seat_of seats.items)) }
{
    match run_seats(rt, alloc, &domain, seats, scripts, gate) {
        Ok((seats, lines)) => Ok((meet_all(domain, seats), lines)),
        Err((seats, error)) => Err((domain, seats, error)),
    }
}

// Runs a script on each seat.
fn run_seats<R: Threads + Wait + Sync, G: Gate>(
    rt: &R,
    alloc: Global,
    domain: &Domain<SetRules>,
    seats: Vec<Seat<SetRules>>,
    scripts: &[Vec<Command>],
    gate: &G,
) -> Result<(Vec<Seat<SetRules>>, Vec<Line>), (Vec<Seat<SetRules>>, AllocError)>
    requires new { AreNewFrom domain.now 0 (map seat_of seats.items) }
    requires as_many { length scripts.now ≡ length seats.items }
    requires short { All (λ script. length script.items ≤ MOST_COMMANDS) scripts.now }
    requires most { 5 ≤ (numbers_of domain.now).write_max }
    ensures ran { IfOk result (λ done. AllRan (map seat_of seats.items) (map seat_of done.0.items) (map items_of scripts.now) done.1.items) }
    ensures linked { IfOk result (λ done. AllLinked (handle_causes IsOpening IsSetCommit) (map seat_of seats.items) (map seat_of done.0.items)
        (map items_of scripts.now) done.1.items) }
    ensures err { IfErr result (λ refused. map seat_of refused.0.items ≡ map seat_of seats.items) }
{
    let (handles, left) = lend_all(alloc, domain, seats)?;
    match run_scripts(rt, alloc, handles, scripts, gate) {
        Ok((handles, lines)) => Ok((take_back(handles, left), lines)),
        Err((handles, error)) => Err((take_back(handles, left), error)),
    }
}
