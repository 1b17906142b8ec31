// The run of scripts of blocks over a domain, up to the meeting of its seats.
ghost use Rattle.std.specs.Prelude.{◌≡◌, ◌≤◌, length, map, All, IfOk, IfErr};
ghost use Rattle.set_model.specs.CatalogueOf.{catalogue_of};
ghost use Rattle.set_model.specs.Lawful.{IsOpening};
ghost use Rattle.set_model.specs.declared.script.TheConstants.{MOST_COMMANDS};
ghost use Rattle.mvrlu.specs.Meant.{numbers_of, opening_of, seat_of, whole_of};
ghost use Rattle.mvrlu.specs.Whole.{last_state};
ghost use Rattle.script_workers.specs.BlockRuns.{AllRanBlocks};
ghost use Rattle.script_workers.specs.Workers.{blocks_of, count_of};
ghost use Rattle.script_workers.specs.Links.{AllLinkedBlocks};
ghost use Rattle.set_blocks.specs.BlockRules.{IsBlockCommit};
ghost use Rattle.domain_loan.specs.Met.{MetAlong};
ghost use Rattle.domain_loan.specs.New.{AreNewFrom};
ghost use Rattle.domain_loan.specs.Shown.{handle_causes};
ghost use Rattle.domain_lines.specs.Joined.{past_of_whole};
ghost use Rattle.block_domain.specs.Whole.{BlocksRunOf};

use domain_loan::{lend_all, meet_all, take_back};
use host_io::Gate;
use mvrlu::{Closing, Domain, Seat};
use run_report::Line;
use script_workers::run_blocks;
use set_blocks::{Block, BlockRules};
use std::alloc::{AllocError, Global};
use std::sync::Wait;
use std::thread::Threads;

/// Runs a script of blocks on each seat of a domain, in a thread for each, and then lets all seats meet.
///
/// It needs all seats of the domain, as `open` gave them, in order of number, a script for each, with at most 65,536 commands
/// in its blocks, and an opening state of at least 181 objects whose words are all 0. `write_max` must be at least 40, which
/// is as many objects as a block locks or holds at most. `gate` is called around each block, with the number of its first
/// command.
///
/// It answers the closing of the domain, which has the tables of the logs by seat, and the lines, whose order is left open
/// (`order` of `run_report` orders them). They are those of one run in the closing's history: the replies of a block are those
/// that the sequential catalogue gives at the block's printed place, and each commit of the history has exactly one block.
///
/// Each seat went along the chain of its lines, from the one that `open` gave to one that met (`MetAlong`), and the
/// tables are those of the seats that these chains lead to.
///
/// The error is want of memory. It comes only before the first block, and hands back the domain and the seats, which
/// mean what they meant, so the call can be tried again. After the workers have ended nothing is refused.
pub fn run_block_domain<R: Threads + Wait + Sync, G: Gate>(
    rt: &R,
    alloc: Global,
    domain: Domain<BlockRules>,
    seats: Vec<Seat<BlockRules>>,
    scripts: &[Vec<Block>],
    gate: &G,
) -> Result<
    (Closing<BlockRules>, Vec<Line>),
    (Domain<BlockRules>, Vec<Seat<BlockRules>>, AllocError),
>
    requires new { AreNewFrom domain 0 (map seat_of seats.items) }
    requires all { length seats.items ≡ (numbers_of domain).seats }
    requires opening { IsOpening (opening_of domain) }
    requires as_many { length scripts.now ≡ length seats.items }
    requires short { All (λ script. count_of script ≤ MOST_COMMANDS) scripts.now }
    requires most { 40 ≤ (numbers_of domain).write_max }
    ensures ran { IfOk result (λ done.
        BlocksRunOf (past_of_whole (whole_of done.0)) (map blocks_of scripts.now) done.1.items (catalogue_of (last_state (whole_of done.0)))
        (whole_of done.0).tables) }
    ensures linked { IfOk result (λ done. MetAlong
        (λ firsts met. AllLinkedBlocks (handle_causes IsOpening IsBlockCommit) firsts met (map blocks_of scripts.now) done.1.items)
        IsBlockCommit (numbers_of domain) (opening_of domain) (map seat_of seats.items) (whole_of done.0)) }
    ensures opening { IfOk result (λ done.
        ((whole_of done.0).start ≡ opening_of domain) × ((whole_of done.0).base ≡ (numbers_of domain).base)) }
    ensures err { IfErr result (λ refused. (refused.0 ≡ domain) × (map seat_of refused.1.items ≡ map seat_of seats.items)) }
{
    match run_seats(rt, alloc, &domain, seats, scripts, gate) {
        Ok((seats, lines)) => Ok((meet_all(domain, seats), lines)),
        Err((seats, error)) => Err((domain, seats, error)),
    }
}

// What a run of the seats leaves: the seats and the lines; or the seats as they were.
type FromSeats = Result<(Vec<Seat<BlockRules>>, Vec<Line>), (Vec<Seat<BlockRules>>, AllocError)>;

// Runs a script of blocks on each seat.
fn run_seats<R: Threads + Wait + Sync, G: Gate>(
    rt: &R,
    alloc: Global,
    domain: &Domain<BlockRules>,
    seats: Vec<Seat<BlockRules>>,
    scripts: &[Vec<Block>],
    gate: &G,
) -> FromSeats
    requires new { AreNewFrom domain.now 0 (map seat_of seats.items) }
    requires as_many { length scripts.now ≡ length seats.items }
    requires short { All (λ script. count_of script ≤ MOST_COMMANDS) scripts.now }
    requires most { 40 ≤ (numbers_of domain.now).write_max }
    ensures ran { IfOk result (λ done. AllRanBlocks (map seat_of seats.items) (map seat_of done.0.items) (map blocks_of scripts.now) done.1.items) }
    ensures linked { IfOk result (λ done. AllLinkedBlocks (handle_causes IsOpening IsBlockCommit) (map seat_of seats.items) (map seat_of done.0.items)
        (map blocks_of scripts.now) done.1.items) }
    ensures err { IfErr result (λ refused. map seat_of refused.0.items ≡ map seat_of seats.items) }
{
    let (handles, left) = lend_all(alloc, domain, seats)?;
    match run_blocks(rt, alloc, handles, scripts, gate) {
        Ok((handles, lines)) => Ok((take_back(handles, left), lines)),
        Err((handles, error)) => Err((take_back(handles, left), error)),
    }
}
