// The run of scripts of blocks over a domain of its own.
ghost use Rattle.std.specs.Prelude.{◌≡◌, ◌≤◌, All, IfErr, IfOk, MatchResult, length, map, string_bytes};
ghost use Rattle.script_workers.specs.Workers.{blocks_of, count_of};
ghost use Rattle.run_words.specs.Words.{FitOptions};
ghost use Rattle.run_kinds.specs.Kinds.{IsLeft};
ghost use Rattle.block_run.specs.BlockRuns.{IsTextOfBlocks, block_runs};
ghost use Rattle.script_files.specs.Scripts.{AnyStop, NoneFails, blocks as by_block};

use block_domain::run_block_domain;
use host_io::{Files, Gate};
use run_kinds::{FromRun, RunAnswer, USUAL, open_run, ran_or_met, tell};
use run_words::Options;
use script_files::set_blocks::{Block, BlockRules};
use script_files::{Stop, read_block_scripts};
use set_catalog::read_all;
use set_model::Catalogue;
use std::alloc::{AllocError, Global};
use std::sync::Wait;
use std::thread::Threads;

// How many objects a block may hold.
const WRITE_MAX: u32 = 64;

/// Reads the scripts of blocks of these files, runs them, and makes the text. An error is why there is none: a file has no
/// script of blocks, or there is no memory.
pub fn make_blocks<R: Threads + Wait + Sync, F: Files, G: Gate>(
    rt: &R,
    alloc: Global,
    names: &[String],
    files: &mut F,
    gate: &G,
) -> Result<FromRun<BlockRules>, Stop>
    requires some { 1 ≤ length names.now }
    requires few { length names.now ≤ 64 }
    ensures made { MatchResult result (λ made. IsTextOfBlocks (F.texts files.old) (map string_bytes names.now) made.1 made.0.items)
        (λ stop. AnyStop stop by_block (F.texts files.old) (map string_bytes names.now) (F.faults files.old) (F.faults files.new)) }
    ensures steady { IfErr result (λ stop. NoneFails stop (F.steady files.old) (F.texts files.old) (map string_bytes names.now)) }
{
    let scripts = read_block_scripts(rt, alloc, files, names)?;
    let told = run_block_sets(rt, alloc, USUAL, &scripts, gate)?;
    Ok(tell(rt, alloc, scripts.len(), told)?)
}

// Runs the scripts of blocks over a domain of these numbers, script i as seat i, and reads the sets as they are at the end. The
// gate is called around each block. The error is want of memory.
fn run_block_sets<R: Threads + Wait + Sync, G: Gate>(
    rt: &R,
    alloc: Global,
    options: Options,
    scripts: &[Vec<Block>],
    gate: &G,
) -> Result<RunAnswer<BlockRules, Catalogue>, AllocError>
    requires fit { FitOptions options }
    requires slots { options.slots ≡ 1024 }
    requires some { 1 ≤ length scripts.now }
    requires few { length scripts.now ≤ 64 }
    requires short { All (λ script. count_of script ≤ 65536) scripts.now }
    ensures { IfOk result (λ told. IsLeft (block_runs options (map blocks_of scripts.now)) told.lines.items told.end told.closing) }
{
    let (domain, seats) = open_run(alloc, options, WRITE_MAX, scripts.len() as u32)?;
    let (mut closing, lines) = ran_or_met(run_block_domain(
        rt, alloc, domain, seats, scripts, gate,
    ))?;
    let end = read_all(alloc, &mut closing)?;
    Ok(RunAnswer {
        closing,
        lines,
        end,
    })
}
