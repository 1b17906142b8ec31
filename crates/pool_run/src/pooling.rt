// The run of a pool over a domain of the sets.
ghost use Rattle.std.specs.Prelude.{◌≡◌, ◌≤◌, IfErr, IfOk, MatchResult, length, map, string_bytes};
ghost use Rattle.run_words.specs.Words.{FitOptions};
ghost use Rattle.run_kinds.specs.Kinds.{IsLeft};
ghost use Rattle.pool_run.specs.PoolRuns.{IsTextOfPool, pool_runs};
ghost use Rattle.script_files.specs.declared.scripts.Grammar.TheVariants.{Sets};
ghost use Rattle.script_files.specs.Scripts.{AnyStop, NoneFails, commands as by_command};

use host_io::{Files, Gate};
use pool_domain::run_pool_domain;
use run_kinds::{FromRun, RunAnswer, USUAL, WRITE_MAX, open_run, ran_or_met, tell};
use run_words::Options;
use script_files::{Grammar, Stop, read_scripts};
use set_catalog::read_all;
use set_model::{Catalogue, Command, SetRules};
use std::alloc::{AllocError, Global};
use std::sync::Wait;
use std::thread::Threads;

/// Reads the commands of this one file, does each on one of so many seats, and makes the text. An error is why there is
/// none: the file has no script, or there is no memory.
pub fn make_pool<R: Threads + Wait + Sync, F: Files, G: Gate>(
    rt: &R,
    alloc: Global,
    seats: u32,
    names: &[String],
    files: &mut F,
    gate: &G,
) -> Result<FromRun<SetRules>, Stop>
    requires some { 1 ≤ seats }
    requires few { seats ≤ 8 }
    requires one { length names.now ≡ 1 }
    ensures made { MatchResult result (λ made. IsTextOfPool seats (F.texts files.old) (map string_bytes names.now) made.1 made.0.items)
        (λ stop. AnyStop stop (by_command Sets) (F.texts files.old) (map string_bytes names.now) (F.faults files.old) (F.faults files.new)) }
    ensures steady { IfErr result (λ stop. NoneFails stop (F.steady files.old) (F.texts files.old) (map string_bytes names.now)) }
{
    let scripts = read_scripts(rt, alloc, files, names, Grammar::Sets)?;
    let told = pool_sets(rt, alloc, USUAL, seats, &scripts[0], gate)?;
    Ok(tell(rt, alloc, seats as usize, told)?)
}

// Does the commands on so many seats of a domain of these numbers, and reads the sets as they are at the end. The gate is called
// around each command. The error is want of memory.
fn pool_sets<R: Threads + Wait + Sync, G: Gate>(
    rt: &R,
    alloc: Global,
    options: Options,
    seats: u32,
    commands: &[Command],
    gate: &G,
) -> Result<RunAnswer<SetRules, Catalogue>, AllocError>
    requires fit { FitOptions options }
    requires some { 1 ≤ seats }
    requires few { seats ≤ 8 }
    requires short { length commands.now ≤ 65536 }
    ensures { IfOk result (λ told. IsLeft (pool_runs options seats commands.now) told.lines.items told.end told.closing) }
{
    let (domain, seats) = open_run(alloc, options, WRITE_MAX, seats)?;
    let (mut closing, lines) = ran_or_met(run_pool_domain(
        rt, alloc, domain, seats, commands, gate,
    ))?;
    let end = read_all(alloc, &mut closing)?;
    Ok(RunAnswer {
        closing,
        lines,
        end,
    })
}
