// The run of scripts over a domain of the sets.
ghost use Rattle.std.specs.Prelude.{◌≤◌, All, IfOk, length, map};
ghost use Rattle.run_words.specs.Words.{FitOptions};
ghost use Rattle.script_workers.specs.Workers.{items_of};
ghost use Rattle.run_kinds.specs.Kinds.{IsLeft};
ghost use Rattle.script_run.specs.ScriptRuns.{runs};

use host_io::Gate;
use run_kinds::{RunAnswer, WRITE_MAX, open_run, ran_or_met};
use run_words::Options;
use script_domain::run_domain;
use set_catalog::read_all;
use set_model::{Catalogue, Command, SetRules};
use std::alloc::{AllocError, Global};
use std::sync::Wait;
use std::thread::Threads;

/// Runs the scripts over a domain of these numbers, script i as seat i, and reads the sets as they are at the end. The lines of
/// one seat stand behind those of another. The gate is called around each command. The error is want of memory.
pub fn run_sets<R: Threads + Wait + Sync, G: Gate>(
    rt: &R,
    alloc: Global,
    options: Options,
    scripts: &[Vec<Command>],
    gate: &G,
) -> Result<RunAnswer<SetRules, Catalogue>, AllocError>
    requires fit { FitOptions options }
    requires some { 1 ≤ length scripts.now }
    requires few { length scripts.now ≤ 64 }
    requires short { All (λ script. length script.items ≤ 65536) scripts.now }
    ensures { IfOk result (λ told. IsLeft (runs options (map items_of scripts.now)) told.lines.items told.end told.closing) }
{
    let (domain, seats) = open_run(alloc, options, WRITE_MAX, scripts.len() as u32)?;
    let (mut closing, lines) = ran_or_met(run_domain(rt, alloc, domain, seats, scripts, gate))?;
    let end = read_all(alloc, &mut closing)?;
    Ok(RunAnswer {
        closing,
        lines,
        end,
    })
}
