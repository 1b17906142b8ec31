// The texts of runs of scripts.
ghost use Rattle.std.specs.Prelude.{◌≤◌, IfOk, length, map, string_bytes, IfErr, MatchResult};
ghost use Rattle.run_words.specs.Words.{FitOptions};
ghost use Rattle.script_files.specs.declared.scripts.Grammar.TheVariants.{Sets};
ghost use Rattle.script_files.specs.Scripts.{AnyStop, NoneFails, commands as by_command};
ghost use Rattle.script_run.specs.ScriptRuns.{IsTextOfScripts, IsTextOfWork};

use crate::generated::{WORK, four_scripts};
use crate::running::run_sets;
use host_io::{Files, Gate};
use run_kinds::{FromRun, RunAnswer, tell};
use run_report::{order, summary};
use run_words::Options;
use script_files::{Grammar, Stop, read_scripts};
use set_model::SetRules;
use std::alloc::{AllocError, Global};
use std::sync::Wait;
use std::thread::Threads;

/// Reads the scripts of these files, runs them over a domain of these numbers, script i as seat i, and makes the text. An error is
/// why there is none: a file has no script, or there is no memory. The gate is called around each command.
pub fn make_run<R: Threads + Wait + Sync, F: Files, G: Gate>(
    rt: &R,
    alloc: Global,
    options: Options,
    names: &[String],
    files: &mut F,
    gate: &G,
) -> Result<FromRun<SetRules>, Stop>
    requires fit { FitOptions options }
    requires some { 1 ≤ length names.now }
    requires few { length names.now ≤ 64 }
    ensures made { MatchResult result (λ made. IsTextOfScripts options (F.texts files.old) (map string_bytes names.now) made.1 made.0.items)
        (λ stop. AnyStop stop (by_command Sets) (F.texts files.old) (map string_bytes names.now) (F.faults files.old) (F.faults files.new)) }
    ensures steady { IfErr result (λ stop. NoneFails stop (F.steady files.old) (F.texts files.old) (map string_bytes names.now)) }
{
    let scripts = read_scripts(rt, alloc, files, names, Grammar::Sets)?;
    let told = run_sets(rt, alloc, options, &scripts, gate)?;
    Ok(tell(rt, alloc, scripts.len(), told)?)
}

/// The summary of a run of the four generated scripts of a number, over a domain of its own. The error is want of memory. The gate
/// is called around each command.
pub fn work_text<R: Threads + Wait + Sync, G: Gate>(
    rt: &R,
    alloc: Global,
    number: u64,
    gate: &G,
) -> Result<FromRun<SetRules>, AllocError>
    ensures { IfOk result (λ r. IsTextOfWork number r.1 r.0.items) }
{
    let scripts = four_scripts(alloc, number)?;
    let RunAnswer {
        closing,
        mut lines,
        end,
    } = run_sets(rt, alloc, WORK, &scripts, gate)?;
    order(&mut lines);
    let text = summary(alloc, number, &lines, &end)?;
    Ok((text, closing))
}
