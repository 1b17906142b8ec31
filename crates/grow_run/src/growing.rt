// The run of scripts on a growing set over a domain of its own.
ghost use Rattle.std.specs.Prelude.{◌≡◌, ◌≤◌, ◌+◌, All, IfErr, IfOk, MatchResult, length, map, string_bytes};
ghost use Rattle.grow_hash.specs.GrowPlans.{IsOfGrown};
ghost use Rattle.grow_hash.specs.Grown.{IsGrown};
ghost use Rattle.grow_hash.specs.Tables.{grow_levels, buckets};
ghost use Rattle.script_workers.specs.Workers.{items_of};
ghost use Rattle.run_report.specs.Order.{IsOrdered};
ghost use Rattle.run_words.specs.Words.{FitOptions};
ghost use Rattle.run_kinds.specs.Kinds.{IsLeft};
ghost use Rattle.grow_run.specs.GrowRuns.{IsTextOfGrown, grow_runs};
ghost use Rattle.script_files.specs.declared.scripts.Grammar.TheVariants as grammars;
ghost use Rattle.script_files.specs.Scripts.{AnyStop, NoneFails, commands as by_command};

use grow_domain::run_grow_domain;
use grow_hash::{GROW_LEVELS, GrowRules, read_grown, table_of};
use grow_report::{order_grown, render_grown};
use host_io::{Files, Gate};
use mv_history::View;
use run_kinds::{FromRun, RunAnswer, USUAL, open_run, ran_or_met};
use run_words::Options;
use script_files::{Grammar, Stop, read_scripts};
use set_model::{Catalogue, Command};
use std::alloc::{AllocError, Global};
use std::sync::Wait;
use std::thread::Threads;

// How many objects a split may hold.
const WRITE_MAX: u32 = 64;

// How many buckets a growing set begins with.
const FIRST_BUCKETS: u32 = 16;

/// How a run on a growing set ends: the set, and how many splits it has had.
#[derive(Drop)]
pub(crate) struct GrownEnd {
    set: Catalogue,
    splits: u32,
}

/// Reads the scripts of a growing set of these files, runs them, and makes the text. An error is why there is none: a file
/// has no such script, or there is no memory.
pub fn make_grown<R: Threads + Wait + Sync, F: Files, G: Gate>(
    rt: &R,
    alloc: Global,
    names: &[String],
    files: &mut F,
    gate: &G,
) -> Result<FromRun<GrowRules<GROW_LEVELS>>, Stop>
    requires some { 1 ≤ length names.now }
    requires few { length names.now ≤ 64 }
    ensures made { MatchResult result (λ made. IsTextOfGrown (F.texts files.old) (map string_bytes names.now) made.1 made.0.items)
        (λ stop. AnyStop stop (by_command grammars.Growing) (F.texts files.old) (map string_bytes names.now) (F.faults files.old) (F.faults files.new)) }
    ensures steady { IfErr result (λ stop. NoneFails stop (F.steady files.old) (F.texts files.old) (map string_bytes names.now)) }
{
    let scripts = read_scripts(rt, alloc, files, names, Grammar::Growing)?;
    let RunAnswer {
        closing,
        lines,
        end,
    } = run_grown_set(rt, alloc, USUAL, &scripts, gate)?;
    let text = render_grown(alloc, &lines, &end.set, end.splits, closing.tables())?;
    Ok((text, closing))
}

// Runs the scripts over a domain of these numbers, script i as seat i. The gate is called around each command. The error is
// want of memory.
fn run_grown_set<R: Threads + Wait + Sync, G: Gate>(
    rt: &R,
    alloc: Global,
    options: Options,
    scripts: &[Vec<Command>],
    gate: &G,
) -> Result<RunAnswer<GrowRules<GROW_LEVELS>, GrownEnd>, AllocError>
    requires fit { FitOptions options }
    requires objects { 1026 ≤ options.objects }
    requires slots { options.slots ≡ 1024 }
    requires some { 1 ≤ length scripts.now }
    requires few { length scripts.now ≤ 64 }
    requires short { All (λ script. length script.items ≤ 65536) scripts.now }
    requires growing { All (λ script. All IsOfGrown script.items) scripts.now }
    ensures ran { IfOk result (λ told. IsLeft (grow_runs options (map items_of scripts.now)) told.lines.items told.end told.closing) }
    ensures ordered { IfOk result (λ told. IsOrdered told.lines.items) }
    ensures few { IfOk result (λ told. told.end.splits ≤ 1008) }
{
    let (domain, seats) = open_run(alloc, options, WRITE_MAX, scripts.len() as u32)?;
    let (mut closing, mut lines) = ran_or_met(run_grow_domain(
        rt, alloc, domain, seats, scripts, gate,
    ))?;
    order_grown(&mut lines);
    let splits = count_splits(&mut closing);
    let set = read_grown::<GROW_LEVELS, _>(alloc, &mut closing)?;
    Ok(RunAnswer {
        closing,
        lines,
        end: GrownEnd { set, splits },
    })
}

// How many splits a growing set has had: one for each bucket but those that it began with.
fn count_splits<V: View>(view: &mut V) -> u32
    requires lawful { IsGrown grow_levels (V.state view.old) }
    ensures splits { FIRST_BUCKETS + result ≡ buckets (V.state view.old) }
    ensures as_before { V.as_before view.old view.new }
{
    let (level, place) = table_of::<GROW_LEVELS, V>(view);
    (FIRST_BUCKETS << level) + place - FIRST_BUCKETS
}
