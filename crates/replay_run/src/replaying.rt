// The replay of a file's plan.
ghost use Rattle.std.specs.Prelude.{◌≡◌, length, map, string_bytes, IfErr, MatchResult};
ghost use Rattle.replay_run.specs.ReplayRuns.{IsTextOfPlan};
ghost use Rattle.script_files.specs.Scripts.{AnyStop, NoneFails, plans as by_plan};

use host_io::Files;
use script_files::step_replay::replay;
use script_files::{Stop, read_plan};
use std::alloc::Global;

/// Reads the plan of this one file and makes the text of its replay. An error is why there is none: the file has no plan, or
/// there is no memory.
pub fn make_replay<F: Files>(
    alloc: Global,
    names: &[String],
    files: &mut F,
) -> Result<Vec<u8>, Stop>
    requires one { length names.now ≡ 1 }
    ensures made { MatchResult result (λ text. IsTextOfPlan (F.texts files.old) (map string_bytes names.now) text.items)
        (λ stop. AnyStop stop by_plan (F.texts files.old) (map string_bytes names.now) (F.faults files.old) (F.faults files.new)) }
    ensures steady { IfErr result (λ stop. NoneFails stop (F.steady files.old) (F.texts files.old) (map string_bytes names.now)) }
{
    let plan = read_plan(alloc, files, names)?;
    Ok(replay(alloc, &plan)?)
}
