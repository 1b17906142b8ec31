// Reading the plan of a file.
ghost use Rattle.std.specs.Prelude.{◌≡◌, ◌<◌, ◌-◌, ◌^◌, [], ◌∷◌, length, map, string_bytes, Ok, IfErr, IfOk, MatchResult};
ghost use Rattle.step_replay.specs.replay_rules.FitPlans.{IsFitPlan};
ghost use Rattle.step_replay.specs.replay_rules.Plans.{plan_of};
ghost use Rattle.step_replay.specs.PlanTexts.{planned};
ghost use Rattle.script_files.specs.Scripts.{AllScripts, AnyStop, NoScripts, NoneFails, plans as by_plan};

use crate::reading::read_texts;
use crate::stop::Stop;
use host_io::Files;
use std::alloc::Global;
use step_replay::{Plan, PlanFault, parse_plan};

/// The plan of this one file. An error is why it has none: it can't be opened or read, has too many bytes, has a faulty line or
/// one step too many, or there is no memory.
pub fn read_plan<F: Files>(alloc: Global, files: &mut F, names: &[String]) -> Result<Plan, Stop>
    requires one { length names.now ≡ 1 }
    ensures stop { MatchResult result (λ plan. AllScripts planned (F.texts files.old) (map string_bytes names.now) (plan_of plan ∷ []))
        (λ stop. AnyStop stop by_plan (F.texts files.old) (map string_bytes names.now) (F.faults files.old) (F.faults files.new)) }
    ensures steady { IfErr result (λ stop. NoneFails stop (F.steady files.old) (F.texts files.old) (map string_bytes names.now)) }
    ensures fit { IfOk result (λ plan. IsFitPlan (plan_of plan)) }
{
    let mut texts = Vec::new(alloc);
    read_texts(alloc, files, names, &mut texts)?;
    parse_only(alloc, &texts[0])
}

// The plan of these bytes, which are those of the only file, or its first fault.
fn parse_only(alloc: Global, bytes: &[u8]) -> Result<Plan, Stop>
    requires { length bytes.now < 2 ^ 32 - 1 }
    ensures parsed { MatchResult result (λ plan. planned bytes.now ≡ Ok (plan_of plan)) (λ stop. NoScripts stop by_plan (bytes.now ∷ [])) }
    ensures fit { IfOk result (λ plan. IsFitPlan (plan_of plan)) }
{
    match parse_plan(alloc, bytes) {
        Ok(plan) => Ok(plan),
        Err(PlanFault::At { line, kind }) => Err(Stop::Plan {
            script: 0,
            line,
            kind,
        }),
        Err(PlanFault::Memory) => Err(Stop::Memory),
    }
}
