// The summary of a document that the program makes by itself.

ghost use Rattle.std.specs.Prelude.{◌≡◌, ◌≤◌, ℕ, List as Items, Some, IfOk, MatchResult};
ghost use Rattle.dbp_load.specs.Texts.{generated_text};
ghost use Rattle.dbp_answers.specs.Answer.{Makes};
ghost use Rattle.dbp_answers.specs.Summaries.{IsSummary};
ghost use Rattle.dbp_answers.specs.declared.command.Command.TheVariants.{Soak};
ghost use Rattle.dbp_answers.specs.declared.status.Status.TheVariants.{NoMemory as OutOfMemory};
ghost use Rattle.dbp_top.specs.Runs.{HasRunInput, RanOnce, RunsAfter};

use crate::run::run_table;
use dbp_answers::{generated_plan, simulation_line, summary};
use dbp_plan::{NoMemory, Plan};
use party_exec::Crew;
use std::alloc::Global;
use std::sync::Wait;
use std::thread::Threads;
use sync_meaning::mean;

// The six lines of the generated document. Its tasks are run by this crew.
pub(crate) fn soak_text<R: Threads + Wait + Sync, C: Crew>(
    rt: &R,
    alloc: Global,
    seed: u64,
    size: u32,
    crew: &mut C,
) -> Result<Vec<u8>, NoMemory>
    requires { (1 ≤ size) × (size ≤ 32) }
    ensures text { IfOk result
        (λ text. (input : Items ℕ) → Makes input (Soak seed size) text.items) }
    ensures runs { MatchResult result
        (λ _. HasRunInput (Some (generated_text seed size)) (C.runs crew.old) (C.runs crew.new))
        (λ _. RunsAfter OutOfMemory (Some (generated_text seed size)) (C.runs crew.old) (C.runs crew.new)) }
{
    let plan = generated_plan(alloc, seed, size)?;
    plan_summary(rt, alloc, &plan, crew)
}

// The six lines of the plan. The table of its run is the meaning's, so nothing is left to compare.
fn plan_summary<R: Threads + Wait + Sync, C: Crew>(
    rt: &R,
    alloc: Global,
    plan: &Plan,
    crew: &mut C,
) -> Result<Vec<u8>, NoMemory>
    ensures text { IfOk result (λ text. IsSummary plan.now text.items) }
    ensures runs { RanOnce plan.now (C.runs crew.old) (C.runs crew.new) result }
{
    let table = mean(alloc, plan)?;
    let simulation = simulation_line(alloc, plan)?;
    run_table(rt, alloc, plan, crew)?;
    summary(alloc, plan, &table, &simulation)
}
