// The plans of the documents that the program makes by itself.

ghost use Rattle.std.specs.Prelude.{◌≡◌, ◌≤◌, IfOk};
ghost use Rattle.dbp_load.specs.Texts.{generated_text};
ghost use Rattle.trace_io.specs.Texts.{Accepts};
ghost use Rattle.dbp_answers.specs.declared.stop.Stop.TheVariants.{NoMemory as Stopped};

use crate::plan::plan_of;
use crate::stop::Stop;
use dbp_load::generate;
use dbp_plan::{NoMemory, Plan};
use std::alloc::Global;
use trace_io::one_plan;

/// The plan of the document that is generated from this number with so many tasks, from 1 to 32. It is never refused.
pub fn generated_plan(alloc: Global, seed: u64, size: u32) -> Result<Plan, NoMemory>
    requires { (1 ≤ size) × (size ≤ 32) }
    ensures { IfOk result (λ plan. Accepts (generated_text seed size) plan) }
{
    one_plan();
    let text = generate(alloc, seed, size)?;
    match plan_of(alloc, &text) {
        Ok(plan) => Ok(plan),
        Err(stop) => Err(no_memory(stop)),
    }
}

// A stop that is no refusal.
fn no_memory(stop: Stop) -> NoMemory
    requires { stop ≡ Stopped }
{
    match stop {
        Stop::NoMemory => NoMemory,
        Stop::Refused(_) | Stop::Overrun(_) => unreachable!(),
    }
}
