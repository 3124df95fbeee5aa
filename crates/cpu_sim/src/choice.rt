// Whom each processor serves.

ghost use Rattle.cpu_sim.specs.Choices.{AreChoices, StandTogether};

use crate::blocking::is_blocked;
use dbp_core::Stepper;
use dbp_plan::{MAX_CPU, Plan};
use virtual_time::Run;

// How many processors there are.
pub(crate) const CPUS: usize = MAX_CPU as usize + 1;

// For each processor the task whose instance it serves: the first one of its own in the queue that isn't blocked.
pub(crate) fn choose(plan: &Plan, core: &Stepper, run: &Run) -> [Option<u32>; CPUS]
    requires together { StandTogether plan.now core.now run.now }
    ensures { AreChoices plan.now run.now result }
{
    let mut chosen = [None; CPUS];
    for index in 0..plan.diagram.tasks.len() {
        let Some(task) = run.ready.nth(index) else {
            return chosen;
        };
        let cpu = plan.diagram.tasks.items()[task as usize].cpu as usize;
        if chosen[cpu].is_none() && !is_blocked(plan, core, run, task) {
            chosen[cpu] = Some(task);
        }
    }
    chosen
}
