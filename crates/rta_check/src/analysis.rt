// The response times of a diagram's tasks.

ghost use Rattle.std.specs.Prelude.{◌≡◌, None, OnOk, IfErr, IfOk, Err};
ghost use Rattle.std.specs.List.{position};
ghost use Rattle.std.specs.Option.{IfSome};
ghost use Rattle.dbp_plan.specs.declared.plan.Plan.{Plan};
ghost use Rattle.dbp_plan.specs.Ranked.{IsRanked};
ghost use Rattle.rta_check.specs.Bounds.{AreBounds, IsRtaFail, KeepsBounds, is_aperiodic, rta_fault};
ghost use Rattle.rta_check.specs.Phases.{DiffersInPhase};

use crate::level::Level;
use crate::{Bound, RtaFail};
use dbp_plan::{Clock, Diagram, List, ServedBy, Task};
use std::alloc::Global;

// Whether the task is on an event, or occurs only where an input isn't 0.
fn is_aperiodic(task: &Task) -> bool
    ensures { result ≡ is_aperiodic task.now }
{
    matches!(task.clock, Clock::On { .. }) || task.when.is_some()
}

// The number of the first task that is on an event, or occurs only where an input isn't 0.
fn first_aperiodic(tasks: &[Task]) -> Option<usize>
    ensures { result ≡ position is_aperiodic tasks.now }
{
    tasks.iter().position(|task| is_aperiodic(task))
}

// Why the diagram has no response times, if it has none.
fn fault(diagram: &Diagram) -> Option<RtaFail>
    requires { IsRanked diagram.now }
    ensures { result ≡ rta_fault diagram.now }
{
    match diagram.policy.served_by() {
        ServedBy::Deadline => Some(RtaFail::NotFixed),
        ServedBy::Rank => {
            let task = first_aperiodic(diagram.tasks.items())?;
            Some(RtaFail::NotPeriodic { task: task as u32 })
        }
    }
}

/// The bounds of a diagram's tasks, which are served by rank, by number of the task: each is the task's least response time,
/// or says that it has none within its period. A task's bound depends on the costs and the periods of the task and of
/// those ranked above it; a deadline and a processor aren't looked at. The time taken may be in proportion to the
/// periods' ratio where the tasks above leave almost nothing.
pub fn rta(alloc: Global, diagram: &Diagram) -> Result<List<Bound>, RtaFail>
    requires { IsRanked diagram.now }
    ensures bounds { IfOk result (λ bounds. AreBounds diagram.now bounds) }
    // What the bounds promise of each plan that differs in offsets and end, whatever its samples.
    ensures phases { IfOk result (λ bounds. (p : Plan) → DiffersInPhase diagram.now p.diagram → KeepsBounds bounds p) }
    // The diagram has no fault; with an error it has this one, unless memory ran out.
    ensures fit { OnOk result (rta_fault diagram.now ≡ None) }
    ensures fault { IfErr result (λ fail. IsRtaFail diagram.now fail) }
    // A fault is found before memory is taken, so it is never out of memory.
    ensures refused { IfSome (rta_fault diagram.now) (λ fault. result ≡ Err fault) }
{
    if let Some(fault) = fault(diagram) {
        return Err(fault);
    }
    let tasks = diagram.tasks.len();
    let mut bounds = List::with_capacity(alloc, tasks)?;
    for task in 0..tasks {
        bounds.push(Level::of(diagram, task as usize).bound())?;
    }
    Ok(bounds)
}
