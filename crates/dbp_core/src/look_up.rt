// What stands at a place of the state.

ghost use Rattle.std.specs.Prelude.{◌≡◌, ◌<◌, length};
ghost use Rattle.dbp_rules.specs.Lookups.{task, task_entry, wired_task};
ghost use Rattle.dbp_plan.specs.Lookups.{declared_task};

use dbp_plan::{Plan, Task};
use dbp_rules::{State, TaskEntry, TaskState, TaskWiring, Wiring};

pub(crate) fn task_at(state: &State, number: u32) -> &TaskState
    requires { number < length state.now.tasks }
    ensures { result.now ≡ task state.now number }
{
    &state.tasks.items()[number as usize]
}

pub(crate) fn entry_at(state: &State, number: u32) -> &TaskEntry
    requires { number < length state.now.releaser.tasks }
    ensures { result.now ≡ task_entry state.now number }
{
    state.releaser.entry(number)
}

pub(crate) fn wired_at(wiring: &Wiring, number: u32) -> &TaskWiring
    requires { number < length wiring.now.tasks }
    ensures { result.now ≡ wired_task wiring.now number }
{
    wiring.task(number)
}

pub(crate) fn declared_at(plan: &Plan, number: u32) -> &Task
    requires { number < length plan.now.diagram.tasks }
    ensures { result.now ≡ declared_task plan.now number }
{
    &plan.diagram.tasks.items()[number as usize]
}
