// What simulations write.

ghost use Rattle.std.specs.Prelude.{◌≡◌, ◌<◌, ◌≤◌, ℕ, Bool, List as Items, length, IfErr, IfOk};
ghost use Rattle.dbp_plan.specs.Lookups.{declared_task};
ghost use Rattle.dbp_plan.specs.declared.limits.TheConstants.{MAX_TEXT};
ghost use Rattle.dia_read.specs.declared.document.Doc.{Doc as Document};
ghost use Rattle.sync_meaning.specs.SomeMeaning.{meaning_of};
ghost use Rattle.trace_io.specs.Texts.{Accepts};
ghost use Rattle.dbp_answers.specs.Answer.{IsOverrunLine, Makes, PlanText};
ghost use Rattle.dbp_answers.specs.Commands.{a_simulation, at_plan, looks};
ghost use Rattle.dbp_answers.specs.OverrunLines.{overrun_line};
ghost use Rattle.dbp_answers.specs.Simulations.{IsFailOn, IsInTime, IsRecordIn};
ghost use Rattle.dbp_answers.specs.Stops.{IsStopOf};
ghost use Rattle.dbp_answers.specs.declared.command.Command.{Command as Named};

use crate::overrun_line::overrun_after;
use crate::plan::plan_of;
use crate::processors::Processors;
use crate::stop::Stop;
use cpu_sim::{simulate_cpus_shared, simulate_cpus_table_shared};
use dbp_core::Step;
use dbp_plan::{List, NoMemory, Plan, Table};
use dbp_replay::print_script;
use std::alloc::Global;
use std::rc::Rc;
use trace_io::lines;
use virtual_sim::{SimFail, simulate_shared, simulate_table_shared};

// What the simulation of the input's plan writes.
pub(crate) fn simulation_of(
    alloc: Global,
    processors: Processors,
    record_it: bool,
    input: &[u8],
) -> Result<Vec<u8>, Stop>
    requires { length input.now ≤ MAX_TEXT }
    ensures text { IfOk result (λ text. (command : Named) → looks command ≡ at_plan (a_simulation processors record_it)
        → Makes input.now command text.items) }
    ensures stop { IfErr result (λ stop. (command : Named) → looks command ≡ at_plan (a_simulation processors record_it)
        → IsStopOf input.now command stop) }
{
    let plan = plan_of(alloc, input)?;
    let shared = shared_plan(alloc, plan)?;
    let text = simulation_text(alloc, processors, record_it, &shared)?;
    Ok(text)
}

// The plan, so that it can be shared.
fn shared_plan(alloc: Global, plan: Plan) -> Result<Rc<Plan>, NoMemory>
    ensures { IfOk result (λ shared. shared.value ≡ plan) }
{
    Ok(Rc::new(alloc, plan)?)
}

// What the simulation of the plan writes: the steps of its record, or the lines of its table.
fn simulation_text(
    alloc: Global,
    processors: Processors,
    record_it: bool,
    shared: &Rc<Plan>,
) -> Result<Vec<u8>, Stop>
    ensures text { IfOk result
        (λ text. (doc : Document) → PlanText doc shared.now.value (a_simulation processors record_it) text.items) }
    ensures stop { IfErr result (λ stop. (input : Items ℕ) (command : Named) → Accepts input shared.now.value
        → looks command ≡ at_plan (a_simulation processors record_it) → IsStopOf input command stop) }
{
    let plan: &Plan = shared;
    if record_it {
        let steps = recorded_steps(alloc, processors, shared)?;
        Ok(print_script(alloc, &plan.diagram, &steps)?)
    } else {
        let table = simulated_table(alloc, processors, shared)?;
        Ok(lines(alloc, plan, &table)?)
    }
}

// The recorded steps of the simulation.
fn recorded_steps(
    alloc: Global,
    processors: Processors,
    shared: &Rc<Plan>,
) -> Result<List<Step>, Stop>
    ensures steps { IfOk result (λ steps. IsRecordIn shared.now.value processors steps) }
    ensures stop { IfErr result (λ stop. (input : Items ℕ) (command : Named) (record_it : Bool) → Accepts input shared.now.value
        → looks command ≡ at_plan (a_simulation processors record_it) → IsStopOf input command stop) }
{
    match processors {
        Processors::One => match simulate_shared(alloc, shared) {
            Ok(run) => Ok(run.script),
            Err(fail) => Err(stop_on(alloc, shared, Processors::One, fail)),
        },
        Processors::Declared => match simulate_cpus_shared(alloc, shared) {
            Ok(run) => Ok(run.script),
            Err(fail) => Err(stop_on(alloc, shared, Processors::Declared, fail)),
        },
    }
}

// The table of the simulation.
fn simulated_table(alloc: Global, processors: Processors, shared: &Rc<Plan>) -> Result<Table, Stop>
    ensures meant { IfOk result (λ table. table ≡ meaning_of shared.now.value) }
    ensures in_time { IfOk result (λ table. IsInTime shared.now.value processors) }
    ensures stop { IfErr result (λ stop. (input : Items ℕ) (command : Named) (record_it : Bool) → Accepts input shared.now.value
        → looks command ≡ at_plan (a_simulation processors record_it) → IsStopOf input command stop) }
{
    match processors {
        Processors::One => match simulate_table_shared(alloc, shared) {
            Ok(table) => Ok(table),
            Err(fail) => Err(stop_on(alloc, shared, Processors::One, fail)),
        },
        Processors::Declared => match simulate_cpus_table_shared(alloc, shared) {
            Ok(table) => Ok(table),
            Err(fail) => Err(stop_on(alloc, shared, Processors::Declared, fail)),
        },
    }
}

// Why the simulation of the plan gives nothing.
fn stop_on(alloc: Global, plan: &Plan, processors: Processors, fail: SimFail) -> Stop
    requires { IsFailOn plan.now processors fail }
    ensures { (input : Items ℕ) (command : Named) (record_it : Bool) → Accepts input plan.now
        → looks command ≡ at_plan (a_simulation processors record_it) → IsStopOf input command result }
{
    match fail {
        SimFail::Overrun {
            task,
            instance,
            time,
        } => overrun_stop(alloc, plan, task, instance, time),
        SimFail::NoMemory => Stop::NoMemory,
    }
}

// The line of an overrun of the plan.
fn overrun_stop(alloc: Global, plan: &Plan, task: u32, instance: u32, time: u64) -> Stop
    requires { task < length plan.now.diagram.tasks }
    ensures { (input : Items ℕ) (command : Named)
        → IsOverrunLine input command (overrun_line (declared_task plan.now task).name instance time)
        → IsStopOf input command result }
{
    let name = plan.diagram.tasks.items()[task as usize].name.bytes();
    match overrun_after(alloc, b"overrun: ", name, instance, time) {
        Ok(line) => Stop::Overrun(line),
        Err(_) => Stop::NoMemory,
    }
}
