// The scenario of a task, in which all its slots are in use at once.

ghost use Rattle.std.specs.Prelude.{◌≡◌, ◌≤◌, ℕ, List as Items, Some, IfErr, IfOk, length};
ghost use Rattle.dbp_plan.specs.declared.limits.TheConstants.{MAX_TEXT};
ghost use Rattle.dia_read.specs.Printable.{IsPrintable};
ghost use Rattle.slot_need.specs.Bodies.{IsCheckedDiagramOf};
ghost use Rattle.slot_need.specs.Faults.{IsNeedFail};
ghost use Rattle.trace_io.specs.Texts.{Accepts};
ghost use Rattle.dbp_answers.specs.Answer.{Makes, PlanText};
ghost use Rattle.dbp_answers.specs.Commands.{a_scenario};
ghost use Rattle.dbp_answers.specs.ScenarioCodes.{fault_code};
ghost use Rattle.dbp_answers.specs.Stops.{IsStopOf, stop_of_code};
ghost use Rattle.dbp_answers.specs.declared.command.Command.TheVariants.{Need};

use crate::command_code::CommandCode;
use crate::plan::accepted;
use crate::refusal::Refusal;
use crate::stop::Stop;
use dbp_plan::{Diagram, Name, Plan};
use dbp_replay::task_named;
use dia_read::{Doc, print_doc};
use slot_need::{NeedFail, need};
use std::alloc::Global;

// The canonical text of the scenario of the task of this name, in the input's diagram.
pub(crate) fn scenario_of(alloc: Global, name: &Name, input: &[u8]) -> Result<Vec<u8>, Stop>
    requires { length input.now ≤ MAX_TEXT }
    ensures text { IfOk result (λ text. Makes input.now (Need name.now) text.items) }
    ensures stop { IfErr result (λ stop. IsStopOf input.now (Need name.now) stop) }
{
    let (doc, plan) = accepted(alloc, input)?;
    let text = scenario_text(alloc, name, doc, &plan)?;
    Ok(text)
}

// The canonical text of the scenario of the task of this name.
fn scenario_text(alloc: Global, name: &Name, doc: Doc, plan: &Plan) -> Result<Vec<u8>, Stop>
    requires diagram { IsCheckedDiagramOf doc.body plan.now.diagram }
    requires printable { IsPrintable doc.body }
    ensures text { IfOk result (λ text. PlanText doc plan.now (a_scenario name.now) text.items) }
    ensures stop { IfErr result (λ stop. (input : Items ℕ) → Accepts input plan.now
        → IsStopOf input (Need name.now) stop) }
{
    let Some(task) = task_named(&plan.diagram, name) else {
        return Err(stop_of(Some(CommandCode::NoTask)));
    };
    match need(alloc, doc.body, &plan.diagram, task) {
        Ok(body) => Ok(print_doc(alloc, &body)?),
        Err(fail) => Err(stop_of(fault_code(&plan.diagram, fail))),
    }
}

// The code of the fault, unless it is that memory ran out.
fn fault_code(diagram: &Diagram, fail: NeedFail) -> Option<CommandCode>
    requires { (task : ℕ) × IsNeedFail diagram.now task fail }
    ensures { result ≡ fault_code diagram.now (Some fail) }
{
    let tasks = diagram.tasks.items();
    match fail {
        NeedFail::NotFixed => Some(CommandCode::NotFixed),
        NeedFail::NotOnEvents { task } => {
            let task = tasks[task as usize].name;
            Some(CommandCode::NotOnEvents { task })
        }
        NeedFail::SharedEvent { task } => {
            let task = tasks[task as usize].name;
            Some(CommandCode::SharedEvent { task })
        }
        NeedFail::TooLong { .. } => Some(CommandCode::TooLong),
        NeedFail::NoMemory => None,
    }
}

// What a command asks of a document besides, or that memory ran out.
fn stop_of(code: Option<CommandCode>) -> Stop
    ensures { result ≡ stop_of_code code }
{
    match code {
        Some(code) => Stop::Refused(Refusal::OfCommand(code)),
        None => Stop::NoMemory,
    }
}
