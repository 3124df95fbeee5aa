// What a command makes of an input.

ghost use Rattle.std.specs.Prelude.{◌≡◌, ◌≤◌, ℕ, Bool, true, List as Items, length, Err, IfErr, IfOk, None};
ghost use Rattle.dbp_plan.specs.declared.limits.TheConstants.{MAX_TEXT};
ghost use Rattle.trace_io.specs.Texts.{Accepts};
ghost use Rattle.rta_check.specs.Bounds.{IsRtaFail};
ghost use Rattle.dbp_replay.specs.declared.fail.ScriptCode.TheVariants.{NoScript};
ghost use Rattle.dia_read.specs.Printable.{HasItemLines, IsPrintable};
ghost use Rattle.dia_read.specs.declared.document.Doc.{Doc as Document};
ghost use Rattle.dbp_answers.specs.Answer.{Answers, Makes, PlanText};
ghost use Rattle.dbp_answers.specs.Commands.{a_replay, count_of, reads_input, serves_plain};
ghost use Rattle.dbp_answers.specs.Stops.{IsStopOf, status_of_stop};
ghost use Rattle.dbp_answers.specs.declared.command.Command.{Command as Named};
ghost use Rattle.dbp_answers.specs.declared.refusal.Refusal.TheVariants.{Script};
ghost use Rattle.dbp_answers.specs.declared.stop.Stop.TheVariants.{Refused};
ghost use Rattle.dbp_answers.specs.declared.command.Command.TheVariants.{Mean, Form, Plan as Slots, Replay, Rta, Upgrade};

use crate::Status;
use crate::bound_lines::bound_lines;
use crate::command::Command;
use crate::command_code::CommandCode;
use crate::plan::{accepted, plan_of};
use crate::processors::Processors;
use crate::ranking::ranked_text_of;
use crate::refusal::{Refusal, refusal_line};
use crate::scenarios::scenario_of;
use crate::simulations::simulation_of;
use crate::slot_lines::slot_lines;
use crate::stop::Stop;
use dbp_core::Count;
use dbp_plan::{NoMemory, Plan};
use dbp_replay::{read_script, replay_owned};
use dia_read::{Doc, an_upgraded_body_can_be_printed, print_doc, read_doc, upgrade};
use rta_check::{RtaFail, rta};
use std::alloc::Global;
use sync_meaning::mean;
use trace_io::lines;

/// The status and the text of a command that reads the input and runs no tasks. Out of memory is no answer.
pub fn answer(alloc: Global, command: Command, input: &[u8]) -> Result<(Status, Vec<u8>), NoMemory>
    requires size { length input.now ≤ MAX_TEXT }
    requires plain { serves_plain command ≡ true }
    requires reads { reads_input command ≡ true }
    ensures { IfOk result (λ (status, text). Answers input.now command status text.items) }
{
    match text_of(alloc, command, input) {
        Ok(text) => Ok((Status::Ok, text)),
        Err(stop) => stop_answer(alloc, stop),
    }
}

/// The status and the line of an input of which a command makes no text, also of a command that runs tasks.
pub fn stop_answer(alloc: Global, stop: Stop) -> Result<(Status, Vec<u8>), NoMemory>
    ensures answer { IfOk result
        (λ (status, line). (input : Items ℕ) (command : Named) → IsStopOf input command stop
        → Answers input command status line.items) }
    ensures status { IfOk result (λ (status, line). status ≡ status_of_stop stop) }
{
    match stop {
        Stop::Refused(refusal) => Ok((Status::Refused, refusal_line(alloc, &refusal)?)),
        Stop::Overrun(line) => Ok((Status::Overrun, line)),
        Stop::NoMemory => Err(NoMemory),
    }
}

// The text that the command makes of the input, or why it makes none.
fn text_of(alloc: Global, command: Command, input: &[u8]) -> Result<Vec<u8>, Stop>
    requires size { length input.now ≤ MAX_TEXT }
    requires plain { serves_plain command ≡ true }
    requires reads { reads_input command ≡ true }
    ensures text { IfOk result (λ text. Makes input.now command text.items) }
    ensures stop { IfErr result (λ stop. IsStopOf input.now command stop) }
{
    match command {
        Command::Mean => meaning_of(alloc, input),
        Command::Sim { record_it } => simulation_of(alloc, Processors::One, record_it, input),
        Command::Cpus { record_it } => {
            simulation_of(alloc, Processors::Declared, record_it, input)
        }
        Command::Run { .. } | Command::Gen { .. } | Command::Soak { .. } => unreachable!(),
        Command::Form => form_of(alloc, input),
        Command::Upgrade => upgrade_of(alloc, input),
        Command::Rank => ranked_text_of(alloc, input),
        Command::Plan => slots_of(alloc, input),
        Command::Rta => response_times_of(alloc, input),
        Command::Need { task } => scenario_of(alloc, &task, input),
        Command::Replay { ranked } => replay_of(alloc, ranked, input),
    }
}

// The lines of the meaning of the input's plan.
fn meaning_of(alloc: Global, input: &[u8]) -> Result<Vec<u8>, Stop>
    requires { length input.now ≤ MAX_TEXT }
    ensures text { IfOk result (λ text. Makes input.now Mean text.items) }
    ensures stop { IfErr result (λ stop. IsStopOf input.now Mean stop) }
{
    let plan = plan_of(alloc, input)?;
    let table = mean(alloc, &plan)?;
    Ok(lines(alloc, &plan, &table)?)
}

// The canonical text of the input's document.
fn form_of(alloc: Global, input: &[u8]) -> Result<Vec<u8>, Stop>
    requires { length input.now ≤ MAX_TEXT }
    ensures text { IfOk result (λ text. Makes input.now Form text.items) }
    ensures stop { IfErr result (λ stop. IsStopOf input.now Form stop) }
{
    let doc = read_doc(alloc, input)?;
    Ok(print_doc(alloc, &doc.body)?)
}

// The canonical text of the input's document in version 2.
fn upgrade_of(alloc: Global, input: &[u8]) -> Result<Vec<u8>, Stop>
    requires { length input.now ≤ MAX_TEXT }
    ensures text { IfOk result (λ text. Makes input.now Upgrade text.items) }
    ensures stop { IfErr result (λ stop. IsStopOf input.now Upgrade stop) }
{
    an_upgraded_body_can_be_printed();
    let doc = read_doc(alloc, input)?;
    Ok(print_doc(alloc, &upgrade(doc.body))?)
}

// The slots of the tasks of the input's plan.
fn slots_of(alloc: Global, input: &[u8]) -> Result<Vec<u8>, Stop>
    requires { length input.now ≤ MAX_TEXT }
    ensures text { IfOk result (λ text. Makes input.now Slots text.items) }
    ensures stop { IfErr result (λ stop. IsStopOf input.now Slots stop) }
{
    let plan = plan_of(alloc, input)?;
    Ok(slot_lines(alloc, &plan.diagram)?)
}

// The response times of the tasks of the input's plan.
fn response_times_of(alloc: Global, input: &[u8]) -> Result<Vec<u8>, Stop>
    requires { length input.now ≤ MAX_TEXT }
    ensures text { IfOk result (λ text. Makes input.now Rta text.items) }
    ensures stop { IfErr result (λ stop. IsStopOf input.now Rta stop) }
{
    let plan = plan_of(alloc, input)?;
    match rta(alloc, &plan.diagram) {
        Ok(bounds) => Ok(bound_lines(alloc, &plan.diagram, bounds.items())?),
        Err(fail) => Err(response_stop(&plan, fail)),
    }
}

// Why the tasks of the plan have no response times.
fn response_stop(plan: &Plan, fail: RtaFail) -> Stop
    requires { IsRtaFail plan.now.diagram fail }
    ensures { (input : Items ℕ) → Accepts input plan.now → IsStopOf input Rta result }
{
    match fail {
        RtaFail::NotFixed => Stop::Refused(Refusal::OfCommand(CommandCode::NotFixed)),
        RtaFail::NotPeriodic { task } => {
            let task = plan.diagram.tasks.items()[task as usize].name;
            Stop::Refused(Refusal::OfCommand(CommandCode::NotPeriodic { task }))
        }
        RtaFail::NoMemory => Stop::NoMemory,
    }
}

// The steps of the input's script, with what they hear.
fn replay_of(alloc: Global, ranked: bool, input: &[u8]) -> Result<Vec<u8>, Stop>
    requires { length input.now ≤ MAX_TEXT }
    ensures text { IfOk result (λ text. Makes input.now (Replay ranked) text.items) }
    ensures stop { IfErr result (λ stop. IsStopOf input.now (Replay ranked) stop) }
{
    let (doc, plan) = accepted(alloc, input)?;
    let text = replay_text(alloc, ranked, &doc, plan)?;
    Ok(text)
}

// The steps of the document's script, with what they hear on its plan.
fn replay_text(alloc: Global, ranked: bool, doc: &Doc, plan: Plan) -> Result<Vec<u8>, Stop>
    requires printable { IsPrintable doc.now.body }
    requires lines { HasItemLines doc.now }
    ensures text { IfOk result (λ text. PlanText doc.now plan (a_replay (count_of ranked)) text.items) }
    ensures stop { IfErr result (λ stop. (input : Items ℕ) (accepted : Accepts input plan)
        → accepted.doc ≡ doc.now → IsStopOf input (Replay ranked) stop) }
    // A document without a script section is refused so whatever memory there is.
    ensures no_script { doc.now.body.script ≡ None
        → result ≡ Err (Refused (Script doc.now.lines.done_at NoScript)) }
{
    let steps = read_script(alloc, &plan.diagram, doc)?;
    let text = replay_owned(alloc, plan, count_of(ranked), &steps)?;
    Ok(text)
}

// By which slots and in which order the steps of a replay are taken.
fn count_of(ranked: bool) -> Count
    ensures { result ≡ count_of ranked }
{
    if ranked { Count::Ranked } else { Count::All }
}
