// The step that a form names in a diagram.

ghost use Rattle.std.specs.Prelude.{◌≡◌, ◌<◌, ◌≤◌, ◌^◌, ◌==◌, ◌&&◌, length};
ghost use Rattle.std.specs.List.{position_or_len};
ghost use Rattle.std.specs.Str.{bytes_eq};
ghost use Rattle.dbp_plan.specs.Lookups.{task_at};
ghost use Rattle.dbp_replay.specs.StepForms.{is_link, link_between, named_step, number_of, step_numbered, of_task, port_named, read_named, step_of, step_with, task_named, within};

use crate::fail::ScriptCode;
use crate::form::{Form, Operand, form_in};
use crate::look_up::task_at;
use dbp_core::{Step, StepKind};
use dbp_plan::{Diagram, Link, Name, Out, Read, Task};
use dia_tokens::Token;

// The step that the tokens of a line name: `BadStep` if they have no form, else `StepName` if a name or a link isn't
// there.
pub(crate) fn step_of(diagram: &Diagram, tokens: &[Token]) -> Result<Step, ScriptCode>
    ensures { result ≡ step_of diagram.now tokens.now }
{
    match form_in(tokens) {
        None => Err(ScriptCode::BadStep),
        Some(form) => named_step(diagram, form),
    }
}

fn named_step(diagram: &Diagram, form: Form) -> Result<Step, ScriptCode>
    ensures { result ≡ of_task diagram.now form (task_named diagram.now form.task) }
{
    match task_named(diagram, &form.task) {
        None => Err(ScriptCode::StepName),
        Some(i) => step_numbered(form.kind, i, number_of(diagram, i, form.operand)),
    }
}

fn step_numbered(kind: StepKind, i: u32, number: Option<u32>) -> Result<Step, ScriptCode>
    ensures { result ≡ step_numbered kind i number }
{
    match number {
        None => Err(ScriptCode::StepName),
        Some(number) => Ok(step_with(kind, i, number)),
    }
}

// The step of the kind: of this task, and with this number if it takes one.
fn step_with(kind: StepKind, task: u32, number: u32) -> Step
    ensures { result ≡ step_with kind task number }
{
    match kind {
        StepKind::Seen => Step::Seen { task },
        StepKind::Aim => Step::Aim { task, slot: number },
        StepKind::Claim => Step::Claim { link: number },
        StepKind::OpenGate => Step::OpenGate { task },
        StepKind::Start => Step::Start { task },
        StepKind::Hear => Step::Hear { task },
        StepKind::Look => Step::Look { task, read: number },
        StepKind::Take => Step::Take { task, read: number },
        StepKind::Shut => Step::Shut { task },
        StepKind::Put => Step::Put { task, port: number },
        StepKind::Done => Step::Done { task },
        StepKind::End => Step::End { task },
    }
}

// The number that an operand of the task's step is; if there is none it is 0.
fn number_of(diagram: &Diagram, i: u32, operand: Operand) -> Option<u32>
    requires { i < length diagram.now.tasks }
    ensures { result ≡ number_of diagram.now i operand }
{
    match operand {
        Operand::Nothing => Some(0),
        Operand::Slot(number) => Some(number),
        Operand::Link { delay, writer } => {
            link_between(diagram, task_named(diagram, &writer), i, delay)
        }
        Operand::Read(name) => read_named(diagram, i, &name),
        Operand::Port(name) => port_named(diagram, i, &name),
    }
}

/// The number of the first task with the name, from 0.
pub fn task_named(diagram: &Diagram, name: &Name) -> Option<u32>
    ensures { result ≡ task_named diagram.now name.now }
{
    let tasks = diagram.tasks.items();
    within(tasks.len(), task_place(tasks, name))
}

// The first read of the task with the name.
fn read_named(diagram: &Diagram, i: u32, name: &Name) -> Option<u32>
    requires { i < length diagram.now.tasks }
    ensures { result ≡ read_named diagram.now i name.now }
{
    let reads = task_at(diagram, i).reads.items();
    within(reads.len(), read_place(reads, name))
}

// The first out of the task with the name.
fn port_named(diagram: &Diagram, i: u32, name: &Name) -> Option<u32>
    requires { i < length diagram.now.tasks }
    ensures { result ≡ port_named diagram.now i name.now }
{
    let outs = task_at(diagram, i).outs.items();
    within(outs.len(), port_place(outs, name))
}

// The first link from the writer to the reader with the delay.
fn link_between(diagram: &Diagram, writer: Option<u32>, reader: u32, delay: u32) -> Option<u32>
    ensures { result ≡ link_between diagram.now writer reader delay }
{
    let writer = writer?;
    let links = diagram.links.items();
    within(links.len(), link_place(links, writer, reader, delay))
}

// The place in a list of this length, if it is one.
fn within(len: usize, place: usize) -> Option<u32>
    requires { len < 2 ^ 32 }
    ensures { result ≡ within len place }
{
    if place < len {
        Some(place as u32)
    } else {
        None
    }
}

fn task_place(tasks: &[Task], name: &Name) -> usize
    ensures { result ≡ position_or_len (λ t. bytes_eq t.name name.now) tasks.now }
{
    tasks.iter().take_while(|task| task.name != *name).count()
}

fn read_place(reads: &[Read], name: &Name) -> usize
    ensures { result ≡ position_or_len (λ r. bytes_eq r.name name.now) reads.now }
{
    reads.iter().take_while(|read| read.name != *name).count()
}

fn port_place(outs: &[Out], name: &Name) -> usize
    ensures { result ≡ position_or_len (λ o. bytes_eq o.name name.now) outs.now }
{
    outs.iter().take_while(|out| out.name != *name).count()
}

fn is_link(link: &Link, writer: u32, reader: u32, delay: u32) -> bool
    ensures { result ≡ is_link writer reader delay link.now }
{
    link.writer == writer && link.reader == reader && link.delay == delay
}

fn link_place(links: &[Link], writer: u32, reader: u32, delay: u32) -> usize
    ensures { result ≡ position_or_len (is_link writer reader delay) links.now }
{
    links
        .iter()
        .take_while(|link| !is_link(link, writer, reader, delay))
        .count()
}
