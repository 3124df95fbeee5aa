// The lines of steps that come again: a step's line is kept when it is first printed, and copied after that.

ghost use Rattle.std.specs.Prelude.{◌≡◌, ◌∷◌, ◌++◌, ◌+◌, ◌*◌, ◌%◌, [], All, IfOk, None, OnOk, min, replicate};
ghost use Rattle.dbp_rules.specs.StepKinds.{kind_number};
ghost use Rattle.dbp_replay.specs.KeptLines.{IsKept, step_of_parts};
ghost use Rattle.dbp_replay.specs.NamedItems.{IsThere};
ghost use Rattle.dbp_replay.specs.Texts.{step_text};
ghost use Rattle.dbp_replay.specs.declared.kept_lines.TheConstants.{MOST_LINES, NUMBER_SPREAD};

use crate::printed::push_step;
use dbp_core::{Step, StepKind};
use dbp_plan::{Diagram, NoMemory};
use std::alloc::Global;

// The most lines that are kept.
const MOST_LINES: usize = 4096;

// How many places apart, counted in tasks, the lines of neighbouring numbers are kept. With this count more than nine
// in ten steps of the documents in bench/ find their line.
const NUMBER_SPREAD: usize = 158;

// What a step is made of: its kind, its task, and the number that it has besides. A claim has its link's number as
// both, and a step that names only a task has that as both.
#[derive(Clone, Copy, Debug, PartialEq, Eq)]
struct Parts {
    kind: StepKind,
    task: u32,
    number: u32,
}

// A step, and its line with the line feed.
#[derive(Drop)]
pub(crate) struct Line {
    parts: Parts,
    text: Vec<u8>,
}

// Empty places for the lines of a script with so many steps.
pub(crate) fn no_lines(alloc: Global, steps: usize) -> Result<Vec<Option<Line>>, NoMemory>
    ensures { IfOk result (λ lines. lines.items ≡ replicate (min steps MOST_LINES) None) }
{
    let count = steps.min(MOST_LINES);
    let mut lines = Vec::with_capacity(alloc, count)?;
    for _ in 0..count {
        lines.push(None)?;
    }
    Ok(lines)
}

// Adds the step's line, which is copied if it is kept.
#[inline]
pub(crate) fn push_line(
    lines: &mut Vec<Option<Line>>,
    text: &mut Vec<u8>,
    diagram: &Diagram,
    step: &Step,
) -> Result<(), NoMemory>
    requires there { IsThere diagram.now step.now }
    requires kept { All (IsKept diagram.now) lines.old.items }
    ensures kept { OnOk result (All (IsKept diagram.now) lines.new.items) }
    ensures text { OnOk result
        (text.new.items ≡ text.old.items ++ step_text diagram.now step.now ++ 10 ∷ []) }
{
    let parts = parts_of(*step);
    let place = place_of(parts);
    match lines.get(place) {
        Some(Some(line)) if line.parts == parts => {
            text.extend_from_slice(&line.text)?;
            Ok(())
        }
        _ => push_new_line(lines, place, text, diagram, step),
    }
}

// What the step is made of.
#[inline]
fn parts_of(step: Step) -> Parts
    ensures { step_of_parts result ≡ step }
{
    let kind = step.kind();
    let (task, number) = match step {
        Step::Aim { task, slot } => (task, slot),
        Step::Look { task, read } | Step::Take { task, read } => (task, read),
        Step::Put { task, port } => (task, port),
        Step::Claim { link } => (link, link),
        Step::Seen { task }
        | Step::OpenGate { task }
        | Step::Start { task }
        | Step::Hear { task }
        | Step::Shut { task }
        | Step::Done { task }
        | Step::End { task } => (task, task),
    };
    Parts { kind, task, number }
}

// Where the line of the step with the parts is kept, if there is such a place. Steps may share one. Of the sixteen places
// of a task and a number, twelve are those of the kinds.
#[inline]
fn place_of(parts: Parts) -> usize
    ensures { result ≡ ((parts.number * NUMBER_SPREAD + parts.task) * 16 + kind_number parts.kind) % MOST_LINES }
{
    let named = parts.number as usize * NUMBER_SPREAD + parts.task as usize;
    (named * 16 + parts.kind.number() as usize) % MOST_LINES
}

// Adds the step's line, and keeps it if the place is empty.
#[cold]
#[inline(never)]
fn push_new_line(
    lines: &mut Vec<Option<Line>>,
    place: usize,
    text: &mut Vec<u8>,
    diagram: &Diagram,
    step: &Step,
) -> Result<(), NoMemory>
    requires there { IsThere diagram.now step.now }
    requires kept { All (IsKept diagram.now) lines.old.items }
    ensures kept { OnOk result (All (IsKept diagram.now) lines.new.items) }
    ensures text { OnOk result
        (text.new.items ≡ text.old.items ++ step_text diagram.now step.now ++ 10 ∷ []) }
{
    let start = text.as_slice().len();
    push_step(text, diagram, *step)?;
    text.push(b'\n')?;
    if place < lines.len() && lines[place].is_none() {
        let line = line_of(*text.allocator(), *step, &text[start..])?;
        lines[place] = Some(line);
    }
    Ok(())
}

// The step with a copy of its line.
fn line_of(alloc: Global, step: Step, line: &[u8]) -> Result<Line, NoMemory>
    ensures step { IfOk result (λ made. step_of_parts made.parts ≡ step) }
    ensures text { IfOk result (λ made. made.text.items ≡ line.now) }
{
    let mut text = Vec::with_capacity(alloc, line.len())?;
    text.extend_from_slice(line)?;
    Ok(Line {
        parts: parts_of(step),
        text,
    })
}
