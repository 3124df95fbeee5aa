// Steps as text.

ghost use Rattle.std.specs.Prelude.{◌≡◌, ◌∷◌, ◌++◌, All, IfOk, OnOk};
ghost use Rattle.dbp_replay.specs.NamedItems.{IsThere};
ghost use Rattle.dbp_replay.specs.Texts.{delay_words, heard_words, operand_words, script_text, spaced_words, step_text};

use crate::kept_lines::{no_lines, push_line};
use crate::kind::opening_of;
use crate::look_up::{link_at, port_name, read_name, task_name, task_of};
use dbp_core::{Heard, Step};
use dbp_plan::{Diagram, List, NoMemory};
use itoa::{Buffer, Integer};
use std::alloc::Global;

/// The text of the steps: a line for each, with the names of the diagram, its words joined by one space and ended by LF.
/// Each step names only what the diagram has.
// (inlined into a long caller, its loop would keep less in registers)
#[inline(never)]
pub fn print_script(
    alloc: Global,
    diagram: &Diagram,
    steps: &List<Step>,
) -> Result<Vec<u8>, NoMemory>
    requires { All (IsThere diagram.now) steps.now }
    ensures { IfOk result (λ text. text.items ≡ script_text diagram.now steps.now) }
{
    let steps = steps.items();
    let mut lines = no_lines(alloc, steps.len())?;
    let mut text = Vec::new(alloc);
    for step in steps {
        push_line(&mut lines, &mut text, diagram, step)?;
    }
    Ok(text)
}

// Adds the words of a step: its word and its task, each with the space between them as one slice, and what it names.
#[inline]
pub(crate) fn push_step(text: &mut Vec<u8>, diagram: &Diagram, step: Step) -> Result<(), NoMemory>
    requires { IsThere diagram.now step }
    ensures { OnOk result (text.new.items ≡ text.old.items ++ step_text diagram.now step) }
{
    text.extend_from_slice(opening_of(step.kind()))?;
    text.extend_from_slice(task_name(diagram, task_of(diagram, step)))?;
    push_operand(text, diagram, step)
}

// Adds the words after the task.
#[inline]
fn push_operand(text: &mut Vec<u8>, diagram: &Diagram, step: Step) -> Result<(), NoMemory>
    requires { IsThere diagram.now step }
    ensures { OnOk result (text.new.items
        ≡ text.old.items ++ spaced_words (operand_words diagram.now step)) }
{
    match step {
        Step::Aim { slot, .. } => push_number(text, slot),
        Step::Claim { link } => {
            let link = link_at(diagram, link);
            push_delay(text, link.delay)?;
            push_word(text, task_name(diagram, link.writer))
        }
        Step::Look { task, read } => push_word(text, read_name(diagram, task, read)),
        Step::Take { task, read } => push_word(text, read_name(diagram, task, read)),
        Step::Put { task, port } => push_word(text, port_name(diagram, task, port)),
        _ => Ok(()),
    }
}

// Adds `pre` and the delay, which is left out if it is 1; nothing for the delay 0.
#[inline]
fn push_delay(text: &mut Vec<u8>, delay: u32) -> Result<(), NoMemory>
    ensures { OnOk result (text.new.items ≡ text.old.items ++ spaced_words (delay_words delay)) }
{
    if delay == 0 {
        return Ok(());
    }
    text.extend_from_slice(b" pre")?;
    if delay == 1 {
        return Ok(());
    }
    push_number(text, delay)
}

// Adds what a step heard after ` ->`, and nothing if it stored a word.
#[inline]
pub(crate) fn push_heard(text: &mut Vec<u8>, heard: Heard) -> Result<(), NoMemory>
    ensures { OnOk result (text.new.items ≡ text.old.items ++ spaced_words (heard_words heard)) }
{
    match heard {
        Heard::Stored => Ok(()),
        Heard::Ended(count) => push_answer(text, count),
        Heard::Started => push_words(text, b" -> started"),
        Heard::Closed => push_words(text, b" -> closed"),
        Heard::Order { slot, number } => {
            push_words(text, b" -> slot")?;
            push_number(text, slot)?;
            push_words(text, b" number")?;
            push_number(text, number)
        }
        Heard::Ready => push_words(text, b" -> ready"),
        Heard::NotYet => push_words(text, b" -> notyet"),
        Heard::Word(value) => push_answer(text, value),
    }
}

// Adds the words, each of which has its space before it.
#[inline]
fn push_words(text: &mut Vec<u8>, words: &[u8]) -> Result<(), NoMemory>
    ensures { OnOk result (text.new.items ≡ text.old.items ++ words.now) }
{
    text.extend_from_slice(words)?;
    Ok(())
}

// Adds ` ->` and the number.
#[inline]
fn push_answer<N: Integer>(text: &mut Vec<u8>, number: N) -> Result<(), NoMemory>
    ensures { OnOk result (text.new.items ≡ text.old.items ++ 32 ∷ 45 ∷ 62 ∷ 32 ∷ N.text number) }
{
    push_words(text, b" ->")?;
    push_number(text, number)
}

// Adds the word after a space.
#[inline]
fn push_word(text: &mut Vec<u8>, word: &[u8]) -> Result<(), NoMemory>
    ensures { OnOk result (text.new.items ≡ text.old.items ++ 32 ∷ word.now) }
{
    text.push(b' ')?;
    text.extend_from_slice(word)?;
    Ok(())
}

// Adds the number in decimal after a space.
#[inline]
fn push_number<N: Integer>(text: &mut Vec<u8>, number: N) -> Result<(), NoMemory>
    ensures { OnOk result (text.new.items ≡ text.old.items ++ 32 ∷ N.text number) }
{
    text.push(b' ')?;
    text.extend_from_slice(Buffer::new().format(number).as_bytes())?;
    Ok(())
}
