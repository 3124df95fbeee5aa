// The steps of a document's script.

ghost use Rattle.std.specs.Prelude.{◌≡◌, All, Err, IfErr, IfOk, None};
ghost use Rattle.dia_lines.specs.Lines.{SaysInScript, step as kept_step};
ghost use Rattle.dia_tokens.specs.declared.line.LineFail.TheVariants.{NoMemory as OutOfMemory};
ghost use Rattle.dia_read.specs.Printable.{HasItemLines, IsPrintable};
ghost use Rattle.dbp_replay.specs.declared.fail.ScriptCode.TheVariants.{NoScript as NoSection};
ghost use Rattle.dbp_replay.specs.declared.fail.ScriptFail.TheVariants as script_fail;
ghost use Rattle.dbp_replay.specs.NamedItems.{IsThere};
ghost use Rattle.dbp_replay.specs.Scripts.{IsScript, IsScriptRefusal, Says};

use crate::fail::{ScriptCode, ScriptFail};
use crate::naming::step_of;
use dbp_core::Step;
use dbp_plan::{Diagram, List, NoMemory};
use dia_lines::next_line;
use dia_read::Doc;
use dia_tokens::{LineFail, Token, tokens_into};
use std::alloc::Global;

/// The steps that the lines of the document's script name, in order. Tasks, links, reads and outs are those of the
/// diagram.
///
/// Refused is the first line with a fault: with `BadStep` if its tokens have no form of a step, else with `StepName` if a
/// name is no task, no read of the task or no out of the task, or no link is there. A document without a script section
/// is refused with `NoScript` at its line `done`.
pub fn read_script(alloc: Global, diagram: &Diagram, doc: &Doc) -> Result<List<Step>, ScriptFail>
    requires printable { IsPrintable doc.now.body }
    requires lines { HasItemLines doc.now }
    // The lines name these steps.
    ensures script { IfOk result (λ steps. IsScript diagram.now doc.now steps) }
    // The steps name only what the diagram has.
    ensures there { IfOk result (λ steps. All (IsThere diagram.now) steps) }
    // It has this first fault, unless memory ran out.
    ensures fault { IfErr result (λ fail. IsScriptRefusal diagram.now doc.now fail) }
    // A document without a script section is refused so whatever memory there is.
    ensures no_script { doc.now.body.script ≡ None
        → result ≡ Err (script_fail.Refused doc.now.lines.done_at NoSection) }
{
    let Some(text) = &doc.body.script else {
        return refused(doc.lines.done_at, ScriptCode::NoScript);
    };
    let lines = doc.lines.script.items();
    let mut steps = List::new(alloc);
    let mut tokens = Vec::new(alloc);
    let mut rest = text.items();
    while !rest.is_empty() {
        let (line, after) = next_line(rest);
        match step_on(diagram, line, &mut tokens)? {
            Ok(step) => steps.push(step)?,
            Err(code) => return refused(lines[steps.len() as usize], code),
        }
        rest = after;
    }
    Ok(steps)
}

// No script: the first fault, which is never out of memory.
fn refused(line: u32, code: ScriptCode) -> Result<List<Step>, ScriptFail>
    ensures { result ≡ Err (script_fail.Refused line code) }
{
    Err(ScriptFail::Refused { line, code })
}

// What a kept line says: a step, or a fault. Its tokens take the place of those in the list.
fn step_on(
    diagram: &Diagram,
    line: &[u8],
    tokens: &mut Vec<Token>,
) -> Result<Result<Step, ScriptCode>, NoMemory>
    requires { SaysInScript line.now (kept_step line.now) }
    ensures { IfOk result (λ said. Says diagram.now line.now said) }
{
    match tokens_into(line, tokens) {
        Ok(()) => Ok(step_of(diagram, tokens)),
        Err(fail) => Err(out_of_memory(fail)),
    }
}

// Why a line that has tokens gave none.
fn out_of_memory(fail: LineFail) -> NoMemory
    requires { fail ≡ OutOfMemory }
{
    match fail {
        LineFail::NoMemory => NoMemory,
        _ => unreachable!(),
    }
}
