// The line that says why a text is refused, or why its script can't be replayed.

ghost use Rattle.std.specs.Prelude.{◌≡◌, ◌++◌, codes, decimal, IfOk, OnOk};
ghost use Rattle.std.specs.List.{flat_map};
ghost use Rattle.trace_io.specs.declared.code.Code.TheVariants.{Reading};
ghost use Rattle.dbp_answers.specs.Refusals.{broken_text, code_text, numbered_name, refusal_line, refusal_text};

use crate::command_code::CommandCode;
use dbp_core::{Broken, Illegal};
use dbp_plan::{Name, NoMemory};
use dbp_replay::ScriptCode;
use dia_read::ReadCode;
use itoa::Buffer;
use std::alloc::Global;
use trace_io::Code;

/// Why a command refuses an input. Lines and steps are counted from 1.
#[derive(Drop)]
pub enum Refusal {
    /// The first fault of the diagram or its trace.
    Document {
        /// Its line.
        line: u32,
        /// What is wrong there.
        code: Code,
    },
    /// The first fault of the script.
    Script {
        /// Its line.
        line: u32,
        /// What is wrong there.
        code: ScriptCode,
    },
    /// The first step of the script that isn't allowed.
    Illegal {
        /// Its number in the script.
        step: u32,
        /// What the protocol asks for, and what it found.
        why: Illegal,
    },
    /// What the command asks of a document besides.
    OfCommand(CommandCode),
}

// The line `refused: line L: CODE NAME`, with the limit's word after a passed limit, `illegal step K: TEXT`, or
// `refused: CODE NAME` with the words after it.
pub(crate) fn refusal_line(alloc: Global, refusal: &Refusal) -> Result<Vec<u8>, NoMemory>
    ensures { IfOk result (λ text. text.items ≡ refusal_line refusal.now) }
{
    let mut text = Vec::new(alloc);
    push_refusal(&mut text, refusal)?;
    text.push(b'\n')?;
    Ok(text)
}

fn push_refusal(text: &mut Vec<u8>, refusal: &Refusal) -> Result<(), NoMemory>
    ensures { OnOk result (text.new.items ≡ text.old.items ++ refusal_text refusal.now) }
{
    match refusal {
        Refusal::Document { line, code } => {
            push_line_number(text, *line)?;
            push_code(text, code)
        }
        Refusal::Script { line, code } => {
            push_line_number(text, *line)?;
            push_name(text, code.number(), code.name())
        }
        Refusal::Illegal { step, why } => {
            push_numbered(text, "illegal step ", *step)?;
            Ok(text.extend_from_slice(broken_text(why.broken).as_bytes())?)
        }
        Refusal::OfCommand(code) => {
            text.extend_from_slice(b"refused: ")?;
            push_name(text, code.number(), code.name())?;
            push_names(text, code.tasks())
        }
    }
}

// Adds `refused: line L: `.
fn push_line_number(text: &mut Vec<u8>, line: u32) -> Result<(), NoMemory>
    ensures { OnOk result (text.new.items
        ≡ text.old.items ++ codes "refused: line " ++ decimal line ++ codes ": ") }
{
    push_numbered(text, "refused: line ", line)
}

// Adds the words and the number after them, and a colon and a space.
fn push_numbered(text: &mut Vec<u8>, words: &str, number: u32) -> Result<(), NoMemory>
    ensures { OnOk result (text.new.items
        ≡ text.old.items ++ words.now ++ decimal number ++ codes ": ") }
{
    text.extend_from_slice(words.as_bytes())?;
    text.extend_from_slice(Buffer::new().format(number).as_bytes())?;
    text.extend_from_slice(b": ")?;
    Ok(())
}

fn push_code(text: &mut Vec<u8>, code: &Code) -> Result<(), NoMemory>
    ensures { OnOk result (text.new.items ≡ text.old.items ++ code_text code.now) }
{
    match code {
        Code::Reading(code) => push_read_code(text, *code),
        Code::Checking(code) => push_name(text, code.number(), code.name()),
        Code::Tracing(code) => push_name(text, code.number(), code.name()),
    }
}

// Adds the number and the name of the code, and the word of its limit.
fn push_read_code(text: &mut Vec<u8>, code: ReadCode) -> Result<(), NoMemory>
    ensures { OnOk result (text.new.items ≡ text.old.items ++ code_text (Reading code)) }
{
    push_name(text, code.number(), code.name())?;
    if let ReadCode::LimitHit(limit) = code {
        text.push(b' ')?;
        text.extend_from_slice(limit.name().as_bytes())?;
    }
    Ok(())
}

// Adds the number and the name.
fn push_name(text: &mut Vec<u8>, number: u32, name: &str) -> Result<(), NoMemory>
    ensures { OnOk result (text.new.items ≡ text.old.items ++ numbered_name number name.now) }
{
    text.extend_from_slice(Buffer::new().format(number).as_bytes())?;
    text.push(b' ')?;
    text.extend_from_slice(name.as_bytes())?;
    Ok(())
}

// Adds the names, each after a space.
fn push_names(text: &mut Vec<u8>, names: &[Name]) -> Result<(), NoMemory>
    ensures { OnOk result (text.new.items
        ≡ text.old.items ++ flat_map (λ name. codes " " ++ name) names.now) }
{
    for name in names {
        text.push(b' ')?;
        text.extend_from_slice(name.bytes())?;
    }
    Ok(())
}

// Why a step isn't allowed.
fn broken_text(broken: Broken) -> &'static str
    ensures { result.now ≡ broken_text broken }
{
    match broken {
        Broken::Place => "not the next release step",
        Broken::LastNotEnded => "last instance not known to have ended",
        Broken::SlotRange => "no such slot",
        Broken::SlotKept => "slot kept",
        Broken::SlotClaimed => "slot claimed",
        Broken::TaskPlace => "not the next step of the task",
        Broken::HigherUnfinished => "higher rank unfinished",
    }
}
