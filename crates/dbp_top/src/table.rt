// The table of commands: the arguments that name each.

ghost use Rattle.std.specs.Prelude.{◌≡◌, ◌++◌, ◌↔◌, List as Items, ℕ, Some, map, string_bytes, IfOk, OnOk};
ghost use Rattle.dbp_top.specs.Commands.{HasAllCommands, Names, NamesBy, command_list, first_operands, row_of};
ghost use Rattle.dbp_top.specs.Patterns.{AllFit, form_of, listed_forms, form_text};
ghost use Rattle.dbp_answers.specs.declared.command.Command.{Command as Named};
ghost use Rattle.dbp_top.specs.declared.operands.Operands.{Operands as Given};

use crate::operands::{Maker, Operands, made};
use crate::pattern::{Pattern, after_argument};
use dbp_answers::Command;
use dbp_plan::NoMemory;
use std::alloc::Global;

// What the arguments of a command are, and what makes it of the operands among them.
struct Row {
    patterns: &'static [Pattern],
    maker: Maker,
}

// All commands. What a user reads of them is made of this table too.
static ROWS: [Row; 20] = [
    Row {
        patterns: &[Pattern::Exact("mean")],
        maker: Maker::Mean,
    },
    Row {
        patterns: &[Pattern::Exact("sim")],
        maker: Maker::Sim,
    },
    Row {
        patterns: &[Pattern::Exact("sim"), Pattern::Exact("--record")],
        maker: Maker::SimRecord,
    },
    Row {
        patterns: &[Pattern::Exact("cpus")],
        maker: Maker::Cpus,
    },
    Row {
        patterns: &[Pattern::Exact("cpus"), Pattern::Exact("--record")],
        maker: Maker::CpusRecord,
    },
    Row {
        patterns: &[Pattern::Exact("run")],
        maker: Maker::Run,
    },
    Row {
        patterns: &[
            Pattern::Exact("run"),
            Pattern::Exact("--turns"),
            Pattern::Number(""),
        ],
        maker: Maker::RunTurns,
    },
    Row {
        patterns: &[Pattern::Exact("run"), Pattern::Number("--turns=")],
        maker: Maker::RunTurns,
    },
    Row {
        patterns: &[Pattern::Exact("form")],
        maker: Maker::Form,
    },
    Row {
        patterns: &[Pattern::Exact("upgrade")],
        maker: Maker::Upgrade,
    },
    Row {
        patterns: &[Pattern::Exact("rank")],
        maker: Maker::Rank,
    },
    Row {
        patterns: &[Pattern::Exact("plan")],
        maker: Maker::Plan,
    },
    Row {
        patterns: &[Pattern::Exact("rta")],
        maker: Maker::Rta,
    },
    Row {
        patterns: &[Pattern::Exact("need"), Pattern::Name],
        maker: Maker::Need,
    },
    Row {
        patterns: &[Pattern::Exact("replay")],
        maker: Maker::Replay,
    },
    Row {
        patterns: &[Pattern::Exact("replay"), Pattern::Exact("--ranked")],
        maker: Maker::ReplayRanked,
    },
    Row {
        patterns: &[Pattern::Exact("gen"), Pattern::Number("")],
        maker: Maker::Gen,
    },
    Row {
        patterns: &[Pattern::Exact("gen"), Pattern::Number(""), Pattern::Size],
        maker: Maker::Gen,
    },
    Row {
        patterns: &[Pattern::Exact("soak"), Pattern::Number("")],
        maker: Maker::Soak,
    },
    Row {
        patterns: &[Pattern::Exact("soak"), Pattern::Number(""), Pattern::Size],
        maker: Maker::Soak,
    },
];

// The rows of the table.
fn rows() -> &'static [Row]
    ensures { HasAllCommands result.now }
{
    &ROWS
}

/// The command that the arguments name. A size that isn't said is 8. It takes no memory.
pub fn command_of(arguments: &[String]) -> Option<Command>
    ensures { (command : Named) → result ≡ Some command ↔ Names arguments.now command }
{
    for row in rows() {
        if let Some(command) = command_by(row, arguments) {
            return Some(command);
        }
    }
    None
}

// The command that the arguments name by this row.
fn command_by(row: &Row, arguments: &[String]) -> Option<Command>
    ensures { (command : Named) → result ≡ Some command ↔ NamesBy (row_of row.now) arguments.now command }
{
    match operands_in(row.patterns, arguments) {
        Some(given) => made(row.maker, given),
        None => None,
    }
}

// The operands in the arguments, if each argument fits its pattern.
fn operands_in(patterns: &[Pattern], arguments: &[String]) -> Option<Operands>
    ensures { (given : Given) → result ≡ Some given
        ↔ AllFit (map form_of patterns.now)
        (map (λ w. string_bytes w) arguments.now) first_operands given }
{
    if patterns.len() != arguments.len() {
        return None;
    }
    // a size that isn't said
    let mut operands = Operands {
        number: 0,
        size: 8,
        name: None,
    };
    for (place, pattern) in patterns.iter().enumerate() {
        operands = after_argument(pattern, arguments[place].as_str(), operands)?;
    }
    Some(operands)
}

/// The arguments of each command, a line for each row of the table of commands. Numbers stand there as N, sizes as SIZE, names
/// as TASK.
pub fn command_lines(alloc: Global) -> Result<String, NoMemory>
    ensures { IfOk result (λ text. string_bytes text ≡ command_list) }
{
    let mut text = String::new(alloc);
    for row in rows() {
        push_patterns(&mut text, row.patterns)?;
    }
    Ok(text)
}

// Adds the line of a command.
fn push_patterns(text: &mut String, patterns: &[Pattern]) -> Result<(), NoMemory>
    ensures { OnOk result (string_bytes text.new
        ≡ string_bytes text.old ++ listed_forms (map form_of patterns.now)) }
{
    text.push_str(" ")?;
    for pattern in patterns {
        text.push_str(" ")?;
        push_pattern(text, pattern)?;
    }
    text.push_str("\n")?;
    Ok(())
}

// Adds what stands for an argument.
fn push_pattern(text: &mut String, pattern: &Pattern) -> Result<(), NoMemory>
    ensures { OnOk result (string_bytes text.new
        ≡ string_bytes text.old ++ form_text (form_of pattern.now)) }
{
    match pattern {
        Pattern::Exact(argument) => Ok(text.push_str(argument)?),
        Pattern::Number(prefix) => {
            text.push_str(prefix)?;
            Ok(text.push_str("N")?)
        }
        Pattern::Size => Ok(text.push_str("SIZE")?),
        Pattern::Name => Ok(text.push_str("TASK")?),
    }
}
