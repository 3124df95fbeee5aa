// Tasks without outs. Some are found before memory is taken.

ghost use Rattle.std.specs.Prelude.{◌≡◌};
ghost use Rattle.std.specs.List.{list_any};
ghost use Rattle.dia_check.specs.Faults.{has_lets, is_let_part, lacks_outs, line_without_out};
ghost use Rattle.dia_read.specs.Printable.{HasItemLines, is_out_part};

use dia_lines::Part;
use dia_read::{Doc, RawTask};

// Whether a line of the task's body is an `out`.
fn has_outs(task: &RawTask) -> bool
    ensures { result ≡ list_any is_out_part task.now.parts }
{
    task.parts
        .items()
        .iter()
        .any(|part| matches!(part, Part::Out(_, _, _)))
}

pub(crate) fn lacks_outs(task: &RawTask) -> bool
    ensures { result ≡ lacks_outs task.now }
{
    !has_outs(task)
}

// Whether a line of the task's body is a `let`.
fn has_lets(task: &RawTask) -> bool
    ensures { result ≡ has_lets task.now }
{
    task.parts
        .items()
        .iter()
        .any(|part| matches!(part, Part::Let(_, _)))
}

// The line of the first task without outs, if no task before it has lets, which may have a cycle.
pub(crate) fn line_without_out(doc: &Doc) -> Option<u32>
    requires { HasItemLines doc.now }
    ensures { result ≡ line_without_out doc.now }
{
    let tasks = doc.body.tasks.items();
    let lines = doc.lines.tasks.items();
    for (place, task) in tasks.iter().enumerate() {
        if lacks_outs(task) {
            return Some(lines[place]);
        }
        if has_lets(task) {
            return None;
        }
    }
    None
}
