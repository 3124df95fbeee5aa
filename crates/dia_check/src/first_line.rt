// The first line with a fault.

ghost use Rattle.std.specs.Prelude.{◌≡◌, ◌≤◌, [], length};
ghost use Rattle.dia_check.specs.Faults.{decl_fault, part_fault, task_faults, line_faults};
ghost use Rattle.dbp_plan.specs.FirstFault.{faults_after, first_fault};
ghost use Rattle.dia_read.specs.Printable.{HasItemLines};

use crate::fail::LineFault;
use crate::line_faults::{decl_fault, part_fault, task_fault};
use dia_lines::Decl;
use dia_read::{Body, Doc, RawTask};

// Of the declarations, whose lines have these numbers.
fn decls_fault(decls: &[Decl], lines: &[u32]) -> Option<(u32, LineFault)>
    requires { length decls.now ≤ length lines.now }
    ensures { result ≡ first_fault (faults_after decl_fault [] decls.now lines.now) }
{
    for (place, decl) in decls.iter().enumerate() {
        if let Some(code) = decl_fault(&decls[..place], decl) {
            return Some((lines[place], code));
        }
    }
    None
}

// Of the task's body, whose lines have the first of these numbers.
fn body_fault(body: &Body, task: &RawTask, lines: &[u32]) -> Option<(u32, LineFault)>
    requires { length task.now.parts ≤ length lines.now }
    ensures { result ≡ first_fault
        (faults_after (part_fault body.now task.now) [] task.now.parts lines.now) }
{
    let parts = task.parts.items();
    for (place, part) in parts.iter().enumerate() {
        if let Some(code) = part_fault(body, task, &parts[..place], part) {
            return Some((lines[place], code));
        }
    }
    None
}

// Of the tasks and their bodies.
fn tasks_fault(doc: &Doc) -> Option<(u32, LineFault)>
    requires { HasItemLines doc.now }
    ensures { result ≡ first_fault
        (task_faults doc.now.body [] doc.now.body.tasks doc.now.lines.tasks doc.now.lines.parts) }
{
    let tasks = doc.body.tasks.items();
    let lines = doc.lines.tasks.items();
    let mut rest = doc.lines.parts.items();
    for (place, task) in tasks.iter().enumerate() {
        if let Some(code) = task_fault(&doc.body, &tasks[..place], task) {
            return Some((lines[place], code));
        }
        if let Some(fault) = body_fault(&doc.body, task, rest) {
            return Some(fault);
        }
        rest = &rest[task.parts.items().len()..];
    }
    None
}

// The first line of a declaration, a task or a body that has a fault, with its first fault.
pub(crate) fn first_line_fault(doc: &Doc) -> Option<(u32, LineFault)>
    requires { HasItemLines doc.now }
    ensures { result ≡ first_fault (line_faults doc.now) }
{
    if let Some(fault) = decls_fault(doc.body.decls.items(), doc.lines.decls.items()) {
        return Some(fault);
    }
    tasks_fault(doc)
}
