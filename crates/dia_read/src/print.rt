// The canonical text of a document.

ghost use Rattle.std.specs.Prelude.{◌≡◌, [], ◌∷◌, IfOk, OnOk};
ghost use Rattle.std.specs.List.{flat_map};
ghost use Rattle.dia_tokens.specs.declared.token.Token.TheVariants.{Keyword as KeywordToken};
ghost use Rattle.dia_tokens.specs.declared.edge.Edge.TheVariants.{Tight};
ghost use Rattle.dia_print.specs.ItemTokens.{header_tokens, policy_tokens, until_tokens, task_tokens};
ghost use Rattle.dia_print.specs.Printed.{with_bytes};
ghost use Rattle.dia_tokens.specs.TokenText.{line_of};
ghost use Rattle.dia_read.specs.Canonical.{canonical_text, decl_text, part_text, task_text, section_lines, SpellsBody};
ghost use Rattle.dia_read.specs.Documents.{first_line};
ghost use Rattle.dia_read.specs.Printable.{IsPrintable};

use crate::{Body, RawTask};
use dbp_plan::{List, NoMemory, Policy};
use dia_lines::{Decl, Part};
use dia_print::Printer;
use dia_tokens::{Keyword, Token};
use std::alloc::Global;

// A line of the keyword alone.
fn push_keyword(printer: &mut Printer, keyword: Keyword) -> Result<(), NoMemory>
    requires { printer.old.edge ≡ Tight }
    ensures { OnOk result (printer.new ≡ with_bytes printer.old (line_of (KeywordToken keyword ∷ []))) }
{
    printer.push(Token::Keyword(keyword))?;
    printer.end_line()
}

fn push_header(printer: &mut Printer, version: u32) -> Result<(), NoMemory>
    requires { printer.old.edge ≡ Tight }
    ensures { OnOk result
        (printer.new ≡ with_bytes printer.old (line_of (header_tokens version))) }
{
    printer.push_header(version)?;
    printer.end_line()
}

fn push_policy(printer: &mut Printer, policy: Policy) -> Result<(), NoMemory>
    requires { printer.old.edge ≡ Tight }
    ensures { OnOk result (printer.new ≡ with_bytes printer.old (line_of (policy_tokens policy))) }
{
    printer.push_policy(policy)?;
    printer.end_line()
}

fn push_until(printer: &mut Printer, end: u64) -> Result<(), NoMemory>
    requires { printer.old.edge ≡ Tight }
    ensures { OnOk result (printer.new ≡ with_bytes printer.old (line_of (until_tokens end))) }
{
    printer.push_until(end)?;
    printer.end_line()
}

fn push_decl(printer: &mut Printer, decl: Decl) -> Result<(), NoMemory>
    requires { printer.old.edge ≡ Tight }
    ensures { OnOk result (printer.new ≡ with_bytes printer.old (decl_text decl)) }
{
    printer.push_decl(decl)?;
    printer.end_line()
}

fn push_decls(printer: &mut Printer, decls: &List<Decl>) -> Result<(), NoMemory>
    requires { printer.old.edge ≡ Tight }
    ensures { OnOk result (printer.new ≡ with_bytes printer.old (flat_map decl_text decls.now)) }
{
    for decl in decls.items() {
        push_decl(printer, *decl)?;
    }
    Ok(())
}

// A line of a task's body.
fn push_part(printer: &mut Printer, part: &Part) -> Result<(), NoMemory>
    ensures { OnOk result (printer.new ≡ with_bytes printer.old (part_text part.now)) }
{
    printer.push_bytes(b"  ")?;
    printer.push_part(part)?;
    printer.end_line()
}

fn push_parts(printer: &mut Printer, parts: &List<Part>) -> Result<(), NoMemory>
    requires { printer.old.edge ≡ Tight }
    ensures { OnOk result (printer.new ≡ with_bytes printer.old (flat_map part_text parts.now)) }
{
    for part in parts.items() {
        push_part(printer, part)?;
    }
    Ok(())
}

// The line that begins the task.
fn push_task_line(printer: &mut Printer, version: u32, task: &RawTask) -> Result<(), NoMemory>
    requires { printer.old.edge ≡ Tight }
    ensures { OnOk result (printer.new
        ≡ with_bytes printer.old (line_of (task_tokens version (first_line task.now)))) }
{
    printer.push_task(version, task.first_line())?;
    printer.end_line()
}

// The line that begins the task, and its body.
fn push_task(printer: &mut Printer, version: u32, task: &RawTask) -> Result<(), NoMemory>
    requires { printer.old.edge ≡ Tight }
    ensures { OnOk result (printer.new ≡ with_bytes printer.old (task_text version task.now)) }
{
    push_task_line(printer, version, task)?;
    push_parts(printer, &task.parts)
}

fn push_tasks(printer: &mut Printer, version: u32, tasks: &List<RawTask>) -> Result<(), NoMemory>
    requires { printer.old.edge ≡ Tight }
    ensures { OnOk result
        (printer.new ≡ with_bytes printer.old (flat_map (task_text version) tasks.now)) }
{
    for task in tasks.items() {
        push_task(printer, version, task)?;
    }
    Ok(())
}

// The line of the keyword and the kept lines, if the section is there.
fn push_section(
    printer: &mut Printer,
    keyword: Keyword,
    section: &Option<List<u8>>,
) -> Result<(), NoMemory>
    requires { printer.old.edge ≡ Tight }
    ensures { OnOk result (printer.new ≡ with_bytes printer.old (section_lines keyword section.now)) }
{
    if let Some(kept) = section {
        push_keyword(printer, keyword)?;
        printer.push_bytes(kept.items())?;
    }
    Ok(())
}

// The canonical text.
fn print_body(alloc: Global, body: &Body) -> Result<Vec<u8>, NoMemory>
    ensures { IfOk result (λ text. text.items ≡ canonical_text body.now) }
{
    let mut printer = Printer::new(alloc);
    push_header(&mut printer, body.version)?;
    push_policy(&mut printer, body.policy)?;
    push_until(&mut printer, body.until)?;
    push_decls(&mut printer, &body.decls)?;
    push_tasks(&mut printer, body.version, &body.tasks)?;
    push_section(&mut printer, Keyword::Trace, &body.trace)?;
    push_section(&mut printer, Keyword::Script, &body.script)?;
    push_keyword(&mut printer, Keyword::Done)?;
    Ok(printer.into_text())
}

/// The canonical text of the body: one space between tokens except around the point, after `(`, before `)` and the
/// comma, and between the operator of a call and its `(`; two spaces before the lines of a body; parentheses around each
/// operand of an operator and each part of an `if` that is an operator but no call, or an `if`; no comments and no blank
/// lines.
/// docs/LANGUAGE.md has the rules. Each body that `read_doc` returns can be printed. It takes memory for one text that
/// grows.
pub fn print_doc(alloc: Global, body: &Body) -> Result<Vec<u8>, NoMemory>
    requires { IsPrintable body.now }
    // The text is the canonical one.
    ensures text { IfOk result (λ text. text.items ≡ canonical_text body.now) }
    // It spells a document with this body.
    ensures again { IfOk result (λ text. SpellsBody text.items body.now) }
{
    print_body(alloc, body)
}
