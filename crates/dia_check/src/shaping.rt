// The diagram that a document says.

ghost use Rattle.std.specs.Prelude.{◌≡◌, ◌<◌, ◌^◌, [], None, length, IfOk, IfErr, IfSome, IsErrOf, OnOk};
ghost use Rattle.std.specs.List.{flat_map};
ghost use Rattle.dbp_plan.specs.Closed.{IsClosed};
ghost use Rattle.dbp_plan.specs.FirstFault.{first_fault};
ghost use Rattle.dia_read.specs.Printable.{IsPrintable, HasItemLines};
ghost use Rattle.dia_check.specs.Diagrams.{IsDiagramOf, input_of, links_of};
ghost use Rattle.dia_check.specs.declared.fail.CheckCode.TheVariants.{NoOut};
ghost use Rattle.dia_check.specs.declared.fail.CheckFail.TheVariants.{Refused};
ghost use Rattle.dia_check.specs.Faults.{line_faults, line_refusal, line_without_out};
ghost use Rattle.dia_check.specs.Scopes.{IsScopeOf};
ghost use Rattle.dia_check.specs.Shapes.{IsShapeOf, IsShapeRefusal, HasLines, AreTasksOf, AreWhole, read_lines_of};

use crate::fail::{CheckCode, CheckFail, line_refusal};
use crate::first_line::first_line_fault;
use crate::outs::line_without_out;
use crate::reads::{ReadLinks, reads_of};
use crate::scope::{Scope, scope_of};
use crate::shaped::Shaped;
use crate::tasks::checked_task;
use dbp_plan::{Diagram, Input, Link, List, NoMemory, Task};
use dia_lines::Decl;
use dia_read::{Body, Doc};
use std::alloc::Global;

fn inputs_of(alloc: Global, decls: &[Decl]) -> Result<List<Input>, NoMemory>
    requires { length decls.now < 2 ^ 32 }
    ensures { IfOk result (λ inputs. inputs ≡ flat_map input_of decls.now) }
{
    let mut inputs = List::new(alloc);
    for decl in decls {
        if let Decl::Input(name, first) = decl {
            inputs.push(Input {
                name: *name,
                first: *first,
            })?;
        }
    }
    Ok(inputs)
}

// The tasks of the document, of which no line has a fault. Their links and read lines are put into `found`.
#[tactic(auto, using(crate::proofs::TasksSoFar::tasks_begin))]
fn tasks_of(
    alloc: Global,
    doc: &Doc,
    scope: &Scope,
    found: &mut ReadLinks,
) -> Result<List<Task>, CheckFail>
    requires printable { IsPrintable doc.now.body }
    requires lines { HasItemLines doc.now }
    requires scope { IsScopeOf doc.now.body scope.now }
    requires faultless { first_fault (line_faults doc.now) ≡ None }
    requires none { (found.old.links ≡ []) × (found.old.lines ≡ []) }
    ensures tasks { IfOk result (λ tasks. AreTasksOf doc.now.body tasks) }
    ensures links { OnOk result (found.new.links ≡ links_of doc.now.body.tasks) }
    ensures lines { OnOk result (found.new.lines ≡ read_lines_of doc.now) }
    ensures whole { IfOk result (λ _. AreWhole doc.now.body.tasks) }
    ensures fault { IfErr result (λ fail. IsShapeRefusal doc.now fail) }
{
    let begins = doc.lines.tasks.items();
    let mut rest = doc.lines.parts.items();
    let mut tasks = List::new(alloc);
    for (number, raw) in doc.body.tasks.items().iter().enumerate() {
        let reads = reads_of(alloc, &doc.body, found, number as u32, raw, rest)?;
        let line = begins[number];
        let task = checked_task(alloc, &doc.body, scope, raw, reads, line, rest)?;
        tasks.push(task)?;
        rest = &rest[raw.parts.items().len()..];
    }
    Ok(tasks)
}

// The diagram of the document with these tasks and links.
fn diagram_of(
    alloc: Global,
    body: &Body,
    scope: Scope,
    tasks: List<Task>,
    links: List<Link>,
) -> Result<Diagram, NoMemory>
    requires scope { IsScopeOf body.now scope }
    requires tasks { AreTasksOf body.now tasks }
    requires links { links ≡ links_of body.now.tasks }
    ensures diagram { IfOk result (λ diagram. IsDiagramOf body.now diagram) }
    ensures unranked { IfOk result (λ diagram. diagram.ranks ≡ []) }
{
    let inputs = inputs_of(alloc, body.decls.items())?;
    Ok(Diagram {
        policy: body.policy,
        until: body.until,
        inputs,
        events: scope.events,
        tasks,
        links,
        ranks: List::new(alloc),
    })
}

// The diagram and the lines of the document, of which no line has a fault.
fn shaped_of(alloc: Global, doc: &Doc) -> Result<Shaped, CheckFail>
    requires printable { IsPrintable doc.now.body }
    requires lines { HasItemLines doc.now }
    requires faultless { first_fault (line_faults doc.now) ≡ None }
    ensures found { IfOk result (λ shaped. IsShapeOf doc.now shaped) }
    ensures closed { IfOk result (λ shaped. IsClosed shaped.diagram) }
    ensures lines { IfOk result (λ shaped. HasLines shaped) }
    ensures fault { IfErr result (λ fail. IsShapeRefusal doc.now fail) }
{
    let scope = scope_of(alloc, &doc.body)?;
    let mut found = ReadLinks {
        links: List::new(alloc),
        lines: List::new(alloc),
    };
    let tasks = tasks_of(alloc, doc, &scope, &mut found)?;
    let task_lines = doc.lines.tasks.copied()?;
    let diagram = diagram_of(alloc, &doc.body, scope, tasks, found.links)?;
    Ok(Shaped {
        diagram,
        task_lines,
        read_lines: found.lines,
    })
}

/// The diagram that the document says, still without ranks. Its names are looked up where they are declared, before
/// or after their use; of two tasks with one name, which are refused at the second, a `read` means the first. A state
/// without a `next` keeps its value.
///
/// Refused is the first line with a fault, with the first of its faults in this order: `Duplicate`, `Unknown`,
/// `SelfLink`, `ReadPastCost`. If no line has one, it is the first task with `NoOut`, at its first line, or with
/// `LetCycle`, at the line of the earliest let on a cycle. The order of lets is that of `order_lets`.
pub fn shape(alloc: Global, doc: &Doc) -> Result<Shaped, CheckFail>
    requires printable { IsPrintable doc.now.body }
    requires lines { HasItemLines doc.now }
    // The document has no fault of names and shape, and this is its diagram.
    ensures found { IfOk result (λ shaped. IsShapeOf doc.now shaped) }
    ensures closed { IfOk result (λ shaped. IsClosed shaped.diagram) }
    ensures lines { IfOk result (λ shaped. HasLines shaped) }
    // It has this first fault, unless memory ran out.
    ensures fault { IfErr result (λ fail. IsShapeRefusal doc.now fail) }
    // The first line with a fault is found before memory is taken, so it is never out of memory.
    ensures line_refused { IfSome (first_fault (line_faults doc.now))
        (λ f. IsErrOf result (line_refusal f)) }
    // So is the first task without outs, if no line has a fault and no task before it has lets.
    ensures task_refused { first_fault (line_faults doc.now) ≡ None
        → IfSome (line_without_out doc.now) (λ line. IsErrOf result (Refused line NoOut)) }
{
    if let Some(fault) = first_line_fault(doc) {
        return Err(line_refusal(fault));
    }
    if let Some(line) = line_without_out(doc) {
        return Err(CheckFail::Refused {
            line,
            code: CheckCode::NoOut,
        });
    }
    shaped_of(alloc, doc)
}
