// A document with priorities from its links.

ghost use Rattle.std.specs.Prelude.{◌≡◌, ◌≤◌, ℕ, List as Items, IfErr, IfOk, OnOk, length};
ghost use Rattle.dbp_plan.specs.declared.limits.TheConstants.{MAX_TEXT};
ghost use Rattle.dbp_plan.specs.declared.plan.Plan.{Plan as AnyPlan};
ghost use Rattle.dbp_plan.specs.declared.diagram.Diagram.{Diagram as AnyDiagram};
ghost use Rattle.dbp_plan.specs.Ranked.{IsRanked};
ghost use Rattle.dia_check.specs.Checks.{IsCheckedOf};
ghost use Rattle.dia_check.specs.declared.fail.CheckFail.TheVariants.{NoMemory as OutOfMemory};
ghost use Rattle.dia_read.specs.Documents.{Spells};
ghost use Rattle.dia_read.specs.Printable.{HasItemLines, IsPrintable};
ghost use Rattle.rank_find.specs.Bodies.{ranked_body, ranked_doc};
ghost use Rattle.trace_io.specs.Traces.{IsPlanOf};
ghost use Rattle.dbp_answers.specs.Answer.{Makes};
ghost use Rattle.dbp_answers.specs.Rankings.{HasNoCheckFault, HasOrder};
ghost use Rattle.dbp_answers.specs.Stops.{IsStopOf};
ghost use Rattle.dbp_answers.specs.declared.command.Command.TheVariants.{Rank};

use crate::stop::Stop;
use dbp_plan::{Diagram, List, NoMemory};
use dia_check::{CheckFail, bare_bodies_decide_shapes, ranked, shape};
use dia_read::{Body, Doc, canonical_text_spells, print_doc, read_doc};
use rank_find::{find, ranked_body};
use std::alloc::Global;
use trace_io::read_trace;

// The canonical text of the input's document with priorities from its links.
pub(crate) fn ranked_text_of(alloc: Global, input: &[u8]) -> Result<Vec<u8>, Stop>
    requires { length input.now ≤ MAX_TEXT }
    ensures text { IfOk result (λ text. Makes input.now Rank text.items) }
    ensures stop { IfErr result (λ stop. IsStopOf input.now Rank stop) }
{
    bare_bodies_decide_shapes();
    canonical_text_spells();
    let doc = read_doc(alloc, input)?;
    let order = order_of(alloc, &doc)?;
    let body = body_by(alloc, doc, &order)?;
    Ok(print_doc(alloc, &body)?)
}

// The order of the document's tasks. Their shape is given up.
fn order_of(alloc: Global, doc: &Doc) -> Result<List<u32>, Stop>
    requires printable { IsPrintable doc.now.body }
    requires lines { HasItemLines doc.now }
    ensures order { IfOk result (λ order. HasOrder doc.now order) }
    ensures stop { IfErr result (λ stop. (input : Items ℕ) → Spells input doc.now
        → IsStopOf input Rank stop) }
{
    let shaped = shape(alloc, doc)?;
    Ok(find(alloc, &shaped)?)
}

// The body with priorities by the order, if the document's trace has no fault.
fn body_by(alloc: Global, doc: Doc, order: &List<u32>) -> Result<Body, Stop>
    requires printable { IsPrintable doc.body }
    requires lines { HasItemLines doc }
    requires order { HasOrder doc order.now }
    ensures body { IfOk result (λ body. body ≡ ranked_body doc.body order.now) }
    ensures printable { IfOk result (λ body. IsPrintable body) }
    ensures plan { OnOk result ((diagram : AnyDiagram) × (plan : AnyPlan)
        × IsCheckedOf (ranked_doc doc order.now) diagram
        × IsPlanOf (ranked_doc doc order.now) diagram plan) }
    ensures stop { IfErr result (λ stop. (input : Items ℕ) → Spells input doc
        → IsStopOf input Rank stop) }
{
    bare_bodies_decide_shapes();
    let by_order = Doc {
        body: ranked_body(doc.body, order),
        lines: doc.lines,
    };
    let diagram = diagram_of(alloc, &by_order)?;
    read_trace(alloc, diagram, &by_order)?;
    Ok(by_order.body)
}

// The diagram of a document that no check refuses.
fn diagram_of(alloc: Global, doc: &Doc) -> Result<Diagram, NoMemory>
    requires printable { IsPrintable doc.now.body }
    requires lines { HasItemLines doc.now }
    requires faultless { HasNoCheckFault doc.now }
    ensures checked { IfOk result (λ diagram. IsCheckedOf doc.now diagram) }
    ensures ranked { IfOk result (λ diagram. IsRanked diagram) }
{
    let shaped = match shape(alloc, doc) {
        Ok(shaped) => shaped,
        Err(fail) => return Err(no_memory(fail)),
    };
    match ranked(alloc, shaped) {
        Ok(diagram) => Ok(diagram),
        Err(fail) => Err(no_memory(fail)),
    }
}

// A failure that is no refusal.
fn no_memory(fail: CheckFail) -> NoMemory
    requires { fail ≡ OutOfMemory }
{
    match fail {
        CheckFail::NoMemory => NoMemory,
        CheckFail::Refused { .. } => unreachable!(),
    }
}
