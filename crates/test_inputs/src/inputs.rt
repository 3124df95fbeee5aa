// Documents, diagrams and plans of texts.

ghost use Rattle.std.specs.Prelude.{IfOk};
ghost use Rattle.dbp_plan.specs.Ranked.{IsRanked};
ghost use Rattle.dia_check.specs.Checks.{IsCheckedOf};
ghost use Rattle.dia_read.specs.Printable.{HasItemLines, IsPrintable};

use dbp_plan::{Diagram, Plan};
use dia_check::{ranked, shape};
use dia_read::{Doc, read_doc};
use std::alloc::Global;
use std::test::Fail;
use trace_io::read_trace;

/// The document that the text spells.
pub fn doc_in(alloc: Global, text: &[u8]) -> Result<Doc, Fail>
    ensures printable { IfOk result (λ doc. IsPrintable doc.body) }
    ensures lines { IfOk result (λ doc. HasItemLines doc) }
{
    if text.len() > 2_000_000 {
        return Err(Fail::new("too long"));
    }
    Ok(read_doc(alloc, text)?)
}

/// The document's diagram, checked and with ranks.
pub fn diagram_of(alloc: Global, doc: &Doc) -> Result<Diagram, Fail>
    requires printable { IsPrintable doc.now.body }
    requires lines { HasItemLines doc.now }
    ensures checked { IfOk result (λ diagram. IsCheckedOf doc.now diagram) }
    ensures ranked { IfOk result (λ diagram. IsRanked diagram) }
{
    let Ok(shaped) = shape(alloc, doc) else {
        return Err(Fail::new("no diagram"));
    };
    let Ok(diagram) = ranked(alloc, shaped) else {
        return Err(Fail::new("no ranks"));
    };
    Ok(diagram)
}

/// The plan of the document.
pub fn plan_of(alloc: Global, doc: &Doc) -> Result<Plan, Fail>
    requires printable { IsPrintable doc.now.body }
    requires lines { HasItemLines doc.now }
{
    let diagram = diagram_of(alloc, doc)?;
    Ok(read_trace(alloc, diagram, doc)?)
}

/// The plan of the document that the text spells.
pub fn plan_in(alloc: Global, text: &str) -> Result<Plan, Fail> {
    let doc = doc_in(alloc, text.as_bytes())?;
    plan_of(alloc, &doc)
}
