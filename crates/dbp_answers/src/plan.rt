// The document of an input, and its plan.

ghost use Rattle.std.specs.Prelude.{◌≡◌, ◌≤◌, IfErr, IfOk, length};
ghost use Rattle.dbp_plan.specs.declared.limits.TheConstants.{MAX_TEXT};
ghost use Rattle.dia_read.specs.Printable.{HasItemLines, IsPrintable};
ghost use Rattle.trace_io.specs.Texts.{Accepts};
ghost use Rattle.dbp_answers.specs.Stops.{IsFaultOf};

use crate::stop::Stop;
use dbp_plan::Plan;
use dia_check::{ranked, shape};
use dia_read::{Doc, read_doc};
use std::alloc::Global;
use trace_io::read_trace;

// The document of the input and its plan, or why it has none.
pub(crate) fn accepted(alloc: Global, input: &[u8]) -> Result<(Doc, Plan), Stop>
    requires { length input.now ≤ MAX_TEXT }
    ensures plan { IfOk result (λ (doc, plan). (a : Accepts input.now plan) × (a.doc ≡ doc)) }
    ensures printable { IfOk result (λ (doc, plan). IsPrintable doc.body) }
    ensures lines { IfOk result (λ (doc, plan). HasItemLines doc) }
    ensures fault { IfErr result (λ stop. IsFaultOf input.now stop) }
{
    let doc = read_doc(alloc, input)?;
    let shaped = shape(alloc, &doc)?;
    let diagram = ranked(alloc, shaped)?;
    let plan = read_trace(alloc, diagram, &doc)?;
    Ok((doc, plan))
}

/// The plan of the input, or why it has none.
pub fn plan_of(alloc: Global, input: &[u8]) -> Result<Plan, Stop>
    requires { length input.now ≤ MAX_TEXT }
    ensures plan { IfOk result (λ plan. Accepts input.now plan) }
    ensures fault { IfErr result (λ stop. IsFaultOf input.now stop) }
{
    let (_, plan) = accepted(alloc, input)?;
    Ok(plan)
}
