// The document of a scenario.

ghost use Rattle.std.specs.Prelude.{◌≡◌, ◌<◌, Err, IfErr, IfOk, None, OnOk, length};
ghost use Rattle.std.specs.Option.{IfSome};
ghost use Rattle.dbp_plan.specs.declared.plan.Plan.{Plan};
ghost use Rattle.dbp_plan.specs.Ranked.{IsRanked};
ghost use Rattle.dia_read.specs.Canonical.{canonical_text};
ghost use Rattle.dia_read.specs.Printable.{IsPrintable};
ghost use Rattle.trace_io.specs.Texts.{Accepts};
ghost use Rattle.slot_need.specs.Bodies.{IsCheckedDiagramOf, IsScenario, scenario_body};
ghost use Rattle.slot_need.specs.Faults.{IsNeedFail, need_fault};
ghost use Rattle.slot_need.specs.Live.{NeedsAllSlots};
ghost use Rattle.slot_need.specs.Scenarios.{last_firing};

use crate::NeedFail;
use crate::fault::fault;
use crate::firings::scenario_end;
use crate::text::scenario_trace;
use dbp_plan::Diagram;
use dia_read::{Body, canonical_text_spells, each_item_has_a_line};
use rank_order::each_plan_has_one_service;
use std::alloc::Global;

// The body with the scenario of the task.
fn scenario_body(
    alloc: Global,
    mut body: Body,
    diagram: &Diagram,
    task: u32,
) -> Result<Body, NeedFail>
    requires ranked { IsRanked diagram.now }
    requires task { task < length diagram.now.tasks }
    ensures body { IfOk result (λ written. written ≡ scenario_body body diagram.now task) }
    ensures fit { OnOk result (need_fault diagram.now task ≡ None) }
    ensures fault { IfErr result (λ fail. IsNeedFail diagram.now task fail) }
    ensures refused { IfSome (need_fault diagram.now task) (λ fault. result ≡ Err fault) }
{
    if let Some(fault) = fault(diagram, task) {
        return Err(fault);
    }
    let trace = scenario_trace(alloc, diagram, task)?;
    body.until = scenario_end(diagram, task);
    body.trace = Some(trace);
    body.script = None;
    Ok(body)
}

/// The document of the scenario of the task, which is numbered from 0: the body with another end, another trace and no
/// script. All slots of the task are in use at its last tick. The diagram came from this body. Only its declarations, its
/// links, its ranks and the task's cost matter to the scenario. The rows are at most 144, since each task is on an event
/// of its own. With a refusal the body is given up.
pub fn need(alloc: Global, body: Body, diagram: &Diagram, task: u32) -> Result<Body, NeedFail>
    requires diagram { IsCheckedDiagramOf body diagram.now }
    requires printable { IsPrintable body }
    requires task { task < length diagram.now.tasks }
    ensures body { IfOk result (λ written. written ≡ scenario_body body diagram.now task) }
    ensures printable { IfOk result (λ written. IsPrintable written) }
    // The canonical text is accepted, tasks occur in its plan as the scenario says, and at the last firing as many rows
    // of the task matter as it has slots.
    ensures accepted { IfOk result (λ written. (p : Plan) × Accepts (canonical_text written) p
        × IsScenario diagram.now task p × NeedsAllSlots p task (last_firing diagram.now task)) }
    // There is no fault; with an error there is this one, unless memory ran out.
    ensures fit { OnOk result (need_fault diagram.now task ≡ None) }
    ensures fault { IfErr result (λ fail. IsNeedFail diagram.now task fail) }
    // A fault is found before memory is taken, so it is never out of memory.
    ensures refused { IfSome (need_fault diagram.now task) (λ fault. result ≡ Err fault) }
{
    canonical_text_spells();
    each_item_has_a_line();
    each_plan_has_one_service();
    scenario_body(alloc, body, diagram, task)
}
