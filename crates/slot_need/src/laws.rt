// What holds in each recorded list of a scenario.

ghost use Rattle.std.specs.Prelude.{◌≡◌, ◌<◌, ℕ, List as Items, None, length};
ghost use Rattle.dbp_plan.specs.declared.diagram.Diagram.{Diagram};
ghost use Rattle.dbp_plan.specs.declared.plan.Plan.{Plan};
ghost use Rattle.dia_read.specs.declared.document.Body.{Body};
ghost use Rattle.dia_read.specs.Canonical.{canonical_text};
ghost use Rattle.dia_read.specs.Printable.{IsPrintable};
ghost use Rattle.trace_io.specs.Texts.{Accepts};
ghost use Rattle.dbp_rules.specs.declared.step.Step.{Step};
ghost use Rattle.virtual_sim.specs.Record.{IsRecord};
ghost use Rattle.slot_need.specs.Bodies.{IsCheckedDiagramOf, scenario_body};
ghost use Rattle.slot_need.specs.Faults.{need_fault};
ghost use Rattle.slot_need.specs.Scenarios.{last_firing};
ghost use Rattle.slot_need.specs.SlotsInUse.{UsesAllSlots};

use dbp_rules::{allowed_steps_lead_to_sound_states, soundness_has_ten_parts};
use dia_read::{canonical_text_spells, each_item_has_a_line};
use instance_steps::played_steps_are_allowed;
use rank_order::each_plan_has_one_service;
use sync_meaning::some_meaning;
use trace_io::one_plan;
use virtual_sim::a_record_stands_after_each_batch;

/// In each recorded list of the plan of a scenario that is written, right after the batch at the last firing, each slot
/// of the task is its current one, a kept one, or that of a claim that stands. Of other batches it says nothing, nor that
/// no protocol could do with fewer slots.
pub fn all_slots_are_in_use()
    ensures { (body : Body) (d : Diagram) (w : ℕ) → IsCheckedDiagramOf body d → IsPrintable body → w < length d.tasks
        → need_fault d w ≡ None → (p : Plan) → Accepts (canonical_text (scenario_body body d w)) p
        → (script : Items Step) → IsRecord p script → UsesAllSlots p script w (last_firing d w) }
{
    canonical_text_spells();
    each_item_has_a_line();
    each_plan_has_one_service();
    one_plan();
    some_meaning();
    played_steps_are_allowed();
    allowed_steps_lead_to_sound_states();
    soundness_has_ten_parts();
    a_record_stands_after_each_batch();
}
