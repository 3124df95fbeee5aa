// A law of generated documents.

ghost use Rattle.std.specs.Prelude.{ℕ, ◌<◌, ◌≤◌, ◌^◌};
ghost use Rattle.dbp_plan.specs.declared.plan.Plan.{Plan as AnyPlan};
ghost use Rattle.trace_io.specs.Texts.{Accepts};
ghost use Rattle.dbp_load.specs.Texts.{generated_text};

use dia_read::{canonical_text_spells, each_item_has_a_line};
use trace_io::a_written_trace_makes_a_plan;

/// The text of each generated document is accepted.
pub fn generated_documents_are_accepted()
    ensures { (seed size : ℕ) → seed < 2 ^ 64 → 1 ≤ size → size ≤ 32
        → (plan : AnyPlan) × Accepts (generated_text seed size) plan }
{
    canonical_text_spells();
    each_item_has_a_line();
    a_written_trace_makes_a_plan();
}
