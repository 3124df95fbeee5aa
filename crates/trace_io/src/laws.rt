// Laws of the definitions.

ghost use Rattle.std.specs.Prelude.{◌≡◌, ℕ, ◌≤◌, All, IfSome, List as Items, length};
ghost use Rattle.dbp_plan.specs.declared.diagram.Clock.{Clock as AnyClock};
ghost use Rattle.dbp_plan.specs.declared.diagram.Diagram.{Diagram as AnyDiagram};
ghost use Rattle.dbp_plan.specs.declared.limits.TheConstants.{MAX_OCCURRENCES};
ghost use Rattle.dbp_plan.specs.declared.schedule.Batch.{Batch as AnyBatch};
ghost use Rattle.dbp_plan.specs.declared.schedule.Sample.{Sample as AnySample};
ghost use Rattle.dbp_plan.specs.Clocks.{base_times};
ghost use Rattle.dbp_plan.specs.declared.plan.Plan.{Plan as AnyPlan};
ghost use Rattle.dia_read.specs.declared.document.Doc.{Doc as AnyDocument};
ghost use Rattle.dia_check.specs.Checks.{IsCheckedOf};
ghost use Rattle.dia_lines.specs.Lines.{SaysInTrace, row};
ghost use Rattle.dia_read.specs.Canonical.{canonical_text};
ghost use Rattle.dia_read.specs.Documents.{Spells, upgraded, with_rest};
ghost use Rattle.dia_read.specs.Printable.{HasItemLines, IsPrintable, KeepsItself};
ghost use Rattle.trace_io.specs.declared.code.Code.{Code as AnyCode};
ghost use Rattle.trace_io.specs.Texts.{Accepts, Refuses, IsSameCode};
ghost use Rattle.trace_io.specs.Batches.{AreBatches, total_of};
ghost use Rattle.trace_io.specs.Counts.{IsClockOf, IsTimetable, count_of};
ghost use Rattle.trace_io.specs.Traces.{IsPlanOf, events_of, given_samples};
ghost use Rattle.trace_io.specs.WrittenTraces.{HasWrittenTrace, written_events};
ghost use Rattle.trace_rows.specs.Written.{WrittenRow, written_samples};

use dia_check::{one_check, tasks_decide_the_diagram};
use dia_read::{
    a_document_can_be_printed, an_upgraded_body_can_be_printed, canonical_text_spells,
    each_item_has_a_line, one_document, one_first_fault,
};

/// The tasks of a diagram have one list of batches at most, whatever the samples and the times of the events.
pub fn one_schedule()
    ensures { (diagram : AnyDiagram) (samples : Items AnySample) (events : Items (Items ℕ))
        (a b : Items AnyBatch) → AreBatches diagram samples events a
        → AreBatches diagram samples events b → a ≡ b }
{}

/// The tasks of a diagram have a list of batches if they don't occur too often, whatever the samples and the times of the
/// events are.
pub fn tasks_have_batches()
    ensures { (diagram : AnyDiagram) (samples : Items AnySample) (events : Items (Items ℕ))
        → IsTimetable diagram.until events → All (λ t. IsClockOf (length events) t.clock) diagram.tasks
        → total_of diagram samples events ≤ MAX_OCCURRENCES
        → (batches : Items AnyBatch) × AreBatches diagram samples events batches }
{}

/// A clock has as many base times as are found by division.
pub fn count_is_exact()
    ensures { (until : ℕ) (events : Items (Items ℕ)) (clock : AnyClock)
        → IsClockOf (length events) clock
        → length (base_times until events clock) ≡ count_of until events clock }
{}

/// A text is accepted with one plan at most, and not if it is refused; it is refused with one first fault at most,
/// except for the names of a cycle.
pub fn one_plan()
    ensures one { (text : Items ℕ) (p q : AnyPlan) → Accepts text p → Accepts text q → p ≡ q }
    ensures none { (text : Items ℕ) (p : AnyPlan) (line : ℕ) (code : AnyCode) → Accepts text p
        → Refuses text line code → ⊥ }
    ensures one_fault { (text : Items ℕ) (line other : ℕ) (code another : AnyCode)
        → Refuses text line code → Refuses text other another
        → (line ≡ other) × IsSameCode code another }
{
    one_document();
    one_first_fault();
    one_check();
    one_schedule();
}

/// A checked document with a trace section in plain form has a plan, if its tasks don't occur too often: the samples and
/// the times of the events are those that were written.
pub fn a_written_trace_makes_a_plan()
    ensures samples { (doc : AnyDocument) (diagram : AnyDiagram) (columns : Items (Items ℕ))
        (rows : Items WrittenRow) → HasWrittenTrace doc diagram columns rows
        → given_samples doc diagram ≡ written_samples columns rows diagram.inputs }
    ensures events { (doc : AnyDocument) (diagram : AnyDiagram) (columns : Items (Items ℕ))
        (rows : Items WrittenRow) → HasWrittenTrace doc diagram columns rows
        → events_of doc diagram ≡ written_events diagram columns rows }
    ensures plan { (doc : AnyDocument) (diagram : AnyDiagram) (columns : Items (Items ℕ))
        (rows : Items WrittenRow) → HasWrittenTrace doc diagram columns rows
        → IsPrintable doc.body → HasItemLines doc → IsCheckedOf doc diagram
        → total_of diagram (written_samples columns rows diagram.inputs)
        (written_events diagram columns rows) ≤ MAX_OCCURRENCES
        → (plan : AnyPlan) × IsPlanOf doc diagram plan }
{}

/// The plan of a document for a diagram depends on its trace section and on no lines: a document with the same section has
/// the same plan. The first document has a line of each item, as each that a text spells.
pub fn other_lines_keep_the_plan()
    ensures { (doc other : AnyDocument) (diagram : AnyDiagram) (plan : AnyPlan)
        → other.body.trace ≡ doc.body.trace → IfSome doc.body.trace (KeepsItself SaysInTrace row)
        → HasItemLines doc → IsPlanOf doc diagram plan → IsPlanOf other diagram plan }
{}

/// A text that spells a document with the same body as an accepted text, except for its version and its script, is
/// accepted with the same plan.
pub fn another_version_or_script_is_accepted()
    ensures { (text other : Items ℕ) (plan : AnyPlan) (accepted : Accepts text plan)
        (doc : AnyDocument) → Spells other doc
        → doc.body ≡ with_rest doc.body.version doc.body.script accepted.doc.body
        → (again : Accepts other plan) × (again.doc ≡ doc) }
{
    a_document_can_be_printed();
    each_item_has_a_line();
    tasks_decide_the_diagram();
    other_lines_keep_the_plan();
}

/// The canonical text of an accepted document's body in version 2 is accepted with the same plan.
pub fn an_upgraded_text_is_accepted()
    ensures { (text : Items ℕ) (plan : AnyPlan) (accepted : Accepts text plan)
        → Accepts (canonical_text (upgraded accepted.doc.body)) plan }
{
    a_document_can_be_printed();
    an_upgraded_body_can_be_printed();
    canonical_text_spells();
    another_version_or_script_is_accepted();
}
