// Laws of the definitions.

ghost use Rattle.std.specs.Prelude.{◌≡◌, ◌≢◌, ◌↔◌, ℕ, All, List as Items, None, Some, false, slice_get};
ghost use Rattle.dbp_plan.specs.Cycles.{IsCycle};
ghost use Rattle.dbp_plan.specs.declared.plan.Plan.{Plan as AnyPlan};
ghost use Rattle.dbp_replay.specs.StepForms.{task_named};
ghost use Rattle.dbp_replay.specs.Texts.{script_text};
ghost use Rattle.dbp_rules.specs.declared.step.Step.{Step as AnyStep};
ghost use Rattle.dia_check.specs.Shapes.{IsShapeOf};
ghost use Rattle.dia_check.specs.declared.shaped.Shaped.{Shaped as AnyShape};
ghost use Rattle.dia_read.specs.declared.document.Doc.{Doc as AnyDocument};
ghost use Rattle.dia_read.specs.Documents.{Spells, with_rest};
ghost use Rattle.rank_find.specs.Links.{WritesTo};
ghost use Rattle.rta_check.specs.declared.bound.Bound.{Bound};
ghost use Rattle.rta_check.specs.declared.bound.Bound.TheVariants.{Beyond};
ghost use Rattle.rta_check.specs.Bounds.{AreBounds, rta_fault};
ghost use Rattle.slot_need.specs.Bodies.{IsScenario};
ghost use Rattle.slot_need.specs.Live.{NeedsAllSlots};
ghost use Rattle.slot_need.specs.Scenarios.{last_firing};
ghost use Rattle.trace_io.specs.Texts.{Accepts};
ghost use Rattle.trace_io.specs.Traces.{IsTraceFault, TraceCode};
ghost use Rattle.dbp_answers.specs.Answer.{Answers, IsRefused};
ghost use Rattle.dbp_answers.specs.BoundLines.{bound_lines};
ghost use Rattle.dbp_answers.specs.Commands.{a_simulation, at_plan, looks};
ghost use Rattle.dbp_answers.specs.Simulations.{IsInTime, IsRecordIn, steps_by_rank};
ghost use Rattle.dbp_answers.specs.declared.command.Command.{Command as Named};
ghost use Rattle.dbp_answers.specs.declared.command.Command.TheVariants.{Cpus, Form, Mean, Need, Rank, Replay, Rta, Sim, Upgrade};
ghost use Rattle.dbp_answers.specs.declared.processors.Processors.{Processors as AnyProcessors};
ghost use Rattle.dbp_answers.specs.declared.refusal.Refusal.{Refusal as AnyRefusal};
ghost use Rattle.dbp_answers.specs.declared.status.Status.{Status as Ending};
ghost use Rattle.dbp_answers.specs.declared.status.Status.TheVariants.{Ok as Written};

use cpu_sim::one_processor_serves_as_before;
use dia_check::{bare_bodies_decide_shapes, one_shape};
use dia_read::{
    a_document_can_be_printed, an_upgraded_body_can_be_printed, canonical_text_spells,
    each_item_has_a_line,
};
use rank_order::each_plan_has_one_service;
use rta_check::{bounds_are_kept, one_list_of_bounds};
use sync_meaning::one_meaning;
use trace_io::{an_upgraded_text_is_accepted, another_version_or_script_is_accepted, one_plan};

/// A command has one status and one text at most for an input.
pub fn one_answer()
    ensures { (input : Items ℕ) (command : Named) (s t : Ending) (text other : Items ℕ)
        → Answers input command s text → Answers input command t other → (s ≡ t) × (text ≡ other) }
{
    bare_bodies_decide_shapes();
    canonical_text_spells();
    one_list_of_bounds();
    one_meaning();
    one_plan();
    one_shape();
}

/// If a text is accepted with a plan, `replay` returns status 0 for each text that spells a document with the same body,
/// except that its script is that of the plan's recorded list; it may also be of another version. A list recorded on one
/// processor is taken by ranks (`--ranked`), one recorded on several in any order of the tasks.
pub fn a_recorded_script_is_replayed()
    ensures { (processors : AnyProcessors) (input other : Items ℕ) (plan : AnyPlan) (steps : Items AnyStep)
        (accepted : Accepts input plan) (doc : AnyDocument)
        → IsRecordIn plan processors steps → Spells other doc
        → doc.body
        ≡ with_rest doc.body.version (Some (script_text plan.diagram steps)) accepted.doc.body
        → (text : Items ℕ) × Answers other (Replay (steps_by_rank processors)) Written text }
{
    a_document_can_be_printed();
    each_item_has_a_line();
    another_version_or_script_is_accepted();
}

/// What `form` or `upgrade` writes is what the same command writes of it, and `form` keeps what `upgrade` has written.
pub fn a_printed_text_is_printed_again()
    ensures form { (input text : Items ℕ) → Answers input Form Written text
        → Answers text Form Written text }
    ensures upgrade { (input text : Items ℕ) → Answers input Upgrade Written text
        → Answers text Upgrade Written text × Answers text Form Written text }
{
    a_document_can_be_printed();
    an_upgraded_body_can_be_printed();
    canonical_text_spells();
}

/// If a text is accepted with a plan, what `upgrade` writes of it is accepted with the same plan. So each command that
/// prints what is made of a plan answers both texts alike.
pub fn an_upgraded_text_has_its_plan()
    ensures { (input text : Items ℕ) (plan : AnyPlan) → Accepts input plan
        → Answers input Upgrade Written text → Accepts text plan }
{
    an_upgraded_text_is_accepted();
}

/// An accepted input that `rta` doesn't refuse has the lines of its tasks' response times.
pub fn an_accepted_input_has_response_times()
    ensures { (input : Items ℕ) (plan : AnyPlan) → Accepts input plan
        → ((refusal : AnyRefusal) → IsRefused input Rta refusal → ⊥)
        → (text : Items ℕ) × Answers input Rta Written text }
{
    one_list_of_bounds();
}

/// An accepted input that `need` doesn't refuse has the text of the scenario.
pub fn an_accepted_input_has_a_scenario()
    ensures { (input name : Items ℕ) (plan : AnyPlan) → Accepts input plan
        → ((refusal : AnyRefusal) → IsRefused input (Need name) refusal → ⊥)
        → (text : Items ℕ) × Answers input (Need name) Written text }
{}

/// What `need` writes of an input is accepted. In its plan tasks occur as the scenario of the input's task of that name
/// says, no release overruns, and at the last firing as many rows of the task matter as it has slots.
pub fn a_scenario_is_accepted()
    ensures { (input name text : Items ℕ) (plan : AnyPlan) → Accepts input plan → Answers input (Need name) Written text
        → (task : ℕ) × (task_named plan.diagram name ≡ Some task) × ((p : AnyPlan) × Accepts text p
        × IsScenario plan.diagram task p × NeedsAllSlots p task (last_firing plan.diagram task)) }
{
    a_document_can_be_printed();
    canonical_text_spells();
    each_item_has_a_line();
    each_plan_has_one_service();
    one_plan();
}

/// A document without a fault of names and shape, whose direct links form no cycle and whose trace has no fault, has a text of
/// `rank`.
pub fn a_shape_without_a_cycle_is_ranked()
    ensures { (input : Items ℕ) (doc : AnyDocument) (shaped : AnyShape) → Spells input doc → IsShapeOf doc shaped
        → ((cycle : Items ℕ) → IsCycle (WritesTo shaped.diagram) cycle → ⊥)
        → ((line : ℕ) (code : TraceCode) → IsTraceFault doc shaped.diagram line code → ⊥)
        → (text : Items ℕ) × Answers input Rank Written text }
{
    bare_bodies_decide_shapes();
    canonical_text_spells();
}

/// An accepted input without an overrun in a simulation has the lines of that simulation, and they are those of `mean`.
pub fn a_simulation_in_time_writes_the_meaning()
    ensures { (processors : AnyProcessors) (input : Items ℕ) (plan : AnyPlan) (command : Named) → Accepts input plan
        → IsInTime plan processors → looks command ≡ at_plan (a_simulation processors false)
        → (text : Items ℕ) × Answers input Mean Written text × Answers input command Written text }
{}

/// If all tasks of an accepted input are on one processor, `cpus` answers as `sim` does.
pub fn one_processor_answers_as_before()
    ensures { (input : Items ℕ) (plan : AnyPlan) (cpu : ℕ) → Accepts input plan
        → All (λ t. t.cpu ≡ cpu) plan.diagram.tasks → (status : Ending) (text : Items ℕ)
        → Answers input (Cpus false) status text ↔ Answers input (Sim false) status text }
{
    one_plan();
    one_processor_serves_as_before();
}

/// If `rta` writes a response time for each task of an input, then its simulation has no overrun: `sim` writes the same
/// lines as `mean`.
pub fn a_bounded_input_is_simulated()
    ensures { (input : Items ℕ) (plan : AnyPlan) (bounds : Items Bound) → Accepts input plan
        → rta_fault plan.diagram ≡ None → AreBounds plan.diagram bounds
        → ((task : ℕ) → slice_get bounds task ≢ Some Beyond)
        → Answers input Rta Written (bound_lines plan.diagram bounds)
        × ((text : Items ℕ) × Answers input Mean Written text × Answers input (Sim false) Written text) }
{
    bounds_are_kept();
}
