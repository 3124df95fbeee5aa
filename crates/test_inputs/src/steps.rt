// Steps that a script of a test names.

ghost use Rattle.std.specs.Prelude.{IsTrue};
ghost use Rattle.dbp_rules.specs.Rules.{IsNamed};

use dbp_plan::Diagram;
use dbp_rules::Step;

/// Whether the step names a task or a link of the diagram.
pub fn is_named(diagram: &Diagram, step: Step) -> bool
    ensures { IsTrue result → IsNamed diagram.now step }
{
    let tasks = diagram.tasks.len();
    match step {
        Step::Claim { link } => link < diagram.links.len(),
        Step::Seen { task } => task < tasks,
        Step::Aim { task, .. } => task < tasks,
        Step::OpenGate { task } => task < tasks,
        Step::Start { task } => task < tasks,
        Step::Hear { task } => task < tasks,
        Step::Look { task, .. } => task < tasks,
        Step::Take { task, .. } => task < tasks,
        Step::Shut { task } => task < tasks,
        Step::Put { task, .. } => task < tasks,
        Step::Done { task } => task < tasks,
        Step::End { task } => task < tasks,
    }
}
