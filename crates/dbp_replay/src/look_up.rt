// What stands at a place of a diagram.

ghost use Rattle.std.specs.Prelude.{◌≡◌, ◌<◌, length};
ghost use Rattle.dbp_rules.specs.Rules.{IsNamed};
ghost use Rattle.dbp_plan.specs.Lookups.{link_at, task_at};
ghost use Rattle.dbp_replay.specs.NamedItems.{port_name, read_name, task_of};

use dbp_core::Step;
use dbp_plan::{Diagram, Link, Task};

pub(crate) fn task_at(diagram: &Diagram, i: u32) -> &Task
    requires { i < length diagram.now.tasks }
    ensures { result.now ≡ task_at diagram.now i }
{
    &diagram.tasks.items()[i as usize]
}

pub(crate) fn link_at(diagram: &Diagram, k: u32) -> Link
    requires { k < length diagram.now.links }
    ensures { result ≡ link_at diagram.now.links k }
{
    diagram.links.items()[k as usize]
}

// The name of the task.
pub(crate) fn task_name(diagram: &Diagram, i: u32) -> &[u8]
    requires { i < length diagram.now.tasks }
    ensures { result.now ≡ (task_at diagram.now i).name }
{
    task_at(diagram, i).name.bytes()
}

// The name of the task's read.
pub(crate) fn read_name(diagram: &Diagram, i: u32, read: u32) -> &[u8]
    requires task { i < length diagram.now.tasks }
    requires read { read < length (task_at diagram.now i).reads }
    ensures { result.now ≡ read_name diagram.now i read }
{
    task_at(diagram, i).reads.items()[read as usize]
        .name
        .bytes()
}

// The name of the task's out.
pub(crate) fn port_name(diagram: &Diagram, i: u32, port: u32) -> &[u8]
    requires task { i < length diagram.now.tasks }
    requires port { port < length (task_at diagram.now i).outs }
    ensures { result.now ≡ port_name diagram.now i port }
{
    task_at(diagram, i).outs.items()[port as usize].name.bytes()
}

// The task that steps; of a claim it is the link's reader.
pub(crate) fn task_of(diagram: &Diagram, step: Step) -> u32
    requires { IsNamed diagram.now step }
    ensures { result ≡ task_of diagram.now step }
{
    match step {
        Step::Claim { link } => link_at(diagram, link).reader,
        Step::Seen { task }
        | Step::Aim { task, .. }
        | Step::OpenGate { task }
        | Step::Start { task }
        | Step::Hear { task }
        | Step::Look { task, .. }
        | Step::Take { task, .. }
        | Step::Shut { task }
        | Step::Put { task, .. }
        | Step::Done { task }
        | Step::End { task } => task,
    }
}
