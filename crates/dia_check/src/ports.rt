// The tasks and outs that `read` lines name.

ghost use Rattle.std.specs.Prelude.{◌≡◌, ◌<◌, ◌^◌, length};
ghost use Rattle.std.specs.List.{flat_map, position};
ghost use Rattle.dia_check.specs.Indexes.{find_index, port_index};
ghost use Rattle.dia_check.specs.Names.{out_name};
ghost use Rattle.dia_check.specs.Tests.{is_task};

use dbp_plan::{List, Name};
use dia_lines::Part;
use dia_read::RawTask;

// The index of the first task with the name.
pub(crate) fn task_index(tasks: &[RawTask], name: &Name) -> Option<usize>
    ensures { result ≡ position (is_task name.now) tasks.now }
{
    tasks.iter().position(|task| task.name == *name)
}

// The index of the name among the body's outs.
fn out_index(parts: &[Part], name: &Name) -> Option<u32>
    requires { length parts.now < 2 ^ 32 }
    ensures { result ≡ find_index (flat_map out_name parts.now) name.now }
{
    let mut index = 0;
    for part in parts {
        if let Part::Out(out, _, _) = part {
            if out == name {
                return Some(index);
            }
            index += 1;
        }
    }
    None
}

// The indexes of a task and of its out, of the first task with the name.
pub(crate) fn port_index(tasks: &List<RawTask>, writer: &Name, port: &Name) -> Option<(u32, u32)>
    ensures { result ≡ port_index tasks.now writer.now port.now }
{
    let tasks = tasks.items();
    let writer = task_index(tasks, writer)?;
    let port = out_index(tasks[writer].parts.items(), port)?;
    Some((writer as u32, port))
}
