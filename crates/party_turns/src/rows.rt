// The rows of a task, with room for all of them from the start.

ghost use Rattle.std.specs.Prelude.{◌≡◌, ◌+◌, ◌*◌, ◌^◌, ◌<◌, ◌≤◌, ◌++◌, IfOk, length, map, take, drop};
ghost use Rattle.dbp_plan.specs.declared.limits.TheConstants.{MAX_OCCURRENCES, MAX_OUTS};
ghost use Rattle.party_turns.specs.Rows.{first_and_zeros};

use dbp_plan::{List, NoMemory, Row, Task, TaskRows};
use std::alloc::Global;

// The row of the task's first values, and room for as many rows.
pub(crate) fn room_for_rows(alloc: Global, task: &Task, rows: u32) -> Result<TaskRows, NoMemory>
    requires outs { length task.now.outs ≤ MAX_OUTS }
    requires rows { rows ≤ MAX_OCCURRENCES }
    ensures { IfOk result (λ made. made ≡ first_and_zeros task.now rows) }
{
    let ports = task.outs.len();
    let mut words = first_values(alloc, task)?;
    for _ in 0..rows * ports {
        words.push(0)?;
    }
    Ok(TaskRows { ports, words })
}

// The first values of the task's outs.
fn first_values(alloc: Global, task: &Task) -> Result<List<i64>, NoMemory>
    requires { length task.now.outs ≤ MAX_OUTS }
    ensures { IfOk result (λ words. words ≡ map (λ o. o.first) task.now.outs) }
{
    let mut words = List::new(alloc);
    for out in task.outs.items() {
        words.push(out.first)?;
    }
    Ok(words)
}

// Writes the row with this number over what stands at its place.
pub(crate) fn write_row(rows: &mut TaskRows, number: u32, row: &Row)
    requires row { length row.now ≡ rows.old.ports }
    requires there { (number + 1) * rows.old.ports ≤ length rows.old.words }
    ensures ports { rows.new.ports ≡ rows.old.ports }
    ensures words { rows.new.words ≡ take (number * rows.old.ports) rows.old.words ++ row.now ++ drop ((number + 1) * rows.old.ports) rows.old.words }
{
    let ports = rows.ports as usize;
    let first = number as usize * ports;
    rows.words.items_mut()[first..first + ports].copy_from_slice(row.words());
}
