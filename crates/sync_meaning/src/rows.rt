// The table of the meaning, row by row.

ghost use Rattle.std.specs.Prelude.{◌≡◌, ◌<◌, ◌≤◌, ◌+◌, ◌^◌, ◌++◌, All, length, map, IfOk, OnOk, OnErr};
ghost use Rattle.dbp_plan.specs.declared.limits.TheConstants.{MAX_OUTS};
ghost use Rattle.sync_meaning.specs.FirstRows.{first_rows};

use dbp_plan::{List, NoMemory, Row, Table, Task, TaskRows};
use std::alloc::Global;

/// The table before any instance: of each task the row of its first values.
pub fn first_table(alloc: Global, tasks: &[Task]) -> Result<Table, NoMemory>
    requires few { length tasks.now < 2 ^ 32 }
    requires outs { All (λ t. length t.outs ≤ MAX_OUTS) tasks.now }
    ensures { IfOk result (λ table. table.tasks ≡ map first_rows tasks.now) }
{
    let mut rows = List::new(alloc);
    for task in tasks {
        rows.push(first_rows(alloc, task)?)?;
    }
    Ok(Table { tasks: rows })
}

// The row of the task's first values.
fn first_rows(alloc: Global, task: &Task) -> Result<TaskRows, NoMemory>
    requires { length task.now.outs ≤ MAX_OUTS }
    ensures { IfOk result (λ rows. rows ≡ first_rows task.now) }
{
    let mut words = List::new(alloc);
    for out in task.outs.items() {
        words.push(out.first)?;
    }
    let ports = task.outs.len();
    Ok(TaskRows { ports, words })
}

/// Adds the row at the end. If memory runs out, the rows stay as they were.
pub fn push_row(rows: &mut TaskRows, row: &Row) -> Result<(), NoMemory>
    requires { length rows.old.words + length row.now < 2 ^ 32 }
    ensures ports { OnOk result (rows.new.ports ≡ rows.old.ports) }
    ensures words { OnOk result (rows.new.words ≡ rows.old.words ++ row.now) }
    ensures err { OnErr result (rows.new ≡ rows.old) }
{
    rows.words.extend_from_slice(row.words())
}
