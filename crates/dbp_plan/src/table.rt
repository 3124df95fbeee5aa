// The rows of all instances.

ghost use Rattle.std.specs.Prelude.{length};
ghost use Rattle.dbp_plan.specs.Table.{HasRow, IsRow};

use crate::List;

/// The rows of one task. Row n is its outs after instance n, row 0 their values before the first instance; it
/// stands at the words from `n * ports` on.
#[derive(Drop)]
pub struct TaskRows {
    /// Outs of the task.
    pub ports: u32,
    /// The words of all rows, one row after another.
    pub words: List<i64>,
}

/// The rows of all tasks, by task.
#[derive(Drop)]
pub struct Table {
    /// By the number of the task.
    pub tasks: List<TaskRows>,
}

impl Table {
    /// The task's row with this number.
    pub fn row(&self, task: u32, number: u32) -> &[i64]
        requires { HasRow self.now task number }
        ensures { IsRow self.now task number result.now }
    {
        let rows = &self.tasks.items()[task as usize];
        let ports = rows.ports as usize;
        let first = number as usize * ports;
        &rows.words.items()[first..first + ports]
    }
}
