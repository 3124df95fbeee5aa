// The words of the meaning, by its table.

ghost use Rattle.std.specs.Prelude.{◌≡◌, pos, slice_index_or, IfOk};
ghost use Rattle.dbp_plan.specs.Table.{table_row};

use dbp_plan::Table;
use std::test::Fail;

// The word of the port in the task's row with this number.
pub(crate) fn word_of(table: &Table, task: u32, number: u32, port: u32) -> Result<i64, Fail>
    ensures { IfOk result (λ word. word ≡ slice_index_or (table_row table.now task number) port (pos 0)) }
{
    let Some(rows) = table.tasks.items().get(task as usize) else {
        return Err(Fail::from("no such task"));
    };
    let Some(end) = (u64::from(number) + 1).checked_mul(u64::from(rows.ports)) else {
        return Err(Fail::from("too many words"));
    };
    if end > u64::from(rows.words.len()) {
        return Err(Fail::from("no such row"));
    }
    let row = table.row(task, number);
    let Some(word) = row.get(port as usize) else {
        return Err(Fail::from("no such port"));
    };
    Ok(*word)
}
