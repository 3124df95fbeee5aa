// The trace section of a scenario.

ghost use Rattle.std.specs.Prelude.{◌≡◌, ◌+◌, ◌*◌, ◌<◌, ◌≤◌, ◌++◌, ◌∷◌, [], All, IfOk, OnOk, length};
ghost use Rattle.std.specs.List.{flat_map};
ghost use Rattle.dbp_plan.specs.Ranked.{IsRanked};
ghost use Rattle.slot_need.specs.Bodies.{scenario_trace};
ghost use Rattle.slot_need.specs.Cells.{cell_bytes, header_bytes, name_bytes, row_bytes};

use crate::column::{Column, scenario_columns};
use crate::firings::firing_count;
use dbp_plan::{Diagram, List, Name, NoMemory};
use itoa::Buffer;
use std::alloc::Global;

// Adds the names of the columns, each after a comma.
fn push_names(text: &mut List<u8>, events: &[Name], columns: &[Column]) -> Result<(), NoMemory>
    requires named { All (λ c. c.event < length events.now) columns.now }
    requires few { length columns.now ≤ 16 }
    requires room { length text.old ≤ 100 }
    ensures text { OnOk result (text.new ≡ text.old ++ flat_map (name_bytes events.now) columns.now) }
    ensures short { OnOk result (length text.new ≤ length text.old + 25 * length columns.now) }
{
    for column in columns {
        text.push(b',')?;
        text.extend_from_slice(events[column.event as usize].bytes())?;
    }
    Ok(())
}

// Adds the header, and ends the line.
fn push_header(text: &mut List<u8>, events: &[Name], columns: &[Column]) -> Result<(), NoMemory>
    requires named { All (λ c. c.event < length events.now) columns.now }
    requires few { length columns.now ≤ 16 }
    requires room { length text.old ≤ 50 }
    ensures text { OnOk result (text.new ≡ text.old ++ header_bytes events.now columns.now) }
    ensures short { OnOk result (length text.new ≤ length text.old + 405) }
{
    text.extend_from_slice(b"time")?;
    push_names(text, events, columns)?;
    text.push(b'\n')
}

// Adds the cells of the firing's row, each after a comma.
fn push_cells(text: &mut List<u8>, columns: &[Column], firing: u32) -> Result<(), NoMemory>
    requires few { length columns.now ≤ 16 }
    requires room { length text.old ≤ 100000 }
    ensures text { OnOk result (text.new ≡ text.old ++ flat_map (cell_bytes firing) columns.now) }
    ensures short { OnOk result (length text.new ≤ length text.old + 2 * length columns.now) }
{
    for column in columns {
        text.push(b',')?;
        if column.firing.is_at(firing) {
            text.push(b'1')?;
        }
    }
    Ok(())
}

// Adds the row of the firing at this time, and ends the line.
fn push_row(text: &mut List<u8>, columns: &[Column], time: u64, firing: u32) -> Result<(), NoMemory>
    requires few { length columns.now ≤ 16 }
    requires room { length text.old ≤ 90000 }
    ensures text { OnOk result (text.new ≡ text.old ++ row_bytes columns.now time firing) }
    ensures short { OnOk result (length text.new ≤ length text.old + 100) }
{
    text.extend_from_slice(Buffer::new().format(time).as_bytes())?;
    push_cells(text, columns, firing)?;
    text.push(b'\n')
}

// The trace section of the task's scenario: a row for each firing.
pub(crate) fn scenario_trace(
    alloc: Global,
    diagram: &Diagram,
    task: u32,
) -> Result<List<u8>, NoMemory>
    requires ranked { IsRanked diagram.now }
    requires task { task < length diagram.now.tasks }
    ensures { IfOk result (λ text. text ≡ scenario_trace diagram.now task) }
{
    let columns = scenario_columns(diagram, task);
    let period = diagram.tasks.items()[task as usize].cost;
    let mut text = List::new(alloc);
    push_header(&mut text, diagram.events.items(), columns.as_slice())?;
    for firing in 0..firing_count(diagram, task) {
        let time = u64::from(firing) * period;
        push_row(&mut text, columns.as_slice(), time, firing)?;
    }
    Ok(text)
}
