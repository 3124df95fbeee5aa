// What the rows of a trace section give to inputs and events.

ghost use Rattle.std.specs.Prelude.{◌≡◌, ◌+◌, ◌<◌, ◌≤◌, ◌^◌, ◌++◌, [], All, IfOk, OnOk, drop, length, map, replicate, slice_index_or};
ghost use Rattle.csv.specs.Records.{fields_of};
ghost use Rattle.trace_rows.specs.Columns.{nothing, said_samples, times_with};
ghost use Rattle.dbp_plan.specs.NameLists.{index_of};

use crate::cell::CellContent;
use crate::header::index_of;
use csv::ByteRecord;
use dbp_plan::{Input, List, Name, NoMemory, Sample};
use std::alloc::Global;

// The columns of the inputs.
pub(crate) fn input_columns(
    alloc: Global,
    inputs: &[Input],
    header: &ByteRecord,
) -> Result<Vec<usize>, NoMemory>
    ensures { IfOk result (λ columns. columns.items
        ≡ map (λ input. index_of (drop 1 (fields_of header.now)) input.name) inputs.now) }
{
    let mut columns = Vec::new(alloc);
    for input in inputs {
        columns.push(index_of(header, input.name.bytes()))?;
    }
    Ok(columns)
}

// The columns of the events.
pub(crate) fn event_columns(
    alloc: Global,
    events: &[Name],
    header: &ByteRecord,
) -> Result<Vec<usize>, NoMemory>
    ensures { IfOk result (λ columns. columns.items
        ≡ map (index_of (drop 1 (fields_of header.now))) events.now) }
{
    let mut columns = Vec::new(alloc);
    for event in events {
        columns.push(index_of(header, event.bytes()))?;
    }
    Ok(columns)
}

/// The times of so many events, none of which occurs.
pub fn no_times(alloc: Global, events: usize) -> Result<Vec<List<u64>>, NoMemory>
    ensures { IfOk result (λ times. times.items ≡ replicate events []) }
{
    let mut times = Vec::new(alloc);
    for _ in 0..events {
        times.push(List::new(alloc))?;
    }
    Ok(times)
}

// What is said in the column; nothing if there is no such column.
fn content_at(said: &[CellContent], column: usize) -> CellContent
    ensures { result ≡ slice_index_or said.now column nothing }
{
    if column < said.len() {
        said[column]
    } else {
        CellContent {
            value: None,
            is_one: false,
        }
    }
}

// Adds the samples of a row at this time, whose cells say this, if these are the columns of the inputs.
pub(crate) fn push_samples(
    found: &mut List<Sample>,
    time: u64,
    columns: &[usize],
    said: &[CellContent],
) -> Result<(), NoMemory>
    requires few { length found.old + length columns.now < 2 ^ 32 }
    ensures samples { OnOk result
        (found.new ≡ found.old ++ said_samples time 0 columns.now said.now) }
    ensures few { OnOk result (length found.new ≤ length found.old + length columns.now) }
{
    for (input, column) in columns.iter().enumerate() {
        if let Some(value) = content_at(said, *column).value {
            found.push(Sample {
                time,
                input: input as u32,
                value,
            })?;
        }
    }
    Ok(())
}

// Adds the time of a row, whose cells say this, to those of each event that occurs there, if these are the columns of
// the events.
pub(crate) fn push_times(
    events: &mut [List<u64>],
    time: u64,
    columns: &[usize],
    said: &[CellContent],
) -> Result<(), NoMemory>
    requires columns { length columns.now ≡ length events.old }
    requires few { All (λ times. length times + 1 < 2 ^ 32) events.old }
    ensures { OnOk result (events.new ≡ times_with time columns.now said.now events.old) }
{
    for (event, column) in columns.iter().enumerate() {
        if content_at(said, *column).is_one {
            events[event].push(time)?;
        }
    }
    Ok(())
}
