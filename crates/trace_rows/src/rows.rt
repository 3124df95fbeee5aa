// The first fault of the rows of a trace section, and what they say if they have none.

ghost use Rattle.std.specs.Prelude.{◌≡◌, ◌+◌, ◌<◌, ◌≤◌, ◌^◌, ℕ, IfOk, MatchOption, MatchResult, OnOk, OnSome, true, false, None, Some, drop, length, map};
ghost use Rattle.csv.specs.Records.{fields_of};
ghost use Rattle.dbp_plan.specs.FirstFault.{first_fault};
ghost use Rattle.dbp_plan.specs.NameLists.{index_of};
ghost use Rattle.dbp_plan.specs.declared.limits.TheConstants.{MAX_INPUTS};
ghost use Rattle.trace_rows.specs.Cells.{time_of};
ghost use Rattle.trace_rows.specs.Columns.{HasSaid};
ghost use Rattle.trace_rows.specs.Headers.{kind_of_column};
ghost use Rattle.trace_rows.specs.Records.{StandsAtLine, records_left};
ghost use Rattle.trace_rows.specs.Rows.{row_fault, row_faults, row_fits};
ghost use Rattle.trace_rows.specs.Values.{event_times, samples_of};
ghost use Rattle.trace_rows.specs.declared.fail.TraceCode.{TraceCode as AnyCode};
ghost use Rattle.trace_rows.specs.declared.fail.TraceFail.TheVariants.{Refused};

use crate::cell::{CellContent, Kind, content_in, time_in};
use crate::fail::{TraceCode, TraceFail, TraceFault};
use crate::header::kinds;
use crate::section::Records;
use crate::values::{event_columns, input_columns, no_times, push_samples, push_times};
use csv::ByteRecord;
use dbp_plan::{Input, List, Name, NoMemory, Sample};
use std::alloc::Global;

/// Rows of a trace section, at most.
pub const MAX_ROWS: usize = 50_000;

const _: () = prove!(MAX_ROWS == 50_000);

/// What the rows of a section say.
#[derive(Drop)]
pub struct RowValues {
    /// The times of each event: those of the rows that have 1 in its column. An event without a column has none.
    pub events: Vec<List<u64>>,
    /// The samples of the inputs, by row and then by input.
    pub samples: List<Sample>,
}

// The time of a row with a cell for each column, if its cells are of their forms. What they say is then in `said`.
fn row_time(kinds: &[Kind], row: &ByteRecord, said: &mut [CellContent]) -> Option<u64>
    requires whole { length (fields_of row.now) ≡ length kinds.now + 1 }
    requires places { length said.old ≡ length kinds.now }
    ensures time { MatchOption result
        (row_fits kinds.now (fields_of row.now) ≡ false)
        (λ time. (row_fits kinds.now (fields_of row.now) ≡ true) × (time ≡ time_of (fields_of row.now))) }
    ensures said { OnSome result (HasSaid kinds.now (fields_of row.now) said.new) }
{
    for column in 0..kinds.len() {
        said[column] = content_in(kinds[column], row.get(column + 1)?)?;
    }
    time_in(row.get(0)?)
}

// The time of the row with this number, from 1, after a row with this time, or the row's first fault. What its cells
// say is in `said` if it has none.
fn checked_row(
    until: u64,
    kinds: &[Kind],
    number: usize,
    before: Option<u64>,
    row: &ByteRecord,
    said: &mut [CellContent],
) -> Result<u64, TraceCode>
    requires few { length kinds.now + 1 < 2 ^ 64 }
    requires places { length said.old ≡ length kinds.now }
    ensures fault { MatchResult result
        (λ time. (row_fault until kinds.now number before (fields_of row.now) ≡ None)
        × (time ≡ time_of (fields_of row.now)))
        (λ code. row_fault until kinds.now number before (fields_of row.now) ≡ Some code) }
    ensures whole { OnOk result (length (fields_of row.now) ≡ length kinds.now + 1) }
    ensures said { OnOk result (HasSaid kinds.now (fields_of row.now) said.new) }
{
    if number > MAX_ROWS {
        return Err(TraceCode::TooManyRows);
    }
    if row.len() != kinds.len() + 1 {
        return Err(TraceCode::BadRow);
    }
    let Some(time) = row_time(kinds, row, said) else {
        return Err(TraceCode::BadCell);
    };
    if let Some(before) = before {
        if time <= before {
            return Err(TraceCode::TimeNotRising);
        }
    }
    if time >= until {
        return Err(TraceCode::TimePastEnd);
    }
    Ok(time)
}

// Room for what the cells of a row with so many columns say.
fn no_contents(alloc: Global, columns: usize) -> Result<Vec<CellContent>, NoMemory>
    ensures { IfOk result (λ said. length said.items ≡ columns) }
{
    let nothing = CellContent {
        value: None,
        is_one: false,
    };
    Ok(vec![in alloc; nothing; columns]?)
}

// What the columns of a header hold, and in which of them the inputs and the events stand.
struct Columns {
    kinds: Vec<Kind>,
    inputs: Vec<usize>,
    events: Vec<usize>,
}

// By hand, as the prover then takes one step where it is dropped, and not one for each part.
impl Drop for Columns {
    fn drop(self) {
        let Columns {
            kinds: _,
            inputs: _,
            events: _,
        } = self;
    }
}

fn columns_of(
    alloc: Global,
    inputs: &[Input],
    events: &[Name],
    header: &ByteRecord,
) -> Result<Columns, NoMemory>
    ensures kinds { IfOk result (λ columns. columns.kinds.items
        ≡ map (kind_of_column inputs.now) (drop 1 (fields_of header.now))) }
    ensures few { IfOk result (λ columns. length columns.kinds.items + 1 < 2 ^ 64) }
    ensures inputs { IfOk result (λ columns. columns.inputs.items
        ≡ map (λ input. index_of (drop 1 (fields_of header.now)) input.name) inputs.now) }
    ensures events { IfOk result (λ columns. columns.events.items
        ≡ map (index_of (drop 1 (fields_of header.now))) events.now) }
{
    Ok(Columns {
        kinds: kinds(alloc, inputs, header)?,
        inputs: input_columns(alloc, inputs, header)?,
        events: event_columns(alloc, events, header)?,
    })
}

/// What the rows of a section with this header say, if no row has a fault. They are the records that are left, and row k
/// stands at `lines[k]`. Refused is the first row with a fault, with the first of its faults in this order:
/// `TooManyRows`, `BadRow`, `BadCell`, `TimeNotRising`, `TimePastEnd`. No row is read after that; each is kept no longer
/// than until the next is read.
#[tactic(auto, using(crate::proofs::EventTimes::no_rows))]
pub fn row_values(
    alloc: Global,
    until: u64,
    inputs: &[Input],
    events: &[Name],
    header: &ByteRecord,
    rows: &mut Records,
    lines: &[u32],
) -> Result<RowValues, TraceFail>
    requires stands { StandsAtLine rows.old }
    requires inputs { length inputs.now ≤ MAX_INPUTS }
    requires lines { length (records_left rows.old) ≤ length lines.now }
    ensures events { IfOk result (λ said. said.events.items
        ≡ event_times (drop 1 (fields_of header.now)) (records_left rows.old) events.now) }
    ensures samples { IfOk result (λ said. said.samples
        ≡ samples_of (drop 1 (fields_of header.now)) (records_left rows.old) inputs.now) }
    ensures faultless { IfOk result (λ _. first_fault (row_faults until
        (map (kind_of_column inputs.now) (drop 1 (fields_of header.now)))
        (records_left rows.old) lines.now) ≡ None) }
    ensures fault { (line : ℕ) (code : AnyCode) → result ≡ Err (Refused line code)
        → first_fault (row_faults until
        (map (kind_of_column inputs.now) (drop 1 (fields_of header.now)))
        (records_left rows.old) lines.now) ≡ Some (line, code) }
{
    let columns = columns_of(alloc, inputs, events, header)?;
    let mut said = no_contents(alloc, columns.kinds.len())?;
    let mut marked = no_times(alloc, events.len())?;
    let mut samples = List::new(alloc);
    let mut row = ByteRecord::new(alloc);
    let mut before = None;
    let mut place = 0;
    while rows.read(&mut row)? {
        match checked_row(until, &columns.kinds, place + 1, before, &row, &mut said) {
            Ok(time) => {
                push_samples(&mut samples, time, &columns.inputs, &said)?;
                push_times(&mut marked, time, &columns.events, &said)?;
                before = Some(time);
            }
            Err(code) => {
                let line = lines[place];
                return Err(TraceFail::from(TraceFault { line, code }));
            }
        }
        place += 1;
    }
    Ok(RowValues {
        events: marked,
        samples,
    })
}
