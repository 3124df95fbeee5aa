// The summary of a generated document.

ghost use Rattle.std.specs.Prelude.{◌≡◌, ◌++◌, IfOk, OnOk, codes, fold};
ghost use Rattle.dbp_plan.specs.Occurrences.{occurrence_count};
ghost use Rattle.virtual_sim.specs.Outcomes.{IsSimFail};
ghost use Rattle.dbp_answers.specs.Summaries.{IsSimulationLine, count_line, summary, total_of, with_rows, with_value};

use crate::overrun_line::overrun_after;
use dbp_plan::{NoMemory, Plan, Table, TaskRows};
use dbp_rules::value_to_word;
use itoa::Buffer;
use std::alloc::Global;
use virtual_sim::{SimFail, simulate_table};

/// The six lines of the plan, its meaning's table, and the line of its simulation. The last one says that the table of
/// its run is the same, which the caller has proved.
pub fn summary(
    alloc: Global,
    plan: &Plan,
    table: &Table,
    simulation: &[u8],
) -> Result<Vec<u8>, NoMemory>
    ensures { IfOk result (λ text. text.items ≡ summary plan.now table.now simulation.now) }
{
    let mut text = Vec::new(alloc);
    push_count(&mut text, b"tasks", u64::from(plan.diagram.tasks.len()))?;
    push_count(&mut text, b"links", u64::from(plan.diagram.links.len()))?;
    push_count(&mut text, b"occurrences", occurrence_count(plan))?;
    push_count(&mut text, b"total", total_of(table))?;
    text.extend_from_slice(simulation)?;
    text.extend_from_slice(b"run same\n")?;
    Ok(text)
}

// Adds the line `WORD N`.
fn push_count(text: &mut Vec<u8>, word: &[u8], number: u64) -> Result<(), NoMemory>
    ensures { OnOk result (text.new.items ≡ text.old.items ++ count_line word.now number) }
{
    text.extend_from_slice(word)?;
    text.push(b' ')?;
    text.extend_from_slice(Buffer::new().format(number).as_bytes())?;
    text.push(b'\n')?;
    Ok(())
}

// How many instances there are. A plan has at most 100,000.
fn occurrence_count(plan: &Plan) -> u64
    ensures { result ≡ occurrence_count plan.now.batches }
{
    let mut count = 0;
    for batch in plan.batches.items() {
        count += u64::from(batch.tasks.len());
    }
    count
}

// The sum of the values of all rows from row 1 on, modulo 2^64.
fn total_of(table: &Table) -> u64
    ensures { result ≡ total_of table.now }
{
    let mut total = 0;
    for rows in table.tasks.items() {
        total = with_rows(total, rows);
    }
    total
}

// The total with the values of a task's rows from row 1 on.
fn with_rows(total: u64, rows: &TaskRows) -> u64
    ensures { result ≡ with_rows total rows.now }
{
    let words = rows.words.items();
    let first = words.len().min(rows.ports as usize);
    with_values(total, &words[first..])
}

// The total with these values.
fn with_values(total: u64, values: &[i64]) -> u64
    ensures { result ≡ fold with_value total values.now }
{
    let mut sum = total;
    for value in values {
        sum = sum.wrapping_add(value_to_word(*value));
    }
    sum
}

/// What the simulation of the plan comes to: its table is the meaning's, or a release overruns.
pub fn simulation_line(alloc: Global, plan: &Plan) -> Result<Vec<u8>, NoMemory>
    ensures { IfOk result (λ line. IsSimulationLine plan.now line.items) }
{
    let Err(fail) = simulate_table(alloc, plan) else {
        return same_line(alloc);
    };
    late_line(alloc, plan, fail)
}

// The line of a simulation without overrun.
fn same_line(alloc: Global) -> Result<Vec<u8>, NoMemory>
    ensures { IfOk result (λ line. line.items ≡ codes "sim same\n") }
{
    let mut line = Vec::new(alloc);
    line.extend_from_slice(b"sim same\n")?;
    Ok(line)
}

// The line of a simulation that failed so.
fn late_line(alloc: Global, plan: &Plan, fail: SimFail) -> Result<Vec<u8>, NoMemory>
    requires { IsSimFail plan.now fail }
    ensures { IfOk result (λ line. IsSimulationLine plan.now line.items) }
{
    match fail {
        SimFail::Overrun {
            task,
            instance,
            time,
        } => {
            let name = plan.diagram.tasks.items()[task as usize].name.bytes();
            overrun_after(alloc, b"sim overrun ", name, instance, time)
        }
        SimFail::NoMemory => Err(NoMemory),
    }
}
