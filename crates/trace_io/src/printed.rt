// The printed lines of a table.

ghost use Rattle.std.specs.Prelude.{◌≡◌, ◌≤◌, ◌+◌, ◌-◌, ◌++◌, ◌∷◌, drop, length, take, IfOk, OnOk};
ghost use Rattle.std.specs.Fmt.{signed_decimal};
ghost use Rattle.dbp_plan.specs.Table.{HasRows};
ghost use Rattle.trace_io.specs.Lines.{cells_of, line_rest, lines_of};
ghost use Rattle.trace_io.specs.declared.printed.TheConstants.{NUMBER_LENGTH, PIECE};
ghost use Rattle.trace_io.specs.Printing.{CanPrint, Counts, numbered_lines};

use dbp_plan::{Batch, NoMemory, Plan, Table, Task};
use itoa::Integer;
use std::alloc::Global;

// Bytes that the text of a table has room for at first, for each batch. A text that begins large grows without being
// copied, and touches no place that it leaves.
const BATCH_ROOM: usize = 32;

/// The text of a table of the plan: all occurrences by time and then by declaration, each as a line `t,task,n,v1,..,vk`
/// that ends with LF. There `t` is the time in ticks, `n` the number of the task's occurrence, from 1, and the `v` are
/// the words of its row `n`.
pub fn lines(alloc: Global, plan: &Plan, table: &Table) -> Result<Vec<u8>, NoMemory>
    requires { HasRows plan.now.diagram.tasks plan.now.batches table.now }
    ensures { IfOk result (λ text.
        text.items ≡ lines_of plan.now.diagram plan.now.batches table.now) }
{
    let tasks = plan.diagram.tasks.items();
    let mut counts = vec![in alloc; 0u32; tasks.len()]?;
    let mut text = Vec::with_capacity(alloc, plan.batches.len() as usize * BATCH_ROOM)?;
    for batch in plan.batches.items() {
        push_batch(&mut text, tasks, table, batch, &mut counts)?;
    }
    Ok(text)
}

// Adds the lines of one batch, if this is how often each task occurs before it. Its tasks are then counted.
fn push_batch(
    text: &mut Vec<u8>,
    tasks: &[Task],
    table: &Table,
    batch: &Batch,
    counts: &mut [u32],
) -> Result<(), NoMemory>
    requires { CanPrint tasks.now table.now counts.old batch.now.tasks }
    ensures lines { OnOk result
        (text.new.items ≡ text.old.items
        ++ numbered_lines tasks.now table.now batch.now.time counts.old batch.now.tasks) }
    ensures counts { OnOk result (Counts counts.old counts.new batch.now.tasks) }
{
    let mut time = [0; PIECE_ROOM];
    let start = write_number(batch.time, &mut time);
    time[NUMBER_LENGTH] = b',';
    for task in batch.tasks.items() {
        let place = *task as usize;
        let number = counts[place] + 1;
        counts[place] = number;
        let name = tasks[place].name.bytes();
        push_piece(text, &time, start, NUMBER_LENGTH + 1)?;
        push_line(text, name, number, table.row(*task, number))?;
    }
    Ok(())
}

// Adds the line of one occurrence, after its time and the comma behind it.
#[inline(always)]
fn push_line(text: &mut Vec<u8>, name: &[u8], number: u32, row: &[i64]) -> Result<(), NoMemory>
    ensures { OnOk result (text.new.items
        ≡ text.old.items ++ line_rest name.now number row.now) }
{
    text.extend_from_slice(name)?;
    push_cell(text, i64::from(number))?;
    push_cells(text, row)?;
    text.push(b'\n')?;
    Ok(())
}

// Adds each word after a comma.
#[inline(always)]
fn push_cells(text: &mut Vec<u8>, row: &[i64]) -> Result<(), NoMemory>
    ensures { OnOk result (text.new.items ≡ text.old.items ++ cells_of row.now) }
{
    for word in row {
        push_cell(text, *word)?;
    }
    Ok(())
}

// Bytes of a number's text in `itoa`, at most.
const NUMBER_LENGTH: usize = 40;

// Bytes that are copied at once. The compiler knows how many these are, and copies them without a call. A number of 64
// bits with a comma has fewer.
const PIECE: usize = 24;

// Room for a number's text, and for a piece that begins in it.
const PIECE_ROOM: usize = NUMBER_LENGTH + PIECE;

// Writes the number in decimal before place `NUMBER_LENGTH`, and returns where it starts.
#[inline(always)]
fn write_number<N: Integer>(number: N, room: &mut [u8; PIECE_ROOM]) -> usize
    ensures within { result ≤ NUMBER_LENGTH }
    // the caller knows the length of its room
    ensures written { length room.new ≡ NUMBER_LENGTH + PIECE
        → drop result room.new ≡ N.text number ++ drop NUMBER_LENGTH room.old }
    ensures short { length (N.text number) ≤ N.MAX_STR_LEN }
{
    match room.first_chunk_mut::<NUMBER_LENGTH>() {
        Some(digits) => number.write(digits),
        None => unreachable!(),
    }
}

// Adds the bytes from place `start` up to before place `end`, few enough for a piece.
#[inline(always)]
fn push_piece(
    text: &mut Vec<u8>,
    room: &[u8; PIECE_ROOM],
    start: usize,
    end: usize,
) -> Result<(), NoMemory>
    requires start { start ≤ NUMBER_LENGTH }
    requires end { (start ≤ end) × (end ≤ start + PIECE) }
    ensures { OnOk result (text.new.items
        ≡ text.old.items ++ take (end - start) (drop start room.now)) }
{
    let length = text.len() + (end - start);
    text.extend_from_slice(&room[start..start + PIECE])?;
    text.truncate(length);
    Ok(())
}

// Adds the number in decimal, after a comma.
#[inline(always)]
fn push_cell(text: &mut Vec<u8>, number: i64) -> Result<(), NoMemory>
    ensures { OnOk result (text.new.items ≡ text.old.items ++ 44 ∷ signed_decimal number) }
{
    let mut room = [0; PIECE_ROOM];
    let start = write_number(number, &mut room) - 1;
    room[start] = b',';
    push_piece(text, &room, start, NUMBER_LENGTH)
}
