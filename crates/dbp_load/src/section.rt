// The trace section of a generated document.

ghost use Rattle.std.specs.Prelude.{◌≡◌, ◌<◌, ◌≤◌, ◌++◌, ◌∷◌, ◌^◌, ◌+◌, [], length, decimal, IfOk, OnOk};
ghost use Rattle.trace_rows.specs.Written.{written_row};
ghost use Rattle.dbp_load.specs.Bodies.{trace_row, trace_text};

use dbp_plan::{List, NoMemory};
use itoa::Buffer;
use std::alloc::Global;

// Adds the number in decimal.
fn push_number(text: &mut List<u8>, number: u32) -> Result<(), NoMemory>
    requires { length text.old ≤ 10000 }
    ensures text { OnOk result (text.new ≡ text.old ++ decimal number) }
    ensures short { OnOk result (length text.new ≤ length text.old + 40) }
{
    text.extend_from_slice(Buffer::new().format(number).as_bytes())
}

// Adds the row with the number.
fn push_row(text: &mut List<u8>, size: u32, number: u32) -> Result<(), NoMemory>
    requires room { length text.old ≤ 2000 }
    requires size { size ≤ 32 }
    requires number { number < 10 }
    ensures text { OnOk result (text.new ≡ text.old ++ written_row (trace_row size number) ++ 10 ∷ []) }
    ensures short { OnOk result (length text.new ≤ length text.old + 90) }
{
    push_number(text, 50 * size * number)?;
    text.push(b',')?;
    push_number(text, 37 * number)?;
    text.push(b'\n')?;
    Ok(())
}

// The section: ten rows of the input's value.
pub(crate) fn trace_text(alloc: Global, size: u32) -> Result<List<u8>, NoMemory>
    requires { size ≤ 32 }
    ensures { IfOk result (λ text. text ≡ trace_text size) }
{
    let mut text = List::new(alloc);
    text.extend_from_slice(b"time,g\n")?;
    for number in 0..10 {
        push_row(&mut text, size, number)?;
    }
    Ok(text)
}
