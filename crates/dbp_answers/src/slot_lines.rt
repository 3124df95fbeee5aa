// The printed lines of a diagram's slots.

ghost use Rattle.std.specs.Prelude.{◌≡◌, ◌∷◌, ◌++◌, decimal, IfOk, OnOk};
ghost use Rattle.dbp_plan.specs.Ranked.{IsRanked};
ghost use Rattle.dbp_answers.specs.SlotLines.{slot_line, slot_lines};

use dbp_plan::{Diagram, NoMemory};
use dbp_slots::{Counts, counts};
use itoa::Buffer;
use std::alloc::Global;

// A line `task,lower,higher,delayed,sim,run` for each task, in the order of declaration.
pub(crate) fn slot_lines(alloc: Global, diagram: &Diagram) -> Result<Vec<u8>, NoMemory>
    requires { IsRanked diagram.now }
    ensures { IfOk result (λ text. text.items ≡ slot_lines diagram.now) }
{
    let mut text = Vec::new(alloc);
    for (i, task) in diagram.tasks.items().iter().enumerate() {
        push_line(&mut text, task.name.bytes(), counts(diagram, i as u32))?;
    }
    Ok(text)
}

// Adds the line of one task.
fn push_line(text: &mut Vec<u8>, name: &[u8], counts: Counts) -> Result<(), NoMemory>
    ensures { OnOk result (text.new.items ≡ text.old.items ++ slot_line name.now counts) }
{
    text.extend_from_slice(name)?;
    push_cell(text, counts.lower)?;
    push_cell(text, counts.higher)?;
    push_cell(text, counts.delayed)?;
    push_cell(text, counts.sim)?;
    push_cell(text, counts.run)?;
    text.push(b'\n')?;
    Ok(())
}

// Adds the number after a comma.
fn push_cell(text: &mut Vec<u8>, number: u32) -> Result<(), NoMemory>
    ensures { OnOk result (text.new.items ≡ text.old.items ++ 44 ∷ decimal number) }
{
    text.push(b',')?;
    text.extend_from_slice(Buffer::new().format(number).as_bytes())?;
    Ok(())
}
