// The printed lines of the bounds of a diagram's tasks.

ghost use Rattle.std.specs.Prelude.{◌≡◌, ◌++◌, IfOk, OnOk, length};
ghost use Rattle.dbp_answers.specs.BoundLines.{bound_line, bound_lines, bound_text};

use dbp_plan::{Diagram, NoMemory};
use itoa::Buffer;
use rta_check::{Bound, period_of};
use std::alloc::Global;

// A line `TASK,R,PERIOD` or `TASK,beyond,PERIOD` for each task, in order of declaration, in ticks.
pub(crate) fn bound_lines(
    alloc: Global,
    diagram: &Diagram,
    bounds: &[Bound],
) -> Result<Vec<u8>, NoMemory>
    requires { length bounds.now ≡ length diagram.now.tasks }
    ensures { IfOk result (λ text. text.items ≡ bound_lines diagram.now bounds.now) }
{
    let mut text = Vec::new(alloc);
    for (i, task) in diagram.tasks.items().iter().enumerate() {
        push_line(
            &mut text,
            task.name.bytes(),
            bounds[i],
            period_of(task.clock),
        )?;
    }
    Ok(text)
}

// Adds the line of one task.
fn push_line(text: &mut Vec<u8>, name: &[u8], bound: Bound, period: u64) -> Result<(), NoMemory>
    ensures { OnOk result (text.new.items ≡ text.old.items ++ bound_line name.now bound period) }
{
    text.extend_from_slice(name)?;
    text.push(b',')?;
    push_bound(text, bound)?;
    text.push(b',')?;
    text.extend_from_slice(Buffer::new().format(period).as_bytes())?;
    text.push(b'\n')?;
    Ok(())
}

// Adds the ticks, or the word for none.
fn push_bound(text: &mut Vec<u8>, bound: Bound) -> Result<(), NoMemory>
    ensures { OnOk result (text.new.items ≡ text.old.items ++ bound_text bound) }
{
    match bound {
        Bound::At(ticks) => text.extend_from_slice(Buffer::new().format(ticks).as_bytes())?,
        Bound::Beyond => text.extend_from_slice(b"beyond")?,
    }
    Ok(())
}
