// The lines of an overrun.

ghost use Rattle.std.specs.Prelude.{◌≡◌, IfOk};
ghost use Rattle.dbp_answers.specs.OverrunLines.{overrun_after};

use dbp_plan::NoMemory;
use itoa::Buffer;
use std::alloc::Global;

// These words, then `TASK N at T`. Instances are counted from 1, and times are ticks.
pub(crate) fn overrun_after(
    alloc: Global,
    words: &[u8],
    name: &[u8],
    instance: u32,
    time: u64,
) -> Result<Vec<u8>, NoMemory>
    ensures { IfOk result (λ text. text.items ≡ overrun_after words.now name.now instance time) }
{
    let mut text = Vec::new(alloc);
    text.extend_from_slice(words)?;
    text.extend_from_slice(name)?;
    text.push(b' ')?;
    text.extend_from_slice(Buffer::new().format(instance).as_bytes())?;
    text.extend_from_slice(b" at ")?;
    text.extend_from_slice(Buffer::new().format(time).as_bytes())?;
    text.push(b'\n')?;
    Ok(text)
}
