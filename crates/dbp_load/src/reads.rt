// The reads of a generated task.

ghost use Rattle.std.specs.Prelude.{◌≡◌, ◌+◌, ◌-◌, ◌<◌, ◌≤◌, ◌++◌, length, IfOk, OnOk};
ghost use Rattle.dbp_load.specs.Bodies.{early_count, early_read, has_late, late_read, late_reads, names_of_reads, read_of};
ghost use Rattle.drawn_numbers.specs.Draws.{after_draws};
ghost use Rattle.dbp_load.specs.Listed.{first_items};

use crate::names::{name, read_name, task_name};
use dbp_plan::{List, Name, NoMemory};
use dia_read::Part;
use drawn_numbers::draw;
use rand_xoshiro::SplitMix64;
use std::alloc::Global;

// How many tasks before it the task with the number reads.
fn early_count(number: u32) -> u32
    ensures { result ≡ early_count number }
{
    number.min(3)
}

// The names of the reads of a task.
pub(crate) fn names_of_reads(alloc: Global, size: u32, number: u32) -> Result<List<Name>, NoMemory>
    requires number { number < size }
    requires size { size ≤ 32 }
    ensures { IfOk result (λ names. names ≡ names_of_reads (early_count number) (has_late size number)) }
{
    let mut names = List::new(alloc);
    for read in 0..early_count(number) {
        names.push(read_name(read))?;
    }
    if number + 1 >= size {
        return Ok(names);
    }
    names.push(name(b"q"))?;
    Ok(names)
}

// A read of a task's out, at the start of its reader's service.
fn read_of(name_of_read: Name, delay: u32, writer: u32) -> Part
    requires { writer < 32 }
    ensures { result ≡ read_of name_of_read delay writer }
{
    Part::Read {
        name: name_of_read,
        delay,
        task: task_name(writer),
        port: name(b"y"),
        at: 0,
    }
}

// Adds the reads of tasks before this one.
pub(crate) fn push_early_reads(
    parts: &mut List<Part>,
    draws: &mut SplitMix64,
    number: u32,
) -> Result<(), NoMemory>
    requires number { number < 32 }
    requires room { length parts.old ≤ 8 }
    ensures parts { OnOk result (parts.new ≡ parts.old ++ first_items (early_read draws.old number) (early_count number)) }
    ensures draws { OnOk result (draws.new ≡ after_draws (early_count number) draws.old) }
{
    for read in 0..early_count(number) {
        let writer = draw(draws, u64::from(number)) as u32;
        parts.push(read_of(read_name(read), 0, writer))?;
    }
    Ok(())
}

// Adds the read of a task after this one, if there is one.
pub(crate) fn push_late_read(
    parts: &mut List<Part>,
    draws: &mut SplitMix64,
    size: u32,
    number: u32,
) -> Result<(), NoMemory>
    requires number { number < size }
    requires size { size ≤ 32 }
    requires room { length parts.old ≤ 16 }
    ensures parts { OnOk result (parts.new ≡ parts.old ++ late_reads (has_late size number) (late_read size draws.old number 0)) }
    ensures draws { OnOk result (number + 1 < size → draws.new ≡ after_draws 1 draws.old) }
{
    if number + 1 >= size {
        return Ok(());
    }
    let writer = number + 1 + draw(draws, u64::from(size - 1 - number)) as u32;
    parts.push(read_of(name(b"q"), 1, writer))
}
