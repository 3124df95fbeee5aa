// The tasks of a generated document.

ghost use Rattle.std.specs.Prelude.{◌≡◌, ◌+◌, ◌<◌, ◌≤◌, codes, pos, IfOk, OnOk};
ghost use Rattle.dia_lines.specs.declared.item.Part.TheVariants.{Out};
ghost use Rattle.dbp_load.specs.Bodies.{body_of_task, early_count, generated_task, generated_tasks};
ghost use Rattle.drawn_numbers.specs.Draws.{after_draws};

use crate::expressions::{next_value, out_value};
use crate::names::{name, task_name};
use crate::reads::{names_of_reads, push_early_reads, push_late_read};
use dbp_plan::{Expr, List, Name, NoMemory};
use dia_read::{Part, RawClock, RawTask};
use drawn_numbers::draw;
use rand_core::SeedableRng;
use rand_xoshiro::SplitMix64;
use std::alloc::Global;

// The out of the task with the number.
fn out_part(number: u32, value: Expr<Name>) -> Part
    ensures { result ≡ Out (codes "y") (pos number) value }
{
    Part::Out(name(b"y"), i64::from(number), value)
}

// The body of the task with the number.
fn body_of_task(
    alloc: Global,
    draws: &mut SplitMix64,
    size: u32,
    number: u32,
) -> Result<List<Part>, NoMemory>
    requires number { number < size }
    requires size { size ≤ 32 }
    ensures parts { IfOk result (λ parts. parts ≡ body_of_task size draws.old number) }
    ensures draws { OnOk result (number + 1 < size → draws.new ≡ after_draws (early_count number + 1) draws.old) }
{
    let reads = names_of_reads(alloc, size, number)?;
    let value = out_value(alloc, reads.items())?;
    let next = next_value(alloc)?;
    let mut parts = List::new(alloc);
    parts.push(Part::State(name(b"s"), 0))?;
    parts.push(Part::Sense(name(b"g0"), name(b"g")))?;
    push_early_reads(&mut parts, draws, number)?;
    push_late_read(&mut parts, draws, size, number)?;
    parts.push(Part::Next(name(b"s"), next))?;
    parts.push(out_part(number, value))?;
    Ok(parts)
}

// The task with the number.
fn generated_task(
    alloc: Global,
    draws: &mut SplitMix64,
    size: u32,
    number: u32,
) -> Result<RawTask, NoMemory>
    requires number { number < size }
    requires size { size ≤ 32 }
    ensures task { IfOk result (λ task. task ≡ generated_task size draws.old number) }
    ensures draws { OnOk result (number + 1 < size → draws.new ≡ after_draws (early_count number + 2) draws.old) }
{
    let period = size + draw(draws, u64::from(size)) as u32;
    let parts = body_of_task(alloc, draws, size, number)?;
    Ok(RawTask {
        name: task_name(number),
        clock: RawClock::Every {
            period: u64::from(period),
            offset: 0,
        },
        when: None,
        prio: Some(size - number),
        deadline: None,
        cost: 1,
        cpu: 0,
        parts,
    })
}

// All tasks.
pub(crate) fn generated_tasks(
    alloc: Global,
    seed: u64,
    size: u32,
) -> Result<List<RawTask>, NoMemory>
    requires { size ≤ 32 }
    ensures { IfOk result (λ tasks. tasks ≡ generated_tasks seed size) }
{
    let mut draws = SplitMix64::seed_from_u64(seed);
    let mut tasks = List::new(alloc);
    for number in 0..size {
        tasks.push(generated_task(alloc, &mut draws, size, number)?)?;
    }
    Ok(tasks)
}
