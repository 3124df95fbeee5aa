// What an instance senses and reads.

ghost use Rattle.std.specs.Prelude.{◌≡◌, ◌<◌, ◌+◌, All, length, slice_get, slice_index, Some};
ghost use Rattle.sync_meaning.specs.Meaning.{IsRead};
ghost use Rattle.sync_meaning.specs.Shape.{AreWritten, IsEnvOf, IsReadable};

use crate::Env;
use dbp_plan::{Link, Read, Table, Task};

// Gives the senses the values of their inputs.
pub(crate) fn set_senses(task: &Task, inputs: &[i64], env: &mut Env)
    requires env { IsEnvOf task.now env.old }
    requires inputs { All (λ s. s.input < length inputs.now) task.now.senses }
    ensures now { AreWritten (length task.now.states) task.now.senses (λ s value. slice_get inputs.now s.input ≡ Some value) env.old.now env.new.now }
    ensures later { env.new.later ≡ env.old.later }
{
    let now = env.now.items_mut();
    let base = task.states.items().len();
    for (k, sense) in task.senses.items().iter().enumerate() {
        now[base + k] = inputs[sense.input as usize];
    }
}

// Gives the reads the values that stand in the table.
pub(crate) fn set_reads(task: &Task, links: &[Link], named: &[u32], table: &Table, env: &mut Env)
    requires env { IsEnvOf task.now env.old }
    requires writers { All (λ l. l.writer < length named.now) links.now }
    requires reads { All (λ r. IsReadable links.now (slice_index named.now) table.now r) task.now.reads }
    ensures now { AreWritten (length task.now.states + length task.now.senses) task.now.reads (IsRead links.now (slice_index named.now) table.now) env.old.now env.new.now }
    ensures later { env.new.later ≡ env.old.later }
{
    let now = env.now.items_mut();
    let base = task.states.items().len() + task.senses.items().len();
    for (k, read) in task.reads.items().iter().enumerate() {
        now[base + k] = read_value(read, links, named, table);
    }
}

// The value of the port in the writer's row of as many occurrences ago as the link's delay.
fn read_value(read: &Read, links: &[Link], named: &[u32], table: &Table) -> i64
    requires writers { All (λ l. l.writer < length named.now) links.now }
    requires there { IsReadable links.now (slice_index named.now) table.now read.now }
    ensures { IsRead links.now (slice_index named.now) table.now read.now result }
{
    let link = links[read.link as usize];
    let number = named[link.writer as usize].saturating_sub(link.delay);
    table.row(link.writer, number)[read.port as usize]
}
