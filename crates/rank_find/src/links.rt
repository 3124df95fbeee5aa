// Which task writes directly to which.

ghost use Rattle.std.specs.Prelude.{◌≡◌, ◌↔◌, ◌≤◌, Contains, IfOk, IsTrue, length};
ghost use Rattle.dbp_plan.specs.declared.limits.TheConstants.{MAX_READ_LINES};
ghost use Rattle.dbp_plan.specs.Closed.{IsClosed};
ghost use Rattle.rank_find.specs.Links.{AreWriters, direct_writers};

use dbp_plan::{Diagram, Link, List, NoMemory};
use std::alloc::Global;

// Whether the number is one of these.
pub(crate) fn is_among(number: u32, numbers: &[u32]) -> bool
    ensures { IsTrue result ↔ Contains numbers.now number }
{
    numbers.contains(&number)
}

// The tasks that write directly to the reader.
fn direct_writers(alloc: Global, links: &[Link], reader: u32) -> Result<List<u32>, NoMemory>
    requires { length links.now ≤ MAX_READ_LINES }
    ensures { IfOk result (λ writers. writers ≡ direct_writers links.now reader) }
{
    let mut writers = List::new(alloc);
    for link in links {
        if link.delay == 0 && link.reader == reader {
            writers.push(link.writer)?;
        }
    }
    Ok(writers)
}

// For each task those that write directly to it.
pub(crate) fn writers_by_task(alloc: Global, diagram: &Diagram) -> Result<List<List<u32>>, NoMemory>
    requires { IsClosed diagram.now }
    ensures { IfOk result (λ writers. AreWriters diagram.now writers) }
{
    let mut writers = List::new(alloc);
    for task in 0..diagram.tasks.len() {
        writers.push(direct_writers(alloc, diagram.links.items(), task)?)?;
    }
    Ok(writers)
}
