// The order of a diagram's tasks, or the first cycle of their direct links.

ghost use Rattle.std.specs.Prelude.{◌≡◌, ◌<◌, ◌≤◌, All, IfErr, IfOk, length};
ghost use Rattle.dbp_plan.specs.Closed.{IsClosed};
ghost use Rattle.dbp_plan.specs.declared.limits.TheConstants.{MAX_TASKS};
ghost use Rattle.rank_find.specs.FirstCycles.{names_of};
ghost use Rattle.rank_find.specs.Finds.{IsRankFail};
ghost use Rattle.rank_find.specs.Orders.{HoldsEachOnce, IsOrder};

use crate::RankFail;
use crate::cycle::first_cycle;
use crate::links::writers_by_task;
use crate::order::front_of_order;
use dbp_plan::{Diagram, List, Name, NoMemory};
use dia_check::Shaped;
use std::alloc::Global;

// The names of these tasks.
fn names_of(alloc: Global, diagram: &Diagram, tasks: &[u32]) -> Result<List<Name>, NoMemory>
    requires named { All (λ i. i < length diagram.now.tasks) tasks.now }
    requires few { length tasks.now ≤ MAX_TASKS }
    ensures { IfOk result (λ names. names ≡ names_of diagram.now tasks.now) }
{
    let mut names = List::new(alloc);
    for task in tasks {
        names.push(diagram.tasks.items()[*task as usize].name)?;
    }
    Ok(names)
}

/// The order of the tasks of a document's diagram, by their numbers: at each place the first of the tasks whose direct
/// writers all stand before it. Periodic tasks come before those on events, shorter periods before longer ones, and
/// then goes the order of declaration. A link with a delay doesn't matter, nor do offsets, `when`, priorities and
/// deadlines. The tasks have no order exactly if direct links form a cycle. A link is looked at fewer than
/// 32 * 32 * 32 times.
pub fn find(alloc: Global, shaped: &Shaped) -> Result<List<u32>, RankFail>
    requires { IsClosed shaped.now.diagram }
    ensures order { IfOk result (λ order. IsOrder shaped.now.diagram order) }
    ensures each { IfOk result (λ order. HoldsEachOnce (length shaped.now.diagram.tasks) order) }
    // The names are those of the first cycle; out of memory says nothing.
    ensures fail { IfErr result (λ fail. IsRankFail shaped.now.diagram fail) }
{
    let diagram = &shaped.diagram;
    let writers = writers_by_task(alloc, diagram)?;
    let order = front_of_order(alloc, diagram, writers.items())?;
    if order.len() == diagram.tasks.len() {
        return Ok(order);
    }
    // no order stops short without a cycle
    let Some(cycle) = first_cycle(alloc, writers.items())? else {
        unreachable!()
    };
    let names = names_of(alloc, diagram, cycle.items())?;
    Err(RankFail::Cycle { names })
}
