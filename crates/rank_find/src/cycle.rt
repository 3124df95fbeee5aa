// The first cycle of direct links.

ghost use Rattle.std.specs.Prelude.{◌≡◌, ◌<◌, ◌≤◌, ℕ, IfOk, MatchOption, length};
ghost use Rattle.dbp_plan.specs.declared.limits.TheConstants.{MAX_TASKS as max_tasks};
ghost use Rattle.dbp_plan.specs.Cycles.{LiesOnCycle};
ghost use Rattle.rank_find.specs.Distances.{AreDistances, AreNamed, IsNearest, LeadsNowhere};
ghost use Rattle.rank_find.specs.FirstCycles.{IsFirstCycle, IsFirstCycleFrom};
ghost use Rattle.rank_find.specs.Links.{IsWriter};

use crate::distance::{FAR, measure};
use crate::links::is_among;
use dbp_plan::{List, MAX_TASKS, NoMemory};
use std::alloc::Global;

// Of the tasks that the task writes directly to, the one at the least distance, and of these the first.
fn nearest(writers: &[List<u32>], distances: &[u32], task: u32) -> Option<u32>
    requires few { length writers.now ≤ max_tasks }
    requires size { length writers.now ≤ length distances.now }
    ensures { MatchOption result (LeadsNowhere (IsWriter writers.now) distances.now task)
        (IsNearest (IsWriter writers.now) distances.now task) }
{
    let mut nearest = None;
    let mut least = FAR;
    for next in 0..writers.len() {
        let distance = distances[next];
        if distance < least && is_among(task, writers[next].items()) {
            nearest = Some(next as u32);
            least = distance;
        }
    }
    nearest
}

// From the start each time to the nearest task, until it is the start again.
fn descend(
    alloc: Global,
    writers: &[List<u32>],
    distances: &[u32],
    start: u32,
) -> Result<Option<List<u32>>, NoMemory>
    requires named { AreNamed writers.now }
    requires few { length writers.now ≤ max_tasks }
    requires size { length writers.now ≤ length distances.now }
    requires start { start < length writers.now }
    requires distances { AreDistances (IsWriter writers.now) start (length writers.now) distances.now }
    ensures { IfOk result (λ found. MatchOption found (LiesOnCycle (IsWriter writers.now) start → ⊥)
        (IsFirstCycleFrom (IsWriter writers.now) start)) }
{
    let mut cycle = List::new(alloc);
    let mut task = start;
    while let Some(next) = nearest(writers, distances, task) {
        cycle.push(task)?;
        if next == start {
            return Ok(Some(cycle));
        }
        task = next;
    }
    Ok(None)
}

// The first of the shortest cycles from the start.
fn first_cycle_from(
    alloc: Global,
    writers: &[List<u32>],
    start: u32,
) -> Result<Option<List<u32>>, NoMemory>
    requires named { AreNamed writers.now }
    requires few { length writers.now ≤ max_tasks }
    requires start { start < length writers.now }
    ensures { IfOk result (λ found. MatchOption found (LiesOnCycle (IsWriter writers.now) start → ⊥)
        (IsFirstCycleFrom (IsWriter writers.now) start)) }
{
    let mut distances = [FAR; MAX_TASKS as usize];
    distances[start as usize] = 0;
    measure(writers, &mut distances);
    descend(alloc, writers, &distances, start)
}

// The first cycle, if there is one.
pub(crate) fn first_cycle(
    alloc: Global,
    writers: &[List<u32>],
) -> Result<Option<List<u32>>, NoMemory>
    requires named { AreNamed writers.now }
    requires few { length writers.now ≤ max_tasks }
    ensures { IfOk result (λ found. MatchOption found
        ((i : ℕ) → i < length writers.now → LiesOnCycle (IsWriter writers.now) i → ⊥)
        (λ cycle. (start : ℕ) × IsFirstCycle (IsWriter writers.now) start cycle)) }
{
    for start in 0..writers.len() {
        if let Some(cycle) = first_cycle_from(alloc, writers, start as u32)? {
            return Ok(Some(cycle));
        }
    }
    Ok(None)
}
