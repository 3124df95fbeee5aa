// The batches of many clocks.

ghost use Rattle.std.specs.Prelude.{◌≡◌, ◌<◌, ◌≤◌, All, IfOk, OnOk, length};
ghost use Rattle.trace_io.specs.Counts.{IsClockOf, IsTimetable};
ghost use Rattle.trace_io.specs.Merging.{AreMerged, AreNext, IsLeast, TakesDue, ticks_of};

use crate::clocks::nth_time;
use dbp_plan::{Batch, Clock, List, MAX_OCCURRENCES, MAX_TASKS, NoMemory, TaskNumbers};
use std::alloc::Global;

// The batches of these clocks, below tick `until`: each clock stands in those of exactly its base times. The times of
// event `e` are those of `events[e]`. Each turn makes one batch, from each clock's next base time.
pub(crate) fn merged(
    alloc: Global,
    until: u64,
    events: &[List<u64>],
    clocks: &[Clock],
) -> Result<List<Batch>, NoMemory>
    requires clocks { All (IsClockOf (length events.now)) clocks.now }
    requires tasks { length clocks.now ≤ MAX_TASKS }
    requires table { IsTimetable until events.now }
    requires few { ticks_of until events.now clocks.now ≤ MAX_OCCURRENCES }
    ensures { IfOk result (λ batches. AreMerged until events.now clocks.now batches) }
{
    let mut taken = vec![in alloc; 0u64; clocks.len()]?;
    let mut next = next_times(alloc, until, events, clocks, &taken)?;
    let mut time = least_of(until, &next);
    let mut made = List::new(alloc);
    while time < until {
        let (tasks, later) = take_due(alloc, until, events, clocks, &mut taken, &mut next, time)?;
        made.push(Batch { time, tasks })?;
        time = later;
    }
    Ok(made)
}

// Each clock's next base time after so many, or `until` if it has none.
fn next_times(
    alloc: Global,
    until: u64,
    events: &[List<u64>],
    clocks: &[Clock],
    taken: &[u64],
) -> Result<Vec<u64>, NoMemory>
    requires clocks { All (IsClockOf (length events.now)) clocks.now }
    requires table { IsTimetable until events.now }
    requires places { length taken.now ≡ length clocks.now }
    requires few { All (λ n. n ≤ MAX_OCCURRENCES) taken.now }
    ensures { IfOk result (λ next. AreNext until events.now clocks.now taken.now next.items) }
{
    let mut next = Vec::new(alloc);
    for i in 0..clocks.len() {
        next.push(nth_time(until, events, clocks[i], taken[i]).unwrap_or(until))?;
    }
    Ok(next)
}

// The least of the times, or `until` if none is below it.
fn least_of(until: u64, times: &[u64]) -> u64
    ensures { IsLeast until times.now (length times.now) result }
{
    let mut least = until;
    for i in 0..times.len() {
        least = least.min(times[i]);
    }
    least
}

// The tasks whose next occurrence is at this time, in order; and, with each of these occurrences taken, the least time at
// which one is next, or `until`. Both are found on one walk over the tasks: where they are many it takes most of the time.
fn take_due(
    alloc: Global,
    until: u64,
    events: &[List<u64>],
    clocks: &[Clock],
    taken: &mut [u64],
    next: &mut [u64],
    time: u64,
) -> Result<(TaskNumbers, u64), NoMemory>
    requires clocks { All (IsClockOf (length events.now)) clocks.now }
    requires tasks { length clocks.now ≤ MAX_TASKS }
    requires table { IsTimetable until events.now }
    requires places { length taken.old ≡ length clocks.now }
    requires few { All (λ n. n ≤ MAX_OCCURRENCES) taken.old }
    requires next { AreNext until events.now clocks.now taken.old next.old }
    requires time { time < until }
    ensures due { IfOk result (λ r.
        TakesDue until events.now clocks.now taken.old taken.new time (length clocks.now) r.0) }
    ensures next { OnOk result (AreNext until events.now clocks.now taken.new next.new) }
    ensures least { IfOk result (λ r. IsLeast until next.new (length clocks.now) r.1) }
{
    let mut tasks = TaskNumbers::new(alloc);
    let mut least = until;
    for i in 0..clocks.len() {
        if next[i] == time {
            tasks.push(i as u32)?;
            taken[i] += 1;
            next[i] = nth_time(until, events, clocks[i], taken[i]).unwrap_or(until);
        }
        least = least.min(next[i]);
    }
    Ok((tasks, least))
}
