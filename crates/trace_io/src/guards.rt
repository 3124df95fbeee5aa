// Tasks with a `when`: how often they occur, and when. Between two samples of its input a task has either all base times
// of its clock or none, so no tick is walked.

ghost use Rattle.std.specs.Prelude.{◌≡◌, ◌^◌, ◌<◌, ◌≤◌, [], length, map, filter, take, IfOk, not, pos, slice_index_or};
ghost use Rattle.std.specs.Ordering.{int_eq};
ghost use Rattle.std.specs.List.Sorted.{IsNonDecreasingBy};
ghost use Rattle.dbp_plan.specs.Clocks.{base_times};
ghost use Rattle.dbp_plan.specs.Samples.{last_value};
ghost use Rattle.trace_io.specs.Counts.{HasNumbersInRange, IsClockOf, IsTimetable};
ghost use Rattle.trace_io.specs.Spans.{IsSpanEnd, is_on_by};

use crate::clocks::{count_before, nth_time, occurrences};
use dbp_plan::{Clock, Diagram, List, MAX_TASKS, NoMemory, Sample, Task};
use std::alloc::Global;

// How many base times of the clock are before the sample with this number, counted from 0; all, if there is no such
// sample.
fn span_end(until: u64, events: &[List<u64>], clock: Clock, own: &[Sample], k: usize) -> u64
    requires clock { HasNumbersInRange clock }
    requires table { IsTimetable until events.now }
    ensures end { IsSpanEnd (base_times until events.now clock) own.now k result }
    ensures fits { result < 2 ^ 32 }
{
    if k < own.len() {
        count_before(until, events, clock, own[k].time)
    } else {
        occurrences(until, events, clock)
    }
}

// The value before the sample with this number, counted from 0.
fn value_before(first: i64, own: &[Sample], k: usize) -> i64
    requires { k ≤ length own.now }
    ensures { result ≡ last_value first (map (λ s. s.value) (take k own.now)) }
{
    if k == 0 { first } else { own[k - 1].value }
}

// Whether the input isn't 0 before the sample with this number, counted from 0.
fn is_on_before(first: i64, own: &[Sample], k: usize) -> bool
    requires { k ≤ length own.now }
    ensures { result ≡ not (int_eq (last_value first (map (λ s. s.value) (take k own.now))) (pos 0)) }
{
    value_before(first, own, k) != 0
}

/// How many base times the clock has, below tick `until`, at which the input that has this first value and these samples
/// isn't 0. The times of event `e` are those of `events[e]`; an event that isn't there has none. It takes no memory, and
/// walks no tick.
pub fn count_on(until: u64, events: &[List<u64>], clock: Clock, first: i64, own: &[Sample]) -> u64
    requires clock { HasNumbersInRange clock }
    requires table { IsTimetable until events.now }
    requires rising { IsNonDecreasingBy (λ s. s.time) own.now }
    ensures is { result
        ≡ length (filter (is_on_by first own.now) (base_times until events.now clock)) }
    ensures fits { result < 2 ^ 32 }
{
    let mut count = 0;
    let mut from = 0;
    for k in 0..own.len() + 1 {
        let to = span_end(until, events, clock, own, k);
        if is_on_before(first, own, k) {
            count += to - from;
        }
        from = to;
    }
    count
}

/// The base times of the clock, below tick `until`, at which the input that has this first value and these samples isn't 0,
/// in order. The times of event `e` are those of `events[e]`. Only these times are walked.
pub fn times_on(
    alloc: Global,
    until: u64,
    events: &[List<u64>],
    clock: Clock,
    first: i64,
    own: &[Sample],
) -> Result<List<u64>, NoMemory>
    requires clock { IsClockOf (length events.now) clock }
    requires table { IsTimetable until events.now }
    requires rising { IsNonDecreasingBy (λ s. s.time) own.now }
    ensures { IfOk result
        (λ times. times ≡ filter (is_on_by first own.now) (base_times until events.now clock)) }
{
    let mut times = List::new(alloc);
    let mut from = 0;
    for k in 0..own.len() + 1 {
        let to = span_end(until, events, clock, own, k);
        if is_on_before(first, own, k) {
            push_times(&mut times, until, events, clock, from, to)?;
        }
        from = to;
    }
    Ok(times)
}

ghost use Rattle.std.specs.Prelude.{OnOk, drop, ◌++◌, ◌+◌};
ghost use Rattle.dbp_plan.specs.declared.limits.TheConstants.{MAX_TIME};

// Adds the base times of the clock from one number up to before another, both counted from 0.
fn push_times(
    times: &mut List<u64>,
    until: u64,
    events: &[List<u64>],
    clock: Clock,
    from: u64,
    to: u64,
) -> Result<(), NoMemory>
    requires clock { IsClockOf (length events.now) clock }
    requires until { until ≤ MAX_TIME }
    requires inside { (from ≤ to) × (to ≤ length (base_times until events.now clock)) }
    requires few { (to < 2 ^ 32) × (length times.old ≤ from) }
    ensures { OnOk result
        (times.new ≡ times.old ++ drop from (take to (base_times until events.now clock))) }
{
    for number in from..to {
        if let Some(time) = nth_time(until, events, clock, number) {
            times.push(time)?;
        }
    }
    Ok(())
}

ghost use Rattle.std.specs.Prelude.{ℕ, All, List as Items, MatchOption, slice_get, Some};
ghost use Rattle.dbp_plan.specs.Ranked.{IsRanked};
ghost use Rattle.dbp_plan.specs.declared.schedule.Sample.{Sample as AnySample};
ghost use Rattle.dbp_plan.specs.declared.diagram.Task.{Task as AnyTask};
ghost use Rattle.trace_io.specs.Batches.{times_in, total_of};
ghost use Rattle.trace_io.specs.Guards.{AreAlike, HasItsSamples, HasMoreEvents, RiseInTime};

// The samples of the input; none if there is no list of them.
fn samples_at(own: &[List<Sample>], input: u32) -> &[Sample]
    ensures { result.now ≡ slice_index_or own.now input [] }
{
    match own.get(input as usize) {
        Some(samples) => samples.items(),
        None => &[],
    }
}

// How often the task with this number occurs.
fn task_count(diagram: &Diagram, events: &[List<u64>], own: &[List<Sample>], i: u32) -> u64
    requires ranked { IsRanked diagram.now }
    requires inside { i < length diagram.now.tasks }
    requires table { IsTimetable diagram.now.until events.now }
    requires rising { RiseInTime own.now }
    ensures is { (samples : Items AnySample) (t : AnyTask) → slice_get diagram.now.tasks i ≡ Some t
        → HasItsSamples samples own.now t → result ≡ length (times_in diagram.now samples events.now t) }
    ensures fits { result < 2 ^ 32 }
{
    let task = &diagram.tasks.items()[i as usize];
    match task.when {
        None => occurrences(diagram.until, events, task.clock),
        Some(input) => {
            let first = diagram.inputs.items()[input as usize].first;
            let samples = samples_at(own, input);
            count_on(diagram.until, events, task.clock, first, samples)
        }
    }
}

// The first task before this one that has its clock and its `when`, and so its times.
fn alike_before(tasks: &[Task], i: u32) -> Option<u32>
    requires { i < length tasks.now }
    ensures { MatchOption result ((j : ℕ) → j < i → AreAlike tasks.now j i → ⊥)
        (λ j. (j < i) × AreAlike tasks.now j i) }
{
    let task = &tasks[i as usize];
    for j in 0..i {
        let other = &tasks[j as usize];
        if other.clock == task.clock && other.when == task.when {
            return Some(j);
        }
    }
    None
}

// How often all tasks together occur. No tick is walked, and tasks of one clock and one `when` are counted once.
pub(crate) fn total(diagram: &Diagram, events: &[List<u64>], own: &[List<Sample>]) -> u64
    requires ranked { IsRanked diagram.now }
    requires table { IsTimetable diagram.now.until events.now }
    requires rising { RiseInTime own.now }
    ensures { (samples : Items AnySample) → All (HasItsSamples samples own.now) diagram.now.tasks
        → result ≡ total_of diagram.now samples events.now }
{
    let mut sum = 0;
    let mut counts = [0u64; MAX_TASKS as usize];
    for i in 0..diagram.tasks.len() {
        let count = match alike_before(diagram.tasks.items(), i) {
            Some(j) => counts[j as usize],
            None => task_count(diagram, events, own, i),
        };
        counts[i as usize] = count;
        sum += count;
    }
    sum
}

// The clock that the merge takes for the task with this number: the task's own, or for a task with a `when` that of one
// more event, at whose times the task occurs.
fn merge_clock(
    alloc: Global,
    diagram: &Diagram,
    events: &mut Vec<List<u64>>,
    own: &[List<Sample>],
    i: u32,
) -> Result<Clock, NoMemory>
    requires ranked { IsRanked diagram.now }
    requires inside { i < length diagram.now.tasks }
    requires table { IsTimetable diagram.now.until events.old.items }
    requires events { length diagram.now.events ≤ length events.old.items }
    requires few { length events.old.items + 1 < 2 ^ 32 }
    requires rising { RiseInTime own.now }
    ensures more { OnOk result (HasMoreEvents events.old.items events.new.items) }
    ensures few { OnOk result (length events.new.items ≤ length events.old.items + 1) }
    ensures table { OnOk result (IsTimetable diagram.now.until events.new.items) }
    ensures clock { IfOk result (IsClockOf (length events.new.items)) }
    ensures times { IfOk result (λ clock. (samples : Items AnySample) (t : AnyTask)
        → slice_get diagram.now.tasks i ≡ Some t → HasItsSamples samples own.now t
        → base_times diagram.now.until events.new.items clock
        ≡ times_in diagram.now samples events.old.items t) }
{
    let task = &diagram.tasks.items()[i as usize];
    match task.when {
        None => Ok(task.clock),
        Some(input) => {
            let first = diagram.inputs.items()[input as usize].first;
            let samples = samples_at(own, input);
            let times = times_on(alloc, diagram.until, events, task.clock, first, samples)?;
            let event = events.len() as u32;
            events.push(times)?;
            Ok(Clock::On { event })
        }
    }
}

// The clocks that the merge takes for the tasks. Tasks with a `when` have an event of their own, which those with one
// clock and one `when` share, so that their times are kept once; its times are added behind those of the diagram's
// events. Any other task keeps its clock.
pub(crate) fn merge_clocks(
    alloc: Global,
    diagram: &Diagram,
    events: &mut Vec<List<u64>>,
    own: &[List<Sample>],
) -> Result<Vec<Clock>, NoMemory>
    requires ranked { IsRanked diagram.now }
    requires table { IsTimetable diagram.now.until events.old.items }
    requires events { length events.old.items ≡ length diagram.now.events }
    requires rising { RiseInTime own.now }
    ensures table { OnOk result (IsTimetable diagram.now.until events.new.items) }
    ensures clocks { IfOk result (λ clocks. All (IsClockOf (length events.new.items)) clocks.items) }
    ensures times { IfOk result (λ clocks. (samples : Items AnySample)
        → All (HasItsSamples samples own.now) diagram.now.tasks
        → map (base_times diagram.now.until events.new.items) clocks.items
        ≡ map (times_in diagram.now samples events.old.items) diagram.now.tasks) }
{
    let mut clocks = Vec::new(alloc);
    for i in 0..diagram.tasks.len() {
        let clock = match alike_before(diagram.tasks.items(), i) {
            Some(j) => clocks[j as usize],
            None => merge_clock(alloc, diagram, events, own, i)?,
        };
        clocks.push(clock)?;
    }
    Ok(clocks)
}
