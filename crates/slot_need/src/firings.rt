// Who fires when.

ghost use Rattle.std.specs.Prelude.{◌≡◌, ◌<◌, ◌≤◌, ◌==◌, ◌&&◌, length};
ghost use Rattle.std.specs.List.{list_any, position};
ghost use Rattle.dbp_plan.specs.Ranked.{IsRanked};
ghost use Rattle.slot_need.specs.Scenarios.{firing_count, firing_of_event, firing_of_task, group_size, is_lower_reader, is_on, lower_readers, scenario_end};

use crate::column::Firing;
use arrayvec::ArrayVec;
use dbp_plan::{Clock, Diagram, Link, MAX_TASKS, Task};
use dbp_slots::counts;

// Readers of a task, at most.
const MAX_READERS: usize = MAX_TASKS as usize;

const _: () = prove!(MAX_READERS == 32);

// Whether some link leads from the task to the reader.
fn is_linked(links: &[Link], task: u32, reader: u32) -> bool
    ensures { result ≡ list_any (λ l. (l.writer == task) && (l.reader == reader)) links.now }
{
    links
        .iter()
        .any(|link| link.writer == task && link.reader == reader)
}

// Whether the other task reads the task and is ranked below it.
fn is_lower_reader(diagram: &Diagram, task: u32, other: u32) -> bool
    requires ranked { IsRanked diagram.now }
    requires task { task < length diagram.now.tasks }
    requires other { other < length diagram.now.tasks }
    ensures { result ≡ is_lower_reader diagram.now task other }
{
    let ranks = diagram.ranks.items();
    ranks[task as usize] < ranks[other as usize] && is_linked(diagram.links.items(), task, other)
}

// The readers that are ranked below the task, each once, by number.
pub(crate) fn lower_readers(diagram: &Diagram, task: u32) -> ArrayVec<u32, MAX_READERS>
    requires ranked { IsRanked diagram.now }
    requires task { task < length diagram.now.tasks }
    ensures { result.items ≡ lower_readers diagram.now task }
{
    let mut readers = ArrayVec::new();
    for reader in 0..diagram.tasks.len() {
        if is_lower_reader(diagram, task, reader) {
            readers.push(reader);
        }
    }
    readers
}

// How many firings are a group.
fn group_size(diagram: &Diagram, task: u32) -> u32
    requires ranked { IsRanked diagram.now }
    requires task { task < length diagram.now.tasks }
    ensures size { result ≡ group_size diagram.now task }
    ensures some { 1 ≤ result }
    ensures few { result ≤ 9 }
{
    counts(diagram, task).delayed + 1
}

// How often the task fires.
pub(crate) fn firing_count(diagram: &Diagram, task: u32) -> u32
    requires ranked { IsRanked diagram.now }
    requires task { task < length diagram.now.tasks }
    ensures count { result ≡ firing_count diagram.now task }
    ensures some { 1 ≤ result }
    ensures few { result ≤ 297 }
{
    let readers = lower_readers(diagram, task).len() as u32;
    (readers + 1) * group_size(diagram, task)
}

// The tick after the last firing.
pub(crate) fn scenario_end(diagram: &Diagram, task: u32) -> u64
    requires ranked { IsRanked diagram.now }
    requires task { task < length diagram.now.tasks }
    ensures { result ≡ scenario_end diagram.now task }
{
    let cost = diagram.tasks.items()[task as usize].cost;
    u64::from(firing_count(diagram, task) - 1) * cost + 1
}

// The place of the task among the readers.
fn place_of(readers: &[u32], task: u32) -> Option<usize>
    ensures { result ≡ position (λ r. r == task) readers.now }
{
    readers.iter().position(|reader| *reader == task)
}

// At which firings of the task the other task fires, if these are the readers below it.
fn firing_of_task(diagram: &Diagram, task: u32, readers: &[u32], other: u32) -> Firing
    requires ranked { IsRanked diagram.now }
    requires task { task < length diagram.now.tasks }
    requires readers { readers.now ≡ lower_readers diagram.now task }
    ensures { result ≡ firing_of_task diagram.now task other }
{
    if other == task {
        return Firing::Each;
    }
    match place_of(readers, other) {
        Some(place) => Firing::Once {
            at: (place as u32 + 1) * group_size(diagram, task) - 1,
        },
        None => Firing::Never,
    }
}

// Whether the clock is the event.
fn is_on(event: u32, clock: Clock) -> bool
    ensures { result ≡ is_on event clock }
{
    match clock {
        Clock::Every { .. } => false,
        Clock::On { event: other } => other == event,
    }
}

// The first of the tasks that is on the event.
fn first_on(tasks: &[Task], event: u32) -> Option<usize>
    ensures { result ≡ position (λ t. is_on event t.clock) tasks.now }
{
    tasks.iter().position(|task| is_on(event, task.clock))
}

// At which firings of the task the event occurs, if these are the readers below the task.
pub(crate) fn firing_of_event(diagram: &Diagram, task: u32, readers: &[u32], event: u32) -> Firing
    requires ranked { IsRanked diagram.now }
    requires task { task < length diagram.now.tasks }
    requires readers { readers.now ≡ lower_readers diagram.now task }
    ensures { result ≡ firing_of_event diagram.now task event }
{
    match first_on(diagram.tasks.items(), event) {
        Some(other) => firing_of_task(diagram, task, readers, other as u32),
        None => Firing::Never,
    }
}
