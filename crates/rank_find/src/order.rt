// The order of a diagram's tasks.

ghost use Rattle.std.specs.Prelude.{◌≡◌, ◌<◌, Contains, IfOk, IfSome, MatchBool, MatchOption, length, true};
ghost use Rattle.dbp_plan.specs.Closed.{IsClosed};
ghost use Rattle.rank_find.specs.Links.{AreWriters};
ghost use Rattle.rank_find.specs.Orders.{IsFirstFree, IsFree, is_first_of, is_shorter};
ghost use Rattle.rank_find.specs.Fronts.{AllWait, IsFront, IsReady, IsUnready, Waits};

use crate::links::is_among;
use dbp_plan::{Clock, Diagram, List, NoMemory};
use std::alloc::Global;

// Whether the one clock is of the shorter period; an event is longer than all periods.
fn is_shorter(clock: Clock, other: Clock) -> bool
    ensures { result ≡ is_shorter clock other }
{
    match (clock, other) {
        (Clock::Every { period, .. }, Clock::Every { period: other, .. }) => period < other,
        (Clock::Every { .. }, Clock::On { .. }) => true,
        (Clock::On { .. }, _) => false,
    }
}

// Whether the one task is before the other.
fn is_first_of(diagram: &Diagram, task: u32, other: u32) -> bool
    requires { (task < length diagram.now.tasks) × (other < length diagram.now.tasks) }
    ensures { result ≡ is_first_of diagram.now task other }
{
    let tasks = diagram.tasks.items();
    let clock = tasks[task as usize].clock;
    let another = tasks[other as usize].clock;
    is_shorter(clock, another) || (!is_shorter(another, clock) && task < other)
}

// Whether the task is before the other, if there is another.
fn is_before(diagram: &Diagram, task: u32, other: Option<u32>) -> bool
    requires task { task < length diagram.now.tasks }
    requires other { IfSome other (λ other. other < length diagram.now.tasks) }
    ensures { MatchOption other (result ≡ true) (λ other. result ≡ is_first_of diagram.now task other) }
{
    match other {
        None => true,
        Some(other) => is_first_of(diagram, task, other),
    }
}

// Whether all of these writers are placed.
fn is_ready(writers: &[u32], placed: &[u32]) -> bool
    ensures { MatchBool result (IsReady writers.now placed.now) (IsUnready writers.now placed.now) }
{
    for writer in writers {
        if !is_among(*writer, placed) {
            return false;
        }
    }
    true
}

// Whether the task isn't placed, and all that write directly to it are.
fn is_free(diagram: &Diagram, writers: &[List<u32>], placed: &[u32], task: u32) -> bool
    requires writers { AreWriters diagram.now writers.now }
    requires task { task < length diagram.now.tasks }
    ensures { MatchBool result (IsFree diagram.now placed.now task)
        ((Contains placed.now task → ⊥) → Waits diagram.now placed.now task) }
{
    !is_among(task, placed) && is_ready(writers[task as usize].items(), placed)
}

// The first of the free tasks.
fn first_free(diagram: &Diagram, writers: &[List<u32>], placed: &[u32]) -> Option<u32>
    requires { AreWriters diagram.now writers.now }
    ensures { MatchOption result (AllWait diagram.now placed.now) (IsFirstFree diagram.now placed.now) }
{
    let mut first = None;
    for task in 0..diagram.tasks.len() {
        if is_free(diagram, writers, placed, task) && is_before(diagram, task, first) {
            first = Some(task);
        }
    }
    first
}

// The order of the tasks, as far as it goes: each time the first of the free tasks.
pub(crate) fn front_of_order(
    alloc: Global,
    diagram: &Diagram,
    writers: &[List<u32>],
) -> Result<List<u32>, NoMemory>
    requires closed { IsClosed diagram.now }
    requires writers { AreWriters diagram.now writers.now }
    ensures front { IfOk result (λ placed. IsFront diagram.now placed) }
    ensures end { IfOk result (λ placed. AllWait diagram.now placed) }
{
    let mut placed = List::new(alloc);
    while let Some(next) = first_free(diagram, writers, placed.items()) {
        placed.push(next)?;
    }
    Ok(placed)
}
