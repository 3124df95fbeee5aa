// Which diagrams have a scenario of a task.

ghost use Rattle.std.specs.Prelude.{◌≡◌, ◌<◌, length};
ghost use Rattle.std.specs.List.{find, list_any, position, range_with_len};
ghost use Rattle.dbp_plan.specs.Ranked.{IsRanked};
ghost use Rattle.slot_need.specs.Faults.{is_off_events, is_same_event, is_sharing, need_fault};

use crate::NeedFail;
use crate::firings::scenario_end;
use dbp_plan::{Clock, Diagram, MAX_TIME, ServedBy, Task};

// Whether the task is periodic, or occurs only where an input isn't 0.
fn is_off_events(task: &Task) -> bool
    ensures { result ≡ is_off_events task.now }
{
    matches!(task.clock, Clock::Every { .. }) || task.when.is_some()
}

// Whether both clocks are the same event.
fn is_same_event(a: Clock, b: Clock) -> bool
    ensures { result ≡ is_same_event a b }
{
    match (a, b) {
        (Clock::On { event }, Clock::On { event: other }) => event == other,
        _ => false,
    }
}

// Whether one of the tasks is on this event.
fn is_taken(tasks: &[Task], clock: Clock) -> bool
    ensures { result ≡ list_any (λ t. is_same_event t.clock clock) tasks.now }
{
    tasks.iter().any(|task| is_same_event(task.clock, clock))
}

// Whether the task is on the event of an earlier one.
fn is_sharing(diagram: &Diagram, task: u32) -> bool
    requires { task < length diagram.now.tasks }
    ensures { result ≡ is_sharing diagram.now task }
{
    let tasks = diagram.tasks.items();
    let task = task as usize;
    is_taken(&tasks[..task], tasks[task].clock)
}

// The first task that is on the event of an earlier one.
fn first_sharing(diagram: &Diagram) -> Option<u32>
    ensures { result ≡ find (is_sharing diagram.now) (range_with_len 0 (length diagram.now.tasks)) }
{
    for task in 0..diagram.tasks.len() {
        if is_sharing(diagram, task) {
            return Some(task);
        }
    }
    None
}

// The first task that is periodic, or occurs only where an input isn't 0.
fn first_off_events(tasks: &[Task]) -> Option<usize>
    ensures { result ≡ position is_off_events tasks.now }
{
    tasks.iter().position(|task| is_off_events(task))
}

// Why the task has no scenario, if it has none.
pub(crate) fn fault(diagram: &Diagram, task: u32) -> Option<NeedFail>
    requires ranked { IsRanked diagram.now }
    requires task { task < length diagram.now.tasks }
    ensures { result ≡ need_fault diagram.now task }
{
    if diagram.policy.served_by() == ServedBy::Deadline {
        return Some(NeedFail::NotFixed);
    }
    if let Some(off) = first_off_events(diagram.tasks.items()) {
        return Some(NeedFail::NotOnEvents { task: off as u32 });
    }
    if let Some(shared) = first_sharing(diagram) {
        return Some(NeedFail::SharedEvent { task: shared });
    }
    let until = scenario_end(diagram, task);
    if until > MAX_TIME {
        return Some(NeedFail::TooLong { until });
    }
    None
}
