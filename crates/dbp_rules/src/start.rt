// The state before the first step.

ghost use Rattle.std.specs.Prelude.{◌≡◌, ◌<◌, ◌≤◌, ◌^◌, IfOk, length, map, replicate};
ghost use Rattle.std.specs.List.{range_with_len};
ghost use Rattle.dbp_plan.specs.Closed.{place_count};
ghost use Rattle.dbp_plan.specs.declared.limits.TheConstants.{MAX_BODY, MAX_OUTS};
ghost use Rattle.dbp_plan.specs.Lookups.{declared_task};
ghost use Rattle.dbp_rules.specs.Lookups.{no_link_entry, no_order, wired_task};
ghost use Rattle.dbp_rules.specs.Listing.{with_releases};
ghost use Rattle.dbp_rules.specs.Shapes.{IsWired};
ghost use Rattle.dbp_rules.specs.Start as start;

use crate::parts::{LinkEntry, Order, Place, ReleaserPart, TaskEntry, TaskPart};
use crate::state::{Slot, State, TaskState, TaskWords};
use crate::wiring::{TaskWiring, Wiring};
use crate::work::Work;
use arrayvec::ArrayVec;
use dbp_plan::{List, NoMemory, Plan, Task};
use std::alloc::Global;

// The item, so many times.
fn filled<T: Copy>(alloc: Global, count: u32, item: T) -> Result<List<T>, NoMemory>
    ensures { IfOk result (λ list. list ≡ replicate count item) }
{
    let mut list = List::new(alloc);
    for _ in 0..count {
        list.push(item)?;
    }
    Ok(list)
}

fn start_entry(alloc: Global, wired: &TaskWiring) -> Result<TaskEntry, NoMemory>
    ensures { IfOk result (λ entry. entry ≡ start.start_entry wired.now) }
{
    Ok(TaskEntry {
        known: 0,
        aimed: 0,
        current: 0,
        kept: filled(alloc, wired.kept, 0)?,
    })
}

fn start_entries(alloc: Global, tasks: &List<TaskWiring>) -> Result<List<TaskEntry>, NoMemory>
    ensures { IfOk result (λ entries. entries ≡ map start.start_entry tasks.now) }
{
    let mut entries = List::new(alloc);
    for task in tasks.items() {
        entries.push(start_entry(alloc, task)?)?;
    }
    Ok(entries)
}

// The slots of a task, of which the first one holds the row.
fn start_slots(alloc: Global, wired: &TaskWiring, row: &[i64]) -> Result<List<Slot>, NoMemory>
    requires slots { 0 < wired.now.slots }
    requires row { length row.now < 2 ^ 32 }
    ensures { IfOk result (λ slots. slots ≡ start.start_slots wired.now row.now) }
{
    let mut words = List::new(alloc);
    words.extend_from_slice(row)?;
    let mut slots = List::new(alloc);
    slots.push(Slot { stamp: 1, words })?;
    for _ in 1..wired.slots {
        let words = filled(alloc, wired.ports, 0)?;
        slots.push(Slot { stamp: 0, words })?;
    }
    Ok(slots)
}

fn start_task(alloc: Global, wired: &TaskWiring, task: &Task) -> Result<TaskState, NoMemory>
    requires slots { 0 < wired.now.slots }
    requires places { place_count task.now ≤ MAX_BODY }
    requires outs { length task.now.outs ≤ MAX_OUTS }
    ensures { IfOk result (λ state. state ≡ start.start_task wired.now task.now) }
{
    let work = Work::start(alloc, task)?;
    Ok(TaskState {
        words: TaskWords {
            gate: 0,
            ended: 0,
            aim: Order { slot: 0, number: 0 },
            slots: start_slots(alloc, wired, work.row().words())?,
        },
        part: TaskPart::first(),
        work,
    })
}

fn start_tasks(alloc: Global, plan: &Plan, wiring: &Wiring) -> Result<List<TaskState>, NoMemory>
    requires { IsWired plan.now (with_releases plan.now wiring.now) }
    ensures { IfOk result (λ tasks. tasks ≡ map (λ i. start.start_task (wired_task wiring.now i) (declared_task plan.now i)) (range_with_len 0 (length wiring.now.tasks))) }
{
    let mut tasks = List::new(alloc);
    for i in 0..wiring.tasks.len() {
        let wired = &wiring.tasks.items()[i as usize];
        let declared = &plan.diagram.tasks.items()[i as usize];
        let task = start_task(alloc, wired, declared)?;
        tasks.push(task)?;
    }
    Ok(tasks)
}

impl TaskPart {
    /// A task's part before the first step: no instance has ended, and the next one has heard nothing.
    pub fn first() -> TaskPart
        ensures { result ≡ start.first_part }
    {
        TaskPart {
            ended: 0,
            place: Place::Idle,
            heard: ArrayVec::new(),
        }
    }
}

impl ReleaserPart {
    /// The releaser's part before the first step: nothing is aimed, and nothing is claimed.
    pub fn start(alloc: Global, wiring: &Wiring) -> Result<ReleaserPart, NoMemory>
        ensures { IfOk result (λ part. part ≡ start.start_releaser wiring.now) }
    {
        let none = LinkEntry {
            slot: 0,
            number: 0,
            instance: 0,
        };
        Ok(ReleaserPart {
            place: 0,
            tasks: start_entries(alloc, &wiring.tasks)?,
            links: filled(alloc, wiring.links.len(), none)?,
        })
    }
}

/// The state before the first step: nothing is aimed, and slot 0 of each task holds its first values. The wiring may have
/// any list in place of the releaser's actions.
pub fn start_state(alloc: Global, plan: &Plan, wiring: &Wiring) -> Result<State, NoMemory>
    requires { IsWired plan.now (with_releases plan.now wiring.now) }
    ensures { IfOk result (λ state. state ≡ start.start_of plan.now wiring.now) }
{
    Ok(State {
        releaser: ReleaserPart::start(alloc, wiring)?,
        tasks: start_tasks(alloc, plan, wiring)?,
        orders: filled(alloc, wiring.links.len(), Order { slot: 0, number: 0 })?,
    })
}
