// What a wiring, a state and a work have.

ghost use Rattle.std.specs.Prelude.{◌≤◌, IsTrue, length};
ghost use Rattle.dbp_plan.specs.Closed.{place_count};

use dbp_plan::{MAX_BODY, Row, Task};
use dbp_rules::{ReadWiring, Slot, TaskState, TaskWiring, Work};
use std::alloc::Global;
use std::process::Abort;
use std::test::Fail;

// Of each task its outs, slots, kept slots and rank, and then the times of its instances.
fn numbers_of(alloc: Global, tasks: &[TaskWiring]) -> Result<Vec<u64>, Fail> {
    let mut found = Vec::new(alloc);
    for task in tasks {
        found.extend_from_slice(&[
            u64::from(task.ports),
            u64::from(task.slots),
            u64::from(task.kept),
            u64::from(task.rank),
        ])?;
        found.extend_from_slice(task.times.items())?;
    }
    Ok(found)
}

static NUMBERS: &[u64] = &[1, 2, 0, 0, 0, 2, 4, 1, 1, 0, 1, 0, 3];

// Task b at its only read, whose order it hears after its own.
static READS: &[ReadWiring] = &[ReadWiring {
    read: 0,
    order: 1,
    writer: 0,
    port: 0,
}];

// Compares the wiring of `TWO_RATES`.
pub(crate) fn compare_wiring(
    rt: &impl Abort,
    alloc: Global,
    tasks: &[TaskWiring],
) -> Result<(), Fail> {
    assert_eq!(rt; numbers_of(alloc, tasks)?.as_slice(), NUMBERS);
    match tasks.get(1) {
        Some(b) => assert_eq!(rt; b.reads.items(), READS),
        None => return Err(Fail::from("not two tasks")),
    }
    Ok(())
}

// Of each slot the stamp, and then its words.
fn words_of(alloc: Global, slots: &[Slot]) -> Result<Vec<i64>, Fail> {
    let mut found = Vec::new(alloc);
    for slot in slots {
        found.push(i64::from(slot.stamp))?;
        found.extend_from_slice(slot.words.items())?;
    }
    Ok(found)
}

// Three slots of one word, of which the first is stamped.
static SLOTS: &[i64] = &[1, 0, 0, 0, 0, 0];

// Compares the first state of `THREE_RATES`: the slots of its first task, and the row of its last.
pub(crate) fn compare_state(
    rt: &impl Abort,
    alloc: Global,
    tasks: &[TaskState],
) -> Result<(), Fail> {
    let [a, _, h] = tasks else {
        return Err(Fail::from("not three tasks"));
    };
    assert_eq!(rt; words_of(alloc, a.words.slots.items())?.as_slice(), SLOTS);
    assert_eq!(rt; only_word(h.work.row())?, -1);
    Ok(())
}

// The only word of a row.
fn only_word(row: &Row) -> Result<i64, Fail> {
    match row.words() {
        [word] => Ok(*word),
        _ => Err(Fail::from("not one word")),
    }
}

// The row of one word that the task's work starts with.
fn first_word(alloc: Global, task: &Task) -> Result<i64, Fail> {
    if !is_small(task) {
        return Err(Fail::from("too large a task"));
    }
    let work = Work::start(alloc, task)?;
    only_word(work.row())
}

// Whether the task's places and outs are as few as a work takes.
fn is_small(task: &Task) -> bool
    ensures { IsTrue result → (place_count task.now ≤ MAX_BODY) × (length task.now.outs ≤ 8) }
{
    let given = task.states.items().len() + task.senses.items().len() + task.reads.items().len();
    given + task.lets.items().len() <= MAX_BODY as usize && task.outs.len() <= 8
}

// The row of one word that each task's work starts with.
pub(crate) fn first_words(alloc: Global, tasks: &[Task]) -> Result<Vec<i64>, Fail> {
    let mut words = Vec::new(alloc);
    for task in tasks {
        words.push(first_word(alloc, task)?)?;
    }
    Ok(words)
}
