// Runs: steps that are made on the core of a document, and what is seen after them.

use crate::steps::scripts::Script;
use dbp_core::{Broken, Core, Count, Heard, Illegal, Step, Wiring};
use dbp_plan::Row;
use std::alloc::Global;
use std::process::Abort;
use std::test::Fail;
use test_inputs::{Document, is_named, plan_in};

// Steps from the start of a document's plan, the first so many of a script, and what is seen after them.
pub(crate) struct Run {
    pub(crate) document: Document,
    pub(crate) count: Count,
    pub(crate) script: Script,
    pub(crate) after: usize,
    pub(crate) seen: Seen,
}

pub(crate) enum Seen {
    // The task's row is this word.
    Row { task: u32, word: i64 },
    // The step is refused.
    Refusal { step: Step, why: Illegal },
    // The task's aim comes next, and this is the least slot for it.
    LeastAim { task: u32, slot: u32 },
    // The link's last claim is for the row with this number.
    ClaimedNumber { link: u32, number: u32 },
    // Each task has so many slots, and this rank.
    Wiring(&'static [(u32, u32)]),
}

// Makes a step, which must be named.
fn ask(core: &mut Core, step: Step) -> Result<Result<Heard, Illegal>, Fail> {
    if is_named(&core.plan().diagram, step) {
        Ok(core.step(step))
    } else {
        Err(Fail::from("unnamed"))
    }
}

// Makes the steps.
fn make(core: &mut Core, steps: &[Step]) -> Result<(), Fail> {
    for step in steps {
        if ask(core, *step)?.is_err() {
            return Err(Fail::from("refused"));
        }
    }
    Ok(())
}

// The only word of a row.
fn only_word(row: &Row) -> Result<i64, Fail> {
    match row.words() {
        [word] => Ok(*word),
        _ => Err(Fail::from("not one word")),
    }
}

// The only word of the task's row.
fn word_of(core: &Core, task: u32) -> Result<i64, Fail> {
    if task < core.plan().diagram.tasks.len() {
        only_word(core.row(task))
    } else {
        Err(Fail::from("no task"))
    }
}

// How many slots each task has, and its rank.
fn slots_and_ranks(alloc: Global, wiring: &Wiring) -> Result<Vec<(u32, u32)>, Fail> {
    let mut found = Vec::new(alloc);
    for task in wiring.tasks.items() {
        found.push((task.slots, task.rank))?;
    }
    Ok(found)
}

// The least slot that the task may be aimed at. If its aim comes next, one at a slot that no task has is refused for that
// slot, and changes nothing.
fn least_aim_of(core: &mut Core, task: u32) -> Result<u32, Fail> {
    if task >= core.plan().diagram.tasks.len() {
        return Err(Fail::from("no task"));
    }
    let far = Step::Aim {
        task,
        slot: u32::MAX,
    };
    match core.step(far) {
        Err(
            Illegal {
                broken: Broken::SlotRange,
                ..
            },
        ) => Ok(core.least_aim(task)),
        _ => Err(Fail::from("no aim comes next")),
    }
}

// The number of the link's last claim.
fn claimed_number_of(core: &Core, link: u32) -> Result<u32, Fail> {
    if link < core.plan().diagram.links.len() {
        Ok(core.claimed_number(link))
    } else {
        Err(Fail::from("no link"))
    }
}

// Compares what is seen.
fn compare(rt: &impl Abort, alloc: Global, core: &mut Core, seen: &Seen) -> Result<(), Fail> {
    match seen {
        Seen::Row { task, word } => assert_eq!(rt; word_of(core, *task)?, *word),
        // twice, since nothing changes with a refusal
        Seen::Refusal { step, why } => {
            assert_eq!(rt; ask(core, *step)?, Err(*why));
            assert_eq!(rt; ask(core, *step)?, Err(*why));
        }
        Seen::LeastAim { task, slot } => assert_eq!(rt; least_aim_of(core, *task)?, *slot),
        Seen::ClaimedNumber { link, number } => {
            assert_eq!(rt; claimed_number_of(core, *link)?, *number);
        }
        Seen::Wiring(tasks) => {
            let found = slots_and_ranks(alloc, core.wiring())?;
            assert_eq!(rt; found.as_slice(), *tasks);
        }
    }
    Ok(())
}

fn make_and_compare(
    rt: &impl Abort,
    alloc: Global,
    core: &mut Core,
    run: &Run,
) -> Result<(), Fail> {
    match run.script.steps().get(..run.after) {
        Some(steps) => make(core, steps)?,
        None => return Err(Fail::from("not so many steps")),
    }
    compare(rt, alloc, core, &run.seen)
}

// Makes the steps, and compares what is seen after them. This alone owns a core: a drop of one is a long proof.
pub(crate) fn check(rt: &impl Abort, alloc: Global, run: &Run) -> Result<(), Fail> {
    let plan = plan_in(alloc, run.document.text())?;
    let mut core = Core::new(alloc, plan, run.count)?;
    make_and_compare(rt, alloc, &mut core, run)
}
