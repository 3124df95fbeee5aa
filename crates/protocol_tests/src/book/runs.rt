// The releaser's book: which step comes next by the numbers that it hears, from the first action to the end.

ghost use Rattle.std.specs.Prelude.{IsTrue};
ghost use Rattle.dbp_rules.specs.Wired.{wiring_of};
ghost use Rattle.dbp_rules.specs.declared.step.Count.TheVariants.{All};
ghost use Rattle.release_book.specs.Books.{IsBookOf, part_in};
ghost use Rattle.release_book.specs.NextStep.{IsNextStep, MayHear};
ghost use Rattle.release_book.specs.declared.release_step.ReleaseStep.TheVariants.{Seen};

use crate::book::turns::{THREE, TWO, Turn};
use dbp_plan::Plan;
use dbp_rules::{ReleaserPart, Step};
use release_book::{Book, ReleaseStep};
use std::alloc::Global;
use std::process::Abort;
use std::test::Fail;
use test_inputs::{THREE_RATES, TWO_RATES, plan_in};

// Whether the releaser may hear this number at the task's seen.
fn may_see(part: &ReleaserPart, task: u32, heard: u32) -> bool
    ensures { IsTrue result → MayHear part.now (Seen task) heard }
{
    if task < part.tasks.len() {
        let entry = part.entry(task);
        entry.known <= heard && heard <= entry.aimed
    } else {
        false
    }
}

// Whether the number is one that the step may hear.
fn may_hear(part: &ReleaserPart, step: ReleaseStep, heard: u32) -> bool
    ensures { IsTrue result → MayHear part.now step heard }
{
    match step {
        ReleaseStep::Seen { task } => may_see(part, task, heard),
        ReleaseStep::Aim { .. } => true,
        ReleaseStep::Claim { .. } => true,
        ReleaseStep::OpenGate { .. } => true,
        ReleaseStep::Finished => true,
    }
}

// Notes the step in the book, which has returned it.
fn note(book: &mut Book, plan: &Plan, step: ReleaseStep, heard: u32) -> Result<(), Fail>
    requires book { IsBookOf book.old plan.now }
    requires next { IsNextStep (wiring_of plan.now All) (part_in book.old) step }
    ensures { IsBookOf book.new plan.now }
{
    if may_hear(book.part(), step, heard) {
        book.made(plan, step, heard);
        Ok(())
    } else {
        Err(Fail::from("a number that can't be heard"))
    }
}

// The book's next step is this one, and the book notes it.
fn release(
    rt: &impl Abort,
    book: &mut Book,
    plan: &Plan,
    step: Step,
    heard: u32,
) -> Result<(), Fail>
    requires { IsBookOf book.old plan.now }
    ensures { IsBookOf book.new plan.now }
{
    let next = book.next(plan);
    assert_eq!(rt; next.step(), Some(step));
    note(book, plan, next, heard)
}

// Makes what comes next.
fn take_turn(rt: &impl Abort, book: &mut Book, plan: &Plan, turn: Turn) -> Result<(), Fail>
    requires { IsBookOf book.old plan.now }
    ensures { IsBookOf book.new plan.now }
{
    match turn {
        Turn::Sees { task, ended } => release(rt, book, plan, Step::Seen { task }, ended),
        Turn::Orders(step) => release(rt, book, plan, step, 0),
    }
}

// Goes through the turns, after which the book has finished.
fn take_turns(rt: &impl Abort, book: &mut Book, plan: &Plan, turns: &[Turn]) -> Result<(), Fail>
    requires { IsBookOf book.old plan.now }
{
    for turn in turns {
        take_turn(rt, book, plan, *turn)?;
    }
    let last = book.next(plan);
    assert_eq!(rt; last, ReleaseStep::Finished);
    assert_eq!(rt; last.step(), None);
    Ok(())
}

// Makes a book, and lends it.
fn run_plan(rt: &impl Abort, alloc: Global, plan: &Plan, turns: &[Turn]) -> Result<(), Fail> {
    let mut book = Book::new(alloc, plan)?;
    take_turns(rt, &mut book, plan, turns)
}

// Makes the document's plan, and lends it.
fn run(rt: &impl Abort, alloc: Global, document: &str, turns: &[Turn]) -> Result<(), Fail> {
    let plan = plan_in(alloc, document)?;
    run_plan(rt, alloc, &plan, turns)
}

#[test]
fn a_book_goes_from_the_first_action_to_the_end(rt: HostRuntime) -> Result<(), Fail> {
    run(&rt, rt.alloc(), TWO_RATES, TWO)?;
    run(&rt, rt.alloc(), THREE_RATES, THREE)
}
