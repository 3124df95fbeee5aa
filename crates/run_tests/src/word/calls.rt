// The calls of the seats, each after asking the part of its seat, and what the calls return.

ghost use Rattle.std.specs.Prelude.{◌≡◌, None, OnOk};
ghost use Rattle.dbp_rules.specs.PartyRules.{task_refusal};
ghost use Rattle.dbp_rules.specs.Lookups.{wired_task};
ghost use Rattle.sync_meaning.specs.SomeMeaning.{meaning_of};
ghost use Rattle.word_rule.specs.Seats.{ReleaserSits, TaskSits};

use crate::word::meant::word_of;
use dbp_plan::Table;
use dbp_rules::{Order, Step};
use std::process::Abort;
use std::test::Fail;
use test_inputs::is_named;
use word_rule::{Look, Opened, ReleaserSeat, SlotWords, TaskSeat};

// A call of a task's seat, with what it returns. A look and a take are of the first read, and a put is of the first out.
pub(crate) enum TaskCall {
    Start(Opened),
    Hear(Order),
    Look(Look),
    Take(i64),
    Shut,
    Put,
    Done,
    End,
}

// Makes the step, which stores a word, if the releaser's part allows it.
pub(crate) fn release(words: &SlotWords, seat: &mut ReleaserSeat, step: Step) -> Result<(), Fail>
    requires { ReleaserSits words.now seat.old }
    ensures { ReleaserSits words.now seat.new }
{
    if !is_named(&words.plan().diagram, step) {
        return Err(Fail::from("unnamed"));
    }
    if seat.refusal(words, step).is_some() {
        return Err(Fail::from("not allowed"));
    }
    match step {
        Step::Aim { task, slot } => words.aim(seat, task, slot),
        Step::Claim { link } => words.claim(seat, link),
        Step::OpenGate { task } => words.open_gate(seat, task),
        _ => return Err(Fail::from("it loads a word")),
    }
    Ok(())
}

// How many instances of the task have ended.
pub(crate) fn seen(words: &SlotWords, seat: &mut ReleaserSeat, task: u32) -> Result<u32, Fail>
    requires { ReleaserSits words.now seat.old }
    ensures { ReleaserSits words.now seat.new }
{
    if task < words.plan().diagram.tasks.len() {
        Ok(words.seen(seat, task))
    } else {
        Err(Fail::from("no such task"))
    }
}

// Fails if the task's part doesn't allow the step.
fn ask(words: &SlotWords, seat: &TaskSeat, step: Step) -> Result<(), Fail>
    requires { TaskSits words.now seat.now }
    ensures { OnOk result (task_refusal (wired_task words.now.wiring seat.now.task) seat.now.part step ≡ None) }
{
    if seat.refusal(words, step).is_some() {
        return Err(Fail::from("not allowed"));
    }
    Ok(())
}

// Puts the task's first out, by the table of the meaning.
fn put(words: &SlotWords, seat: &mut TaskSeat, table: &Table) -> Result<(), Fail>
    requires here { TaskSits words.now seat.old }
    requires table { table.now ≡ meaning_of words.now.plan }
    ensures { TaskSits words.now seat.new }
{
    let task = seat.task();
    ask(words, seat, Step::Put { task, port: 0 })?;
    let value = word_of(table, task, seat.part().ended + 1, 0)?;
    words.put(seat, 0, value);
    Ok(())
}

// Makes the call, and compares what it returns. A put is by the table of the meaning.
pub(crate) fn make(
    rt: &impl Abort,
    words: &SlotWords,
    table: &Table,
    seat: &mut TaskSeat,
    call: &TaskCall,
) -> Result<(), Fail>
    requires table { table.now ≡ meaning_of words.now.plan }
    requires here { TaskSits words.now seat.old }
    ensures { TaskSits words.now seat.new }
{
    let task = seat.task();
    match call {
        TaskCall::Start(opened) => {
            ask(words, seat, Step::Start { task })?;
            assert_eq!(rt; words.start(seat), *opened);
        }
        TaskCall::Hear(order) => {
            ask(words, seat, Step::Hear { task })?;
            assert_eq!(rt; words.hear(seat), *order);
        }
        TaskCall::Look(look) => {
            ask(words, seat, Step::Look { task, read: 0 })?;
            assert_eq!(rt; words.look(seat, 0), *look);
        }
        TaskCall::Take(word) => {
            ask(words, seat, Step::Take { task, read: 0 })?;
            assert_eq!(rt; words.take(seat, 0), *word);
        }
        TaskCall::Shut => {
            ask(words, seat, Step::Shut { task })?;
            words.shut(seat);
        }
        TaskCall::Put => put(words, seat, table)?,
        TaskCall::Done => {
            ask(words, seat, Step::Done { task })?;
            words.done(seat);
        }
        TaskCall::End => {
            ask(words, seat, Step::End { task })?;
            words.end(seat);
        }
    }
    Ok(())
}
