// The words that parties share, and their seats: one call after another.
//
// Public clauses leave open which number a `Closed`, a `NotYet` and a `seen` return. This test finds a `start` that
// returns `Closed` at an open gate or names another gate, a `look` that returns `NotYet` at the ordered row or names
// another stamp, and a `seen` that returns the number that was known before.

ghost use Rattle.std.specs.Prelude.{◌≡◌};
ghost use Rattle.sync_meaning.specs.SomeMeaning.{meaning_of};
ghost use Rattle.word_rule.specs.FirstSeats.{AreFirstTasks};
ghost use Rattle.word_rule.specs.Seats.{ReleaserSits, TaskSits};

use crate::word::calls::{TaskCall, make, release, seen};
use dbp_plan::{Plan, Table};
use dbp_rules::{Order, Step};
use std::alloc::Global;
use std::process::Abort;
use std::test::Fail;
use sync_meaning::mean;
use test_inputs::{TWO_RATES, plan_in};
use word_rule::{Look, Opened, ReleaserSeat, SlotWords, TaskSeat};

// A step of the releaser that stores a word, a task with the number of its instances that the releaser sees ended, or a
// call of one of the two tasks.
enum Call {
    Release(Step),
    Seen(u32, u32),
    A(TaskCall),
    B(TaskCall),
}

// Task b reads what a's first two instances give.
static CALLS: &[Call] = &[
    // the first release of both tasks, of which the first asks before its gate is open
    Call::Release(Step::Aim { task: 0, slot: 0 }),
    Call::Release(Step::Aim { task: 1, slot: 0 }),
    Call::Release(Step::Claim { link: 0 }),
    Call::A(TaskCall::Start(Opened::Closed { gate: 0 })),
    Call::Seen(0, 0),
    Call::Release(Step::OpenGate { task: 0 }),
    Call::Release(Step::OpenGate { task: 1 }),
    // task b starts, hears its orders, and waits for a, which shuts its slot
    Call::B(TaskCall::Start(Opened::Started)),
    Call::B(TaskCall::Hear(Order { slot: 0, number: 1 })),
    Call::B(TaskCall::Hear(Order { slot: 0, number: 1 })),
    Call::B(TaskCall::Look(Look::NotYet { stamp: 1 })),
    Call::A(TaskCall::Start(Opened::Started)),
    Call::A(TaskCall::Hear(Order { slot: 0, number: 1 })),
    Call::A(TaskCall::Shut),
    Call::B(TaskCall::Look(Look::NotYet { stamp: 0 })),
    // task a fills its slot, and b takes its word from there
    Call::A(TaskCall::Put),
    Call::B(TaskCall::Look(Look::NotYet { stamp: 0 })),
    Call::A(TaskCall::Done),
    Call::B(TaskCall::Look(Look::Ready)),
    Call::B(TaskCall::Take(1)),
    // task a ends its instance, and finds its gate closed for the next one until that is released
    Call::A(TaskCall::End),
    Call::A(TaskCall::Start(Opened::Closed { gate: 1 })),
    Call::Seen(0, 1),
    Call::Release(Step::Aim { task: 0, slot: 1 }),
    Call::Release(Step::OpenGate { task: 0 }),
    // task a makes all steps of its second instance
    Call::A(TaskCall::Start(Opened::Started)),
    Call::A(TaskCall::Hear(Order { slot: 1, number: 2 })),
    Call::A(TaskCall::Shut),
    Call::A(TaskCall::Put),
    Call::A(TaskCall::Done),
    Call::A(TaskCall::End),
    Call::A(TaskCall::Start(Opened::Closed { gate: 2 })),
    Call::Seen(0, 2),
    // task b ends its first instance, and its second one is released
    Call::B(TaskCall::Shut),
    Call::B(TaskCall::Put),
    Call::B(TaskCall::Done),
    Call::B(TaskCall::End),
    Call::Seen(1, 1),
    Call::Release(Step::Aim { task: 1, slot: 0 }),
    Call::Release(Step::Claim { link: 0 }),
    Call::Release(Step::OpenGate { task: 1 }),
    // task b takes the word of a's second instance
    Call::B(TaskCall::Start(Opened::Started)),
    Call::B(TaskCall::Hear(Order { slot: 0, number: 2 })),
    Call::B(TaskCall::Hear(Order { slot: 1, number: 2 })),
    Call::B(TaskCall::Look(Look::Ready)),
    Call::B(TaskCall::Take(2)),
];

// The releaser and the two tasks make these calls.
fn make_all(
    rt: &impl Abort,
    words: &SlotWords,
    table: &Table,
    releaser: &mut ReleaserSeat,
    a: &mut TaskSeat,
    b: &mut TaskSeat,
    calls: &[Call],
) -> Result<(), Fail>
    requires table { table.now ≡ meaning_of words.now.plan }
    requires releaser { ReleaserSits words.now releaser.old }
    requires a { TaskSits words.now a.old }
    requires b { TaskSits words.now b.old }
{
    for call in calls {
        match call {
            Call::Release(step) => release(words, releaser, *step)?,
            Call::Seen(task, ended) => assert_eq!(rt; seen(words, releaser, *task)?, *ended),
            Call::A(made) => make(rt, words, table, a, made)?,
            Call::B(made) => make(rt, words, table, b, made)?,
        }
    }
    Ok(())
}

// The tasks are these two.
fn share(
    rt: &impl Abort,
    words: &SlotWords,
    table: &Table,
    releaser: &mut ReleaserSeat,
    seats: &mut [TaskSeat],
) -> Result<(), Fail>
    requires table { table.now ≡ meaning_of words.now.plan }
    requires releaser { ReleaserSits words.now releaser.old }
    requires tasks { AreFirstTasks words.now seats.old }
{
    let [a, b] = seats else {
        return Err(Fail::from("not two tasks"));
    };
    make_all(rt, words, table, releaser, a, b, CALLS)
}

// The plan, played so by its words. The table is what it means.
fn play_plan(rt: &impl Abort, alloc: Global, plan: Plan, table: &Table) -> Result<(), Fail>
    requires { table.now ≡ meaning_of plan }
{
    let (words, mut releaser, mut seats) = SlotWords::new(alloc, plan)?;
    share(rt, &words, table, &mut releaser, seats.items_mut())
}

// The plan that the text spells.
fn play(rt: &impl Abort, alloc: Global, text: &str) -> Result<(), Fail> {
    let plan = plan_in(alloc, text)?;
    let table = mean(alloc, &plan)?;
    play_plan(rt, alloc, plan, &table)
}

#[test]
fn parties_share_words(rt: HostRuntime) -> Result<(), Fail> {
    play(&rt, rt.alloc(), TWO_RATES)
}
