// Whole runs: what turns answer, and the rows at the end, which are those of the meaning.

ghost use Rattle.std.specs.Prelude.{IfOk};
ghost use Rattle.party_turns.specs.Parties.{AreParties, HaveFinished};

use crate::crew::runs::have_meaning;
use crate::party::turns::{have_finished, turn_of};
use dbp_plan::{List, Plan};
use party_turns::{Cause, Party, Turn, parties};
use std::alloc::Global;
use std::process::Abort;
use std::test::Fail;
use test_inputs::{TWO_RATES, plan_in};
use word_rule::SlotWords;

// The party at the place has so many turns. Each answers so, if an answer is wanted.
struct Asked {
    place: usize,
    turns: u32,
    answer: Option<Turn>,
}

// Each cause to wait, and the step after the wait.
static WAITS: &[Asked] = &[
    // task a's gate isn't open
    Asked {
        place: 1,
        turns: 1,
        answer: Some(Turn::Idle(Cause::NotOpened)),
    },
    // at 0 the releaser aims both tasks, claims over the link, and opens both gates
    Asked {
        place: 0,
        turns: 5,
        answer: Some(Turn::Stepped),
    },
    // at 2 it is to aim task a, whose first instance hasn't ended
    Asked {
        place: 0,
        turns: 1,
        answer: Some(Turn::Idle(Cause::LastNotEnded)),
    },
    // task b starts and hears its two orders, but a hasn't filled its slot
    Asked {
        place: 2,
        turns: 3,
        answer: Some(Turn::Stepped),
    },
    Asked {
        place: 2,
        turns: 1,
        answer: Some(Turn::Idle(Cause::WriterNotDone)),
    },
    // task a makes its first instance
    Asked {
        place: 1,
        turns: 6,
        answer: Some(Turn::Stepped),
    },
    Asked {
        place: 2,
        turns: 1,
        answer: Some(Turn::Stepped),
    },
    Asked {
        place: 0,
        turns: 1,
        answer: Some(Turn::Stepped),
    },
];

// Task a has no state and no read, and task n never occurs.
const QUIET: &str = "dbp 1
policy fp
until 4
task a every 2 prio 2 cost 1
  out y = 7 then 5
task n every 9 from 8 prio 1 cost 1
  out z = -1 then 1
done
";

static NEVER: &[Asked] = &[Asked {
    place: 2,
    turns: 2,
    answer: Some(Turn::Finished),
}];

// Rounds of the releaser, which is first, and two tasks.
static ROUNDS: &[&[Asked]] = &[
    // a turn each, the releaser first
    &[
        Asked {
            place: 0,
            turns: 1,
            answer: None,
        },
        Asked {
            place: 1,
            turns: 1,
            answer: None,
        },
        Asked {
            place: 2,
            turns: 1,
            answer: None,
        },
    ],
    // the releaser last
    &[
        Asked {
            place: 1,
            turns: 1,
            answer: None,
        },
        Asked {
            place: 2,
            turns: 1,
            answer: None,
        },
        Asked {
            place: 0,
            turns: 1,
            answer: None,
        },
    ],
    // each as far as it can
    &[
        Asked {
            place: 2,
            turns: 1000,
            answer: None,
        },
        Asked {
            place: 1,
            turns: 1000,
            answer: None,
        },
        Asked {
            place: 0,
            turns: 1000,
            answer: None,
        },
    ],
];

// Each has finished: it has one turn more.
static REST: &[Asked] = &[
    Asked {
        place: 0,
        turns: 1,
        answer: Some(Turn::Finished),
    },
    Asked {
        place: 1,
        turns: 1,
        answer: Some(Turn::Finished),
    },
    Asked {
        place: 2,
        turns: 1,
        answer: Some(Turn::Finished),
    },
];

fn ask(rt: &impl Abort, words: &SlotWords, parties: &mut [Party], asked: &Asked) -> Result<(), Fail>
    requires { AreParties words.now parties.old }
    ensures { AreParties words.now parties.new }
{
    for _ in 0..asked.turns {
        let answer = turn_of(words, parties, asked.place)?;
        if let Some(wanted) = asked.answer {
            assert_eq!(rt; answer, wanted);
        }
    }
    Ok(())
}

fn ask_all(
    rt: &impl Abort,
    words: &SlotWords,
    parties: &mut [Party],
    turns: &[Asked],
) -> Result<(), Fail>
    requires { AreParties words.now parties.old }
    ensures { AreParties words.now parties.new }
{
    for asked in turns {
        ask(rt, words, parties, asked)?;
    }
    Ok(())
}

// Rounds until all parties have finished.
fn finish(
    rt: &impl Abort,
    words: &SlotWords,
    parties: &mut [Party],
    round: &[Asked],
) -> Result<(), Fail>
    requires { AreParties words.now parties.old }
    ensures { AreParties words.now parties.new }
{
    for _ in 0..1000 {
        if have_finished(words, parties) {
            return Ok(());
        }
        ask_all(rt, words, parties, round)?;
    }
    Err(Fail::from("not finished"))
}

// First these turns, and then rounds to the end.
fn go_through(
    rt: &impl Abort,
    words: &SlotWords,
    parties: &mut [Party],
    turns: &[Asked],
    round: &[Asked],
) -> Result<(), Fail>
    requires { AreParties words.now parties.old }
    ensures { IfOk result (λ _. HaveFinished words.now parties.new) }
{
    assert!(rt; !have_finished(words, parties));
    ask_all(rt, words, parties, turns)?;
    finish(rt, words, parties, round)?;
    ask_all(rt, words, parties, REST)?;
    if have_finished(words, parties) {
        Ok(())
    } else {
        Err(Fail::from("a party goes on"))
    }
}

// Whether the rows are then those of the meaning.
fn fill_rows(
    rt: &impl Abort,
    alloc: Global,
    words: &SlotWords,
    parties: &mut List<Party>,
    turns: &[Asked],
    round: &[Asked],
) -> Result<bool, Fail>
    requires { AreParties words.now parties.old }
{
    go_through(rt, words, parties.items_mut(), turns, round)?;
    have_meaning(alloc, words, parties)
}

// Makes the parties of the plan, and lends them.
fn fill_by(
    rt: &impl Abort,
    alloc: Global,
    plan: &Plan,
    turns: &[Asked],
    round: &[Asked],
) -> Result<bool, Fail> {
    let (words, mut parties) = parties(alloc, plan)?;
    fill_rows(rt, alloc, &words, &mut parties, turns, round)
}

fn run_plan(rt: &impl Abort, alloc: Global, plan: &Plan, turns: &[Asked]) -> Result<(), Fail> {
    for round in ROUNDS {
        assert!(rt; fill_by(rt, alloc, plan, turns, round)?);
    }
    Ok(())
}

// Makes the document's plan, and lends it.
fn run(rt: &impl Abort, alloc: Global, document: &str, turns: &[Asked]) -> Result<(), Fail> {
    let plan = plan_in(alloc, document)?;
    run_plan(rt, alloc, &plan, turns)
}

#[test]
fn parties_fill_the_rows_of_the_meaning(rt: HostRuntime) -> Result<(), Fail> {
    run(&rt, rt.alloc(), TWO_RATES, &[])?;
    run(&rt, rt.alloc(), TWO_RATES, WAITS)?;
    run(&rt, rt.alloc(), QUIET, NEVER)
}
