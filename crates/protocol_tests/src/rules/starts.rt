// Plans before the first step: the wiring of a plan, the first state, and the works of its tasks.

use crate::rules::comparing::{compare_state, compare_wiring, first_words};
use dbp_plan::Plan;
use dbp_rules::{Count, State, Wiring, start_state, wire_plan};
use std::alloc::Global;
use std::process::Abort;
use std::test::Fail;
use test_inputs::{Document, plan_in};

// The start of a document's plan, and what is seen there.
struct Start {
    document: Document,
    count: Count,
    seen: Seen,
}

enum Seen {
    // The wiring of two rates.
    Wiring,
    // The first state of three rates.
    State,
    // Each task's work starts with a row of one of these words.
    Works(&'static [i64]),
}

static STARTS: [Start; 3] = [
    Start {
        document: Document::TwoRates,
        count: Count::All,
        seen: Seen::Wiring,
    },
    Start {
        document: Document::ThreeRates,
        count: Count::Ranked,
        seen: Seen::State,
    },
    Start {
        document: Document::ThreeRates,
        count: Count::All,
        seen: Seen::Works(&[0, 0, -1]),
    },
];

// Compares what is seen.
fn compare(
    rt: &impl Abort,
    alloc: Global,
    plan: &Plan,
    wiring: &Wiring,
    state: &State,
    seen: &Seen,
) -> Result<(), Fail> {
    match seen {
        Seen::Wiring => compare_wiring(rt, alloc, wiring.tasks.items()),
        Seen::State => compare_state(rt, alloc, state.tasks.items()),
        Seen::Works(words) => {
            let found = first_words(alloc, plan.diagram.tasks.items())?;
            assert_eq!(rt; found.as_slice(), *words);
            Ok(())
        }
    }
}

fn check_plan(rt: &impl Abort, alloc: Global, plan: &Plan, start: &Start) -> Result<(), Fail> {
    let wiring = wire_plan(alloc, plan, start.count)?;
    let state = start_state(alloc, plan, &wiring)?;
    compare(rt, alloc, plan, &wiring, &state, &start.seen)
}

// Compares what is seen at the start. The only calls that own a plan, a wiring and a state are here: each of these that a
// function drops makes its proof long.
fn check(rt: &impl Abort, alloc: Global, start: &Start) -> Result<(), Fail> {
    let plan = plan_in(alloc, start.document.text())?;
    check_plan(rt, alloc, &plan, start)
}

#[test]
fn plans_are_wired_and_started(rt: HostRuntime) -> Result<(), Fail> {
    for start in &STARTS {
        check(&rt, rt.alloc(), start)?;
    }
    Ok(())
}
