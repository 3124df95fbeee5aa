// Refused steps, with the two values of each refusal.

use crate::steps::runs::{Run, Seen, check};
use crate::steps::scripts::Script;
use dbp_core::{Broken, Count, Illegal, Step};
use std::test::Fail;
use test_inputs::Document;

static REFUSED: [Run; 9] = [
    // the releaser's next step is an aim, kind 2
    Run {
        document: Document::TwoRates,
        count: Count::All,
        script: Script::None,
        after: 0,
        seen: Seen::Refusal {
            step: Step::OpenGate { task: 0 },
            why: Illegal {
                broken: Broken::Place,
                left: 2,
                right: 4,
            },
        },
    },
    // it is an aim, and of another task
    Run {
        document: Document::TwoRates,
        count: Count::All,
        script: Script::None,
        after: 0,
        seen: Seen::Refusal {
            step: Step::Aim { task: 1, slot: 0 },
            why: Illegal {
                broken: Broken::Place,
                left: 2,
                right: 13,
            },
        },
    },
    Run {
        document: Document::TwoRates,
        count: Count::All,
        script: Script::None,
        after: 0,
        seen: Seen::Refusal {
            step: Step::Aim { task: 0, slot: 9 },
            why: Illegal {
                broken: Broken::SlotRange,
                left: 2,
                right: 9,
            },
        },
    },
    // the task is to start, kind 5
    Run {
        document: Document::TwoRates,
        count: Count::All,
        script: Script::None,
        after: 0,
        seen: Seen::Refusal {
            step: Step::Hear { task: 1 },
            why: Illegal {
                broken: Broken::TaskPlace,
                left: 5,
                right: 6,
            },
        },
    },
    Run {
        document: Document::ThreeRates,
        count: Count::All,
        script: Script::None,
        after: 0,
        seen: Seen::Refusal {
            step: Step::Aim { task: 0, slot: 0 },
            why: Illegal {
                broken: Broken::SlotKept,
                left: 0,
                right: 0,
            },
        },
    },
    // all is released, and a isn't known to have ended
    Run {
        document: Document::TwoRates,
        count: Count::All,
        script: Script::Waiting,
        after: 5,
        seen: Seen::Refusal {
            step: Step::Aim { task: 0, slot: 1 },
            why: Illegal {
                broken: Broken::LastNotEnded,
                left: 1,
                right: 0,
            },
        },
    },
    // a has ended, and b still claims its slot over link 0
    Run {
        document: Document::TwoRates,
        count: Count::All,
        script: Script::Waiting,
        after: 18,
        seen: Seen::Refusal {
            step: Step::Aim { task: 0, slot: 0 },
            why: Illegal {
                broken: Broken::SlotClaimed,
                left: 0,
                right: 0,
            },
        },
    },
    // a is ranked above b and hasn't ended
    Run {
        document: Document::TwoRates,
        count: Count::Ranked,
        script: Script::Waiting,
        after: 5,
        seen: Seen::Refusal {
            step: Step::Start { task: 1 },
            why: Illegal {
                broken: Broken::HigherUnfinished,
                left: 0,
                right: 1,
            },
        },
    },
    // a is to end, kind 12
    Run {
        document: Document::TwoRates,
        count: Count::All,
        script: Script::Waiting,
        after: 16,
        seen: Seen::Refusal {
            step: Step::Start { task: 0 },
            why: Illegal {
                broken: Broken::TaskPlace,
                left: 12,
                right: 5,
            },
        },
    },
];

#[test]
fn steps_are_refused_with_their_values(rt: HostRuntime) -> Result<(), Fail> {
    for run in &REFUSED {
        check(&rt, rt.alloc(), run)?;
    }
    Ok(())
}
