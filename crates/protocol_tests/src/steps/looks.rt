// What a core says between steps: the least slot for an aim, the number of the row that a link's last claim is for, the rows
// that steps compute, and the wiring.

use crate::steps::runs::{Run, Seen, check};
use crate::steps::scripts::Script;
use dbp_core::Count;
use std::test::Fail;
use test_inputs::Document;

static LOOKS: [Run; 10] = [
    // the least slot for the next aim: b claims slot 0, and a keeps none
    Run {
        document: Document::TwoRates,
        count: Count::All,
        script: Script::Waiting,
        after: 18,
        seen: Seen::LeastAim { task: 0, slot: 1 },
    },
    // slot 0 stays kept, and none is claimed
    Run {
        document: Document::ThreeRates,
        count: Count::All,
        script: Script::None,
        after: 0,
        seen: Seen::LeastAim { task: 0, slot: 1 },
    },
    // the row that a claim is for: a is aimed, and b hasn't claimed its row yet
    Run {
        document: Document::TwoRates,
        count: Count::All,
        script: Script::Waiting,
        after: 2,
        seen: Seen::ClaimedNumber { link: 0, number: 0 },
    },
    // a is aimed again, and the claim is still for its first row
    Run {
        document: Document::TwoRates,
        count: Count::All,
        script: Script::Waiting,
        after: 19,
        seen: Seen::ClaimedNumber { link: 0, number: 1 },
    },
    // over one link b reads the first row of a, over the other h the first values
    Run {
        document: Document::ThreeRates,
        count: Count::All,
        script: Script::Delayed,
        after: 5,
        seen: Seen::ClaimedNumber { link: 0, number: 1 },
    },
    Run {
        document: Document::ThreeRates,
        count: Count::All,
        script: Script::Delayed,
        after: 5,
        seen: Seen::ClaimedNumber { link: 1, number: 0 },
    },
    // before the first step a row has its first values
    Run {
        document: Document::ThreeRates,
        count: Count::All,
        script: Script::None,
        after: 0,
        seen: Seen::Row { task: 2, word: -1 },
    },
    Run {
        document: Document::TwoRates,
        count: Count::All,
        script: Script::Waiting,
        after: 19,
        seen: Seen::Row { task: 0, word: 1 },
    },
    Run {
        document: Document::ThreeRates,
        count: Count::All,
        script: Script::Delayed,
        after: 19,
        seen: Seen::Row { task: 2, word: 0 },
    },
    // the wiring that steps look up
    Run {
        document: Document::ThreeRates,
        count: Count::All,
        script: Script::None,
        after: 0,
        seen: Seen::Wiring(&[(4, 1), (1, 2), (1, 0)]),
    },
];

#[test]
fn a_core_says_where_its_steps_led(rt: HostRuntime) -> Result<(), Fail> {
    for run in &LOOKS {
        check(&rt, rt.alloc(), run)?;
    }
    Ok(())
}
