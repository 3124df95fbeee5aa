// Steps in the order in which a run makes them. The cases writer_aimed_at_another_slot_than_the_claimed_one and
// delayed_reader_takes_the_first_values of `replay` say what each hears.

use dbp_core::Step;

// The steps of a run.
pub(crate) enum Script {
    None,
    Waiting,
    Delayed,
}

impl Script {
    pub(crate) fn steps(&self) -> &'static [Step] {
        match self {
            Script::None => &[],
            Script::Waiting => WAITING,
            Script::Delayed => DELAYED,
        }
    }
}

// Task b starts before a, and waits for its row; a ends while b still claims its slot, and is aimed at another one.
static WAITING: &[Step] = &[
    Step::Aim { task: 0, slot: 0 },
    Step::Aim { task: 1, slot: 0 },
    Step::Claim { link: 0 },
    Step::OpenGate { task: 0 },
    Step::OpenGate { task: 1 },
    Step::Start { task: 1 },
    Step::Hear { task: 1 },
    Step::Hear { task: 1 },
    Step::Look { task: 1, read: 0 },
    Step::Start { task: 0 },
    Step::Hear { task: 0 },
    Step::Shut { task: 0 },
    Step::Put { task: 0, port: 0 },
    Step::Done { task: 0 },
    Step::Look { task: 1, read: 0 },
    Step::Take { task: 1, read: 0 },
    Step::End { task: 0 },
    Step::Seen { task: 0 },
    Step::Aim { task: 0, slot: 1 },
];

// All three tasks are released. The delayed reader hears of slot 0 with the first values, and takes them.
static DELAYED: &[Step] = &[
    Step::Aim { task: 0, slot: 1 },
    Step::Aim { task: 1, slot: 0 },
    Step::Aim { task: 2, slot: 0 },
    Step::Claim { link: 0 },
    Step::Claim { link: 1 },
    Step::OpenGate { task: 0 },
    Step::OpenGate { task: 1 },
    Step::OpenGate { task: 2 },
    Step::Start { task: 2 },
    Step::Hear { task: 2 },
    Step::Hear { task: 2 },
    Step::Look { task: 2, read: 0 },
    Step::Take { task: 2, read: 0 },
    Step::Shut { task: 2 },
    Step::Put { task: 2, port: 0 },
    Step::Done { task: 2 },
    Step::End { task: 2 },
    Step::Start { task: 2 },
    Step::Seen { task: 2 },
];
