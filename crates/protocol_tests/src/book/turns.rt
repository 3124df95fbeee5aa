// The steps that a releaser makes, in order, with the numbers that it hears. The scripts releaser_of_two_rates_to_the_end and
// releaser_of_three_rates_to_the_end, two cases of `replay`, have them too, between the steps of the tasks.

use dbp_rules::Step;

// What the releaser does next.
#[derive(Clone, Copy)]
pub(crate) enum Turn {
    // The releaser sees the task, of which so many instances have ended.
    Sees { task: u32, ended: u32 },
    // The releaser makes this step.
    Orders(Step),
}

// Task a is aimed at slot 1 while b, which reads it, claims slot 0, and back.
pub(crate) static TWO: &[Turn] = &[
    // at 0
    Turn::Orders(Step::Aim { task: 0, slot: 0 }),
    Turn::Orders(Step::Aim { task: 1, slot: 0 }),
    Turn::Orders(Step::Claim { link: 0 }),
    Turn::Orders(Step::OpenGate { task: 0 }),
    Turn::Orders(Step::OpenGate { task: 1 }),
    // at 2: a is seen until its instance has ended; b still claims slot 0
    Turn::Sees { task: 0, ended: 0 },
    Turn::Sees { task: 0, ended: 1 },
    Turn::Orders(Step::Aim { task: 0, slot: 1 }),
    Turn::Orders(Step::OpenGate { task: 0 }),
    // at 3: b's second instance is to read slot 1
    Turn::Sees { task: 1, ended: 0 },
    Turn::Sees { task: 1, ended: 1 },
    Turn::Orders(Step::Aim { task: 1, slot: 0 }),
    Turn::Orders(Step::Claim { link: 0 }),
    Turn::Orders(Step::OpenGate { task: 1 }),
    // at 4
    Turn::Sees { task: 0, ended: 2 },
    Turn::Orders(Step::Aim { task: 0, slot: 0 }),
    Turn::Orders(Step::OpenGate { task: 0 }),
    // all is released; each task is seen until its last instance has ended
    Turn::Sees { task: 0, ended: 2 },
    Turn::Sees { task: 0, ended: 2 },
    Turn::Sees { task: 0, ended: 3 },
    Turn::Sees { task: 1, ended: 2 },
];

// Task a has four slots. It keeps the one before the current one for h, which is ranked above it; b is ranked below it.
pub(crate) static THREE: &[Turn] = &[
    // at 0: slot 0 of a stays kept for h
    Turn::Orders(Step::Aim { task: 0, slot: 1 }),
    Turn::Orders(Step::Aim { task: 1, slot: 0 }),
    Turn::Orders(Step::Aim { task: 2, slot: 0 }),
    Turn::Orders(Step::Claim { link: 0 }),
    Turn::Orders(Step::Claim { link: 1 }),
    Turn::Orders(Step::OpenGate { task: 0 }),
    Turn::Orders(Step::OpenGate { task: 1 }),
    Turn::Orders(Step::OpenGate { task: 2 }),
    // at 1: h is to read slot 0 again
    Turn::Sees { task: 2, ended: 0 },
    Turn::Sees { task: 2, ended: 1 },
    Turn::Orders(Step::Aim { task: 2, slot: 0 }),
    Turn::Orders(Step::Claim { link: 1 }),
    Turn::Orders(Step::OpenGate { task: 2 }),
    // at 2: b claims slot 1 of a, which stays kept too, and h claims slot 0
    Turn::Sees { task: 0, ended: 1 },
    Turn::Orders(Step::Aim { task: 0, slot: 2 }),
    Turn::Sees { task: 2, ended: 2 },
    Turn::Orders(Step::Aim { task: 2, slot: 0 }),
    Turn::Orders(Step::Claim { link: 1 }),
    Turn::Orders(Step::OpenGate { task: 0 }),
    Turn::Orders(Step::OpenGate { task: 2 }),
    // at 3: b is to read slot 2 of a, and h slot 1
    Turn::Sees { task: 1, ended: 1 },
    Turn::Orders(Step::Aim { task: 1, slot: 0 }),
    Turn::Sees { task: 2, ended: 3 },
    Turn::Orders(Step::Aim { task: 2, slot: 0 }),
    Turn::Orders(Step::Claim { link: 0 }),
    Turn::Orders(Step::Claim { link: 1 }),
    Turn::Orders(Step::OpenGate { task: 1 }),
    Turn::Orders(Step::OpenGate { task: 2 }),
    // at 4: slot 2 of a stays kept and is claimed by b, and h claims slot 1
    Turn::Sees { task: 0, ended: 1 },
    Turn::Sees { task: 0, ended: 2 },
    Turn::Orders(Step::Aim { task: 0, slot: 0 }),
    Turn::Sees { task: 2, ended: 4 },
    Turn::Orders(Step::Aim { task: 2, slot: 0 }),
    Turn::Orders(Step::Claim { link: 1 }),
    Turn::Orders(Step::OpenGate { task: 0 }),
    Turn::Orders(Step::OpenGate { task: 2 }),
    // at 5: h is to read slot 2 of a
    Turn::Sees { task: 2, ended: 5 },
    Turn::Orders(Step::Aim { task: 2, slot: 0 }),
    Turn::Orders(Step::Claim { link: 1 }),
    Turn::Orders(Step::OpenGate { task: 2 }),
    // all is released
    Turn::Sees { task: 0, ended: 3 },
    Turn::Sees { task: 1, ended: 2 },
    Turn::Sees { task: 2, ended: 5 },
    Turn::Sees { task: 2, ended: 6 },
];
