// The releaser's steps.

ghost use Rattle.std.specs.Prelude.{◌≡◌};
ghost use Rattle.release_book.specs.NextStep.{step_of};

use dbp_rules::Step;

/// What the releaser does next.
#[derive(Clone, Copy, Debug, PartialEq, Eq)]
pub enum ReleaseStep {
    /// It loads how many instances of the task have ended.
    Seen { task: u32 },
    /// The task's next instance gets the slot that it is to fill.
    Aim { task: u32, slot: u32 },
    /// The link's reader gets the slot that its next instance is to read.
    Claim { link: u32 },
    /// It opens the gate of the task's next instance.
    OpenGate { task: u32 },
    /// Nothing: each occurrence of each task is known to have ended.
    Finished,
}

impl ReleaseStep {
    /// The step of the protocol that it is; none if the releaser has finished.
    pub fn step(self) -> Option<Step>
        ensures { result ≡ step_of self }
    {
        match self {
            ReleaseStep::Seen { task } => Some(Step::Seen { task }),
            ReleaseStep::Aim { task, slot } => Some(Step::Aim { task, slot }),
            ReleaseStep::Claim { link } => Some(Step::Claim { link }),
            ReleaseStep::OpenGate { task } => Some(Step::OpenGate { task }),
            ReleaseStep::Finished => None,
        }
    }
}
