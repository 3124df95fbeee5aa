// The kinds of steps.

ghost use Rattle.std.specs.Prelude.{◌≡◌};
ghost use Rattle.dbp_rules.specs.StepKinds.{kind_number, kind_of, subject_of};

use crate::step::Step;

/// A kind of steps. A broken condition of a place has its number.
#[derive(Clone, Copy, Debug, PartialEq, Eq)]
pub enum StepKind {
    /// `Step::Seen`.
    Seen,
    /// `Step::Aim`.
    Aim,
    /// `Step::Claim`.
    Claim,
    /// `Step::OpenGate`.
    OpenGate,
    /// `Step::Start`.
    Start,
    /// `Step::Hear`.
    Hear,
    /// `Step::Look`.
    Look,
    /// `Step::Take`.
    Take,
    /// `Step::Shut`.
    Shut,
    /// `Step::Put`.
    Put,
    /// `Step::Done`.
    Done,
    /// `Step::End`.
    End,
}

impl StepKind {
    /// The number of the kind, from 1 to 12.
    pub fn number(self) -> u32
        ensures { result ≡ kind_number self }
    {
        match self {
            StepKind::Seen => 1,
            StepKind::Aim => 2,
            StepKind::Claim => 3,
            StepKind::OpenGate => 4,
            StepKind::Start => 5,
            StepKind::Hear => 6,
            StepKind::Look => 7,
            StepKind::Take => 8,
            StepKind::Shut => 9,
            StepKind::Put => 10,
            StepKind::Done => 11,
            StepKind::End => 12,
        }
    }
}

impl Step {
    /// The kind of the step.
    pub fn kind(self) -> StepKind
        ensures { result ≡ kind_of self }
    {
        match self {
            Step::Seen { .. } => StepKind::Seen,
            Step::Aim { .. } => StepKind::Aim,
            Step::Claim { .. } => StepKind::Claim,
            Step::OpenGate { .. } => StepKind::OpenGate,
            Step::Start { .. } => StepKind::Start,
            Step::Hear { .. } => StepKind::Hear,
            Step::Look { .. } => StepKind::Look,
            Step::Take { .. } => StepKind::Take,
            Step::Shut { .. } => StepKind::Shut,
            Step::Put { .. } => StepKind::Put,
            Step::Done { .. } => StepKind::Done,
            Step::End { .. } => StepKind::End,
        }
    }

    // The task or the link that a step of the releaser names, and the read or the port that a step of a task names.
    pub(crate) fn subject(self) -> u32
        ensures { result ≡ subject_of self }
    {
        match self {
            Step::Seen { task } | Step::OpenGate { task } => task,
            Step::Aim { task, .. } => task,
            Step::Claim { link } => link,
            Step::Look { read, .. } | Step::Take { read, .. } => read,
            Step::Put { port, .. } => port,
            Step::Start { .. }
            | Step::Hear { .. }
            | Step::Shut { .. }
            | Step::Done { .. }
            | Step::End { .. } => 0,
        }
    }
}
