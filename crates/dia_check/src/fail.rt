// Why a document has no diagram.

ghost use Rattle.std.specs.Prelude.{◌≡◌};
ghost use Rattle.dia_check.specs.Codes.{check_name, check_number};
ghost use Rattle.dia_check.specs.Faults.{line_refusal};
ghost use Rattle.dia_check.specs.RankFaults.{rank_refusal};
ghost use Rattle.dia_check.specs.declared.fail.CheckFail.TheVariants.{NoMemory as OutOfMemory};

use dbp_plan::{List, Name, NoMemory};
use std::fmt;

/// Why a document has no diagram, in the order of their numbers, from 10 on.
#[derive(Drop)]
pub enum CheckCode {
    /// The name is declared on an earlier line too, or the state has a `next` already.
    Duplicate,
    /// `on` names no event, `sense` no input, `read` no task or no out of that task, `next` no state of this task, or an
    /// expression no state, sense, read or let of this task.
    Unknown,
    /// A `read` names its own task.
    SelfLink,
    /// Lets use each other in a cycle: the names of one, from the earliest let that lies on a cycle on.
    LetCycle { names: List<Name> },
    /// The policy is `fp`, and a task has no `prio`.
    MissingPrio,
    /// The policy is `edf`, and a task has no `deadline`.
    MissingDeadline,
    /// The `at` of a `read` isn't below its task's cost.
    ReadPastCost,
    /// A task has no out.
    NoOut,
    /// A direct link goes from a lower to a higher rank: the numbers of its tasks.
    UndelayedUpward { writer: u32, reader: u32 },
}

impl CheckCode {
    /// The number of the code, as a refusal prints it.
    pub fn number(&self) -> u32
        ensures { result ≡ check_number self.now }
    {
        match self {
            CheckCode::Duplicate => 10,
            CheckCode::Unknown => 11,
            CheckCode::SelfLink => 12,
            CheckCode::LetCycle { .. } => 13,
            CheckCode::MissingPrio => 14,
            CheckCode::MissingDeadline => 15,
            CheckCode::ReadPastCost => 16,
            CheckCode::NoOut => 17,
            CheckCode::UndelayedUpward { .. } => 18,
        }
    }

    /// The name of the code, as a refusal prints it.
    pub fn name(&self) -> &'static str
        ensures { result.now ≡ check_name self.now }
    {
        match self {
            CheckCode::Duplicate => "Duplicate",
            CheckCode::Unknown => "Unknown",
            CheckCode::SelfLink => "SelfLink",
            CheckCode::LetCycle { .. } => "LetCycle",
            CheckCode::MissingPrio => "MissingPrio",
            CheckCode::MissingDeadline => "MissingDeadline",
            CheckCode::ReadPastCost => "ReadPastCost",
            CheckCode::NoOut => "NoOut",
            CheckCode::UndelayedUpward { .. } => "UndelayedUpward",
        }
    }
}

/// The number and the name of the code, as a refusal has them after the number of its line.
impl fmt::Display for CheckCode {
    ghost use Rattle.std.specs.Prelude.{Some};
    ghost use Rattle.dia_check.specs.Codes.{check_text};

    ghost output = { λ code. Some (check_text code) };

    fn fmt<W: fmt::Write>(&self, f: &mut fmt::Formatter<W>) -> fmt::Result {
        write!(f, "{} {}", self.number(), self.name())
    }
}

/// Why a document wasn't taken for a diagram.
#[derive(Drop)]
pub enum CheckFail {
    /// The first fault, at a line, counted from 1.
    Refused { line: u32, code: CheckCode },
    /// Memory ran out. That may be at any time.
    NoMemory,
}

impl From<NoMemory> for CheckFail {
    ghost from_gives = { λ _ e. e ≡ OutOfMemory };

    fn from(_: NoMemory) -> CheckFail {
        CheckFail::NoMemory
    }
}

// Why a line of a declaration, a task or a body isn't right.
#[derive(Clone, Copy)]
pub(crate) enum LineFault {
    Duplicate,
    Unknown,
    SelfLink,
    ReadPastCost,
}

// The refusal for a fault of the line with the number.
pub(crate) fn line_refusal(fault: (u32, LineFault)) -> CheckFail
    ensures { result ≡ line_refusal fault }
{
    let (line, fault) = fault;
    let code = match fault {
        LineFault::Duplicate => CheckCode::Duplicate,
        LineFault::Unknown => CheckCode::Unknown,
        LineFault::SelfLink => CheckCode::SelfLink,
        LineFault::ReadPastCost => CheckCode::ReadPastCost,
    };
    CheckFail::Refused { line, code }
}

// Why a task or a read of a diagram doesn't go with its ranks.
#[derive(Clone, Copy)]
pub(crate) enum RankFault {
    MissingPrio,
    MissingDeadline,
    UndelayedUpward { writer: u32, reader: u32 },
}

// The refusal for a fault of ranks at the line with the number.
pub(crate) fn rank_refusal(fault: (u32, RankFault)) -> CheckFail
    ensures { result ≡ rank_refusal fault }
{
    let (line, fault) = fault;
    let code = match fault {
        RankFault::MissingPrio => CheckCode::MissingPrio,
        RankFault::MissingDeadline => CheckCode::MissingDeadline,
        RankFault::UndelayedUpward { writer, reader } => {
            CheckCode::UndelayedUpward { writer, reader }
        }
    };
    CheckFail::Refused { line, code }
}
