// What is wrong with a document's trace.

ghost use Rattle.std.specs.Prelude.{◌≡◌};
ghost use Rattle.trace_rows.specs.TraceCodes.{trace_code_name, trace_code_number};

use dbp_plan::NoMemory;
use std::fmt;

/// What is wrong with a document's trace, in the order of their numbers, from 20 on.
#[derive(Clone, Copy, Debug, PartialEq, Eq)]
pub enum TraceCode {
    /// The section keeps no line, or the first isn't `time` and then distinct names of inputs and events.
    BadHeader,
    /// The row has fewer or more cells than the header.
    BadRow,
    /// A cell isn't of its column's form.
    BadCell,
    /// The row's time isn't greater than that of the row before.
    TimeNotRising,
    /// The row's time isn't below `until`.
    TimePastEnd,
    /// All tasks together occur more often than `MAX_OCCURRENCES`.
    TooManyOccurrences,
    /// The row is one past `MAX_ROWS`.
    TooManyRows,
}

impl TraceCode {
    /// The number of the code, as a refusal has it.
    pub fn number(self) -> u32
        ensures { result ≡ trace_code_number self }
    {
        match self {
            TraceCode::BadHeader => 20,
            TraceCode::BadRow => 21,
            TraceCode::BadCell => 22,
            TraceCode::TimeNotRising => 23,
            TraceCode::TimePastEnd => 24,
            TraceCode::TooManyOccurrences => 25,
            TraceCode::TooManyRows => 26,
        }
    }

    /// The name of the code, as a refusal has it.
    pub fn name(self) -> &'static str
        ensures { result.now ≡ trace_code_name self }
    {
        match self {
            TraceCode::BadHeader => "BadHeader",
            TraceCode::BadRow => "BadRow",
            TraceCode::BadCell => "BadCell",
            TraceCode::TimeNotRising => "TimeNotRising",
            TraceCode::TimePastEnd => "TimePastEnd",
            TraceCode::TooManyOccurrences => "TooManyOccurrences",
            TraceCode::TooManyRows => "TooManyRows",
        }
    }
}

/// The number and the name of the code, as a refusal has them after the number of its line.
impl fmt::Display for TraceCode {
    ghost use Rattle.std.specs.Prelude.{Some};
    ghost use Rattle.trace_rows.specs.TraceCodes.{trace_code_text};

    ghost output = { λ code. Some (trace_code_text code) };

    fn fmt<W: fmt::Write>(&self, f: &mut fmt::Formatter<W>) -> fmt::Result {
        write!(f, "{} {}", self.number(), self.name())
    }
}

/// A fault of a trace: the line that has it, counted from 1, and what is wrong there. Finding one takes no memory.
#[derive(Clone, Copy, Debug, PartialEq, Eq)]
pub struct TraceFault {
    pub line: u32,
    pub code: TraceCode,
}

/// Why a document has no plan.
#[derive(Clone, Copy, Debug, PartialEq, Eq)]
pub enum TraceFail {
    /// The first fault, at a line, counted from 1.
    Refused { line: u32, code: TraceCode },
    /// Memory ran out. That may be at any time.
    NoMemory,
}

impl From<TraceFault> for TraceFail {
    ghost use Rattle.trace_rows.specs.declared.fail.TraceFail.TheVariants.{Refused};

    ghost from_gives = { λ fault e. e ≡ Refused fault.line fault.code };

    fn from(fault: TraceFault) -> TraceFail {
        TraceFail::Refused {
            line: fault.line,
            code: fault.code,
        }
    }
}

impl From<NoMemory> for TraceFail {
    ghost use Rattle.trace_rows.specs.declared.fail.TraceFail.TheVariants.{NoMemory as OutOfMemory};

    ghost from_gives = { λ _ e. e ≡ OutOfMemory };

    fn from(_: NoMemory) -> TraceFail {
        TraceFail::NoMemory
    }
}
