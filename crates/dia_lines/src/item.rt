// What a line says, as it is kept.

use dbp_plan::{Expr, Name, Policy};
use dia_tokens::Spelling;

/// A declaration before the tasks.
#[derive(Clone, Copy)]
pub enum Decl {
    /// An input, with its value before the first sample.
    Input(Name, i64),
    Event(Name),
}

/// When a task occurs, with names as they were read.
#[derive(Clone, Copy)]
pub enum RawClock {
    /// In ticks.
    Every { period: u64, offset: u64 },
    /// At the event's occurrences.
    On(Name),
}

/// A line that begins a task.
#[derive(Clone, Copy)]
pub struct TaskLine {
    pub name: Name,
    pub clock: RawClock,
    /// The input that must not be 0.
    pub when: Option<Name>,
    pub prio: Option<u32>,
    /// In ticks from the release on.
    pub deadline: Option<u64>,
    /// In ticks.
    pub cost: u64,
    /// The number of its processor: 0 if the line names none.
    pub cpu: u32,
}

/// A line of a task's body, with names as they were read.
#[derive(Drop)]
pub enum Part {
    /// A state, with its value before the first instance.
    State(Name, i64),
    /// A name for an input.
    Sense(Name, Name),
    /// A name for an out of a task.
    Read {
        name: Name,
        /// In occurrences of the writer.
        delay: u32,
        task: Name,
        port: Name,
        /// After how many ticks of its service the task reads.
        at: u64,
    },
    Let(Name, Expr<Name>),
    /// The value of a state at the end of an instance.
    Next(Name, Expr<Name>),
    /// An out, with its value before the first instance.
    Out(Name, i64, Expr<Name>),
}

/// What a line says.
#[derive(Drop)]
pub enum Line {
    /// It is blank.
    Nothing,
    /// The version of the language.
    Header(u32),
    Policy(Policy),
    /// The tick before which tasks occur.
    Until(u64),
    Decl(Decl),
    Task(TaskLine),
    Part(Part),
    Trace,
    Script,
    Done,
    /// A row of the trace section, which is kept as it is.
    Row,
    /// A step of the script section, with its tokens as they are spelled.
    Step(Spelling),
}
