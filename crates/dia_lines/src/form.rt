// The forms of lines, before their numbers are held against limits and their expressions are read.

use dbp_plan::{Name, Policy};
use dia_tokens::Token;

// When a task occurs, with its numbers as they are spelled.
#[derive(Clone, Copy)]
pub(crate) enum ClockForm {
    // With a period and an offset.
    Every(i64, i64),
    // At the event's occurrences.
    On(Name),
}

// A line that begins a task, with its numbers as they are spelled.
#[derive(Clone, Copy)]
pub(crate) struct TaskForm {
    pub name: Name,
    pub clock: ClockForm,
    // The input that must not be 0.
    pub when: Option<Name>,
    pub prio: Option<i64>,
    pub deadline: Option<i64>,
    pub cost: i64,
    // None without `cpu`.
    pub cpu: Option<i64>,
}

// A line that names an out of a task, with its numbers as they are spelled.
#[derive(Clone, Copy)]
pub(crate) struct ReadForm {
    pub name: Name,
    // None without `pre`.
    pub delay: Option<i64>,
    pub task: Name,
    pub port: Name,
    pub at: i64,
}

// What a line says, with its numbers as they are spelled and with the tokens of its expression.
#[derive(Clone, Copy)]
pub(crate) enum Form<'t> {
    Nothing,
    // The version.
    Header(u32),
    Policy(Policy),
    Until(i64),
    Input(Name, i64),
    Event(Name),
    Task(TaskForm),
    State(Name, i64),
    Sense(Name, Name),
    Read(ReadForm),
    Let(Name, &'t [Token]),
    Next(Name, &'t [Token]),
    Out(Name, i64, &'t [Token]),
    Trace,
    Script,
    Done,
}
