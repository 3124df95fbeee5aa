// Why a command refuses a document that others accept.

ghost use Rattle.std.specs.Prelude.{◌≡◌};

use dbp_plan::{List, Name};
use std::slice::from_ref;

/// Why a command refuses a document that others accept. Such a refusal stands at no line.
#[derive(Drop)]
pub enum CommandCode {
    /// Its policy serves by deadline.
    NotFixed,
    /// A task is on an event, or occurs only where an input isn't 0.
    NotPeriodic {
        /// The name of the first such task.
        task: Name,
    },
    /// A task is periodic, or occurs only where an input isn't 0.
    NotOnEvents {
        /// The name of the first such task.
        task: Name,
    },
    /// A task is on the event of an earlier one.
    SharedEvent {
        /// The name of the first such task.
        task: Name,
    },
    /// The document has no task of the command's name.
    NoTask,
    /// The scenario of the task would end past the greatest time.
    TooLong,
    /// Direct links form a cycle, so that no task on it can be ranked.
    Cycle {
        /// The names of the tasks of the first cycle, from its start on.
        tasks: List<Name>,
    },
}

impl CommandCode {
    ghost use Rattle.dbp_answers.specs.CommandCodes.{command_name, command_number, tasks_in};

    /// The number that the refusal is printed with.
    pub fn number(&self) -> u32
        ensures { result ≡ command_number self.now }
    {
        match self {
            CommandCode::NotFixed => 31,
            CommandCode::NotPeriodic { .. } => 32,
            CommandCode::NotOnEvents { .. } => 33,
            CommandCode::SharedEvent { .. } => 34,
            CommandCode::NoTask => 35,
            CommandCode::TooLong => 36,
            CommandCode::Cycle { .. } => 37,
        }
    }

    /// The name that the refusal is printed with.
    pub fn name(&self) -> &'static str
        ensures { result.now ≡ command_name self.now }
    {
        match self {
            CommandCode::NotFixed => "NotFixed",
            CommandCode::NotPeriodic { .. } => "NotPeriodic",
            CommandCode::NotOnEvents { .. } => "NotOnEvents",
            CommandCode::SharedEvent { .. } => "SharedEvent",
            CommandCode::NoTask => "NoTask",
            CommandCode::TooLong => "TooLong",
            CommandCode::Cycle { .. } => "Cycle",
        }
    }

    // The names of tasks that are printed after it.
    pub(crate) fn tasks(&self) -> &[Name]
        ensures { result.now ≡ tasks_in self.now }
    {
        match self {
            CommandCode::NotPeriodic { task }
            | CommandCode::NotOnEvents { task }
            | CommandCode::SharedEvent { task } => from_ref(task),
            CommandCode::Cycle { tasks } => tasks.items(),
            CommandCode::NotFixed | CommandCode::NoTask | CommandCode::TooLong => &[],
        }
    }
}
