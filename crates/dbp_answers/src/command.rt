// The commands.

use dbp_plan::Name;

/// What the program is to do.
#[derive(Clone, Copy, Debug, PartialEq, Eq)]
pub enum Command {
    /// Writes the lines of the meaning's table.
    Mean,
    /// Simulates the plan in virtual time, and writes the lines of the table or the steps of the record.
    Sim {
        /// The steps.
        record_it: bool,
    },
    /// Simulates the plan in virtual time on the processors of its tasks, and writes the lines of the table or the steps of
    /// the record.
    Cpus {
        /// The steps.
        record_it: bool,
    },
    /// Runs the plan, and writes the lines of the table: by the crew at hand, or by turns drawn from a number.
    Run {
        /// The number that turns are drawn from.
        turns: Option<u64>,
    },
    /// Writes the canonical text.
    Form,
    /// Writes the canonical text in version 2 of the language.
    Upgrade,
    /// Writes the canonical text with priorities from the links.
    Rank,
    /// Writes the slots of each task.
    Plan,
    /// Writes the response time of each task.
    Rta,
    /// Writes the document of a scenario in which all slots of a task are in use at once.
    Need {
        /// The name of the task.
        task: Name,
    },
    /// Takes the steps of the script, and writes what each hears: in any order of the tasks, or by their ranks.
    Replay {
        /// By their ranks.
        ranked: bool,
    },
    /// Writes the generated document. It doesn't read.
    Gen {
        /// What the document is drawn from.
        seed: u64,
        /// Its tasks, from 1 to 32.
        size: u32,
    },
    /// Evaluates, simulates and runs the generated document, and writes what came of it. It doesn't read.
    Soak {
        /// What the document is drawn from.
        seed: u64,
        /// Its tasks, from 1 to 32.
        size: u32,
    },
}
