// What a document has once its names and its shape are checked.

use dbp_plan::{Diagram, List};

/// A `read` line of a document.
#[derive(Clone, Copy)]
pub struct ReadLine {
    /// The number of the line, counted from 1.
    pub line: u32,
    /// The number of the link that it reads over.
    pub link: u32,
}

/// The diagram of a document whose names and shape have no fault, still without ranks, and the lines that faults of
/// ranks are compared by.
#[derive(Drop)]
pub struct Shaped {
    /// Its `ranks` are empty.
    pub diagram: Diagram,
    /// The line of each task, counted from 1.
    pub task_lines: List<u32>,
    /// Each `read` line, in order.
    pub read_lines: List<ReadLine>,
}
