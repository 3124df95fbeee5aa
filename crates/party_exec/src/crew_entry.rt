// What a crew keeps of each run.

use dbp_plan::{List, Plan};

/// How a task stood after a run.
#[derive(Clone, Copy, Debug, PartialEq, Eq)]
pub struct TaskEnd {
    /// How many of its instances had ended.
    pub ended: u32,
    /// How often it occurs.
    pub occurrences: u32,
}

/// A run: its plan, and how each task stood after it.
#[derive(Drop)]
pub struct CrewEntry {
    /// The plan.
    pub plan: Plan,
    /// One of each task, in order.
    pub tasks: List<TaskEnd>,
}
