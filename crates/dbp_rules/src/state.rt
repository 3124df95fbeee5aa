// The state of the protocol: the words that its parties share, and what each party has for itself.

use crate::parts::{Order, ReleaserPart, TaskPart};
use crate::work::Work;
use dbp_plan::List;

/// A slot of a task.
#[derive(Drop)]
pub struct Slot {
    /// 1 more than the number of the row that the slot holds; 0 if it holds none, at first and while it is being
    /// filled.
    pub stamp: u32,
    /// A word for each port.
    pub words: List<i64>,
}

/// The words that a task shares with others.
#[derive(Drop)]
pub struct TaskWords {
    /// The number of the last instance that may start.
    pub gate: u32,
    /// How many instances have ended.
    pub ended: u32,
    /// The slot that the task's last aimed instance is to fill.
    pub aim: Order,
    /// The rows that are current, kept or claimed, and free slots.
    pub slots: List<Slot>,
}

/// A task: its shared words, its part of the protocol, and what it computes with.
#[derive(Drop)]
pub struct TaskState {
    /// What it shares.
    pub words: TaskWords,
    /// How far it has come.
    pub part: TaskPart,
    /// What it computes with.
    pub work: Work,
}

/// The state of the protocol.
pub struct State {
    /// How far the releaser has come.
    pub releaser: ReleaserPart,
    /// By task.
    pub tasks: List<TaskState>,
    /// By link: the word in which the releaser orders what its reader is to read.
    pub orders: List<Order>,
}

// By hand, as the prover then takes one step where a state is dropped, and not one for each part.
impl Drop for State {
    fn drop(self) {
        let State {
            releaser: _,
            tasks: _,
            orders: _,
        } = self;
    }
}
