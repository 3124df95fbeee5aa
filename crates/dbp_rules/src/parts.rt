// What the releaser and the tasks each know: the parts of the protocol's state that its parties own.

use arrayvec::ArrayVec;
use dbp_plan::{List, MAX_READS};

/// A slot of a writer, and the number of the instance whose outs it is to hold; number 0 are the first values.
#[derive(Clone, Copy, Debug, Default, PartialEq, Eq)]
pub struct Order {
    /// Among the writer's slots.
    pub slot: u32,
    /// Of the writer's instance.
    pub number: u32,
}

/// Orders that an instance hears, at most: its own, and one of each link into its task.
pub const MAX_ORDERS: usize = MAX_READS as usize + 1;

const _: () = prove!(MAX_ORDERS == 17);

/// The next step of a task.
#[derive(Clone, Copy, Debug, PartialEq, Eq)]
pub enum Place {
    /// It starts its next instance.
    Idle,
    /// It hears an order: number 0 is its own, number n + 1 that of the link at place n of those into the task.
    Hear(u32),
    /// It looks for the read whose turn this is.
    Look(u32),
    /// It takes the word of the read whose turn this is.
    Take(u32),
    /// It shuts its slot, and computes.
    Shut,
    /// It puts the out of this port.
    Put(u32),
    /// It stamps its slot.
    Done,
    /// It says that its instance has ended.
    End,
}

/// What the releaser knows of a task.
#[derive(Drop)]
pub struct TaskEntry {
    /// How many of its instances are known to have ended.
    pub known: u32,
    /// The number of its last instance that was given its slot.
    pub aimed: u32,
    /// That slot.
    pub current: u32,
    /// The slots of the instances before that one, the latest first, as many as the longest delay of the links that
    /// leave the task.
    pub kept: List<u32>,
}

/// The last claim over a link.
#[derive(Clone, Copy, Debug, PartialEq, Eq)]
pub struct LinkEntry {
    /// The slot that the reader is to read.
    pub slot: u32,
    /// The number of the writer's instance whose outs it is to hold.
    pub number: u32,
    /// The number of the reader's instance that is to read it.
    pub instance: u32,
}

/// The releaser's part of the protocol.
#[derive(Drop)]
pub struct ReleaserPart {
    /// The number of its next action in the list of all actions.
    pub place: u32,
    /// What it knows of each task.
    pub tasks: List<TaskEntry>,
    /// Its last claim over each link.
    pub links: List<LinkEntry>,
}

/// A task's part of the protocol.
#[derive(Drop)]
pub struct TaskPart {
    /// How many of its instances have ended.
    pub ended: u32,
    /// Its next step.
    pub place: Place,
    /// The orders that its instance has heard.
    pub heard: ArrayVec<Order, MAX_ORDERS>,
}
