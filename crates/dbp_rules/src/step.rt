// The steps of the protocol, what they hear, and why they are refused.

/// Which links of a writer keep it from a slot, and so how many slots a task has, and whether tasks step by their ranks.
#[derive(Clone, Copy, Debug, PartialEq, Eq)]
pub enum Count {
    /// The links to lower-ranked readers; a task has the slots of a simulation. It steps only if no task ranked above
    /// it has an instance that hasn't ended and that was aimed in the batch of its own instance or in an earlier one; a
    /// `Start` that finds the gate closed is free of that. For the simulation, where higher ranks preempt lower ones.
    Ranked,
    /// All links; a task has the slots of a run, and tasks step in any order. For a run on tasks that may stand still
    /// anywhere.
    All,
}

/// One step of the releaser or of a task. Each but `Seen`, a `Start` that finds the gate closed and a `Look` that finds
/// another row moves its party to its next place.
#[derive(Clone, Copy, Debug, PartialEq, Eq)]
pub enum Step {
    /// The releaser loads how many instances of the task have ended.
    Seen { task: u32 },
    /// The releaser gives the task's next instance the slot that it is to fill. Any number may be asked for.
    Aim { task: u32, slot: u32 },
    /// The releaser gives the link's reader the slot that its next instance is to read.
    Claim { link: u32 },
    /// The releaser opens the gate of the task's next instance.
    OpenGate { task: u32 },
    /// The task loads its gate, and begins its next instance if that is open.
    Start { task: u32 },
    /// The task loads its next order: first its own, then that of each link into it.
    Hear { task: u32 },
    /// The task loads the stamp of the slot that it heard for the read.
    Look { task: u32, read: u32 },
    /// The task loads the word of the read's port from that slot.
    Take { task: u32, read: u32 },
    /// The task stamps the slot that it is to fill with 0, and computes its outs and its next states.
    Shut { task: u32 },
    /// The task stores an out into its slot.
    Put { task: u32, port: u32 },
    /// The task stamps its slot with its instance.
    Done { task: u32 },
    /// The task says that its instance has ended.
    End { task: u32 },
}

/// What a step hears.
#[derive(Clone, Copy, Debug, PartialEq, Eq)]
pub enum Heard {
    /// The step stored a word.
    Stored,
    /// How many instances have ended.
    Ended(u32),
    /// The gate was open.
    Started,
    /// The gate isn't open yet.
    Closed,
    /// The slot to fill or to read, and the number of the instance whose outs it is to hold.
    Order { slot: u32, number: u32 },
    /// The slot holds the outs that it is to hold.
    Ready,
    /// The slot's writer isn't done yet.
    NotYet,
    /// The word of the port.
    Word(i64),
}

/// The conditions of a step, in the order in which they are tried.
#[derive(Clone, Copy, Debug, PartialEq, Eq)]
pub enum Broken {
    /// The step isn't the releaser's next one.
    Place,
    /// The task's last instance isn't known to have ended.
    LastNotEnded,
    /// The task has no such slot.
    SlotRange,
    /// The slot is kept for a delayed link.
    SlotKept,
    /// A reader claims the slot.
    SlotClaimed,
    /// The step isn't the task's next one.
    TaskPlace,
    /// A task ranked above has an instance that hasn't ended, aimed in the same batch or in an earlier one.
    HigherUnfinished,
}

/// Why a step isn't allowed. docs/PROTOCOL.md has the conditions and their values as a table.
#[derive(Clone, Copy, Debug, PartialEq, Eq)]
pub struct Illegal {
    /// The first broken condition.
    pub broken: Broken,
    /// The value that it compares, as the kind of the next step or the number of slots.
    pub left: u64,
    /// The value that it is compared with, as the kind of the asked step, 13 if only the operand is wrong, or the slot.
    pub right: u64,
}
