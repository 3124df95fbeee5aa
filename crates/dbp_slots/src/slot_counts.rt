// How many slots a task needs for its outs.

/// How many slots a task needs for its outs, and why.
#[derive(Clone, Copy, Debug, PartialEq, Eq)]
pub struct Counts {
    /// Links from the task to readers that are ranked below it.
    pub lower: u32,
    /// Links from the task to readers that are ranked above it.
    pub higher: u32,
    /// The longest delay of the links that leave the task, 0 if none leaves it.
    pub delayed: u32,
    /// Slots of the task in a simulation: `lower + 1 + delayed`.
    pub sim: u32,
    /// Slots of the task in a run: `lower + higher + 1 + delayed`.
    pub run: u32,
}
