// The processors of a simulation.

/// On which processors a simulation serves the tasks of a plan.
#[derive(Clone, Copy, Debug, PartialEq, Eq)]
pub enum Processors {
    /// All tasks on one, whatever their lines say.
    One,
    /// Each task on the one that its line declares with `cpu`.
    Declared,
}
