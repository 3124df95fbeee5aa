// What the response-time equation says of a task.

/// How long after its release an instance of a task may end.
#[derive(Clone, Copy, Debug, PartialEq, Eq)]
pub enum Bound {
    /// This many ticks, which is the task's least response time, and at most its period.
    At(u64),
    /// The task has no response time within its period.
    Beyond,
}
