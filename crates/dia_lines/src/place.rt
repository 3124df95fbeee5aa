// The places of a document.

/// How far a document has been read: what its next line may say.
#[derive(Clone, Copy, Debug, PartialEq, Eq)]
pub enum Place {
    /// `dbp 1` or `dbp 2` comes next.
    Header,
    /// The policy comes next.
    Policy,
    /// `until` comes next.
    Until,
    /// Inputs and events, or the first task.
    Declarations,
    /// The body of a task, or the next task.
    Body,
    /// Lines of the trace section.
    Trace,
    /// Lines of the script section.
    Script,
    /// `done` was read.
    Ended,
}
