// What a party returns of its turn.

/// What a turn did.
#[derive(Clone, Copy, Debug, PartialEq, Eq)]
pub enum Turn {
    /// It made a step that its party had waited for, or that waits for nothing.
    Stepped,
    /// It made a step, after which its party still waits for this.
    Idle(Cause),
    /// It made no step: its party had finished.
    Finished,
}

/// What a party waits for.
#[derive(Clone, Copy, Debug, PartialEq, Eq)]
pub enum Cause {
    /// The gate of a task isn't open for its next instance.
    NotOpened,
    /// The slot that a task is to read doesn't hold the row that was ordered.
    WriterNotDone,
    /// The last aimed instance of a task isn't known to have ended.
    LastNotEnded,
}
