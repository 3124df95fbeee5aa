// What is called before the turns of a run in threads.

/// What a run in threads calls before each turn, from the thread that makes the turn. It may take its time; it says nothing
/// of what it does.
pub trait Pace: Sync {
    /// Called before the turn of this number of the task of this number; the releaser's number is the number of tasks. The
    /// turns of a party in a run count from 1, and the count stays at 2^64 - 1.
    fn at(&self, task: u32, turn: u64);
}

/// The pace that does nothing.
#[derive(Clone, Copy, Debug)]
pub struct FreePace;

impl Pace for FreePace {
    fn at(&self, _task: u32, _turn: u64) {}
}
