// When tasks occur, and when inputs take values.

use crate::TaskNumbers;

/// The tasks that occur at one time, in order of declaration.
#[derive(Drop)]
pub struct Batch {
    /// In ticks from 0.
    pub time: u64,
    /// Their numbers, which rise.
    pub tasks: TaskNumbers,
}

/// A value that an input takes at a time.
#[derive(Clone, Copy, Debug, PartialEq, Eq)]
pub struct Sample {
    /// In ticks from 0.
    pub time: u64,
    /// The number of the input.
    pub input: u32,
    pub value: i64,
}
