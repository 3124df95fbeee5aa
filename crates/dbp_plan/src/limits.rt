// The limits of a diagram, which docs/LANGUAGE.md has as a table, of a name, and of a text.

/// Bytes of a text that is read, at most.
pub const MAX_TEXT: usize = 2_000_000_000;
/// Bytes of a name, at most.
pub const MAX_NAME: usize = 24;
/// Tasks of a diagram, at most.
pub const MAX_TASKS: u32 = 32;
/// Inputs of a diagram, at most.
pub const MAX_INPUTS: u32 = 16;
/// Events of a diagram, at most.
pub const MAX_EVENTS: u32 = 16;
/// Reads of one task, at most.
pub const MAX_READS: u32 = 16;
/// Reads of all tasks together, at most, and so links.
pub const MAX_READ_LINES: u32 = 128;
/// Outs of a task, at most; it has at least one.
pub const MAX_OUTS: u32 = 8;
/// States, senses, reads, lets, nexts and outs of a task together, at most.
pub const MAX_BODY: u32 = 64;
/// Nodes of an expression, at most.
pub const MAX_NODES: u32 = 64;
/// The greatest time, offset, period, deadline and cost, in ticks.
pub const MAX_TIME: u64 = 1_000_000_000;
/// The greatest priority.
pub const MAX_PRIO: u32 = 1_000_000;
/// The greatest number of a processor; they are numbered from 0.
pub const MAX_CPU: u32 = 7;
/// Occurrences of all tasks together, at most.
pub const MAX_OCCURRENCES: u32 = 100_000;
/// The longest delay of a link, in occurrences of its writer.
pub const MAX_DELAY: u32 = 8;

// Contracts name the limits; here are their values.
const _: () = prove!(MAX_TEXT == 2_000_000_000);

const _: () = prove!(MAX_NAME == 24);

const _: () = prove!(MAX_TASKS == 32);

const _: () = prove!(MAX_INPUTS == 16);

const _: () = prove!(MAX_EVENTS == 16);

const _: () = prove!(MAX_READS == 16);

const _: () = prove!(MAX_READ_LINES == 128);

const _: () = prove!(MAX_OUTS == 8);

const _: () = prove!(MAX_BODY == 64);

const _: () = prove!(MAX_NODES == 64);

const _: () = prove!(MAX_TIME == 1_000_000_000);

const _: () = prove!(MAX_PRIO == 1_000_000);

const _: () = prove!(MAX_CPU == 7);

const _: () = prove!(MAX_OCCURRENCES == 100_000);

const _: () = prove!(MAX_DELAY == 8);
