//! The base of `dbp`: the data of a diagram and of its plan, the table of a run, and the traits of the outside.
//!
//! All other crates stand on this one. A diagram, a plan and a table are plain data with their rules in their types: a
//! `Plan` is closed, ranked and in order (`IsPlan`), and the nodes of an `Expr` are those of one tree (`HasTree`). A
//! batch's tasks are a `TaskNumbers`, which contracts see as a list. A `Source` and a `Sink` say what they gave and
//! took, and count their faults: a caller knows a failure by this count. Those in memory say exactly which bytes, those
//! over std's streams say nothing of them. The crate also has what several others prove with: lemmas on lists, times,
//! occurrences, ranks, trees and names.
#![tactic(auto)]

mod calls;
mod copies;
mod diagram;
mod expr;
mod limits;
mod list;
mod mem_sink;
mod mem_source;
mod name;
mod node;
mod nodes;
mod plan;
mod row;
mod samples;
mod schedule;
mod sink;
mod source;
mod table;
mod task_numbers;

pub use diagram::{
    Clock, Diagram, Input, Let, Link, Next, Out, Policy, Read, Sense, ServedBy, State, Task,
};
pub use expr::Expr;
pub use limits::{
    MAX_BODY, MAX_CPU, MAX_DELAY, MAX_EVENTS, MAX_INPUTS, MAX_NAME, MAX_NODES, MAX_OCCURRENCES,
    MAX_OUTS, MAX_PRIO, MAX_READ_LINES, MAX_READS, MAX_TASKS, MAX_TEXT, MAX_TIME,
};
pub use list::{List, NoMemory};
pub use mem_sink::MemSink;
pub use mem_source::MemSource;
pub use name::Name;
pub use node::{BinOp, Node, Notation, UnOp};
pub use plan::Plan;
pub use row::Row;
pub use samples::samples_by_input;
pub use schedule::{Batch, Sample};
pub use sink::{Put, Sink, WriteSink};
pub use source::{Got, ReadSource, Source};
pub use table::{Table, TaskRows};
pub use task_numbers::TaskNumbers;
