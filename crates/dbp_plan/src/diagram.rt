// The data of a diagram: its inputs, events, tasks and links.

use crate::{Expr, List, Name};

/// When a task occurs.
#[derive(Clone, Copy, Debug, PartialEq, Eq)]
pub enum Clock {
    /// At `offset`, `offset + period` and so on, in ticks, below the diagram's `until`.
    Every {
        /// In ticks, at least 1.
        period: u64,
        /// In ticks from 0.
        offset: u64,
    },
    /// At the event's occurrences.
    On {
        /// The number of the event.
        event: u32,
    },
}

/// A state of a task, with its value before the first instance.
#[derive(Clone, Copy, PartialEq, Eq)]
pub struct State {
    pub name: Name,
    /// The value before the first instance.
    pub first: i64,
}

/// A name for an input of the diagram, whose value is that of the release.
#[derive(Clone, Copy, PartialEq, Eq)]
pub struct Sense {
    pub name: Name,
    /// The number of the input.
    pub input: u32,
}

/// A name for an out of another task, read over a link.
#[derive(Clone, Copy, PartialEq, Eq)]
pub struct Read {
    pub name: Name,
    /// The number of the link.
    pub link: u32,
    /// The writer's out.
    pub port: u32,
    /// After how many ticks of its service the task reads.
    pub at: u64,
}

/// A name for the value of an expression within one instance.
#[derive(Drop)]
pub struct Let {
    pub name: Name,
    pub expr: Expr<u32>,
}

/// The value that a state takes at the end of an instance. A state without one keeps its value.
#[derive(Drop)]
pub struct Next {
    /// The number of the state among the task's.
    pub state: u32,
    pub expr: Expr<u32>,
}

/// A port of a task, with its value before the first instance.
#[derive(Drop)]
pub struct Out {
    pub name: Name,
    /// The value before the first instance.
    pub first: i64,
    pub expr: Expr<u32>,
}

/// A task. A variable of its expressions is a place of its environment: its states, then its senses, its reads
/// and its lets, each in order of declaration.
#[derive(Drop)]
pub struct Task {
    pub name: Name,
    pub clock: Clock,
    /// The number of an input: the task occurs only at those times of its clock at which the input isn't 0.
    pub when: Option<u32>,
    /// Under fixed priorities the greater is higher.
    pub prio: Option<u32>,
    /// Ticks from a release to its deadline.
    pub deadline: Option<u64>,
    /// Ticks of service that an instance takes.
    pub cost: u64,
    /// The number of the processor that serves the task, from 0 to `MAX_CPU`.
    pub cpu: u32,
    pub states: List<State>,
    pub senses: List<Sense>,
    pub reads: List<Read>,
    pub lets: List<Let>,
    /// An order of the lets in which each comes after those that it uses.
    pub order: List<u32>,
    pub nexts: List<Next>,
    pub outs: List<Out>,
}

/// A link from a writer's outs to a reader. Reads of one task over the same writer and delay share a link.
#[derive(Clone, Copy, Debug, PartialEq, Eq)]
pub struct Link {
    /// The number of the task whose outs are read.
    pub writer: u32,
    /// The number of the task that reads.
    pub reader: u32,
    /// By how many occurrences of the writer the reader lags; 0 is a direct link.
    pub delay: u32,
}

/// An input of the diagram, with its value before the first sample.
#[derive(Clone, Copy, PartialEq, Eq)]
pub struct Input {
    pub name: Name,
    /// The value before the first sample.
    pub first: i64,
}

/// How tasks are served.
#[derive(Clone, Copy, Debug, PartialEq, Eq)]
pub enum Policy {
    /// Fixed priorities.
    Fp,
    /// Earliest deadline first.
    Edf,
}

/// What an instance that waits is served by.
#[derive(Clone, Copy, Debug, PartialEq, Eq)]
pub enum ServedBy {
    /// The rank of its task.
    Rank,
    /// Its deadline, and at a tie the rank of its task.
    Deadline,
}

impl Policy {
    ghost use Rattle.std.specs.Prelude.{◌≡◌};
    ghost use Rattle.dbp_plan.specs.Policies.{served_by, urgency};

    /// The number by which the policy ranks the task, if the task has it: the smaller, the higher.
    pub fn urgency(self, task: &Task) -> Option<u64>
        ensures { result ≡ urgency self task.now }
    {
        match self {
            Policy::Fp => task.prio.map(|prio| (u32::MAX - prio) as u64),
            Policy::Edf => task.deadline,
        }
    }

    /// What the policy serves instances by.
    pub fn served_by(self) -> ServedBy
        ensures { result ≡ served_by self }
    {
        match self {
            Policy::Fp => ServedBy::Rank,
            Policy::Edf => ServedBy::Deadline,
        }
    }
}

/// A diagram. Tasks, links, inputs and events are numbered from 0 in order of declaration; links by the first
/// read that uses them.
pub struct Diagram {
    pub policy: Policy,
    /// Tasks occur before this time, in ticks.
    pub until: u64,
    pub inputs: List<Input>,
    pub events: List<Name>,
    pub tasks: List<Task>,
    pub links: List<Link>,
    /// The rank of each task; 0 is the highest.
    pub ranks: List<u32>,
}

// By hand, as the prover then takes one step where a diagram is dropped, and not one for each part.
impl Drop for Diagram {
    fn drop(self) {
        let Diagram {
            policy: _,
            until: _,
            inputs: _,
            events: _,
            tasks: _,
            links: _,
            ranks: _,
        } = self;
    }
}
