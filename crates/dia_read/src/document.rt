// What a document says, and the lines where it does.

use dbp_plan::{List, Name, Policy};
use dia_lines::{Decl, Part, RawClock, TaskLine};
use std::alloc::Global;

/// A task, with names as they were read.
#[derive(Drop)]
pub struct RawTask {
    pub name: Name,
    pub clock: RawClock,
    /// The input that must not be 0.
    pub when: Option<Name>,
    pub prio: Option<u32>,
    /// In ticks from the release on.
    pub deadline: Option<u64>,
    /// In ticks.
    pub cost: u64,
    /// The number of its processor.
    pub cpu: u32,
    pub parts: List<Part>,
}

impl RawTask {
    ghost use Rattle.std.specs.Prelude.{◌≡◌};
    ghost use Rattle.dia_read.specs.Documents.{first_line};
    ghost use Rattle.dia_read.specs.Drafts.{task_of};

    // The task that a line begins, without a body yet.
    pub(crate) fn begun(alloc: Global, line: TaskLine) -> RawTask
        ensures { result ≡ task_of line }
    {
        RawTask {
            name: line.name,
            clock: line.clock,
            when: line.when,
            prio: line.prio,
            deadline: line.deadline,
            cost: line.cost,
            cpu: line.cpu,
            parts: List::new(alloc),
        }
    }

    // The line that begins the task.
    pub(crate) fn first_line(&self) -> TaskLine
        ensures { result ≡ first_line self.now }
    {
        TaskLine {
            name: self.name,
            clock: self.clock,
            when: self.when,
            prio: self.prio,
            deadline: self.deadline,
            cost: self.cost,
            cpu: self.cpu,
        }
    }
}

/// All that a document says.
pub struct Body {
    /// The version of the language, 1 or 2.
    pub version: u32,
    pub policy: Policy,
    /// The tick before which tasks occur.
    pub until: u64,
    pub decls: List<Decl>,
    pub tasks: List<RawTask>,
    /// The kept lines of the trace section: those that aren't blank, without a carriage return
    /// at their end, each ended by a line feed.
    pub trace: Option<List<u8>>,
    /// The kept lines of the script section: the tokens of those that have some, joined by one space, each ended by
    /// a line feed.
    pub script: Option<List<u8>>,
}

// By hand, as the prover then takes one step where a body is dropped, and not one for each part.
impl Drop for Body {
    fn drop(self) {
        let Body {
            version: _,
            policy: _,
            until: _,
            decls: _,
            tasks: _,
            trace: _,
            script: _,
        } = self;
    }
}

/// The line of each item of a document, counted from 1.
pub struct DocLines {
    pub until_at: u32,
    pub done_at: u32,
    /// 0 if there is no trace section.
    pub trace_at: u32,
    pub decls: List<u32>,
    pub tasks: List<u32>,
    /// Through all tasks.
    pub parts: List<u32>,
    pub trace: List<u32>,
    pub script: List<u32>,
}

// By hand for the same reason.
impl Drop for DocLines {
    fn drop(self) {
        let DocLines {
            until_at: _,
            done_at: _,
            trace_at: _,
            decls: _,
            tasks: _,
            parts: _,
            trace: _,
            script: _,
        } = self;
    }
}

/// A document: what it says, and where.
#[derive(Drop)]
pub struct Doc {
    pub body: Body,
    pub lines: DocLines,
}
