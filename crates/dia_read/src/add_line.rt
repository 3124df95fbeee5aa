// One more line in a draft.

ghost use Rattle.std.specs.Prelude.{◌≡◌, ◌+◌, ◌*◌, ◌<◌, ◌≤◌, ◌^◌, ◌++◌, length, IfOk, OnOk};
ghost use Rattle.std.specs.Option.{option_to_list, IfSome as ForSome};
ghost use Rattle.dia_read.specs.Drafts.{begun, added, kept_line, drafted, text_of_line, HasRoom, empty_section, empty_draft, section_text};

use crate::draft::{Draft, Section, Tasks};
use crate::{DocLines, RawTask};
use dbp_plan::{List, NoMemory, Policy};
use dia_lines::{Line, Part, TaskLine};
use std::alloc::Global;

impl Tasks {
    // Begins a task after the others.
    fn begin(&mut self, alloc: Global, line: TaskLine) -> Result<(), NoMemory>
        requires { length self.old.earlier + 1 < 2 ^ 32 }
        ensures { OnOk result (self.new ≡ begun self.old line) }
    {
        if let Some(task) = self.latest.take() {
            self.earlier.push(task)?;
        }
        self.latest = Some(RawTask::begun(alloc, line));
        Ok(())
    }

    // Adds a line to the body of the latest task.
    fn add(&mut self, part: Part) -> Result<(), NoMemory>
        requires { ForSome self.old.latest (λ task. length task.parts + 1 < 2 ^ 32) }
        ensures { OnOk result (self.new ≡ added self.old part) }
    {
        match &mut self.latest {
            Some(task) => task.parts.push(part),
            None => Ok(()),
        }
    }

    // All tasks.
    pub(crate) fn all(self) -> Result<List<RawTask>, NoMemory>
        requires { length self.earlier + 1 < 2 ^ 32 }
        ensures { IfOk result (λ tasks. tasks ≡ self.earlier ++ option_to_list self.latest) }
    {
        let Tasks {
            mut earlier,
            latest,
        } = self;
        if let Some(task) = latest {
            earlier.push(task)?;
        }
        Ok(earlier)
    }
}

impl Section {
    fn new(alloc: Global) -> Section
        ensures { result ≡ empty_section }
    {
        Section {
            begun: false,
            text: List::new(alloc),
        }
    }

    // The section's text, if it is there.
    pub(crate) fn into_text(self) -> Option<List<u8>>
        ensures { result ≡ section_text self }
    {
        if self.begun { Some(self.text) } else { None }
    }

    // Keeps a line as it is.
    fn keep(&mut self, line: &[u8]) -> Result<(), NoMemory>
        requires { length self.old.text + length line.now + 1 < 2 ^ 32 }
        ensures { OnOk result (self.new ≡ kept_line self.old line.now) }
    {
        self.text.extend_from_slice(line)?;
        self.text.push(b'\n')
    }
}

impl Draft {
    // Before the first line.
    pub(crate) fn new(alloc: Global) -> Draft
        ensures { result ≡ empty_draft }
    {
        Draft {
            version: 1,
            policy: Policy::Fp,
            until: 0,
            decls: List::new(alloc),
            tasks: Tasks {
                earlier: List::new(alloc),
                latest: None,
            },
            trace: Section::new(alloc),
            script: Section::new(alloc),
            lines: DocLines {
                until_at: 0,
                done_at: 0,
                trace_at: 0,
                decls: List::new(alloc),
                tasks: List::new(alloc),
                parts: List::new(alloc),
                trace: List::new(alloc),
                script: List::new(alloc),
            },
        }
    }

    // Adds what is held of a line, which has the number and these bytes.
    pub(crate) fn add(
        &mut self,
        alloc: Global,
        number: u32,
        bytes: &[u8],
        line: Line,
    ) -> Result<(), NoMemory>
        requires kept { length (text_of_line bytes.now line) ≤ 2 * length bytes.now }
        requires few { number < 2 ^ 31 }
        requires room { HasRoom self.old number (length bytes.now) }
        ensures { OnOk result
            (self.new ≡ drafted self.old number (text_of_line bytes.now line) line) }
    {
        match line {
            Line::Nothing => {}
            Line::Header(version) => self.version = version,
            Line::Policy(policy) => self.policy = policy,
            Line::Until(end) => {
                self.until = end;
                self.lines.until_at = number;
            }
            Line::Decl(decl) => {
                self.decls.push(decl)?;
                self.lines.decls.push(number)?;
            }
            Line::Task(task) => {
                self.tasks.begin(alloc, task)?;
                self.lines.tasks.push(number)?;
            }
            Line::Part(part) => {
                self.tasks.add(part)?;
                self.lines.parts.push(number)?;
            }
            Line::Trace => {
                self.trace.begun = true;
                self.lines.trace_at = number;
            }
            Line::Script => self.script.begun = true,
            Line::Done => self.lines.done_at = number,
            Line::Row => {
                self.trace.keep(bytes)?;
                self.lines.trace.push(number)?;
            }
            Line::Step(text) => {
                self.script.keep(text.bytes())?;
                self.lines.script.push(number)?;
            }
        }
        Ok(())
    }
}
