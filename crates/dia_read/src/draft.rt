// What the lines of a document say so far.

ghost use Rattle.std.specs.Prelude.{◌≡◌, ◌+◌, ◌<◌, ◌^◌, length, IfOk};
ghost use Rattle.dia_read.specs.Drafts.{finished};

use crate::{Body, Doc, DocLines, RawTask};
use dbp_plan::{List, NoMemory, Policy};
use dia_lines::Decl;

// The tasks so far: the latest one, whose body may go on, and those before it.
#[derive(Drop)]
pub(crate) struct Tasks {
    pub(crate) earlier: List<RawTask>,
    pub(crate) latest: Option<RawTask>,
}

// A section so far.
#[derive(Drop)]
pub(crate) struct Section {
    // Whether the line that begins it was read.
    pub(crate) begun: bool,
    // Its kept lines, each ended by a line feed.
    pub(crate) text: List<u8>,
}

// What the lines of a document say so far.
pub(crate) struct Draft {
    pub(crate) version: u32,
    pub(crate) policy: Policy,
    pub(crate) until: u64,
    pub(crate) decls: List<Decl>,
    pub(crate) tasks: Tasks,
    pub(crate) trace: Section,
    pub(crate) script: Section,
    pub(crate) lines: DocLines,
}

// By hand, as the prover then takes one step where a draft is dropped, and not one for each part.
impl Drop for Draft {
    fn drop(self) {
        let Draft {
            version: _,
            policy: _,
            until: _,
            decls: _,
            tasks: _,
            trace: _,
            script: _,
            lines: _,
        } = self;
    }
}

impl Draft {
    // The document that the draft has come to.
    pub(crate) fn finish(self) -> Result<Doc, NoMemory>
        requires { length self.tasks.earlier + 1 < 2 ^ 32 }
        ensures { IfOk result (λ doc. doc ≡ finished self) }
    {
        let Draft {
            version,
            policy,
            until,
            decls,
            tasks,
            trace,
            script,
            lines,
        } = self;
        Ok(Doc {
            body: Body {
                version,
                policy,
                until,
                decls,
                tasks: tasks.all()?,
                trace: trace.into_text(),
                script: script.into_text(),
            },
            lines,
        })
    }
}
