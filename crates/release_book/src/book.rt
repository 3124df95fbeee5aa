// The releaser's part with the wiring that it steps by.

ghost use Rattle.release_book.specs.Releasers.{IsReleaserIn};

use crate::next::next_step;
use crate::release_step::ReleaseStep;
use dbp_plan::{NoMemory, Plan};
use dbp_rules::{Count, ReleaserPart, Wiring, wire_plan};
use std::alloc::Global;

/// The releaser of a run: what it knows, and which step it makes next. It looks at no task's part and at no shared word;
/// what it hears of the tasks, it is given.
#[derive(Drop)]
pub struct Book {
    wiring: Wiring,
    part: ReleaserPart,
    ghost releaser: { IsReleaserIn wiring part },
}

impl Book {
    ghost use Rattle.std.specs.Prelude.{◌≡◌, IfOk, Some, None};
    ghost use Rattle.dbp_rules.specs.PartyRules.{releaser_refusal};
    ghost use Rattle.dbp_rules.specs.Rules.{IsNamed};
    ghost use Rattle.dbp_rules.specs.Start.{start_of};
    ghost use Rattle.dbp_rules.specs.Wired.{wiring_of};
    ghost use Rattle.dbp_rules.specs.declared.step.Count.TheVariants.{All};
    ghost use Rattle.dbp_rules.specs.declared.step.Step.{Step};
    ghost use Rattle.release_book.specs.Books.{IsBookOf, part_in};
    ghost use Rattle.release_book.specs.NextStep.{IsNextStep, MayHear, part_after, step_of};

    /// The releaser before the first step, as it is in the start state of the plan's run.
    pub fn new(alloc: Global, plan: &Plan) -> Result<Book, NoMemory>
        ensures book { IfOk result (λ book. IsBookOf book plan.now) }
        ensures start { IfOk result (λ book. part_in book ≡ (start_of plan.now (wiring_of plan.now All)).releaser) }
    {
        let wiring = wire_plan(alloc, plan, Count::All)?;
        let part = ReleaserPart::start(alloc, &wiring)?;
        Ok(Book { wiring, part })
    }

    /// The step that the releaser makes next. At a task's aim it sees the task while its last aimed instance isn't known to
    /// have ended; then it aims the task at the least slot that no claim and no kept row needs. After the last action it
    /// sees each task in order until all that occur of it are known to have ended. The plan is the one that the book was
    /// made for. It takes no memory.
    pub fn next(&self, plan: &Plan) -> ReleaseStep
        requires { IsBookOf self.now plan.now }
        ensures next { IsNextStep (wiring_of plan.now All) (part_in self.now) result }
        ensures named { (e : Step) → step_of result ≡ Some e → IsNamed plan.now.diagram e }
        ensures allowed { (e : Step) → step_of result ≡ Some e → releaser_refusal (wiring_of plan.now All) (part_in self.now) e ≡ None }
    {
        next_step(plan, &self.wiring, &self.part)
    }

    /// What the releaser knows: its part of the protocol.
    pub fn part(&self) -> &ReleaserPart
        ensures { result.now ≡ part_in self.now }
    {
        &self.part
    }

    /// Notes that the step was made that `next` returned. For a `Seen` the number of ended instances that was loaded is
    /// `heard`; else that is any number. It takes no memory.
    pub fn made(&mut self, plan: &Plan, step: ReleaseStep, heard: u32)
        requires book { IsBookOf self.old plan.now }
        requires next { IsNextStep (wiring_of plan.now All) (part_in self.old) step }
        requires heard { MayHear (part_in self.old) step heard }
        ensures book { IsBookOf self.new plan.now }
        ensures part { part_in self.new ≡ part_after (wiring_of plan.now All) (part_in self.old) step heard }
    {
        match step {
            ReleaseStep::Seen { task } => self.part.see(task, heard),
            ReleaseStep::Aim { task, slot } => {
                self.part.aim(task, slot);
            }
            ReleaseStep::Claim { link } => {
                self.part.claim(&self.wiring, link);
            }
            ReleaseStep::OpenGate { task } => {
                self.part.open(task);
            }
            ReleaseStep::Finished => {}
        }
    }
}
