// What a seat knows, and what its part refuses.

ghost use Rattle.std.specs.Prelude.{◌≡◌};
ghost use Rattle.dbp_rules.specs.PartyRules.{releaser_refusal, task_refusal};
ghost use Rattle.dbp_rules.specs.Lookups.{wired_task};
ghost use Rattle.dbp_rules.specs.Rules.{IsNamed};
ghost use Rattle.word_rule.specs.Seats.{ReleaserSits, TaskSits};

use crate::seats::{ReleaserSeat, SlotWords, TaskSeat};
use dbp_rules::{Illegal, ReleaserPart, Step, TaskPart};

impl ReleaserSeat {
    /// The releaser's part of the protocol.
    pub fn part(&self) -> &ReleaserPart
        ensures { result.now ≡ self.now.part }
    {
        &self.part
    }

    /// Why its part doesn't allow the step, if so. The task or the link that the step names is one of the plan's.
    pub fn refusal(&self, words: &SlotWords, step: Step) -> Option<Illegal>
        requires here { ReleaserSits words.now self.now }
        requires named { IsNamed words.now.plan.diagram step }
        ensures { result ≡ releaser_refusal words.now.wiring self.now.part step }
    {
        self.part.refusal(&words.wiring, step)
    }
}

impl TaskSeat {
    /// The number of the task.
    pub fn task(&self) -> u32
        ensures { result ≡ self.now.task }
    {
        self.task
    }

    /// The task's part of the protocol.
    pub fn part(&self) -> &TaskPart
        ensures { result.now ≡ self.now.part }
    {
        &self.part
    }

    /// Why its part doesn't allow the step, if so.
    pub fn refusal(&self, words: &SlotWords, step: Step) -> Option<Illegal>
        requires { TaskSits words.now self.now }
        ensures { result ≡ task_refusal (wired_task words.now.wiring self.now.task) self.now.part step }
    {
        self.part.refusal(words.wiring.task(self.task), step)
    }
}
