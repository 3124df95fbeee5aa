// The core of a plan that is taken through steps which are known to be allowed, as one value.

ghost use Rattle.std.specs.Prelude.{◌≡◌};
ghost use Rattle.dbp_plan.specs.Table.{table_row};
ghost use Rattle.sync_meaning.specs.SomeMeaning.{meaning_of};
ghost use Rattle.dbp_rules.specs.Listing.{with_releases};
ghost use Rattle.dbp_rules.specs.Shapes.{IsShape};
ghost use Rattle.dbp_rules.specs.Sound.{Sound};
ghost use Rattle.dbp_rules.specs.Wired.{wiring_of};

use crate::making::make;
use dbp_plan::{NoMemory, Plan, Row};
use dbp_rules::{Count, Heard, State, Step, TaskWiring, Wiring, start_state, wire_steps};
use std::alloc::Global;
use std::rc::Rc;

/// The protocol of a plan for one who knows that each step is allowed: as a `Core`, but no step is tried. So neither the
/// list of the releaser's actions nor the ranks of unfinished tasks are kept.
pub struct Stepper {
    plan: Rc<Plan>,
    // Its list of the releaser's actions is empty.
    wiring: Wiring,
    state: State,
    ghost wired: { with_releases plan.value wiring ≡ wiring_of plan.value wiring.count },
    ghost shape: { IsShape plan.value (with_releases plan.value wiring) state },
    ghost sound: { ∥ Sound plan.value (with_releases plan.value wiring) (table_row (meaning_of plan.value)) state ∥₁ },
}

// By hand, as the prover then takes one step where a stepper is dropped, and not one for each part.
impl Drop for Stepper {
    fn drop(self) {
        let Stepper {
            plan: _,
            wiring: _,
            state: _,
        } = self;
    }
}

impl Stepper {
    ghost use Rattle.std.specs.Prelude.{◌≡◌, ◌<◌, length, slice_get, Some, None, Ok, IfOk};
    ghost use Rattle.dbp_plan.specs.declared.table.Table.{Table};
    ghost use Rattle.dbp_plan.specs.Table.{IsRow};
    ghost use Rattle.sync_meaning.specs.Meaning.{IsMeaning};
    ghost use Rattle.release_list.specs.declared.release.Release.TheVariants.{Aim as AimOf};
    ghost use Rattle.dbp_core.specs.Steppers.{count_in, plan_in, state_in, wiring_in};
    ghost use Rattle.dbp_rules.specs.Lookups.{link_entry, task as state_of, task_entry, wired_task};
    ghost use Rattle.dbp_rules.specs.Promises.{IsLeastAim};
    ghost use Rattle.dbp_rules.specs.Rules.{IsNamed, IsStep, refusal};
    ghost use Rattle.dbp_rules.specs.SoundParts.{last_shut};
    ghost use Rattle.dbp_rules.specs.Start.{start_of};

    /// The protocol before the first step, of a plan that others have too.
    pub fn new(alloc: Global, plan: Rc<Plan>, count: Count) -> Result<Stepper, NoMemory>
        ensures plan { IfOk result (λ core. plan_in core ≡ plan.value) }
        ensures count { IfOk result (λ core. count_in core ≡ count) }
        ensures wiring { IfOk result (λ core. wiring_in core ≡ wiring_of plan.value count) }
        ensures start { IfOk result (λ core.
            state_in core ≡ start_of plan.value (wiring_of plan.value count)) }
    {
        let wiring = wire_steps(alloc, &plan, count)?;
        let state = start_state(alloc, &plan, &wiring)?;
        Ok(Stepper {
            plan,
            wiring,
            state,
        })
    }

    /// Makes a step that is known to be allowed by the rules. Returns what is heard. It takes no memory.
    #[inline(always)]
    pub fn make(&mut self, step: Step) -> Heard
        requires named { IsNamed (plan_in self.old).diagram step }
        requires allowed { refusal (wiring_in self.old) (state_in self.old) step ≡ None }
        ensures plan { plan_in self.new ≡ plan_in self.old }
        ensures count { count_in self.new ≡ count_in self.old }
        ensures wiring { wiring_in self.new ≡ wiring_in self.old }
        ensures step { IsStep (plan_in self.old) (wiring_in self.old)
            (state_in self.old) step (Ok result) (state_in self.new) }
    {
        make(&self.plan, &self.wiring, &mut self.state, step)
    }

    /// The least slot that the task may be aimed at: the least that no counted claim needs and that doesn't stay kept.
    /// The task's aim is the releaser's next action, and its last instance is known to have ended. It takes no memory.
    pub fn least_aim(&self, task: u32) -> u32
        requires next { slice_get (wiring_in self.now).releases (state_in self.now).releaser.place ≡ Some (AimOf task) }
        requires ended { (task_entry (state_in self.now) task).aimed ≡ (task_entry (state_in self.now) task).known }
        ensures { IsLeastAim (wiring_in self.now) (state_in self.now) task result }
    {
        self.state.releaser.least_free(&self.wiring, task)
    }

    /// How many instances of the task have been aimed. It takes no memory.
    #[inline(always)]
    pub fn aimed(&self, task: u32) -> u32
        requires { task < length (plan_in self.now).diagram.tasks }
        ensures { result ≡ (task_entry (state_in self.now) task).aimed }
    {
        self.state.releaser.entry(task).aimed
    }

    /// The number of the row that the link's last claim is for; 0 before the first claim, and while it is for the first
    /// values. It takes no memory.
    #[inline(always)]
    pub fn claimed_number(&self, link: u32) -> u32
        requires { link < length (plan_in self.now).diagram.links }
        ensures { result ≡ (link_entry (state_in self.now) link).number }
    {
        self.state.releaser.claim_over(link).number
    }

    /// The plan.
    pub fn plan(&self) -> &Plan
        ensures { result.now ≡ plan_in self.now }
    {
        &self.plan
    }

    /// The plan, as others have it too. A copy of this pointer lets a caller look at the plan while steps are made.
    pub fn shared_plan(&self) -> &Rc<Plan>
        ensures { result.now.value ≡ plan_in self.now }
    {
        &self.plan
    }

    /// What the steps look up of the task.
    pub fn task_wiring(&self, task: u32) -> &TaskWiring
        requires { task < length (plan_in self.now).diagram.tasks }
        ensures { result.now ≡ wired_task (wiring_in self.now) task }
    {
        self.wiring.task(task)
    }

    /// The row that the task computed at its last `Shut`, or the first values of its outs before any. It is the
    /// meaning's row of that instance, or row 0.
    pub fn row(&self, task: u32) -> &Row
        requires { task < length (plan_in self.now).diagram.tasks }
        ensures row { result.now ≡ (state_of (state_in self.now) task).work.row }
        ensures meaning { (table : Table) → IsMeaning (plan_in self.now).diagram (plan_in self.now).samples (plan_in self.now).batches table → IsRow table task (last_shut (state_of (state_in self.now) task)) result.now }
    {
        self.state.tasks.items()[task as usize].work.row()
    }
}
