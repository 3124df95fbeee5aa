// The core of a plan, as one value.

ghost use Rattle.std.specs.Prelude.{◌≡◌};
ghost use Rattle.dbp_plan.specs.Table.{table_row};
ghost use Rattle.sync_meaning.specs.SomeMeaning.{meaning_of};
ghost use Rattle.dbp_rules.specs.Shapes.{IsShape};
ghost use Rattle.dbp_rules.specs.Sound.{Sound};
ghost use Rattle.dbp_rules.specs.Wired.{wiring_of};
ghost use Rattle.dbp_core.specs.Unfinished.{HasUnfinished};

use crate::dispatch::advance;
use crate::rank_mask::RankMask;
use dbp_plan::{NoMemory, Plan, Row};
use dbp_rules::{Count, Heard, Illegal, State, Step, Wiring, start_state, wire_plan};
use std::alloc::Global;
use std::rc::Rc;

/// The protocol of a plan, from the first step on: the words that the releaser and the tasks share, and what each has
/// for itself. It changes by steps alone, so its state is always sound.
pub struct Core {
    plan: Rc<Plan>,
    wiring: Wiring,
    state: State,
    // The ranks of the tasks that have an aimed instance which hasn't ended.
    unfinished: RankMask,
    ghost wired: { wiring ≡ wiring_of plan.value wiring.count },
    ghost shape: { IsShape plan.value wiring state },
    ghost ranks: { HasUnfinished wiring state unfinished },
    ghost sound: { ∥ Sound plan.value wiring (table_row (meaning_of plan.value)) state ∥₁ },
}

// By hand, as the prover then takes one step where a core is dropped, and not one for each part.
impl Drop for Core {
    fn drop(self) {
        let Core {
            plan: _,
            wiring: _,
            state: _,
            unfinished: _,
        } = self;
    }
}

impl Core {
    ghost use Rattle.std.specs.Prelude.{◌≡◌, ◌<◌, length, slice_get, Some, IfOk};
    ghost use Rattle.dbp_plan.specs.declared.table.Table.{Table};
    ghost use Rattle.dbp_plan.specs.Table.{IsRow};
    ghost use Rattle.sync_meaning.specs.Meaning.{IsMeaning};
    ghost use Rattle.release_list.specs.declared.release.Release.TheVariants.{Aim as AimOf};
    ghost use Rattle.dbp_core.specs.Cores.{count_in, plan_in, state_in, wiring_in};
    ghost use Rattle.dbp_rules.specs.Lookups.{link_entry, task as state_of, task_entry};
    ghost use Rattle.dbp_rules.specs.Promises.{IsLeastAim};
    ghost use Rattle.dbp_rules.specs.Rules.{IsNamed, IsStep};
    ghost use Rattle.dbp_rules.specs.SoundParts.{last_shut};
    ghost use Rattle.dbp_rules.specs.Start.{start_of};

    /// The core before the first step. If memory runs out the plan is given up.
    pub fn new(alloc: Global, plan: Plan, count: Count) -> Result<Core, NoMemory>
        ensures plan { IfOk result (λ core. plan_in core ≡ plan) }
        ensures count { IfOk result (λ core. count_in core ≡ count) }
        ensures start { IfOk result (λ core. state_in core ≡ start_of plan (wiring_of plan count)) }
    {
        Core::of_shared(alloc, Rc::new(alloc, plan)?, count)
    }

    /// The core before the first step, of a plan that others have too.
    pub fn of_shared(alloc: Global, plan: Rc<Plan>, count: Count) -> Result<Core, NoMemory>
        ensures plan { IfOk result (λ core. plan_in core ≡ plan.value) }
        ensures count { IfOk result (λ core. count_in core ≡ count) }
        ensures start { IfOk result (λ core.
            state_in core ≡ start_of plan.value (wiring_of plan.value count)) }
    {
        let wiring = wire_plan(alloc, &plan, count)?;
        let state = start_state(alloc, &plan, &wiring)?;
        Ok(Core {
            plan,
            wiring,
            state,
            unfinished: RankMask::empty(),
        })
    }

    /// Makes one step by the rules, and returns what is heard. If the step isn't allowed nothing changes, and the result
    /// says which condition is the first broken one.
    /// The task or the link that the step names is one of the diagram's; a slot, a read or a port may be any number.
    /// It takes no memory.
    pub fn step(&mut self, step: Step) -> Result<Heard, Illegal>
        requires { IsNamed (plan_in self.old).diagram step }
        ensures plan { plan_in self.new ≡ plan_in self.old }
        ensures count { count_in self.new ≡ count_in self.old }
        ensures step { IsStep (plan_in self.old) (wiring_of (plan_in self.old) (count_in self.old)) (state_in self.old) step result (state_in self.new) }
    {
        let answer = advance(
            &self.plan,
            &self.wiring,
            &mut self.state,
            self.unfinished,
            step,
        );
        self.unfinished.recount(&self.wiring, &self.state, step);
        answer
    }

    /// The least slot that the task may be aimed at: the least that no counted claim needs and that doesn't stay kept.
    /// The task's aim is the releaser's next action, and its last instance is known to have ended. It takes no memory.
    pub fn least_aim(&self, task: u32) -> u32
        requires next { slice_get (wiring_in self.now).releases (state_in self.now).releaser.place ≡ Some (AimOf task) }
        requires ended { (task_entry (state_in self.now) task).aimed ≡ (task_entry (state_in self.now) task).known }
        ensures { IsLeastAim (wiring_in self.now) (state_in self.now) task result }
    {
        self.state.releaser.least_aim(&self.wiring, task)
    }

    /// The number of the row that the link's last claim is for; 0 before the first claim, and while it is for the first
    /// values. It takes no memory.
    #[inline(always)]
    pub fn claimed_number(&self, link: u32) -> u32
        requires { link < length (plan_in self.now).diagram.links }
        ensures { result ≡ (link_entry (state_in self.now) link).number }
    {
        self.state.releaser.claim_over(link).number
    }

    /// The plan.
    pub fn plan(&self) -> &Plan
        ensures { result.now ≡ plan_in self.now }
    {
        &self.plan
    }

    /// What the steps look up in the plan.
    pub fn wiring(&self) -> &Wiring
        ensures wiring { result.now ≡ wiring_in self.now }
        ensures plan { wiring_in self.now ≡ wiring_of (plan_in self.now) (count_in self.now) }
    {
        &self.wiring
    }

    /// The row that the task computed at its last `Shut`, or the first values of its outs before any. It is the
    /// meaning's row of that instance, or row 0.
    pub fn row(&self, task: u32) -> &Row
        requires { task < length (plan_in self.now).diagram.tasks }
        ensures row { result.now ≡ (state_of (state_in self.now) task).work.row }
        ensures meaning { (table : Table) → IsMeaning (plan_in self.now).diagram (plan_in self.now).samples (plan_in self.now).batches table → IsRow table task (last_shut (state_of (state_in self.now) task)) result.now }
    {
        self.state.tasks.items()[task as usize].work.row()
    }
}
