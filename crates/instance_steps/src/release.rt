// The release of a batch.

ghost use Rattle.std.specs.Prelude.{◌≡◌, ◌+◌, ◌*◌, ◌<◌, ◌^◌, OnOk, length};

use crate::recorder::Recorder;
use dbp_core::Step;
use dbp_plan::{Batch, NoMemory};

impl Recorder {
    ghost use Rattle.std.specs.Prelude.{◌≢◌, ℕ, Some, false, map, slice_get, slice_index_or};
    ghost use Rattle.std.specs.List.{flat_map};
    ghost use Rattle.dbp_plan.specs.Occurrences.{names, time_of};
    ghost use Rattle.release_list.specs.Releases.{batch_start, claims_of};
    ghost use Rattle.release_list.specs.declared.release.Release.TheVariants as action;
    ghost use Rattle.dbp_rules.specs.declared.step.Step.TheVariants.{OpenGate as OpenGateOf};
    ghost use Rattle.instance_steps.specs.Events.{aim_events, batch_events, claim_events, seen_events};
    ghost use Rattle.instance_steps.specs.Events.{step_of};
    ghost use Rattle.instance_steps.specs.Recorders.{AddsSteps, plan_in, state_in, steps_in, table_in};
    ghost use Rattle.instance_steps.specs.Recorders.{action_in, entries_in, entry_in, into_in, links_in};
    ghost use Rattle.instance_steps.specs.Recorders.{part_in, releases_in};
    ghost use Rattle.instance_steps.specs.Releases.{AddsRelease, HasEnded, HasReleased, ReleasesBatch};
    ghost use Rattle.instance_steps.specs.Releases.{batch_in};

    /// The release of the batch with this number: all aims, each at the least slot that is allowed, then all claims, then
    /// all gates. The batches before it are released, and all aimed instances of its tasks have ended.
    pub fn release_batch(&mut self, number: u32) -> Result<(), NoMemory>
        requires batch { number < length (plan_in self.old).batches }
        requires released { HasReleased (plan_in self.old) (state_in self.old) number }
        requires ended { HasEnded (state_in self.old) (batch_in self.old number) }
        requires room { length (steps_in self.old)
            + length (batch_in self.old number).tasks * (length (links_in self.old) + 3) < 2 ^ 32 }
        ensures steps { OnOk result (AddsSteps self.old self.new
            (batch_events (plan_in self.old) (batch_in self.old number))) }
        ensures state { OnOk result (ReleasesBatch (plan_in self.old) (state_in self.old)
            (state_in self.new) number (batch_in self.old number)) }
        ensures table { OnOk result (table_in self.new ≡ table_in self.old) }
    {
        let plan = self.core.shared_plan().clone()?;
        let batch = &plan.batches.items()[number as usize];
        self.aim_tasks(number, batch)?;
        self.claim_links(number, batch)?;
        self.open_gates(number, batch)
    }

    // The aims of the batch.
    fn aim_tasks(&mut self, number: u32, batch: &Batch) -> Result<(), NoMemory>
        requires batch { number < length (plan_in self.old).batches }
        requires same { batch.now ≡ batch_in self.old number }
        requires released { HasReleased (plan_in self.old) (state_in self.old) number }
        requires ended { HasEnded (state_in self.old) (batch_in self.old number) }
        requires room { length (steps_in self.old)
            + 2 * length (batch_in self.old number).tasks < 2 ^ 32 }
        ensures adds { OnOk result (AddsRelease self.old self.new
            (flat_map (aim_events (plan_in self.old) (batch_in self.old number).time)
            (batch_in self.old number).tasks)
            (action_in self.old + length (batch_in self.old number).tasks)) }
        ensures others { OnOk result ((j : ℕ) → names j (batch_in self.old number) ≡ false
            → entry_in self.new j ≡ entry_in self.old j) }
        ensures table { OnOk result (table_in self.new ≡ table_in self.old) }
    {
        let tasks = batch.tasks.items();
        for n in 0..batch.tasks.len() {
            let task = tasks[n as usize];
            self.aim_task(task, batch.time)?;
        }
        Ok(())
    }

    // The aim of a task, at the time of the batch.
    fn aim_task(&mut self, task: u32, time: u64) -> Result<(), NoMemory>
        requires next { slice_get (releases_in self.old) (action_in self.old)
            ≡ Some (action.Aim task) }
        requires ended { (part_in self.old task).ended ≡ (entry_in self.old task).aimed }
        requires first { time_of (plan_in self.old).batches task 1 ≡ time
            → (entry_in self.old task).aimed ≡ 0 }
        requires unaimed { (entry_in self.old task).aimed ≡ 0
            → time_of (plan_in self.old).batches task 1 ≡ time }
        requires room { length (steps_in self.old) + 2 < 2 ^ 32 }
        ensures adds { OnOk result (AddsRelease self.old self.new
            (aim_events (plan_in self.old) time task) (action_in self.old + 1)) }
        ensures others { OnOk result ((j : ℕ) → j ≢ task
            → entry_in self.new j ≡ entry_in self.old j) }
        ensures table { OnOk result (table_in self.new ≡ table_in self.old) }
    {
        self.see_task(task, time)?;
        let slot = self.core.least_aim(task);
        self.make(Step::Aim { task, slot })
    }

    // Loads how many instances of the task have ended, from its second instance on.
    fn see_task(&mut self, task: u32, time: u64) -> Result<(), NoMemory>
        requires next { slice_get (releases_in self.old) (action_in self.old)
            ≡ Some (action.Aim task) }
        requires ended { (part_in self.old task).ended ≡ (entry_in self.old task).aimed }
        requires first { time_of (plan_in self.old).batches task 1 ≡ time
            → (entry_in self.old task).aimed ≡ 0 }
        requires unaimed { (entry_in self.old task).aimed ≡ 0
            → time_of (plan_in self.old).batches task 1 ≡ time }
        requires room { length (steps_in self.old) + 1 < 2 ^ 32 }
        ensures adds { OnOk result (AddsRelease self.old self.new
            (seen_events (plan_in self.old) time task) (action_in self.old)) }
        ensures known { let entry = entry_in self.new task in
            OnOk result (entry.aimed ≡ entry.known) }
        ensures others { OnOk result ((j : ℕ) → j ≢ task
            → entry_in self.new j ≡ entry_in self.old j) }
        ensures table { OnOk result (table_in self.new ≡ table_in self.old) }
    {
        if self.core.aimed(task) == 0 {
            return Ok(());
        }
        self.make(Step::Seen { task })
    }

    // The claims of the batch.
    fn claim_links(&mut self, number: u32, batch: &Batch) -> Result<(), NoMemory>
        requires batch { number < length (plan_in self.old).batches }
        requires same { batch.now ≡ batch_in self.old number }
        requires next { action_in self.old
            ≡ batch_start (links_in self.old) (plan_in self.old).batches number
            + length (batch_in self.old number).tasks }
        requires room { length (steps_in self.old)
            + length (batch_in self.old number).tasks * length (links_in self.old) < 2 ^ 32 }
        ensures adds { OnOk result (AddsRelease self.old self.new
            (flat_map (claim_events (plan_in self.old)) (batch_in self.old number).tasks)
            (action_in self.old
            + length (claims_of (links_in self.old) (batch_in self.old number).tasks))) }
        ensures entries { OnOk result (entries_in self.new ≡ entries_in self.old) }
        ensures table { OnOk result (table_in self.new ≡ table_in self.old) }
    {
        let tasks = batch.tasks.items();
        for n in 0..batch.tasks.len() {
            let task = tasks[n as usize];
            self.claim_links_into(task)?;
        }
        Ok(())
    }

    // The claims of the links into the task.
    fn claim_links_into(&mut self, task: u32) -> Result<(), NoMemory>
        requires task { task < length (plan_in self.old).diagram.tasks }
        requires next { (n : ℕ) → n < length (into_in self.old task)
            → slice_get (releases_in self.old) (action_in self.old + n)
            ≡ Some (action.Claim (slice_index_or (into_in self.old task) n 0)) }
        requires room { length (steps_in self.old) + length (into_in self.old task) < 2 ^ 32 }
        ensures adds { OnOk result (AddsRelease self.old self.new
            (claim_events (plan_in self.old) task)
            (action_in self.old + length (into_in self.old task))) }
        ensures entries { OnOk result (entries_in self.new ≡ entries_in self.old) }
        ensures table { OnOk result (table_in self.new ≡ table_in self.old) }
    {
        for n in 0..self.core.task_wiring(task).links.len() {
            let link = self.core.task_wiring(task).links.items()[n as usize];
            self.make(Step::Claim { link })?;
        }
        Ok(())
    }

    // The gates of the batch.
    fn open_gates(&mut self, number: u32, batch: &Batch) -> Result<(), NoMemory>
        requires batch { number < length (plan_in self.old).batches }
        requires same { batch.now ≡ batch_in self.old number }
        requires next { action_in self.old
            ≡ batch_start (links_in self.old) (plan_in self.old).batches number
            + length (batch_in self.old number).tasks
            + length (claims_of (links_in self.old) (batch_in self.old number).tasks) }
        requires room { length (steps_in self.old)
            + length (batch_in self.old number).tasks < 2 ^ 32 }
        ensures adds { OnOk result (AddsRelease self.old self.new
            (map (λ i. step_of (OpenGateOf i)) (batch_in self.old number).tasks)
            (action_in self.old + length (batch_in self.old number).tasks)) }
        ensures entries { OnOk result (entries_in self.new ≡ entries_in self.old) }
        ensures table { OnOk result (table_in self.new ≡ table_in self.old) }
    {
        let tasks = batch.tasks.items();
        for n in 0..batch.tasks.len() {
            let task = tasks[n as usize];
            self.make(Step::OpenGate { task })?;
        }
        Ok(())
    }
}
