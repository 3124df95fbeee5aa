// How far a simulation has come in time: what is left of the instances, and when they ended.

ghost use Rattle.std.specs.Prelude.{◌≡◌, ℕ, ◌+◌, ◌-◌, ◌<◌, ◌≤◌, ◌⊎◌, [], ◌∷◌, ◌++◌, true, length, replicate, slice_index, slice_index_or, slice_set, sum};
ghost use Rattle.std.specs.Prelude.{IfOk, IfSome, IsSome, MatchOption, OnOk};
ghost use Rattle.std.specs.Option.{ForSome};

use dbp_plan::{List, NoMemory, Plan};
use rank_order::Ready;
use std::alloc::Global;

/// How far a simulation has come in time. Its calls keep it right (`IsRun`) for any number of processors.
#[derive(Drop)]
pub struct Run {
    /// The time, in ticks.
    pub time: u64,
    /// How many batches are released.
    pub released: u32,
    /// What is left of the last released instance of each task.
    pub rest: Vec<u64>,
    /// For each task the ends of its other instances, or of all if nothing is left of the last one.
    pub ends: List<List<u64>>,
    /// The instances of which something is left, in the order of service.
    pub ready: Ready,
}

impl Run {
    ghost use Rattle.dbp_plan.specs.Numbers.{is_in};
    ghost use Rattle.instance_steps.specs.Releases.{batch_at};
    ghost use Rattle.rank_order.specs.Queue.{Holds};
    ghost use Rattle.rank_order.specs.Service.{ServesWaiting};
    ghost use Rattle.virtual_time.specs.Runs.{IsRun, IsServedFor, IsWorst, Processors, all_at};
    ghost use Rattle.virtual_time.specs.Runs.{latest, with_times};
    ghost use Rattle.virtual_time.specs.State.{GoesOn, NoBatchBefore, Renewed};

    /// The run before the first release.
    pub fn new(alloc: Global, plan: &Plan) -> Result<Run, NoMemory>
        ghost cpus: { Processors }
        ensures run { IfOk result (λ run. IsRun plan.now (all_at cpus run.time) run) }
        ensures time { IfOk result (λ run. run.time ≡ 0) }
        ensures released { IfOk result (λ run. run.released ≡ 0) }
        ensures rest { IfOk result (λ run.
            run.rest.items ≡ replicate (length plan.now.diagram.tasks) 0) }
        ensures ends { IfOk result (λ run.
            run.ends ≡ replicate (length plan.now.diagram.tasks) []) }
    {
        let tasks = plan.diagram.tasks.len();
        let rest = vec![in alloc; 0; tasks as usize]?;
        let ends = empty_lists(alloc, tasks)?;
        let ready = Ready::new(alloc, &plan.diagram)?;
        Ok(Run {
            time: 0,
            released: 0,
            rest,
            ends,
            ready,
        })
    }

    /// The task's instance is served on its processor to its end, which is noted.
    #[inline(always)]
    pub fn finish(&mut self, plan: &Plan, task: u32) -> Result<(), NoMemory>
        ghost cpus: { Processors }
        requires run { IsRun plan.now cpus self.old }
        requires task { task < length plan.now.diagram.tasks }
        requires some { 0 < slice_index self.old.rest.items task }
        requires at { cpus.now (cpus.on task) ≡ self.old.time }
        requires served { IsServedFor plan.now cpus self.old task
            (slice_index self.old.rest.items task) }
        ensures run { OnOk result ((later : ℕ → ℕ)
            → GoesOn cpus.on (cpus.on task) (slice_index self.old.rest.items task) cpus.now later
            → IsRun plan.now (with_times cpus later) self.new) }
        ensures time { OnOk result (self.new.time ≡ self.old.time) }
        ensures released { OnOk result (self.new.released ≡ self.old.released) }
        ensures rest { OnOk result (self.new.rest.items ≡ slice_set self.old.rest.items task 0) }
        ensures ends { OnOk result (self.new.ends ≡ slice_set self.old.ends task
            (slice_index_or self.old.ends task []
            ++ (self.old.time + slice_index self.old.rest.items task) ∷ [])) }
    {
        let index = task as usize;
        let end = self.time + self.rest[index];
        self.ends.items_mut()[index].push(end)?;
        self.rest[index] = 0;
        self.ready.remove(task);
        Ok(())
    }

    /// The task's instance is served on its processor for some ticks, and isn't done.
    #[inline(always)]
    pub fn pause(&mut self, plan: &Plan, task: u32, ticks: u64)
        ghost cpus: { Processors }
        requires run { IsRun plan.now cpus self.old }
        requires task { task < length plan.now.diagram.tasks }
        requires served { IsServedFor plan.now cpus self.old task ticks }
        requires short { ticks < slice_index self.old.rest.items task }
        ensures run { (later : ℕ → ℕ) → GoesOn cpus.on (cpus.on task) ticks cpus.now later
            → IsRun plan.now (with_times cpus later) self.new }
        ensures time { self.new.time ≡ self.old.time }
        ensures released { self.new.released ≡ self.old.released }
        ensures rest { self.new.rest.items
            ≡ slice_set self.old.rest.items task (slice_index self.old.rest.items task - ticks) }
        ensures ends { self.new.ends ≡ self.old.ends }
    {
        self.rest[task as usize] -= ticks;
    }

    /// The time goes on, for as many ticks as the processors have.
    #[inline(always)]
    pub fn advance(&mut self, plan: &Plan, ticks: u64)
        ghost cpus: { Processors }
        requires run { IsRun plan.now cpus self.old }
        requires until { NoBatchBefore plan.now self.old.released (self.old.time + ticks) }
        requires bounded { self.old.time + ticks + sum self.old.rest.items
            ≤ latest self.old.released }
        ensures run { IsRun plan.now cpus self.new }
        ensures time { self.new.time ≡ self.old.time + ticks }
        ensures released { self.new.released ≡ self.old.released }
        ensures rest { self.new.rest ≡ self.old.rest }
        ensures ends { self.new.ends ≡ self.old.ends }
    {
        self.time += ticks;
    }

    /// Nothing runs until the next batch.
    #[inline(always)]
    pub fn wait(&mut self, plan: &Plan)
        ghost cpus: { Processors }
        requires run { IsRun plan.now (all_at cpus self.old.time) self.old }
        requires more { self.old.released < length plan.now.batches }
        requires ahead { self.old.time < (batch_at plan.now self.old.released).time }
        requires none { (i a : ℕ) → Holds self.old.ready i a → ⊥ }
        ensures run { IsRun plan.now (all_at cpus self.new.time) self.new }
        ensures time { self.new.time ≡ (batch_at plan.now self.old.released).time }
        ensures released { self.new.released ≡ self.old.released }
        ensures rest { self.new.rest ≡ self.old.rest }
        ensures ends { self.new.ends ≡ self.old.ends }
    {
        self.time = plan.batches.items()[self.released as usize].time;
    }

    // The highest-ranked task of the next batch whose last instance hasn't ended.
    #[inline(always)]
    pub(crate) fn late_task(&self, plan: &Plan) -> Option<u32>
        ghost cpus: { Processors }
        requires run { IsRun plan.now cpus self.now }
        requires more { self.now.released < length plan.now.batches }
        ensures { MatchOption result
            ((i : ℕ) → is_in (batch_at plan.now self.now.released).tasks i ≡ true
            → slice_index self.now.rest.items i ≡ 0)
            (λ i. IsWorst plan.now (batch_at plan.now self.now.released).tasks
            self.now.rest.items i) }
    {
        let batch = &plan.batches.items()[self.released as usize];
        let mut worst: Option<u32> = None;
        for task in batch.tasks.items() {
            if self.rest[*task as usize] > 0 {
                worst = higher(plan, worst, *task);
            }
        }
        worst
    }

    /// The next batch is released: its tasks begin an instance each.
    #[inline(always)]
    pub fn renew(&mut self, plan: &Plan)
        ghost cpus: { Processors }
        requires run { IsRun plan.now (all_at cpus self.old.time) self.old }
        requires waiting { (c : ℕ) → ServesWaiting plan.now (cpus.serve c) }
        requires more { self.old.released < length plan.now.batches }
        requires due { self.old.time ≡ (batch_at plan.now self.old.released).time }
        requires free { (i : ℕ) → is_in (batch_at plan.now self.old.released).tasks i ≡ true
            → slice_index self.old.rest.items i ≡ 0 }
        ensures run { IsRun plan.now (all_at cpus self.new.time) self.new }
        ensures time { self.new.time ≡ self.old.time }
        ensures released { self.new.released ≡ self.old.released + 1 }
        ensures rest { Renewed plan.now (batch_at plan.now self.old.released)
            self.old.rest.items self.new.rest.items }
        ensures ends { self.new.ends ≡ self.old.ends }
    {
        let batch = &plan.batches.items()[self.released as usize];
        for task in batch.tasks.items() {
            self.rest[*task as usize] = plan.diagram.tasks.items()[*task as usize].cost;
            self.ready.add(&plan.diagram, *task, batch.time);
        }
        self.released += 1;
    }
}

// So many empty lists.
fn empty_lists(alloc: Global, count: u32) -> Result<List<List<u64>>, NoMemory>
    ensures { IfOk result (λ lists. lists ≡ replicate count []) }
{
    let mut lists = List::new(alloc);
    for _ in 0..count {
        lists.push(List::new(alloc))?;
    }
    Ok(lists)
}

// The one of the higher rank.
fn higher(plan: &Plan, worst: Option<u32>, task: u32) -> Option<u32>
    requires task { task < length plan.now.diagram.tasks }
    requires worst { ForSome worst (λ i. i < length plan.now.diagram.tasks) }
    ensures choice { IfSome result (λ k. ((k ≡ task) ⊎ (worst ≡ Some k))
        × (slice_index plan.now.diagram.ranks k ≤ slice_index plan.now.diagram.ranks task)
        × IfSome worst (λ i.
        slice_index plan.now.diagram.ranks k ≤ slice_index plan.now.diagram.ranks i)) }
    ensures some { IsSome result }
{
    let ranks = plan.diagram.ranks.items();
    match worst {
        Some(other) if ranks[other as usize] <= ranks[task as usize] => Some(other),
        _ => Some(task),
    }
}
