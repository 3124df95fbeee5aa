// The meaning of a plan, batch by batch and in each by rank.

ghost use Rattle.std.specs.Prelude.{◌≡◌, ◌<◌, ◌≤◌, ◌+◌, ◌↔◌, IsTrue, All, length, replicate, slice_index, IfOk, OnOk};
ghost use Rattle.std.specs.List.Sorted.{IsStrictlyIncreasing};
ghost use Rattle.dbp_plan.specs.declared.limits.TheConstants.{MAX_OCCURRENCES, MAX_BODY};
ghost use Rattle.dbp_plan.specs.Closed.{place_count};
ghost use Rattle.sync_meaning.specs.Meaning.{IsMeaning};
ghost use Rattle.dbp_plan.specs.Ranking.{IsByRank};
ghost use Rattle.sync_meaning.specs.SomeMeaning.{meaning_of};
ghost use Rattle.sync_meaning.specs.Shape.{HasEnvs, HasFirstStates, IsMarked, IsNextBatch};
ghost use Rattle.sync_meaning.specs.Taken.{AreTaken};

use crate::inputs::Inputs;
use crate::ranking::tasks_by_rank;
use crate::reading::{set_reads, set_senses};
use crate::rows::{first_table, push_row};
use crate::{Env, env_of, work};
use dbp_plan::{Batch, NoMemory, Plan, Row, Table, Task};
use std::alloc::Global;

/// The zero-time meaning of the plan: of each task the row of its first values, and then a row for each instance. It
/// is the one table that meets the equations of `IsMeaning`.
pub fn mean(alloc: Global, plan: &Plan) -> Result<Table, NoMemory>
    ensures meaning { IfOk result (λ table. IsMeaning plan.now.diagram plan.now.samples plan.now.batches table) }
    ensures table { IfOk result (λ table. table ≡ meaning_of plan.now) }
{
    let by_rank = tasks_by_rank(alloc, plan.diagram.ranks.items())?;
    let mut run = Run::new(alloc, plan)?;
    for batch in plan.batches.items() {
        run.take_batch(plan, &by_rank, batch)?;
    }
    Ok(run.table)
}

// A run of a plan, batch by batch.
#[derive(Drop)]
struct Run {
    inputs: Inputs,
    // the environment of each task
    envs: Vec<Env>,
    // how often the batches so far name each task
    named: Vec<u32>,
    // how many instances of each task are computed
    done: Vec<u32>,
    // their rows
    table: Table,
}

impl Run {
    ghost use Rattle.sync_meaning.specs.Run.{HasStreams, IsAtTime, IsRun};

    // The run before the first batch.
    fn new(alloc: Global, plan: &Plan) -> Result<Run, NoMemory>
        ensures run { IfOk result (λ run. IsRun plan.now.diagram (length plan.now.diagram.tasks) run) }
        ensures named { IfOk result (λ run. run.named.items ≡ replicate (length plan.now.diagram.tasks) 0) }
        ensures taken { IfOk result (λ run. AreTaken plan.now.diagram.inputs plan.now.samples 0 run.inputs.taken run.inputs.values.items) }
        ensures streams { IfOk result (λ run. HasStreams plan.now.diagram plan.now.samples plan.now.batches run) }
    {
        let tasks = plan.diagram.tasks.items();
        Ok(Run {
            inputs: Inputs::new(alloc, plan.diagram.inputs.items())?,
            envs: first_envs(alloc, tasks)?,
            named: zeros(alloc, tasks.len())?,
            done: zeros(alloc, tasks.len())?,
            table: first_table(alloc, tasks)?,
        })
    }

    // Computes the instances of the batch.
    fn take_batch(&mut self, plan: &Plan, by_rank: &[u32], batch: &Batch) -> Result<(), NoMemory>
        requires run { IsRun plan.now.diagram (length plan.now.diagram.tasks) self.old }
        requires by_rank { IsByRank plan.now.diagram.ranks by_rank.now }
        requires next { IsNextBatch plan.now.batches batch.now self.old.named.items }
        requires taken { AreTaken plan.now.diagram.inputs plan.now.samples batch.now.time self.old.inputs.taken self.old.inputs.values.items }
        requires streams { HasStreams plan.now.diagram plan.now.samples plan.now.batches self.old }
        ensures run { OnOk result (IsRun plan.now.diagram (length plan.now.diagram.tasks) self.new) }
        ensures named { OnOk result (IsMarked batch.now self.old.named.items self.new.named.items) }
        ensures taken { OnOk result (AreTaken plan.now.diagram.inputs plan.now.samples batch.now.time self.new.inputs.taken self.new.inputs.values.items) }
        ensures streams { OnOk result (HasStreams plan.now.diagram plan.now.samples plan.now.batches self.new) }
    {
        self.inputs.take_until(plan, batch.time);
        mark(&mut self.named, batch);
        self.compute_due(plan, by_rank)
    }

    // Computes the instances that are named and not yet computed, the highest rank first.
    fn compute_due(&mut self, plan: &Plan, by_rank: &[u32]) -> Result<(), NoMemory>
        requires run { IsRun plan.now.diagram 0 self.old }
        requires by_rank { IsByRank plan.now.diagram.ranks by_rank.now }
        requires few { All (λ n. n ≤ MAX_OCCURRENCES) self.old.named.items }
        requires time { IsAtTime plan.now.diagram plan.now.samples plan.now.batches self.old }
        requires streams { HasStreams plan.now.diagram plan.now.samples plan.now.batches self.old }
        ensures run { OnOk result (IsRun plan.now.diagram (length plan.now.diagram.tasks) self.new) }
        ensures named { OnOk result (self.new.named.items ≡ self.old.named.items) }
        ensures inputs { OnOk result (self.new.inputs ≡ self.old.inputs) }
        ensures streams { OnOk result (HasStreams plan.now.diagram plan.now.samples plan.now.batches self.new) }
    {
        for task in by_rank {
            if self.is_due(*task) {
                self.compute(plan, *task)?;
            }
        }
        Ok(())
    }

    // Whether an instance of the task is named and not yet computed.
    fn is_due(&self, task: u32) -> bool
        requires done { task < length self.now.done.items }
        requires named { task < length self.now.named.items }
        ensures { IsTrue result ↔ (slice_index self.now.done.items task < slice_index self.now.named.items task) }
    {
        self.done[task as usize] < self.named[task as usize]
    }

    // Computes the next instance of the task.
    fn compute(&mut self, plan: &Plan, task: u32) -> Result<(), NoMemory>
        requires task { task < length plan.now.diagram.tasks }
        requires run { IsRun plan.now.diagram (slice_index plan.now.diagram.ranks task) self.old }
        requires due { slice_index self.old.done.items task < slice_index self.old.named.items task }
        requires few { All (λ n. n ≤ MAX_OCCURRENCES) self.old.named.items }
        requires time { IsAtTime plan.now.diagram plan.now.samples plan.now.batches self.old }
        requires streams { HasStreams plan.now.diagram plan.now.samples plan.now.batches self.old }
        ensures run { OnOk result (IsRun plan.now.diagram (slice_index plan.now.diagram.ranks task + 1) self.new) }
        ensures named { OnOk result (self.new.named.items ≡ self.old.named.items) }
        ensures inputs { OnOk result (self.new.inputs ≡ self.old.inputs) }
        ensures time { OnOk result (IsAtTime plan.now.diagram plan.now.samples plan.now.batches self.new) }
        ensures streams { OnOk result (HasStreams plan.now.diagram plan.now.samples plan.now.batches self.new) }
    {
        let place = task as usize;
        let body = &plan.diagram.tasks.items()[place];
        let env = &mut self.envs[place];
        let mut outs = Row::new();
        set_senses(body, &self.inputs.values, env);
        set_reads(
            body,
            plan.diagram.links.items(),
            &self.named,
            &self.table,
            env,
        );
        work(body, env, &mut outs);
        env.advance();
        push_row(&mut self.table.tasks.items_mut()[place], &outs)?;
        self.done[place] += 1;
        Ok(())
    }
}

// As many zeros.
fn zeros(alloc: Global, count: usize) -> Result<Vec<u32>, NoMemory>
    ensures { IfOk result (λ made. made.items ≡ replicate count 0) }
{
    Ok(vec![in alloc; 0; count]?)
}

// The environment of each task before its first instance.
fn first_envs(alloc: Global, tasks: &[Task]) -> Result<Vec<Env>, NoMemory>
    requires { All (λ t. place_count t ≤ MAX_BODY) tasks.now }
    ensures envs { IfOk result (λ envs. HasEnvs tasks.now envs.items) }
    ensures states { IfOk result (λ envs. HasFirstStates tasks.now envs.items) }
{
    let mut envs = Vec::with_capacity(alloc, tasks.len())?;
    for task in tasks {
        envs.push(env_of(alloc, task)?)?;
    }
    Ok(envs)
}

// Counts one more occurrence of each task of the batch.
fn mark(named: &mut [u32], batch: &Batch)
    requires tasks { All (λ i. i < length named.old) batch.now.tasks }
    requires order { IsStrictlyIncreasing batch.now.tasks }
    requires few { All (λ n. n < MAX_OCCURRENCES) named.old }
    ensures { IsMarked batch.now named.old named.new }
{
    for task in batch.tasks.items() {
        named[*task as usize] += 1;
    }
}
