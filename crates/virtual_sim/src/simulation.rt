// A simulation, from one event to the next.

ghost use Rattle.std.specs.Prelude.{◌≡◌, ◌+◌, ◌<◌, ◌≤◌, ◌++◌, ℕ, length, slice_index, IfOk, OnOk, MatchResult};
ghost use Rattle.virtual_sim.specs.Outcomes.{IsSimFail, IsSimRun, IsSimTable};
ghost use Rattle.virtual_sim.specs.Simulations.{IsFinished};

use dbp_core::Count;
use dbp_plan::{NoMemory, Plan, Table};
use instance_steps::{Keeping, Recorder};
use std::alloc::Global;
use std::rc::Rc;
use virtual_time::{Run, SimFail, SimRun, shared_copy, ticks_to_event};

// Its time, and the protocol that is taken through it.
#[derive(Drop)]
pub(crate) struct Simulation {
    pub(crate) run: Run,
    pub(crate) recorder: Recorder,
}

impl Simulation {
    ghost use Rattle.std.specs.Prelude.{is_some, true, Err};
    ghost use Rattle.dbp_plan.specs.Lookups.{declared_task};
    ghost use Rattle.rank_order.specs.Queue.{IsServedFirst};
    ghost use Rattle.rank_order.specs.ServiceOf.{service};
    ghost use Rattle.instance_steps.specs.Events.{read_events};
    ghost use Rattle.instance_steps.specs.Recorders.{first_record, record_in};
    ghost use Rattle.instance_steps.specs.Releases.{batch_at};
    ghost use Rattle.instance_steps.specs.TaskPieces.{place_after};
    ghost use Rattle.dbp_rules.specs.declared.step.Count.TheVariants.{Ranked};
    ghost use Rattle.virtual_time.specs.Pieces.{begin_events_at};
    ghost use Rattle.virtual_time.specs.Recordings.{IsRecorded, places_with};
    ghost use Rattle.virtual_sim.specs.Record.{events_so_far};
    ghost use Rattle.dbp_plan.specs.Numbers.{is_in};
    ghost use Rattle.virtual_sim.specs.Simulations.{IsSimulation};
    ghost use Rattle.virtual_time.specs.State.{NoBatchBefore};
    ghost use Rattle.virtual_time.specs.declared.outcome.SimFail.TheVariants.{NoMemory as OutOfMemory};

    // Nothing is released yet.
    fn new(alloc: Global, plan: &Rc<Plan>, keeping: Keeping) -> Result<Simulation, NoMemory>
        ensures simulation { IfOk result (λ s. IsSimulation plan.now.value s) }
        ensures released { IfOk result (λ s. s.run.released ≡ 0) }
        ensures keeps { IfOk result (λ s.
            is_some (record_in s.recorder) ≡ is_some (first_record keeping)) }
    {
        let recorder = Recorder::new(alloc, plan.clone()?, Count::Ranked, keeping)?;
        let run = Run::new(alloc, plan)?;
        Ok(Simulation { run, recorder })
    }

    // The first instance begins, if it hasn't been served before.
    fn begin(&mut self, plan: &Plan, task: u32, served: u64) -> Result<(), NoMemory>
        requires simulation { IsSimulation plan.now self.old }
        requires first { IsServedFirst self.old.run.ready task }
        requires until { NoBatchBefore plan.now self.old.run.released
            (self.old.run.time + 1) }
        requires served { served + slice_index self.old.run.rest.items task
            ≡ (declared_task plan.now task).cost }
        ensures run { OnOk result (self.new.run ≡ self.old.run) }
        ensures recorded { OnOk result (IsRecorded plan.now Ranked self.old.run.released
            (events_so_far plan.now (service plan.now) self.old.run.released self.old.run.time
            ++ begin_events_at plan.now task served)
            (places_with plan.now self.old.run.rest.items task (place_after plan.now task served))
            self.old.run.ends self.new.recorder) }
        ensures keeps { OnOk result
            (is_some (record_in self.new.recorder) ≡ is_some (record_in self.old.recorder)) }
    {
        if served > 0 {
            return Ok(());
        }
        self.recorder.begin_instance(task)?;
        Ok(())
    }

    // The steps of the first instance, which was served so many ticks, in the tick in which it is served.
    fn make_steps(&mut self, plan: &Plan, task: u32, served: u64) -> Result<(), NoMemory>
        requires simulation { IsSimulation plan.now self.old }
        requires first { IsServedFirst self.old.run.ready task }
        requires until { NoBatchBefore plan.now self.old.run.released
            (self.old.run.time + 1) }
        requires served { served + slice_index self.old.run.rest.items task
            ≡ (declared_task plan.now task).cost }
        ensures run { OnOk result (self.new.run ≡ self.old.run) }
        ensures recorded { OnOk result (IsRecorded plan.now Ranked self.old.run.released
            (events_so_far plan.now (service plan.now) self.old.run.released self.old.run.time
            ++ (begin_events_at plan.now task served
            ++ read_events plan.now task served))
            (places_with plan.now self.old.run.rest.items task
            (place_after plan.now task (served + 1)))
            self.old.run.ends self.new.recorder) }
        ensures keeps { OnOk result
            (is_some (record_in self.new.recorder) ≡ is_some (record_in self.old.recorder)) }
    {
        self.begin(plan, task, served)?;
        self.recorder.make_reads(task, served)?;
        Ok(())
    }

    // Serves the first instance until its next event or the limit, whichever comes first.
    fn serve(&mut self, plan: &Plan, task: u32, limit: u64) -> Result<(), NoMemory>
        requires simulation { IsSimulation plan.now self.old }
        requires first { IsServedFirst self.old.run.ready task }
        requires until { NoBatchBefore plan.now self.old.run.released limit }
        requires ahead { self.old.run.time < limit }
        ensures simulation { OnOk result (IsSimulation plan.now self.new) }
        ensures later { OnOk result (self.old.run.time < self.new.run.time) }
        ensures limit { OnOk result (self.new.run.time ≤ limit) }
        ensures released { OnOk result (self.new.run.released ≡ self.old.run.released) }
        ensures keeps { OnOk result
            (is_some (record_in self.new.recorder) ≡ is_some (record_in self.old.recorder)) }
    {
        let body = &plan.diagram.tasks.items()[task as usize];
        let rest = self.run.rest[task as usize];
        let served = body.cost - rest;
        let ticks = ticks_to_event(body, served).min(limit - self.run.time);
        self.make_steps(plan, task, served)?;
        if ticks < rest {
            self.run.pause(plan, task, ticks);
            self.run.advance(plan, ticks);
            return Ok(());
        }
        self.recorder.end_instance(task)?;
        self.run.finish(plan, task)?;
        self.run.advance(plan, ticks);
        Ok(())
    }

    // Serves until the next batch.
    fn serve_until_batch(&mut self, plan: &Plan) -> Result<(), NoMemory>
        requires simulation { IsSimulation plan.now self.old }
        requires more { self.old.run.released < length plan.now.batches }
        ensures simulation { OnOk result (IsSimulation plan.now self.new) }
        ensures time { OnOk result
            (self.new.run.time ≡ (batch_at plan.now self.old.run.released).time) }
        ensures released { OnOk result (self.new.run.released ≡ self.old.run.released) }
        ensures keeps { OnOk result
            (is_some (record_in self.new.recorder) ≡ is_some (record_in self.old.recorder)) }
    {
        let limit = plan.batches.items()[self.run.released as usize].time;
        while self.run.time < limit {
            let Some(task) = self.run.ready.first() else {
                self.run.wait(plan);
                return Ok(());
            };
            self.serve(plan, task, limit)?;
        }
        Ok(())
    }

    // Serves until all instances have ended.
    fn serve_rest(&mut self, plan: &Plan) -> Result<(), NoMemory>
        requires simulation { IsSimulation plan.now self.old }
        requires last { self.old.run.released ≡ length plan.now.batches }
        ensures simulation { OnOk result (IsSimulation plan.now self.new) }
        ensures idle { OnOk result ((i : ℕ) → i < length plan.now.diagram.tasks
            → slice_index self.new.run.rest.items i ≡ 0) }
        ensures released { OnOk result (self.new.run.released ≡ self.old.run.released) }
        ensures keeps { OnOk result
            (is_some (record_in self.new.recorder) ≡ is_some (record_in self.old.recorder)) }
    {
        while let Some(task) = self.run.ready.first() {
            self.serve(plan, task, u64::MAX)?;
        }
        Ok(())
    }

    // Releases the next batch, unless it comes too early. It runs out of memory only if it doesn't.
    fn release(&mut self, plan: &Plan) -> Result<(), SimFail>
        requires simulation { IsSimulation plan.now self.old }
        requires more { self.old.run.released < length plan.now.batches }
        requires due { self.old.run.time ≡ (batch_at plan.now self.old.run.released).time }
        ensures outcome { MatchResult result
            (λ _. IsSimulation plan.now self.new
            × (self.new.run.released ≡ self.old.run.released + 1)
            × (is_some (record_in self.new.recorder) ≡ is_some (record_in self.old.recorder)))
            (λ why. IsSimFail plan.now why) }
        ensures no_memory { result ≡ Err OutOfMemory → (i : ℕ)
            → is_in (batch_at plan.now self.old.run.released).tasks i ≡ true
            → slice_index self.old.run.rest.items i ≡ 0 }
    {
        if let Some(overrun) = self.run.overrun(plan) {
            return Err(overrun);
        }
        let Ok(()) = self.recorder.release_batch(self.run.released) else {
            return Err(SimFail::NoMemory);
        };
        self.run.renew(plan);
        Ok(())
    }
}

// The simulation of the plan at its end. Its steps are kept if they are asked for.
fn finished_simulation(
    alloc: Global,
    shared: &Rc<Plan>,
    keeping: Keeping,
) -> Result<Simulation, SimFail>
    ensures { MatchResult result
        (λ s. IsFinished shared.now.value keeping s) (λ why. IsSimFail shared.now.value why) }
{
    let Ok(mut simulation) = Simulation::new(alloc, shared, keeping) else {
        return Err(SimFail::NoMemory);
    };
    let plan: &Plan = shared;
    for _ in 0..plan.batches.len() {
        let Ok(()) = simulation.serve_until_batch(plan) else {
            return Err(SimFail::NoMemory);
        };
        simulation.release(plan)?;
    }
    let Ok(()) = simulation.serve_rest(plan) else {
        return Err(SimFail::NoMemory);
    };
    Ok(simulation)
}

/// The simulation of the plan in virtual time: on one processor tasks are served by their policy, by ticks, and their
/// buffers step by the protocol under `Ranked`. It goes from one event to the next: the next batch, the next reads of the
/// instance that is served, or its end. The table is the zero-time meaning's, the script is the one recorded list that
/// the plan has, and each instance's end is that of the plan's service.
pub fn simulate(alloc: Global, plan: &Plan) -> Result<SimRun, SimFail>
    ensures { MatchResult result (λ run. IsSimRun plan.now run) (λ why. IsSimFail plan.now why) }
{
    let Ok(shared) = shared_copy(alloc, plan) else {
        return Err(SimFail::NoMemory);
    };
    simulate_shared(alloc, &shared)
}

/// As `simulate`, with no copy of the plan.
pub fn simulate_shared(alloc: Global, plan: &Rc<Plan>) -> Result<SimRun, SimFail>
    ensures { MatchResult result
        (λ run. IsSimRun plan.now.value run) (λ why. IsSimFail plan.now.value why) }
{
    let Simulation { run, recorder } = finished_simulation(alloc, plan, Keeping::Steps)?;
    let (steps, table) = recorder.finish();
    let Some(script) = steps else { unreachable!() };
    Ok(SimRun {
        table,
        script,
        ends: run.ends,
    })
}

/// The table of the simulation that `simulate` makes. Its steps are made as for that, and none is kept; no clause says
/// that they are made.
pub fn simulate_table(alloc: Global, plan: &Plan) -> Result<Table, SimFail>
    ensures { MatchResult result
        (λ table. IsSimTable plan.now table) (λ why. IsSimFail plan.now why) }
{
    let Ok(shared) = shared_copy(alloc, plan) else {
        return Err(SimFail::NoMemory);
    };
    simulate_table_shared(alloc, &shared)
}

/// As `simulate_table`, with no copy of the plan.
pub fn simulate_table_shared(alloc: Global, plan: &Rc<Plan>) -> Result<Table, SimFail>
    ensures { MatchResult result
        (λ table. IsSimTable plan.now.value table) (λ why. IsSimFail plan.now.value why) }
{
    let Simulation { recorder, .. } = finished_simulation(alloc, plan, Keeping::Nothing)?;
    let (_, table) = recorder.finish();
    Ok(table)
}
