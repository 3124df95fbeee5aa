// A simulation on several processors, from one event to the next.

ghost use Rattle.std.specs.Prelude.{◌≡◌, ◌+◌, ◌<◌, ◌≤◌, ℕ, length, slice_index, IfOk, OnOk, MatchResult};
ghost use Rattle.cpu_sim.specs.Outcomes.{IsSimFail, IsSimRun, IsSimTable};
ghost use Rattle.cpu_sim.specs.Simulations.{IsFinished};

use crate::choice::{CPUS, choose};
use dbp_core::Count;
use dbp_plan::{NoMemory, Plan, Table};
use instance_steps::{Keeping, Recorder};
use std::alloc::Global;
use std::rc::Rc;
use virtual_time::{Run, SimFail, SimRun, shared_copy, ticks_to_event};

// Its time, and the protocol that is taken through it.
#[derive(Drop)]
pub(crate) struct Simulation {
    pub(crate) run: Run,
    pub(crate) recorder: Recorder,
}

impl Simulation {
    ghost use Rattle.std.specs.Prelude.{is_some, true, Err, List as Items, Option as Maybe};
    ghost use Rattle.dbp_plan.specs.Lookups.{declared_task};
    ghost use Rattle.dbp_plan.specs.Numbers.{is_in};
    ghost use Rattle.instance_steps.specs.Recorders.{first_record, record_in};
    ghost use Rattle.instance_steps.specs.Releases.{batch_at};
    ghost use Rattle.rank_order.specs.Queue.{Holds};
    ghost use Rattle.virtual_time.specs.State.{NoBatchBefore};
    ghost use Rattle.virtual_time.specs.declared.outcome.SimFail.TheVariants.{NoMemory as OutOfMemory};
    ghost use Rattle.cpu_sim.specs.Record.{cpu_count};
    ghost use Rattle.cpu_sim.specs.Simulations.{HasBegun, HasServed, HasStepped, IsEvent, IsJump};
    ghost use Rattle.cpu_sim.specs.Simulations.{IsNext, IsSimulation, ServesNext, StepsNext, served_before};
    ghost use Rattle.cpu_sim.specs.declared.simulation.Simulation.{Simulation};

    // Nothing is released yet.
    fn new(alloc: Global, plan: &Rc<Plan>, keeping: Keeping) -> Result<Simulation, NoMemory>
        ensures simulation { IfOk result (λ s. IsSimulation plan.now.value s) }
        ensures released { IfOk result (λ s. s.run.released ≡ 0) }
        ensures keeps { IfOk result (λ s.
            is_some (record_in s.recorder) ≡ is_some (first_record keeping)) }
    {
        let recorder = Recorder::new(alloc, plan.clone()?, Count::All, keeping)?;
        let run = Run::new(alloc, plan)?;
        Ok(Simulation { run, recorder })
    }

    // The task's instance begins, if it hasn't been served before.
    fn begin(&mut self, plan: &Plan, task: u32, served: u64) -> Result<(), NoMemory>
        requires next { StepsNext plan.now self.old task }
        requires served { served ≡ served_before plan.now self.old.run task }
        ensures run { OnOk result (self.new.run ≡ self.old.run) }
        ensures begun { OnOk result ((first : Simulation) (chosen : Items (Maybe ℕ)) (cpu : ℕ)
            → HasStepped plan.now first chosen cpu self.old → IsNext chosen cpu task
            → HasBegun plan.now first chosen cpu task self.new) }
    {
        if served > 0 {
            return Ok(());
        }
        self.recorder.begin_instance(task)?;
        Ok(())
    }

    // The begin of the task's instance, and its reads that are due.
    fn make_steps(&mut self, plan: &Plan, task: u32) -> Result<(), NoMemory>
        requires next { StepsNext plan.now self.old task }
        ensures stepped { OnOk result ((first : Simulation) (chosen : Items (Maybe ℕ)) (cpu : ℕ)
            → HasStepped plan.now first chosen cpu self.old → IsNext chosen cpu task
            → HasStepped plan.now first chosen (cpu + 1) self.new) }
    {
        let body = &plan.diagram.tasks.items()[task as usize];
        let served = body.cost - self.run.rest[task as usize];
        self.begin(plan, task, served)?;
        self.recorder.make_reads(task, served)?;
        Ok(())
    }

    // The steps on all processors, those of the lowest first.
    fn make_all_steps(&mut self, plan: &Plan, chosen: &[Option<u32>; CPUS]) -> Result<(), NoMemory>
        requires event { IsEvent plan.now self.old chosen.now }
        ensures stepped { OnOk result (HasStepped plan.now self.old chosen.now cpu_count self.new) }
    {
        for cpu in 0..CPUS {
            if let Some(task) = chosen[cpu] {
                self.make_steps(plan, task)?;
            }
        }
        Ok(())
    }

    // The task's instance is served for so many ticks, and ends if nothing is left of it.
    fn serve_task(&mut self, plan: &Plan, task: u32, ticks: u64) -> Result<(), NoMemory>
        requires next { ServesNext plan.now self.old task ticks }
        ensures served { OnOk result ((first : Simulation) (chosen : Items (Maybe ℕ)) (cpu : ℕ)
            → HasServed plan.now first chosen ticks cpu self.old → IsNext chosen cpu task
            → HasServed plan.now first chosen ticks (cpu + 1) self.new) }
    {
        if ticks < self.run.rest[task as usize] {
            self.run.pause(plan, task, ticks);
            return Ok(());
        }
        self.recorder.end_instance(task)?;
        self.run.finish(plan, task)?;
        Ok(())
    }

    // All processors serve for so many ticks, and what ends there ends on the lowest first.
    fn serve_all(
        &mut self,
        plan: &Plan,
        chosen: &[Option<u32>; CPUS],
        ticks: u64,
    ) -> Result<(), NoMemory>
        requires stepped { (first : Simulation) × HasStepped plan.now first chosen.now cpu_count self.old
            × IsJump plan.now first.run chosen.now ticks }
        ensures served { OnOk result ((first : Simulation)
            → HasStepped plan.now first chosen.now cpu_count self.old → IsJump plan.now first.run chosen.now ticks
            → HasServed plan.now first chosen.now ticks cpu_count self.new) }
    {
        for cpu in 0..CPUS {
            if let Some(task) = chosen[cpu] {
                self.serve_task(plan, task, ticks)?;
            }
        }
        Ok(())
    }

    // Whom the processors serve.
    fn choices(&self, plan: &Plan) -> [Option<u32>; CPUS]
        requires simulation { IsSimulation plan.now self.now }
        requires until { NoBatchBefore plan.now self.now.run.released (self.now.run.time + 1) }
        ensures { IsEvent plan.now self.now result }
    {
        choose(plan, self.recorder.core(), &self.run)
    }

    // After how many ticks, at most so many, the next of the chosen instances makes its reads or ends.
    fn ticks_to_next(&self, plan: &Plan, chosen: &[Option<u32>; CPUS], most: u64) -> u64
        requires event { IsEvent plan.now self.now chosen.now }
        requires some { 0 < most }
        requires until { NoBatchBefore plan.now self.now.run.released (self.now.run.time + most) }
        ensures jump { IsJump plan.now self.now.run chosen.now result }
        ensures most { result ≤ most }
    {
        let mut ticks = most;
        for cpu in 0..CPUS {
            if let Some(task) = chosen[cpu] {
                let body = &plan.diagram.tasks.items()[task as usize];
                let served = body.cost - self.run.rest[task as usize];
                ticks = ticks.min(ticks_to_event(body, served));
            }
        }
        ticks
    }

    // Serves until the next event on any processor or the limit, whichever comes first.
    fn serve(&mut self, plan: &Plan, limit: u64) -> Result<(), NoMemory>
        requires simulation { IsSimulation plan.now self.old }
        requires some { (i : ℕ) × (a : ℕ) × Holds self.old.run.ready i a }
        requires until { NoBatchBefore plan.now self.old.run.released limit }
        requires ahead { self.old.run.time < limit }
        ensures simulation { OnOk result (IsSimulation plan.now self.new) }
        ensures later { OnOk result (self.old.run.time < self.new.run.time) }
        ensures limit { OnOk result (self.new.run.time ≤ limit) }
        ensures released { OnOk result (self.new.run.released ≡ self.old.run.released) }
        ensures keeps { OnOk result
            (is_some (record_in self.new.recorder) ≡ is_some (record_in self.old.recorder)) }
    {
        let chosen = self.choices(plan);
        let ticks = self.ticks_to_next(plan, &chosen, limit - self.run.time);
        self.make_all_steps(plan, &chosen)?;
        self.serve_all(plan, &chosen, ticks)?;
        self.run.advance(plan, ticks);
        Ok(())
    }

    // Serves until the next batch.
    fn serve_until_batch(&mut self, plan: &Plan) -> Result<(), NoMemory>
        requires simulation { IsSimulation plan.now self.old }
        requires more { self.old.run.released < length plan.now.batches }
        ensures simulation { OnOk result (IsSimulation plan.now self.new) }
        ensures time { OnOk result
            (self.new.run.time ≡ (batch_at plan.now self.old.run.released).time) }
        ensures released { OnOk result (self.new.run.released ≡ self.old.run.released) }
        ensures keeps { OnOk result
            (is_some (record_in self.new.recorder) ≡ is_some (record_in self.old.recorder)) }
    {
        let limit = plan.batches.items()[self.run.released as usize].time;
        while self.run.time < limit {
            let Some(_) = self.run.ready.first() else {
                self.run.wait(plan);
                return Ok(());
            };
            self.serve(plan, limit)?;
        }
        Ok(())
    }

    // Serves until all instances have ended.
    fn serve_rest(&mut self, plan: &Plan) -> Result<(), NoMemory>
        requires simulation { IsSimulation plan.now self.old }
        requires last { self.old.run.released ≡ length plan.now.batches }
        ensures simulation { OnOk result (IsSimulation plan.now self.new) }
        ensures idle { OnOk result ((i : ℕ) → i < length plan.now.diagram.tasks
            → slice_index self.new.run.rest.items i ≡ 0) }
        ensures released { OnOk result (self.new.run.released ≡ self.old.run.released) }
        ensures keeps { OnOk result
            (is_some (record_in self.new.recorder) ≡ is_some (record_in self.old.recorder)) }
    {
        while let Some(_) = self.run.ready.first() {
            self.serve(plan, u64::MAX)?;
        }
        Ok(())
    }

    // Releases the next batch, unless it comes too early. It runs out of memory only if it doesn't.
    fn release(&mut self, plan: &Plan) -> Result<(), SimFail>
        requires simulation { IsSimulation plan.now self.old }
        requires more { self.old.run.released < length plan.now.batches }
        requires due { self.old.run.time ≡ (batch_at plan.now self.old.run.released).time }
        ensures outcome { MatchResult result
            (λ _. IsSimulation plan.now self.new
            × (self.new.run.released ≡ self.old.run.released + 1)
            × (is_some (record_in self.new.recorder) ≡ is_some (record_in self.old.recorder)))
            (λ why. IsSimFail plan.now why) }
        ensures no_memory { result ≡ Err OutOfMemory → (i : ℕ)
            → is_in (batch_at plan.now self.old.run.released).tasks i ≡ true
            → slice_index self.old.run.rest.items i ≡ 0 }
    {
        if let Some(overrun) = self.run.overrun(plan) {
            return Err(overrun);
        }
        let Ok(()) = self.recorder.release_batch(self.run.released) else {
            return Err(SimFail::NoMemory);
        };
        self.run.renew(plan);
        Ok(())
    }
}

// The simulation of the plan at its end. Its steps are kept if they are asked for.
fn finished_simulation(
    alloc: Global,
    shared: &Rc<Plan>,
    keeping: Keeping,
) -> Result<Simulation, SimFail>
    ensures { MatchResult result
        (λ s. IsFinished shared.now.value keeping s) (λ why. IsSimFail shared.now.value why) }
{
    let Ok(mut simulation) = Simulation::new(alloc, shared, keeping) else {
        return Err(SimFail::NoMemory);
    };
    let plan: &Plan = shared;
    for _ in 0..plan.batches.len() {
        let Ok(()) = simulation.serve_until_batch(plan) else {
            return Err(SimFail::NoMemory);
        };
        simulation.release(plan)?;
    }
    let Ok(()) = simulation.serve_rest(plan) else {
        return Err(SimFail::NoMemory);
    };
    Ok(simulation)
}

/// The simulation of the plan in virtual time on its processors: each serves its own tasks by their policy, by ticks,
/// and passes over those that are blocked; the buffers step by the protocol under `All`. It goes from one event to the
/// next: the next batch, the next reads of an instance that is served, or its end. The table is the zero-time meaning's,
/// the script is the one recorded list that the plan has on its processors, and each instance's end is that of the
/// service on its processor.
pub fn simulate_cpus(alloc: Global, plan: &Plan) -> Result<SimRun, SimFail>
    ensures { MatchResult result (λ run. IsSimRun plan.now run) (λ why. IsSimFail plan.now why) }
{
    let Ok(shared) = shared_copy(alloc, plan) else {
        return Err(SimFail::NoMemory);
    };
    simulate_cpus_shared(alloc, &shared)
}

/// As `simulate_cpus`, with no copy of the plan.
pub fn simulate_cpus_shared(alloc: Global, plan: &Rc<Plan>) -> Result<SimRun, SimFail>
    ensures { MatchResult result
        (λ run. IsSimRun plan.now.value run) (λ why. IsSimFail plan.now.value why) }
{
    let Simulation { run, recorder } = finished_simulation(alloc, plan, Keeping::Steps)?;
    let (steps, table) = recorder.finish();
    let Some(script) = steps else { unreachable!() };
    Ok(SimRun {
        table,
        script,
        ends: run.ends,
    })
}

/// The table of the simulation that `simulate_cpus` makes. Its steps are made as for that, and none is kept; no clause
/// says that they are made.
pub fn simulate_cpus_table_shared(alloc: Global, plan: &Rc<Plan>) -> Result<Table, SimFail>
    ensures { MatchResult result
        (λ table. IsSimTable plan.now.value table) (λ why. IsSimFail plan.now.value why) }
{
    let Simulation { recorder, .. } = finished_simulation(alloc, plan, Keeping::Nothing)?;
    let (_, table) = recorder.finish();
    Ok(table)
}
