// What a simulation gives, and the overrun that it may meet.

ghost use Rattle.std.specs.Prelude.{◌≡◌, ◌≢◌, ◌<◌, ℕ, true, length, slice_index, MatchOption};

use crate::run::Run;
use dbp_core::Step;
use dbp_plan::{List, Plan, Table};

/// A whole simulation.
#[derive(Drop)]
pub struct SimRun {
    /// The rows of all instances.
    pub table: Table,
    /// The steps of the protocol, in the order in which they were made.
    pub script: List<Step>,
    /// For each task, by its number, the end of each instance in ticks; of the first instance first.
    pub ends: List<List<u64>>,
}

/// Why a simulation gives nothing.
#[derive(Clone, Copy, Debug, PartialEq, Eq)]
pub enum SimFail {
    /// At this time, in ticks, the task's instance with this number, counted from 1, is released, and the one before it
    /// hasn't ended. There is none at an earlier time, and at this time none of a higher rank.
    Overrun { task: u32, instance: u32, time: u64 },
    /// Memory ran out.
    NoMemory,
}

impl Run {
    ghost use Rattle.dbp_plan.specs.Numbers.{is_in};
    ghost use Rattle.instance_steps.specs.Releases.{batch_at};
    ghost use Rattle.rank_order.specs.Service.{ServesWaiting};
    ghost use Rattle.virtual_time.specs.Outcomes.{IsFailBy};
    ghost use Rattle.virtual_time.specs.Runs.{IsRun, Processors, all_at};
    ghost use Rattle.virtual_time.specs.State.{left_by};
    ghost use Rattle.virtual_time.specs.declared.outcome.SimFail.TheVariants.{NoMemory as OutOfMemory};

    /// The overrun of the next batch, which is due: that of its highest-ranked task whose last instance hasn't ended.
    pub fn overrun(&self, plan: &Plan) -> Option<SimFail>
        ghost cpus: { Processors }
        requires run { IsRun plan.now (all_at cpus self.now.time) self.now }
        requires waiting { (c : ℕ) → ServesWaiting plan.now (cpus.serve c) }
        requires more { self.now.released < length plan.now.batches }
        requires due { self.now.time ≡ (batch_at plan.now self.now.released).time }
        ensures overrun { MatchOption result
            ((i : ℕ) → is_in (batch_at plan.now self.now.released).tasks i ≡ true
            → slice_index self.now.rest.items i ≡ 0)
            (λ why. IsFailBy plan.now (left_by plan.now cpus.on cpus.serve) why) }
        ensures memory { result ≢ Some OutOfMemory }
    {
        let task = self.late_task(plan)?;
        Some(SimFail::Overrun {
            task,
            instance: self.ends.items()[task as usize].len() + 2,
            time: self.time,
        })
    }
}
