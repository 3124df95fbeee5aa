// The values of a task's senses at a time.

ghost use Rattle.std.specs.Prelude.{◌≡◌, ◌+◌, ◌<◌, ◌≤◌, All, length, map};
ghost use Rattle.std.specs.List.Sorted.{IsNonDecreasingBy};
ghost use Rattle.dbp_plan.specs.Samples.{input_value, value_until};
ghost use Rattle.dbp_rules.specs.Lookups.{time};
ghost use Rattle.dbp_rules.specs.Moves as move;
ghost use Rattle.dbp_rules.specs.Shapes.{HasSamples};

use crate::wiring::{TaskWiring, Wiring};
use crate::work::Work;
use dbp_plan::{Input, Plan, Sample, Task};

// The value of an input at the time, from its samples in order.
fn value_at(input: &Input, samples: &[Sample], time: u64) -> i64
    requires { IsNonDecreasingBy (λ s. s.time) samples.now }
    ensures { result ≡ value_until input.now.first samples.now time }
{
    let given = samples.partition_point(|sample| sample.time <= time);
    if given == 0 {
        input.first
    } else {
        samples[given - 1].value
    }
}

// The value of the input at the time.
fn input_at(plan: &Plan, wiring: &Wiring, input: u32, time: u64) -> i64
    requires samples { HasSamples plan.now wiring.now.samples }
    requires input { input < length plan.now.diagram.inputs }
    ensures { result ≡ input_value plan.now.diagram.inputs plan.now.samples input time }
{
    let declared = &plan.diagram.inputs.items()[input as usize];
    let samples = &wiring.samples.items()[input as usize];
    value_at(declared, samples.items(), time)
}

impl Work {
    /// Gives the task's senses what their inputs are at the time of its next instance after so many: the value of an
    /// input's last sample at or before it, or its first value if there is none. A task without senses looks up no time:
    /// the times of all instances take so much room that the next one is seldom in a cache.
    pub fn sense(
        &mut self,
        plan: &Plan,
        wiring: &Wiring,
        task: &Task,
        wired: &TaskWiring,
        ended: u32,
    )
        requires samples { HasSamples plan.now wiring.now.samples }
        requires inputs { All (λ x. x.input < length plan.now.diagram.inputs) task.now.senses }
        requires room { length task.now.states + length task.now.senses ≤ length self.old.now }
        ensures { self.new ≡ move.with_senses task.now (map (λ x. input_value plan.now.diagram.inputs plan.now.samples x.input (time wired.now (ended + 1))) task.now.senses) self.old }
    {
        let mut place = task.states.len() as usize;
        for sense in task.senses.items() {
            let time = wired.next_time(ended);
            self.set(place, input_at(plan, wiring, sense.input, time));
            place += 1;
        }
    }
}
