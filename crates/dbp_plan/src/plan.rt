// A plan: a diagram with its samples and its batches, and what is asked of them.

ghost use Rattle.dbp_plan.specs.Plan.{IsPlan};
ghost use Rattle.std.proofs.Props.{props};

use crate::copies::{TryCopy, all_copied};
use crate::{Batch, Diagram, List, NoMemory, Sample};

/// A ranked diagram with the samples of its inputs and the batches of its tasks' occurrences. Its type keeps the
/// rules of a plan, which are `IsPlan`.
pub struct Plan {
    pub diagram: Diagram,
    /// By time, then by input.
    pub samples: List<Sample>,
    /// By time.
    pub batches: List<Batch>,
    /// The rules of a plan.
    pub ghost rules: { IsPlan diagram samples batches } by { Prim.hlevel props },
}

// By hand, as the prover then takes one step where a plan is dropped, and not one for each part.
impl Drop for Plan {
    fn drop(self) {
        let Plan {
            diagram: _,
            samples: _,
            batches: _,
        } = self;
    }
}

impl Plan {
    ghost use Rattle.std.specs.Prelude.{◌≡◌, ◌-◌, ◌<◌, ◌≤◌, length, slice_get, Some, IfOk};
    ghost use Rattle.dbp_plan.specs.Occurrences.{times_of};
    ghost use Rattle.dbp_plan.specs.Samples.{input_value};

    /// An equal plan.
    pub fn copy(&self) -> Result<Plan, NoMemory>
        ensures { IfOk result (λ copy. copy ≡ self.now) }
    {
        Ok(Plan {
            diagram: self.diagram.try_copy()?,
            samples: self.samples.copied()?,
            batches: all_copied(&self.batches)?,
        })
    }

    /// How often the task occurs.
    pub fn occurrences(&self, task: u32) -> u32
        requires { task < length self.now.diagram.tasks }
        ensures { result ≡ length (times_of self.now.batches task) }
    {
        let mut count = 0;
        for batch in self.batches.items() {
            if is_named(batch, task) {
                count += 1;
            }
        }
        count
    }

    /// The time of the task's instance, in ticks. Instances are numbered from 1.
    pub fn time_of(&self, task: u32, instance: u32) -> u64
        requires task { task < length self.now.diagram.tasks }
        requires instance { (1 ≤ instance) × (instance ≤ length (times_of self.now.batches task)) }
        ensures { slice_get (times_of self.now.batches task) (instance - 1) ≡ Some result }
    {
        let mut before = instance - 1;
        for batch in self.batches.items() {
            if is_named(batch, task) {
                if before == 0 {
                    return batch.time;
                }
                before -= 1;
            }
        }
        unreachable!()
    }

    /// The last value given for the input at or before the time, in ticks, else the input's first value.
    pub fn sample(&self, input: u32, time: u64) -> i64
        requires { input < length self.now.diagram.inputs }
        ensures { result ≡ input_value self.now.diagram.inputs self.now.samples input time }
    {
        let mut value = self.diagram.inputs.items()[input as usize].first;
        for sample in self.samples.items() {
            if sample.input == input && sample.time <= time {
                value = sample.value;
            }
        }
        value
    }
}

ghost use Rattle.std.specs.Prelude.{◌≡◌};
ghost use Rattle.dbp_plan.specs.Occurrences.{names};

// Whether the task is one of the batch's.
fn is_named(batch: &Batch, task: u32) -> bool
    ensures { result ≡ names task batch.now }
{
    batch.tasks.items().iter().any(|named| *named == task)
}
