// The values of the inputs as time goes on.

ghost use Rattle.std.specs.Prelude.{◌≡◌, map, IfOk};
ghost use Rattle.sync_meaning.specs.Taken.{AreTaken, AreValuesAt};

use dbp_plan::{Input, NoMemory, Plan};
use std::alloc::Global;

// The values of the inputs at a time.
#[derive(Drop)]
pub(crate) struct Inputs {
    pub(crate) values: Vec<i64>,
    // samples that were taken
    taken: usize,
}

impl Inputs {
    // The inputs before the first sample.
    pub(crate) fn new(alloc: Global, inputs: &[Input]) -> Result<Inputs, NoMemory>
        ensures values { IfOk result (λ made. made.values.items ≡ map (λ i. i.first) inputs.now) }
        ensures taken { IfOk result (λ made. made.taken ≡ 0) }
    {
        let values = inputs.iter().map(|input| input.first).collect(alloc)?;
        Ok(Inputs { values, taken: 0 })
    }

    // Takes the further samples at or before the time. Those that are taken already are so too.
    pub(crate) fn take_until(&mut self, plan: &Plan, time: u64)
        requires { AreTaken plan.now.diagram.inputs plan.now.samples time self.old.taken self.old.values.items }
        ensures taken { AreTaken plan.now.diagram.inputs plan.now.samples time self.new.taken self.new.values.items }
        ensures values { AreValuesAt plan.now.diagram.inputs plan.now.samples time self.new.values.items }
    {
        let samples = plan.samples.items();
        while self.taken < samples.len() && samples[self.taken].time <= time {
            let sample = samples[self.taken];
            self.values[sample.input as usize] = sample.value;
            self.taken += 1;
        }
    }
}
