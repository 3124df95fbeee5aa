// The samples of each input by itself.

ghost use Rattle.std.specs.Prelude.{◌≡◌, ◌<◌, All, IfOk, length, map};
ghost use Rattle.std.specs.List.{range_with_len};
ghost use Rattle.dbp_plan.specs.Samples.{own_samples};

use crate::{List, NoMemory, Sample};
use std::alloc::Global;

/// The samples of each of so many inputs, in their order. One pass goes over all samples.
pub fn samples_by_input(
    alloc: Global,
    inputs: u32,
    samples: &List<Sample>,
) -> Result<List<List<Sample>>, NoMemory>
    requires { All (λ s. s.input < inputs) samples.now }
    ensures { IfOk result (λ by_input. by_input ≡ map (λ input. own_samples input samples.now) (range_with_len 0 inputs)) }
{
    let mut by_input = no_samples(alloc, inputs)?;
    for sample in samples.items() {
        by_input.items_mut()[sample.input as usize].push(*sample)?;
    }
    Ok(by_input)
}

ghost use Rattle.std.specs.Prelude.{[], replicate};

// So many empty lists.
fn no_samples(alloc: Global, inputs: u32) -> Result<List<List<Sample>>, NoMemory>
    ensures { IfOk result (λ by_input. by_input ≡ replicate inputs []) }
{
    let mut by_input = List::new(alloc);
    for _ in 0..inputs {
        by_input.push(List::new(alloc))?;
    }
    Ok(by_input)
}
