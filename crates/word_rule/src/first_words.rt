// The words of the table before the first step.

ghost use Rattle.std.specs.Prelude.{◌≡◌, ◌<◌, ◌^◌, IfOk, length, replicate};
ghost use Rattle.dbp_slots.specs.Layout.{sizes};
ghost use Rattle.dbp_slots.specs.TableWords.{sizes_of, task_sizes, word_count};
ghost use Rattle.word_rule.specs.FirstWords.{HasSlotFilled};
ghost use Rattle.word_rule.specs.Showing.{HasFirstNumbers};

use dbp_plan::{NoMemory, Out, Plan};
use dbp_rules::value_to_word;
use dbp_slots::Layout;
use std::alloc::Global;

fn zeros(alloc: Global, count: u32) -> Result<Vec<u64>, NoMemory>
    ensures { IfOk result (λ words. words.items ≡ replicate count 0) }
{
    let mut words = Vec::new(alloc);
    for _ in 0..count {
        words.push(0)?;
    }
    Ok(words)
}

// Stamps slot 0 of the task, which then holds the first values of its outs.
fn fill_first_slot(words: &mut [u64], layout: &Layout, task: u32, outs: &[Out])
    requires size { length words.old ≡ word_count (sizes layout.now) }
    requires task { task < length (sizes layout.now).tasks }
    requires slot { 0 < (task_sizes (sizes layout.now) task).slots }
    requires ports { length outs.now ≡ (task_sizes (sizes layout.now) task).ports }
    requires few { length outs.now < 2 ^ 32 }
    ensures { HasSlotFilled (sizes layout.now) task outs.now (length outs.now) words.old words.new }
{
    words[layout.stamp(task, 0) as usize] = 1;
    for (port, out) in outs.iter().enumerate() {
        words[layout.word(task, 0, port as u32) as usize] = value_to_word(out.first);
    }
}

// Each word has its number before the first step: slot 0 of each task is stamped and holds its first values, all else is 0.
pub(crate) fn first_words(alloc: Global, plan: &Plan, layout: &Layout) -> Result<Vec<u64>, NoMemory>
    requires { sizes layout.now ≡ sizes_of plan.now.diagram }
    ensures { IfOk result (λ words. HasFirstNumbers plan.now words.items) }
{
    let mut words = zeros(alloc, layout.word_count())?;
    for (task, declared) in plan.diagram.tasks.items().iter().enumerate() {
        fill_first_slot(&mut words, layout, task as u32, declared.outs.items());
    }
    Ok(words)
}
