// The environment of a task's instances.

ghost use Rattle.std.specs.Prelude.{◌≡◌, ◌+◌, ◌≤◌, ◌<◌, ◌-◌, ◌^◌, ◌++◌, pos, List as Items, length, drop, map, replicate, IfOk};
ghost use Rattle.dbp_plan.specs.Closed.{place_count};
ghost use Rattle.dbp_plan.specs.declared.limits.TheConstants.{MAX_BODY};

use dbp_plan::{List, NoMemory, State, Task};
use std::alloc::Global;

/// The values that a task's instance computes with.
#[derive(Drop)]
pub struct Env {
    /// A value for each place of the task's environment: its states, its senses, its reads and its lets.
    pub now: List<i64>,
    /// The values of the states after the instance.
    pub later: List<i64>,
    pub ghost fits: { length later ≤ length now },
}

impl Env {
    /// Takes the values of the states after the instance as those before the next one.
    pub fn advance(&mut self)
        ensures now { self.new.now ≡ self.old.later ++ drop (length self.old.later) self.old.now }
        ensures later { self.new.later ≡ self.old.later }
    {
        copy_to_front(self.now.items_mut(), self.later.items());
    }
}

// Writes the values over the first ones.
fn copy_to_front(words: &mut [i64], front: &[i64])
    requires { length front.now ≤ length words.old }
    ensures { words.new ≡ front.now ++ drop (length front.now) words.old }
{
    words[..front.len()].copy_from_slice(front);
}

/// The environment of the task before its first instance: each state has its first value, before and after, and
/// all other places are 0.
pub fn env_of(alloc: Global, task: &Task) -> Result<Env, NoMemory>
    requires { place_count task.now ≤ MAX_BODY }
    ensures now { IfOk result (λ env. env.now ≡ map (λ s. s.first) task.now.states ++ replicate (place_count task.now - length task.now.states) (pos 0)) }
    ensures later { IfOk result (λ env. env.later ≡ map (λ s. s.first) task.now.states) }
{
    let mut now = first_values(alloc, task.states.items())?;
    let later = now.copied()?;
    for _ in 0..task.senses.len() + task.reads.len() + task.lets.len() {
        now.push(0)?;
    }
    Ok(Env { now, later })
}

// The values of the states before the first instance.
fn first_values(alloc: Global, states: &[State]) -> Result<List<i64>, NoMemory>
    requires { length states.now < 2 ^ 32 }
    ensures { IfOk result (λ values. values ≡ map (λ s. s.first) states.now) }
{
    let mut values = List::new(alloc);
    for state in states {
        values.push(state.first)?;
    }
    Ok(values)
}
