// What a task computes with.

ghost use Rattle.std.specs.Prelude.{◌≡◌, ◌+◌, ◌<◌, ◌≤◌, ◌++◌, length, map, replicate, drop, take, slice_set, pos, IfOk};
ghost use Rattle.dbp_plan.specs.Closed.{IsClosedSomewhere, let_base, place_count};
ghost use Rattle.sync_meaning.specs.Meaning.{outs_in};
ghost use Rattle.sync_meaning.specs.SomeMeaningEnvs.{env_from, states_after};
ghost use Rattle.dbp_plan.specs.declared.limits.TheConstants.{MAX_BODY, MAX_OUTS};
ghost use Rattle.dbp_rules.specs.Moves as move;
ghost use Rattle.dbp_rules.specs.Lookups.{no_task_wiring};
ghost use Rattle.dbp_rules.specs.Start as start;

use dbp_plan::{NoMemory, Out, Row, Task};
use std::alloc::Global;
use std::marker::Model;
use sync_meaning::{Env, env_of, work};

/// What a task computes with. It stands in no shared word. A contract sees the words of the environment, the states
/// after the instance, and the row of the last instance that has computed one.
#[derive(Drop)]
pub struct Work {
    env: Env,
    row: Row,
}

impl Model for Work {
    ghost use Rattle.dbp_rules.specs.Work.{WorkWords};

    ghost Value = { WorkWords };

    ghost view = { λ w. record { now = w.env.now; later = w.env.later; row = w.row } };
}

impl Work {
    /// Before the first instance: the row and the states have their first values, and all other words are 0.
    pub fn start(alloc: Global, task: &Task) -> Result<Work, NoMemory>
        requires places { place_count task.now ≤ MAX_BODY }
        requires outs { length task.now.outs ≤ MAX_OUTS }
        ensures { IfOk result (λ work. work ≡ (start.start_task no_task_wiring task.now).work) }
    {
        Ok(Work {
            env: env_of(alloc, task)?,
            row: first_row(task.outs.items()),
        })
    }

    /// The row of the last instance that has computed one, or the first values.
    pub fn row(&self) -> &Row
        ensures { result.now ≡ self.now.row }
    {
        &self.row
    }

    // Sets the word at a place of the environment.
    pub(crate) fn set(&mut self, place: usize, word: i64)
        requires { place < length self.old.now }
        ensures { self.new ≡ record self.old { now = slice_set self.old.now place word } }
    {
        self.env.now.items_mut()[place] = word;
    }

    /// Gives a read the word that the task has taken for it. It stands after the states and the senses.
    pub fn set_read(&mut self, task: &Task, read: u32, word: i64)
        requires { length task.now.states + length task.now.senses + read < length self.old.now }
        ensures { self.new ≡ move.with_read task.now self.old read word }
    {
        let first = task.states.len() as usize + task.senses.len() as usize;
        self.set(first + read as usize, word);
    }

    /// One instance, from the states, the senses and the reads in the environment.
    pub fn compute(&mut self, task: &Task)
        requires closed { IsClosedSomewhere task.now }
        requires now { length self.old.now ≡ place_count task.now }
        requires later { length self.old.later ≡ length task.now.states }
        ensures { self.new ≡ move.work_words_of task.now (take (let_base task.now) self.old.now) }
    {
        work(task, &mut self.env, &mut self.row);
    }

    /// The states after the instance become those before the next one.
    pub fn advance(&mut self)
        ensures { self.new ≡ move.after_advance self.old }
    {
        self.env.advance();
    }
}

fn first_row(outs: &[Out]) -> Row
    requires { length outs.now ≤ MAX_OUTS }
    ensures { result ≡ map (λ o. o.first) outs.now }
{
    let mut row = Row::new();
    for out in outs {
        row.push(out.first);
    }
    row
}
