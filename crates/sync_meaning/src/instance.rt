// One instance of a task.

ghost use Rattle.std.specs.Prelude.{◌≡◌, ◌<◌, ℕ, length, slice_get, take};
ghost use Rattle.dbp_plan.specs.Closed.{IsClosedSomewhere, let_base, place_count};
ghost use Rattle.sync_meaning.specs.Meaning.{AreStatesAfter, HasLets, outs_in};

use crate::Env;
use dbp_plan::{List, Row, Task};
use expr_eval::eval;

/// One instance of the task, from the states, the senses and the reads that stand in `env.now`: computes the lets
/// there, the states after the instance in `env.later`, and the outs. A state without a `next` keeps its value. The
/// states, the senses and the reads stay in `env.now`; what `outs` held is dropped.
pub fn work(task: &Task, env: &mut Env, outs: &mut Row)
    requires closed { IsClosedSomewhere task.now }
    requires now { length env.old.now ≡ place_count task.now }
    requires later { length env.old.later ≡ length task.now.states }
    ensures now { length env.new.now ≡ length env.old.now }
    ensures given { (j : ℕ) → j < let_base task.now → slice_get env.new.now j ≡ slice_get env.old.now j }
    ensures lets { HasLets task.now env.new.now }
    ensures later { AreStatesAfter task.now env.new.now (take (length task.now.states) env.new.now) env.new.later }
    ensures outs { outs.new ≡ outs_in task.now env.new.now }
{
    set_lets(task, &mut env.now);
    set_nexts(task, env.now.items(), &mut env.later);
    set_outs(task, env.now.items(), outs);
}

// Computes the lets, each after those that it uses.
fn set_lets(task: &Task, now: &mut List<i64>)
    requires closed { IsClosedSomewhere task.now }
    requires size { length now.old ≡ place_count task.now }
    ensures size { length now.new ≡ length now.old }
    ensures given { (j : ℕ) → j < let_base task.now → slice_get now.new j ≡ slice_get now.old j }
    ensures lets { HasLets task.now now.new }
{
    let base = task.states.len() + task.senses.len() + task.reads.len();
    for place in task.order.items() {
        let value = eval(&task.lets.items()[*place as usize].expr, now.items());
        now.items_mut()[(base + *place) as usize] = value;
    }
}

// Computes the states after the instance.
fn set_nexts(task: &Task, now: &[i64], later: &mut List<i64>)
    requires closed { IsClosedSomewhere task.now }
    requires now { length now.now ≡ place_count task.now }
    requires later { length later.old ≡ length task.now.states }
    ensures { AreStatesAfter task.now now.now (take (length task.now.states) now.now) later.new }
{
    let later = later.items_mut();
    later.copy_from_slice(&now[..later.len()]);
    for next in task.nexts.items() {
        later[next.state as usize] = eval(&next.expr, now);
    }
}

// Computes the outs.
fn set_outs(task: &Task, now: &[i64], outs: &mut Row)
    requires closed { IsClosedSomewhere task.now }
    requires now { length now.now ≡ place_count task.now }
    ensures { outs.new ≡ outs_in task.now now.now }
{
    outs.clear();
    for out in task.outs.items() {
        outs.push(eval(&out.expr, now));
    }
}
