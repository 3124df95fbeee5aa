// The body of a document with priorities by an order of its tasks.

ghost use Rattle.std.specs.Prelude.{◌≡◌, ◌^◌, ◌<◌, length, map};
ghost use Rattle.std.specs.List.{enumerate_from};
ghost use Rattle.dia_read.specs.Printable.{IsPrintable};
ghost use Rattle.rank_find.specs.Bodies.{place_in, ranked_body, ranked_task};
ghost use Rattle.rank_find.specs.Orders.{HoldsEachOnce};

use dbp_plan::{List, Policy};
use dia_read::{Body, RawTask};

// The place of the task in the order, from 0.
fn place_in(order: &[u32], task: u32) -> u32
    requires { length order.now < 2 ^ 32 }
    ensures { result ≡ place_in order.now task }
{
    order.iter().take_while(|other| **other != task).count() as u32
}

// Gives the tasks priorities that fall along the order.
fn rank_tasks(tasks: &mut [RawTask], order: &[u32])
    requires each { HoldsEachOnce (length tasks.old) order.now }
    requires few { length order.now < 2 ^ 32 }
    ensures { tasks.new ≡ map (ranked_task order.now) (enumerate_from 0 tasks.old) }
{
    for task in 0..tasks.len() {
        let prio = order.len() as u32 - (place_in(order, task as u32) + 1);
        tasks[task].prio = Some(prio);
    }
}

/// The body under fixed priorities that fall along the order: of n tasks the first has `prio` n - 1, and the last 0. All
/// else stays, its deadlines and its script too. The order holds the number of each task once.
pub fn ranked_body(mut body: Body, order: &List<u32>) -> Body
    requires { HoldsEachOnce (length body.tasks) order.now }
    ensures body { result ≡ ranked_body body order.now }
    ensures printable { IsPrintable body → IsPrintable result }
{
    rank_tasks(body.tasks.items_mut(), order.items());
    body.policy = Policy::Fp;
    body
}
