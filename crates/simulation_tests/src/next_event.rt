// The next event of an instance: its next reads, or its end.

use dbp_plan::{Plan, Task};
use std::process::Abort;
use std::test::Fail;
use test_inputs::plan_in;
use virtual_time::ticks_to_event;

// A task of five ticks that reads in its second and its fifth.
const TWO_READS: &str = "dbp 1
policy fp
until 12
task a every 12 prio 3 cost 1
  out y = 0 then 1
task b every 12 prio 2 cost 1
  out y = 0 then 2
task c every 12 prio 1 cost 5
  read u = a.y at 1
  read v = b.y at 4
  out z = 0 then u + v
done
";

// For how many ticks an instance of the third task was served, and after how many more its next event comes.
static EVENTS: &[(u64, u64)] = &[(0, 1), (1, 3), (2, 2), (3, 1), (4, 1)];

// Compares them with those of the task.
fn compare(rt: &impl Abort, task: &Task) {
    for (served, want) in EVENTS {
        assert!(rt; *served < task.cost);
        assert_eq!(rt; ticks_to_event(task, *served), *want);
    }
}

// The same for the plan's last task.
fn compare_last(rt: &impl Abort, plan: &Plan) -> Result<(), Fail> {
    let task = plan.diagram.tasks.items().last().ok_or("no task")?;
    compare(rt, task);
    Ok(())
}

#[test]
fn reads_and_the_end_are_events(rt: HostRuntime) -> Result<(), Fail> {
    let plan = plan_in(rt.alloc(), TWO_READS)?;
    compare_last(&rt, &plan)
}
