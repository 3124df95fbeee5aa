// Times of instances, and releases.

use dbp_plan::{List, Plan};
use release_list::{Release, releases};
use std::alloc::Global;
use std::process::Abort;
use std::test::Fail;
use test_inputs::{TWO_RATES, plan_in};

// How often the task occurs, and the time of its second instance. None if it has none.
fn second_time(plan: &Plan, task: u32) -> Option<(u32, u64)> {
    if task >= plan.diagram.tasks.len() {
        return None;
    }
    let count = plan.occurrences(task);
    if count < 2 {
        return None;
    }
    Some((count, plan.time_of(task, 2)))
}

fn compare_times(rt: &impl Abort, plan: &Plan) -> Result<(), Fail> {
    assert_eq!(rt; second_time(plan, 0), Some((3, 2)));
    assert_eq!(rt; second_time(plan, 1), Some((2, 3)));
    Ok(())
}

#[test]
fn instances_have_times(rt: HostRuntime) -> Result<(), Fail> {
    let plan = plan_in(rt.alloc(), TWO_RATES)?;
    compare_times(&rt, &plan)
}

// Task 0 occurs at 0, 2 and 4, task 1, which reads it over link 0, at 0 and 3.
static RELEASES: &[Release] = &[
    Release::Aim { task: 0 },
    Release::Aim { task: 1 },
    Release::Claim { link: 0 },
    Release::OpenGate { task: 0 },
    Release::OpenGate { task: 1 },
    Release::Aim { task: 0 },
    Release::OpenGate { task: 0 },
    Release::Aim { task: 1 },
    Release::Claim { link: 0 },
    Release::OpenGate { task: 1 },
    Release::Aim { task: 0 },
    Release::OpenGate { task: 0 },
];

fn releases_in(alloc: Global, document: &str) -> Result<List<Release>, Fail> {
    let plan = plan_in(alloc, document)?;
    Ok(releases(alloc, &plan)?)
}

#[test]
fn a_plan_has_releases(rt: HostRuntime) -> Result<(), Fail> {
    let list = releases_in(rt.alloc(), TWO_RATES)?;
    assert_eq!(rt; list.items(), RELEASES);
    Ok(())
}
