// Simulations of plans that are lent: the rows, and the ends of the instances, which no command shows; or the overrun.

use cpu_sim::simulate_cpus;
use dbp_plan::{Plan, Table};
use std::alloc::Global;
use std::fmt::Write;
use std::process::Abort;
use std::test::Fail;
use test_inputs::{TWO_RATES, plan_in};
use virtual_sim::{SimRun, simulate, simulate_table};

// Two tasks on one processor. The slower one just ends in time.
const TWO_TASKS: &str = "dbp 1
policy fp
until 6
task a every 2 from 0 prio 2 cost 1
  state n = 0
  next n = n + 1
  out y = 0 then n + 1
task b every 3 from 0 prio 1 cost 1
  read x = a.y
  out z = 0 then x * 10
done
";

// Task b, on a processor of its own, waits for each row of a.
const TWO_PROCESSORS: &str = "dbp 2
policy fp
until 6
task a every 2 from 0 prio 2 cost 1
  state n = 0
  next n = n + 1
  out y = 0 then n + 1
task b every 3 from 0 prio 1 cost 2 cpu 1
  read x = a.y
  out z = 0 then x * 10
done
";

// A document, and what its simulations give.
struct Simulated {
    text: &'static str,
    on_one: &'static str,
    on_several: &'static str,
    table: &'static str,
}

static SIMULATED: [Simulated; 3] = [
    Simulated {
        text: TWO_TASKS,
        on_one: "0 1 2 3 /0 10 20 /1 3 5 /2 4 /",
        on_several: "0 1 2 3 /0 10 20 /1 3 5 /2 4 /",
        table: "0 1 2 3 /0 10 20 /",
    },
    Simulated {
        text: TWO_PROCESSORS,
        on_one: "Overrun { task: 1, instance: 2, time: 3 }",
        on_several: "0 1 2 3 /0 10 20 /1 3 5 /3 5 /",
        table: "Overrun { task: 1, instance: 2, time: 3 }",
    },
    Simulated {
        text: TWO_RATES,
        on_one: "Overrun { task: 1, instance: 2, time: 3 }",
        on_several: "Overrun { task: 1, instance: 2, time: 3 }",
        table: "Overrun { task: 1, instance: 2, time: 3 }",
    },
];

// The words of each task's rows, a task a group.
fn words_shown(alloc: Global, table: &Table) -> Result<String, Fail> {
    let mut shown = String::new(alloc);
    for rows in table.tasks.items() {
        for word in rows.words.items() {
            write!(shown, "{word} ")?;
        }
        shown.push('/')?;
    }
    Ok(shown)
}

// The words, and then the ends of each task's instances.
fn run_shown(alloc: Global, run: &SimRun) -> Result<String, Fail> {
    let mut shown = words_shown(alloc, &run.table)?;
    for ends in run.ends.items() {
        for end in ends.items() {
            write!(shown, "{end} ")?;
        }
        shown.push('/')?;
    }
    Ok(shown)
}

// The simulation on one processor; or why there is none.
fn on_one(alloc: Global, plan: &Plan) -> Result<String, Fail> {
    match simulate(alloc, plan) {
        Ok(run) => run_shown(alloc, &run),
        Err(why) => Ok(format!(in alloc; "{why:?}")?),
    }
}

// The simulation on the declared processors; or why there is none.
fn on_several(alloc: Global, plan: &Plan) -> Result<String, Fail> {
    match simulate_cpus(alloc, plan) {
        Ok(run) => run_shown(alloc, &run),
        Err(why) => Ok(format!(in alloc; "{why:?}")?),
    }
}

// The table of the simulation on one processor that records nothing; or why there is none.
fn table_alone(alloc: Global, plan: &Plan) -> Result<String, Fail> {
    match simulate_table(alloc, plan) {
        Ok(table) => words_shown(alloc, &table),
        Err(why) => Ok(format!(in alloc; "{why:?}")?),
    }
}

// Compares what the simulations of the plan give.
fn compare(rt: &impl Abort, alloc: Global, plan: &Plan, wanted: &Simulated) -> Result<(), Fail> {
    assert_eq!(rt; on_one(alloc, plan)?.as_str(), wanted.on_one);
    assert_eq!(rt; on_several(alloc, plan)?.as_str(), wanted.on_several);
    assert_eq!(rt; table_alone(alloc, plan)?.as_str(), wanted.table);
    Ok(())
}

// The same for the document's plan.
fn check(rt: &impl Abort, alloc: Global, wanted: &Simulated) -> Result<(), Fail> {
    let plan = plan_in(alloc, wanted.text)?;
    compare(rt, alloc, &plan, wanted)
}

#[test]
fn instances_end_or_come_too_early(rt: HostRuntime) -> Result<(), Fail> {
    for wanted in &SIMULATED {
        check(&rt, rt.alloc(), wanted)?;
    }
    Ok(())
}

// 32 tasks that are served for 1,000,000,000 ticks each, one after another.
fn long_tasks(alloc: Global) -> Result<String, Fail> {
    let mut text = String::new(alloc);
    write!(text, "dbp 1\npolicy fp\nuntil 1000000000\n")?;
    for task in 0..32 {
        writeln!(text, "task t{task} every 1000000000 prio 1 cost 1000000000")?;
        writeln!(text, "  out y = 0 then 1")?;
    }
    writeln!(text, "done")?;
    Ok(text)
}

// The simulation of the document's plan on one processor.
fn of_text(alloc: Global, text: &str) -> Result<String, Fail> {
    let plan = plan_in(alloc, text)?;
    on_one(alloc, &plan)
}

// No tick is walked: this takes no time to speak of.
#[test]
fn long_services_are_passed_over(rt: HostRuntime) -> Result<(), Fail> {
    let text = long_tasks(rt.alloc())?;
    let shown = of_text(rt.alloc(), text.as_str())?;
    assert!(rt; shown.ends_with("/32000000000 /"));
    Ok(())
}
