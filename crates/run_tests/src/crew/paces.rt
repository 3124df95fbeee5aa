// Paces that hold parties up.

use crate::crew::runs::makes_meaning_at;
use dbp_plan::Plan;
use party_exec::Pace;
use std::alloc::Global;
use std::process::Abort;
use std::sync::Wait;
use std::sync::atomic::{AtomicU64, Ordering};
use std::test::Fail;
use std::thread;
use std::thread::Threads;
use test_inputs::{THREE_RATES, plan_in};

// A meter, a controller that it reads through a delay, and a log.
const METER: &str = "dbp 1
policy fp
until 1000
input speed = 0
input target = 100
task meter every 5 prio 3 cost 1
  sense v = speed
  read u = pre control.u
  state sum = 0
  let s = (sum * 3 + v) / 4
  next sum = s
  out f = 0 then s
  out g = 0 then u
task control every 10 prio 2 cost 2
  read m = meter.f
  sense t = target
  out u = 0 then t - m
task log every 50 prio 1 cost 5
  read u = control.u
  out w = 0 then u
trace
time,speed,target
0,40,
500,80,
done
";

// How often a party looks for the others before it gives up: some 10 seconds, or 20 where the processors are busy.
pub(crate) const MOST_POLLS: u32 = 4_000_000;

// Before its first turn each of four parties waits until all have come.
#[derive(Drop)]
struct Meeting {
    came: [AtomicU64; 4],
    given_up: AtomicU64,
}

impl Meeting {
    fn all_came(&self) -> bool {
        self.came
            .iter()
            .all(|flag| flag.load(Ordering::SeqCst) == 1)
    }

    // Whether all came before anyone gave up.
    fn waited(&self) -> bool {
        for _ in 0..MOST_POLLS {
            if self.all_came() {
                return true;
            }
            if self.given_up.load(Ordering::SeqCst) == 1 {
                return false;
            }
            thread::yield_now();
        }
        false
    }
}

impl Pace for &Meeting {
    fn at(&self, task: u32, turn: u64) {
        if turn > 1 {
            return;
        }
        if let Some(flag) = self.came.get(task as usize) {
            flag.store(1, Ordering::SeqCst);
        }
        if !self.waited() {
            self.given_up.store(1, Ordering::SeqCst);
        }
    }
}

// The parties of the plan meet.
fn meet<R: Abort + Threads + Wait + Sync>(rt: &R, alloc: Global, plan: &Plan) -> Result<(), Fail> {
    let meeting = Meeting {
        came: [
            AtomicU64::new(0),
            AtomicU64::new(0),
            AtomicU64::new(0),
            AtomicU64::new(0),
        ],
        given_up: AtomicU64::new(0),
    };
    assert!(rt; makes_meaning_at(rt, alloc, &meeting, plan)?);
    assert_eq!(rt; meeting.given_up.load(Ordering::SeqCst), 0);
    assert!(rt; meeting.all_came());
    Ok(())
}

#[test]
fn four_parties_work_at_once(rt: HostRuntime) -> Result<(), Fail> {
    let plan = plan_in(rt.alloc(), METER)?;
    meet(&rt, rt.alloc(), &plan)
}

// One party is held up before each of its turns, whose numbers are counted beside it, by so many loads.
#[derive(Drop)]
struct Holding {
    task: u32,
    polls: u32,
    turns: AtomicU64,
    miscounted: AtomicU64,
}

impl Pace for &Holding {
    fn at(&self, task: u32, turn: u64) {
        if task != self.task {
            return;
        }
        let before = self.turns.fetch_add(1, Ordering::SeqCst);
        if turn != before.wrapping_add(1) {
            self.miscounted.store(1, Ordering::SeqCst);
        }
        // This turn is counted, so none of the loads ends it.
        for _ in 0..self.polls {
            if self.turns.load(Ordering::SeqCst) == 0 {
                return;
            }
        }
    }
}

// The task of this number is held up; the releaser's is the number of tasks.
fn hold_up<R: Abort + Threads + Wait + Sync>(
    rt: &R,
    alloc: Global,
    plan: &Plan,
    task: u32,
) -> Result<(), Fail> {
    let pace = Holding {
        task,
        polls: 1_000,
        turns: AtomicU64::new(0),
        miscounted: AtomicU64::new(0),
    };
    assert!(rt; makes_meaning_at(rt, alloc, &pace, plan)?);
    assert_eq!(rt; pace.miscounted.load(Ordering::SeqCst), 0);
    assert!(rt; pace.turns.load(Ordering::SeqCst) > 0);
    Ok(())
}

fn hold_up_each<R: Abort + Threads + Wait + Sync>(
    rt: &R,
    alloc: Global,
    plan: &Plan,
) -> Result<(), Fail> {
    for task in 0..4 {
        hold_up(rt, alloc, plan, task)?;
    }
    Ok(())
}

fn hold_up_in<R: Abort + Threads + Wait + Sync>(
    rt: &R,
    alloc: Global,
    text: &str,
) -> Result<(), Fail> {
    let plan = plan_in(alloc, text)?;
    hold_up_each(rt, alloc, &plan)
}

#[test]
fn a_party_that_is_held_up_changes_nothing(rt: HostRuntime) -> Result<(), Fail> {
    hold_up_in(&rt, rt.alloc(), THREE_RATES)?;
    hold_up_in(&rt, rt.alloc(), METER)
}
