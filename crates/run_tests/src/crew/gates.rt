// A pace that holds the releaser before it opens the last gate.

use crate::crew::paces::MOST_POLLS;
use crate::crew::runs::makes_meaning_at;
use dbp_plan::Plan;
use party_exec::Pace;
use std::alloc::Global;
use std::process::Abort;
use std::sync::Wait;
use std::sync::atomic::{AtomicU64, Ordering};
use std::test::Fail;
use std::thread;
use std::thread::Threads;
use test_inputs::plan_in;

// Each task has one instance. That of `early` has 31 turns, and waits for none of `late`.
const TWO_GATES: &str = "dbp 1
policy fp
until 10
task early every 10 prio 2 cost 1
  read a = pre late.a
  read b = pre late.b
  read c = pre late.c
  read d = pre late.d
  read e = pre late.e
  read f = pre late.f
  read g = pre late.g
  read h = pre late.h
  read i = pre late.a
  read j = pre late.b
  read k = pre late.c
  read l = pre late.d
  out o = 0 then a + b + c + d + e + f + g + h + i + j + k + l
task late every 10 prio 1 cost 1
  out a = 1 then 2
  out b = 1 then 3
  out c = 1 then 4
  out d = 1 then 5
  out e = 1 then 6
  out f = 1 then 7
  out g = 1 then 8
  out h = 1 then 9
done
";

const EARLY: u32 = 0;

const LATE: u32 = 1;

// The releaser aims both tasks, claims for `early` and opens its gate. With this turn it opens the last gate, that of `late`.
const LAST_OPEN: u64 = 5;

// Until `early` has been told so many turns the releaser is held.
const ENOUGH: u64 = 30;

// The turns of `late` if none is idle.
const LATE_TURNS: u64 = 13;

// So many yields of `early` are enough for `late` to make all its turns, if its gate is open.
const YIELDS: u32 = 20_000;

// The last turn that each party was told; whether one has waited in vain; and whether `late` has finished while the releaser
// was held before the turn that opens its gate.
#[derive(Drop)]
struct LastGate {
    early: AtomicU64,
    late: AtomicU64,
    releaser: AtomicU64,
    given_up: AtomicU64,
    finished: AtomicU64,
}

impl LastGate {
    // Waits until the party whose turns these are has been told this one.
    fn wait_for(&self, told: &AtomicU64, turn: u64) {
        for _ in 0..MOST_POLLS {
            if told.load(Ordering::SeqCst) >= turn || self.given_up.load(Ordering::SeqCst) == 1 {
                return;
            }
            thread::yield_now();
        }
        self.given_up.store(1, Ordering::SeqCst);
    }

    // Before its last but one turn `early` lets `late` go on. At a gate that is closed `late` is told few turns, since it
    // sleeps; or 64, if its job is one that never sleeps.
    fn watch_late(&self) {
        self.wait_for(&self.releaser, LAST_OPEN);
        for _ in 0..YIELDS {
            thread::yield_now();
        }
        let turns = self.late.load(Ordering::SeqCst);
        if turns >= LATE_TURNS && turns < ENOUGH {
            self.finished.store(1, Ordering::SeqCst);
        }
    }
}

impl Pace for &LastGate {
    fn at(&self, task: u32, turn: u64) {
        if task == EARLY {
            if turn == ENOUGH {
                self.watch_late();
            }
            self.early.store(turn, Ordering::SeqCst);
            return;
        }
        if task == LATE {
            self.late.store(turn, Ordering::SeqCst);
            self.wait_for(&self.releaser, LAST_OPEN);
            return;
        }
        self.releaser.store(turn, Ordering::SeqCst);
        if turn == LAST_OPEN {
            self.wait_for(&self.early, ENOUGH);
        }
    }
}

// The releaser is held, and neither task has to wait in vain.
fn hold_releaser<R: Abort + Threads + Wait + Sync>(
    rt: &R,
    alloc: Global,
    plan: &Plan,
) -> Result<(), Fail> {
    let pace = LastGate {
        early: AtomicU64::new(0),
        late: AtomicU64::new(0),
        releaser: AtomicU64::new(0),
        given_up: AtomicU64::new(0),
        finished: AtomicU64::new(0),
    };
    assert!(rt; makes_meaning_at(rt, alloc, &pace, plan)?);
    assert_eq!(rt; pace.given_up.load(Ordering::SeqCst), 0);
    assert_eq!(rt; pace.finished.load(Ordering::SeqCst), 0);
    assert!(rt; pace.early.load(Ordering::SeqCst) >= ENOUGH);
    assert!(rt; pace.late.load(Ordering::SeqCst) >= LATE_TURNS);
    assert!(rt; pace.releaser.load(Ordering::SeqCst) >= LAST_OPEN);
    Ok(())
}

#[test]
fn the_pace_comes_before_the_turn(rt: HostRuntime) -> Result<(), Fail> {
    let plan = plan_in(rt.alloc(), TWO_GATES)?;
    hold_releaser(&rt, rt.alloc(), &plan)
}
