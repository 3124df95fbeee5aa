// The level of a task: the task and those ranked above it.

ghost use Rattle.std.specs.Prelude.{◌≡◌, ◌+◌, ◌<◌, ◌≤◌, ℕ, length, max};
ghost use Rattle.dbp_plan.specs.declared.diagram.Diagram.{Diagram};
ghost use Rattle.dbp_plan.specs.declared.limits.TheConstants.{MAX_TIME};
ghost use Rattle.dbp_plan.specs.Ranked.{IsRanked};
ghost use Rattle.rta_check.specs.Levels.{IsLevel, IsLevelOf, IsStart, level_request};
ghost use Rattle.rta_check.specs.Periods.{IsPeriodic};
ghost use Rattle.rta_check.specs.Responses.{IsBound};

use crate::Bound;
use crate::higher::{Higher, WHOLE, period_of};
use arrayvec::ArrayVec;
use dbp_plan::{Diagram, MAX_TASKS};

// Tasks above another, at most.
const MAX_HIGHER: usize = MAX_TASKS as usize;

const _: () = prove!(MAX_HIGHER == 32);

// A task and those ranked above it, in the numbers that its response time depends on.
#[derive(Drop)]
pub(crate) struct Level {
    // In ticks.
    period: u64,
    // In ticks.
    cost: u64,
    // The tasks above it, in order of declaration.
    higher: ArrayVec<Higher, MAX_HIGHER>,
}

impl Level {
    // The level of the task, which is numbered from 0.
    pub(crate) fn of(diagram: &Diagram, task: usize) -> Level
        requires ranked { IsRanked diagram.now }
        requires periodic { IsPeriodic diagram.now }
        requires task { task < length diagram.now.tasks }
        ensures level { IsLevel result }
        ensures is { IsLevelOf diagram.now task result }
    {
        let tasks = diagram.tasks.items();
        let ranks = diagram.ranks.items();
        let mut higher = ArrayVec::new();
        for other in 0..tasks.len() {
            if ranks[other] < ranks[task] {
                higher.push(Higher::of(&tasks[other]));
            }
        }
        Level {
            period: period_of(tasks[task].clock),
            cost: tasks[task].cost,
            higher,
        }
    }

    // What the task and those above it ask for within so many ticks, at most.
    fn request_bound(&self, ticks: u64) -> u128
        requires level { IsLevel self.now }
        requires ticks { ticks ≤ MAX_TIME }
        ensures { result ≡ level_request self.now ticks }
    {
        let mut asked = u128::from(self.cost);
        for higher in self.higher.as_slice() {
            asked += u128::from(higher.request(ticks));
        }
        asked
    }

    // The start if tasks with a period of at most `longest` ticks ask for their utilization of the time until they are
    // served, and all others for their requests within `ticks`. It may be before `ticks`.
    fn start_by_utilization(&self, ticks: u64, longest: u64) -> u64
        requires level { IsLevel self.now }
        requires ticks { ticks ≤ MAX_TIME }
        requires start { IsStart self.now ticks }
        ensures start { IsStart self.now result }
        ensures within { result ≤ self.now.period + 1 }
    {
        let mut asked = u128::from(self.cost);
        let mut utilization = 0;
        for higher in self.higher.as_slice() {
            if higher.period <= longest {
                utilization += higher.utilization;
            } else {
                asked += u128::from(higher.request(ticks));
            }
        }
        let beyond = self.period + 1;
        if asked > u128::from(self.period) || utilization >= WHOLE {
            return beyond;
        }
        let ticks = (asked * WHOLE).div_ceil(WHOLE - utilization);
        ticks.min(u128::from(beyond)) as u64
    }

    // A start at least as late.
    fn later_start(&self, ticks: u64) -> u64
        requires level { IsLevel self.now }
        requires ticks { ticks ≤ MAX_TIME }
        requires start { IsStart self.now ticks }
        ensures start { IsStart self.now result }
        ensures later { ticks ≤ result }
        ensures within { result ≤ max ticks (self.now.period + 1) }
    {
        let mut latest = ticks;
        for higher in self.higher.as_slice() {
            latest = latest.max(self.start_by_utilization(ticks, higher.period));
        }
        latest
    }

    // A number of ticks from which the response time is sought: by utilizations, which pass over most turns.
    fn start(&self) -> u64
        requires level { IsLevel self.now }
        ensures start { IsStart self.now result }
        ensures some { 1 ≤ result }
        ensures within { result ≤ self.now.period + 1 }
    {
        let mut ticks = 0;
        let mut later = 1;
        while ticks < later && later <= self.period {
            ticks = later;
            later = self.later_start(ticks);
        }
        later
    }

    // The task's bound: from the start on each request bound is the next number of ticks that may be a response time.
    pub(crate) fn bound(&self) -> Bound
        requires level { IsLevel self.now }
        ensures { (d : Diagram) (task : ℕ) → IsLevelOf d task self.now → IsBound d task result }
    {
        let mut ticks = self.start();
        while ticks <= self.period {
            let asked = self.request_bound(ticks);
            if asked <= u128::from(ticks) {
                return Bound::At(ticks);
            }
            ticks = asked.min(u128::from(self.period + 1)) as u64;
        }
        Bound::Beyond
    }
}
