// A task that is ranked above another, and what it asks for.

ghost use Rattle.std.specs.Prelude.{◌≡◌, ◌*◌, ◌≤◌, IsTrue};
ghost use Rattle.dbp_plan.specs.declared.limits.TheConstants.{MAX_TIME};
ghost use Rattle.dbp_plan.specs.Closed.{IsClosedSomewhere};
ghost use Rattle.rta_check.specs.Levels.{IsHigher, higher_request};
ghost use Rattle.rta_check.specs.Periods.{is_periodic, period_of};

use dbp_plan::{Clock, Task};

// The parts of a whole processor, in which a utilization is told.
pub(crate) const WHOLE: u128 = 1 << 64;

// A task that is ranked above another.
#[derive(Clone, Copy, Default)]
pub(crate) struct Higher {
    // In ticks, at least 1.
    pub(crate) period: u64,
    // In ticks.
    pub(crate) cost: u64,
    // The cost over the period, in parts of a whole processor, rounded down.
    pub(crate) utilization: u128,
}

/// The period of the clock, in ticks; 0 of an event, which has none.
pub fn period_of(clock: Clock) -> u64
    ensures { result ≡ period_of clock }
{
    match clock {
        Clock::Every { period, .. } => period,
        Clock::On { .. } => 0,
    }
}

impl Higher {
    // What is kept of the task.
    pub(crate) fn of(task: &Task) -> Higher
        requires closed { IsClosedSomewhere task.now }
        requires periodic { IsTrue (is_periodic task.now.clock) }
        ensures higher { IsHigher result }
        ensures period { result.period ≡ period_of task.now.clock }
        ensures cost { result.cost ≡ task.now.cost }
    {
        let period = period_of(task.clock);
        Higher {
            period,
            cost: task.cost,
            utilization: u128::from(task.cost) * WHOLE / u128::from(period),
        }
    }

    // What the task asks for within so many ticks, at most.
    pub(crate) fn request(&self, ticks: u64) -> u64
        requires higher { IsHigher self.now }
        requires ticks { ticks ≤ MAX_TIME }
        ensures value { result ≡ higher_request ticks self.now }
        ensures within { result ≤ MAX_TIME * MAX_TIME }
    {
        ticks.div_ceil(self.period) * self.cost
    }
}
