// The times of each clock by itself.

ghost use Rattle.std.specs.Prelude.{◌≡◌, ◌^◌, ℕ, ◌<◌, ◌↔◌, ◌≤◌, IsSome, length};
ghost use Rattle.dbp_plan.specs.declared.limits.TheConstants.{MAX_TIME};
ghost use Rattle.dbp_plan.specs.Clocks.{base_times, time_at};
ghost use Rattle.trace_io.specs.Counts.{HasNumbersInRange, IsClockOf, IsTimetable, count_of};
ghost use Rattle.trace_io.specs.Spans.{IsCountBefore};

use dbp_plan::{Clock, List};

// The base time of the clock with this number, counted from 0, if it has one.
pub(crate) fn nth_time(until: u64, events: &[List<u64>], clock: Clock, number: u64) -> Option<u64>
    requires clock { IsClockOf (length events.now) clock }
    requires until { until ≤ MAX_TIME }
    requires number { number < 2 ^ 32 }
    ensures { result ≡ time_at until events.now clock number }
{
    match clock {
        Clock::Every { period, offset } => {
            let time = offset + number * period;
            if time < until { Some(time) } else { None }
        }
        Clock::On { event } => events[event as usize].get(number as u32).copied(),
    }
}

// How many base times the clock has. No tick is walked. An event that isn't there has no times.
pub(crate) fn occurrences(until: u64, events: &[List<u64>], clock: Clock) -> u64
    requires clock { HasNumbersInRange clock }
    requires until { until ≤ MAX_TIME }
    ensures is { result ≡ count_of until events.now clock }
    // So those of all tasks add up in 64 bits.
    ensures fits { result < 2 ^ 32 }
    ensures each { (k : ℕ) → (k < result) ↔ IsSome (time_at until events.now clock k) }
{
    match clock {
        Clock::Every { period, offset } => {
            if until <= offset {
                0
            } else if period == 1 {
                // without a division, which takes long
                until - offset
            } else {
                (until - offset - 1) / period + 1
            }
        }
        Clock::On { event } => match events.get(event as usize) {
            Some(times) => u64::from(times.len()),
            None => 0,
        },
    }
}

// How many base times of the clock are before the time. No tick is walked. An event that isn't there has no times.
pub(crate) fn count_before(until: u64, events: &[List<u64>], clock: Clock, time: u64) -> u64
    requires clock { HasNumbersInRange clock }
    requires table { IsTimetable until events.now }
    ensures before { IsCountBefore (base_times until events.now clock) time result }
    ensures fits { result < 2 ^ 32 }
{
    match clock {
        Clock::Every { .. } => occurrences(time.min(until), events, clock),
        Clock::On { event } => match events.get(event as usize) {
            Some(times) => times.items().partition_point(|of_event| *of_event < time) as u64,
            None => 0,
        },
    }
}
