// Numbers within their limits.

ghost use Rattle.std.specs.Prelude.{◌≡◌, pos, ◌≤◌, IfSome};
ghost use Rattle.std.specs.Option.{is_some, option_map};
ghost use Rattle.dbp_plan.specs.declared.limits.TheConstants.{MAX_TIME as MaxTime, MAX_PRIO as MaxPrio, MAX_CPU as MaxCpu};
ghost use Rattle.dia_lines.specs.Delays.{delay_of};
ghost use Rattle.dia_lines.specs.Limits.{lies_within, option_lies_within, delay_fits, clock_fits, numbers_fit};
ghost use Rattle.dia_lines.specs.Held.{IsClock, cpu_of, IsTaskLine, IsPart};
ghost use Rattle.dia_lines.specs.FormShapes.{clock_of, task_of, read_of};

use crate::form::{ClockForm, ReadForm, TaskForm};
use crate::item::{Part, RawClock, TaskLine};
use dbp_plan::{MAX_CPU, MAX_DELAY, MAX_PRIO, MAX_TIME};

// The number, if it lies between the two.
fn within(value: i64, least: u64, greatest: u64) -> Option<u64>
    ensures value { IfSome result (λ n. value ≡ pos n) }
    ensures range { IfSome result (λ n. n ≤ greatest) }
    ensures exact { is_some result ≡ lies_within value least greatest }
{
    if value < 0 {
        return None;
    }
    let number = value.cast_unsigned();
    if least <= number && number <= greatest {
        Some(number)
    } else {
        None
    }
}

// A number of ticks from 0 on.
pub(crate) fn ticks(value: i64) -> Option<u64>
    ensures value { IfSome result (λ n. value ≡ pos n) }
    ensures exact { is_some result ≡ lies_within value 0 MaxTime }
{
    within(value, 0, MAX_TIME)
}

// A number of ticks from 1 on.
fn span(value: i64) -> Option<u64>
    ensures value { IfSome result (λ n. value ≡ pos n) }
    ensures exact { is_some result ≡ lies_within value 1 MaxTime }
{
    within(value, 1, MAX_TIME)
}

fn optional_span(value: Option<i64>) -> Option<Option<u64>>
    ensures value { IfSome result (λ n. value ≡ option_map pos n) }
    ensures exact { is_some result ≡ option_lies_within value 1 MaxTime }
{
    match value {
        Some(value) => match span(value) {
            Some(number) => Some(Some(number)),
            None => None,
        },
        None => Some(None),
    }
}

fn priority(value: i64) -> Option<u32>
    ensures value { IfSome result (λ n. value ≡ pos n) }
    ensures exact { is_some result ≡ lies_within value 0 MaxPrio }
{
    match within(value, 0, u64::from(MAX_PRIO)) {
        Some(number) => Some(number as u32),
        None => None,
    }
}

fn optional_priority(value: Option<i64>) -> Option<Option<u32>>
    ensures value { IfSome result (λ n. value ≡ option_map pos n) }
    ensures exact { is_some result ≡ option_lies_within value 0 MaxPrio }
{
    match value {
        Some(value) => match priority(value) {
            Some(number) => Some(Some(number)),
            None => None,
        },
        None => Some(None),
    }
}

// The number of a processor: 0 if none is given.
fn processor(cpu: Option<i64>) -> Option<u32>
    ensures value { IfSome result (λ n. cpu_of cpu ≡ pos n) }
    ensures exact { is_some result ≡ option_lies_within cpu 0 MaxCpu }
{
    match cpu {
        Some(value) => match within(value, 0, u64::from(MAX_CPU)) {
            Some(number) => Some(number as u32),
            None => None,
        },
        None => Some(0),
    }
}

fn clock(form: ClockForm) -> Option<RawClock>
    ensures value { IfSome result (λ c. IsClock (clock_of form) c) }
    ensures exact { is_some result ≡ clock_fits (clock_of form) }
{
    match form {
        ClockForm::Every(period, offset) => {
            let period = span(period)?;
            let offset = ticks(offset)?;
            Some(RawClock::Every { period, offset })
        }
        ClockForm::On(name) => Some(RawClock::On(name)),
    }
}

// The line that begins a task, if its numbers are within their limits.
pub(crate) fn task_line(form: &TaskForm) -> Option<TaskLine>
    ensures value { IfSome result (λ t. IsTaskLine (task_of form.now) t) }
    ensures exact { is_some result ≡ numbers_fit (task_of form.now) }
{
    let clock = clock(form.clock)?;
    let prio = optional_priority(form.prio)?;
    let deadline = optional_span(form.deadline)?;
    let cost = span(form.cost)?;
    let cpu = processor(form.cpu)?;
    Some(TaskLine {
        name: form.name,
        clock,
        when: form.when,
        prio,
        deadline,
        cost,
        cpu,
    })
}

/// The delay in occurrences of the writer, if it is within its limits: 0 if none is given.
#[tactic(auto, using(crate::proofs::DelayLaws::longest_delay))]
pub fn short_delay(delay: Option<i64>) -> Option<u32>
    ensures value { IfSome result (λ n. delay_of delay ≡ pos n) }
    ensures exact { is_some result ≡ delay_fits delay }
{
    match delay {
        Some(value) => match within(value, 1, u64::from(MAX_DELAY)) {
            Some(number) => Some(number as u32),
            None => None,
        },
        None => Some(0),
    }
}

// The line that names an out of a task, if its numbers are within their limits.
pub(crate) fn read_part(form: &ReadForm) -> Option<Part>
    ensures value { IfSome result (λ p. IsPart (read_of form.now) p) }
    ensures exact { is_some result ≡ numbers_fit (read_of form.now) }
{
    let delay = short_delay(form.delay)?;
    let at = ticks(form.at)?;
    Some(Part::Read {
        name: form.name,
        delay,
        task: form.task,
        port: form.port,
        at,
    })
}
