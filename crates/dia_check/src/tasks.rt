// The tasks of a document.

ghost use Rattle.std.specs.Prelude.{◌≡◌, ◌<◌, ◌≤◌, ℕ, Some, true, length, slice_get, sum_by, IfOk, IfErr, IsErrOf};
ghost use Rattle.dbp_plan.specs.declared.limits.TheConstants.{MAX_BODY};
ghost use Rattle.dia_check.specs.declared.fail.CheckCode.TheVariants.{NoOut};
ghost use Rattle.dia_check.specs.declared.fail.CheckFail.TheVariants.{Refused};
ghost use Rattle.dia_check.specs.Diagrams.{IsTaskOf, clock_of, when_of, lets_of, read_of};
ghost use Rattle.std.specs.List.{flat_map};
ghost use Rattle.dia_check.specs.Faults.{IsWhole, base_of, lacks_outs, let_lines};
ghost use Rattle.dia_check.specs.Names.{env_names};
ghost use Rattle.dia_check.specs.Scopes.{IsScopeOf, HasFaultlessParts, HasNoCycle, AreOrderedLets, IsWorkOf, HasItsSources, IsTaskRefusal, let_refusal};
ghost use Rattle.expr_eval.specs.LetOrders.{IsFailOf};

use crate::fail::{CheckCode, CheckFail};
use crate::names::{env_names, index_of, state_names};
use crate::outs::lacks_outs;
use crate::parts::{lets_of, nexts_of, outs_of, senses_of, states_of};
use crate::scope::Scope;
use dbp_plan::{Clock, Let, List, Name, Next, NoMemory, Out, Read, Sense, State, Task};
use dia_lines::{Part, RawClock};
use dia_read::{Body, RawTask};
use expr_eval::{LetFail, no_order_of_a_cycle, order_lets};
use std::alloc::Global;

fn clock_of(scope: &Scope, clock: &RawClock) -> Clock
    ensures { result ≡ clock_of scope.now.events clock.now }
{
    match clock {
        RawClock::Every { period, offset } => Clock::Every {
            period: *period,
            offset: *offset,
        },
        RawClock::On(event) => Clock::On {
            event: index_of(scope.events.items(), event),
        },
    }
}

// The number of the input that must not be 0, if the line names one.
fn when_of(scope: &Scope, when: Option<Name>) -> Option<u32>
    ensures { result ≡ when_of scope.now.inputs when }
{
    let input = when?;
    Some(index_of(scope.inputs.items(), &input))
}

// The lets of a task and an order of them from the front.
#[derive(Drop)]
struct OrderedLets {
    lets: List<Let>,
    order: List<u32>,
}

// The lets of the task, whose environment has these names.
fn ordered_lets(
    alloc: Global,
    body: &Body,
    raw: &RawTask,
    names: &[Name],
) -> Result<OrderedLets, LetFail>
    requires names { names.now ≡ env_names raw.now.parts }
    requires few { length raw.now.parts ≤ MAX_BODY }
    requires faultless { HasFaultlessParts body.now raw.now }
    ensures lets { IfOk result (λ ordered. AreOrderedLets raw.now ordered) }
    ensures whole { IfOk result (λ _. HasNoCycle raw.now) }
    ensures fail { IfErr result (λ fail. IsFailOf (base_of raw.now) (lets_of raw.now) fail) }
{
    let lets = lets_of(alloc, names, raw.parts.items())?;
    let order = order_lets(alloc, &lets, names.len() as u32 - lets.len())?;
    no_order_of_a_cycle();
    Ok(OrderedLets { lets, order })
}

// What a task computes.
#[derive(Drop)]
struct Work {
    lets: List<Let>,
    order: List<u32>,
    nexts: List<Next>,
    outs: List<Out>,
}

fn work_of(alloc: Global, body: &Body, raw: &RawTask) -> Result<Work, LetFail>
    requires few { length raw.now.parts ≤ MAX_BODY }
    requires faultless { HasFaultlessParts body.now raw.now }
    ensures work { IfOk result (λ work. IsWorkOf raw.now work) }
    ensures whole { IfOk result (λ _. HasNoCycle raw.now) }
    ensures fail { IfErr result (λ fail. IsFailOf (base_of raw.now) (lets_of raw.now) fail) }
{
    let parts = raw.parts.items();
    let names = env_names(alloc, parts)?;
    let outs = outs_of(alloc, names.items(), parts)?;
    let OrderedLets { lets, order } = ordered_lets(alloc, body, raw, names.items())?;
    let states = state_names(alloc, parts)?;
    let nexts = nexts_of(alloc, states.items(), names.items(), parts)?;
    Ok(Work {
        lets,
        order,
        nexts,
        outs,
    })
}

// What a task keeps and senses.
#[derive(Drop)]
struct Sources {
    states: List<State>,
    senses: List<Sense>,
}

fn sources_of(
    alloc: Global,
    body: &Body,
    scope: &Scope,
    parts: &[Part],
) -> Result<Sources, NoMemory>
    requires scope { IsScopeOf body.now scope.now }
    requires few { length parts.now ≤ MAX_BODY }
    ensures { IfOk result (λ sources. HasItsSources body.now parts.now sources) }
{
    Ok(Sources {
        states: states_of(alloc, parts)?,
        senses: senses_of(alloc, scope.inputs.items(), parts)?,
    })
}

// The task that its lines say, with these reads.
fn task_of(
    alloc: Global,
    body: &Body,
    scope: &Scope,
    raw: &RawTask,
    reads: List<Read>,
) -> Result<Task, LetFail>
    requires scope { IsScopeOf body.now scope.now }
    requires few { length raw.now.parts ≤ MAX_BODY }
    requires faultless { HasFaultlessParts body.now raw.now }
    ensures task { (number : ℕ) → reads ≡ flat_map (read_of body.now.tasks number) raw.now.parts
        → IfOk result (λ task. IsTaskOf body.now number raw.now task) }
    ensures whole { IfOk result (λ _. HasNoCycle raw.now) }
    ensures fail { IfErr result (λ fail. IsFailOf (base_of raw.now) (lets_of raw.now) fail) }
{
    let work = work_of(alloc, body, raw)?;
    let sources = sources_of(alloc, body, scope, raw.parts.items())?;
    Ok(Task {
        name: raw.name,
        clock: clock_of(scope, &raw.clock),
        when: when_of(scope, raw.when),
        prio: raw.prio,
        deadline: raw.deadline,
        cost: raw.cost,
        cpu: raw.cpu,
        states: sources.states,
        senses: sources.senses,
        reads,
        lets: work.lets,
        order: work.order,
        nexts: work.nexts,
        outs: work.outs,
    })
}

// The line of the let with the number, from 0, if the lines of the body have the first of these numbers.
fn let_line(parts: &[Part], lines: &[u32], number: u32) -> u32
    requires lines { length parts.now ≤ length lines.now }
    requires there { number < length (let_lines parts.now lines.now) }
    ensures { slice_get (let_lines parts.now lines.now) number ≡ Some result }
{
    let mut left = number;
    for (place, part) in parts.iter().enumerate() {
        if let Part::Let(_, _) = part {
            if left == 0 {
                return lines[place];
            }
            left -= 1;
        }
    }
    unreachable!()
}

// The refusal for a failure of the task's lets. The lines of its body have the first of these numbers.
fn let_refusal(raw: &RawTask, lines: &[u32], fail: LetFail) -> CheckFail
    requires fail { IsFailOf (base_of raw.now) (lets_of raw.now) fail }
    requires lines { length raw.now.parts ≤ length lines.now }
    ensures { result ≡ let_refusal raw.now lines.now fail }
{
    match fail {
        LetFail::Cycle { first, names } => CheckFail::Refused {
            line: let_line(raw.parts.items(), lines, first),
            code: CheckCode::LetCycle { names },
        },
        LetFail::NoMemory => CheckFail::NoMemory,
    }
}

// The task that its lines say, with these reads, or why it isn't right as a whole. Its first line has this number, and
// those of its body the first of these.
pub(crate) fn checked_task(
    alloc: Global,
    body: &Body,
    scope: &Scope,
    raw: &RawTask,
    reads: List<Read>,
    begins: u32,
    lines: &[u32],
) -> Result<Task, CheckFail>
    requires scope { IsScopeOf body.now scope.now }
    requires few { length raw.now.parts ≤ MAX_BODY }
    requires lines { length raw.now.parts ≤ length lines.now }
    requires faultless { HasFaultlessParts body.now raw.now }
    ensures task { (number : ℕ) → reads ≡ flat_map (read_of body.now.tasks number) raw.now.parts
        → IfOk result (λ task. IsTaskOf body.now number raw.now task) }
    ensures whole { IfOk result (λ _. IsWhole raw.now) }
    ensures fault { IfErr result (λ fail. IsTaskRefusal raw.now begins lines.now fail) }
    // A task without outs is refused before memory is taken.
    ensures no_out { lacks_outs raw.now ≡ true → IsErrOf result (Refused begins NoOut) }
{
    if lacks_outs(raw) {
        return Err(CheckFail::Refused {
            line: begins,
            code: CheckCode::NoOut,
        });
    }
    match task_of(alloc, body, scope, raw, reads) {
        Ok(task) => Ok(task),
        Err(fail) => Err(let_refusal(raw, lines, fail)),
    }
}
