// Steps taken on the core of a plan.

ghost use Rattle.std.specs.Prelude.{◌≡◌, ◌<◌, ◌≤◌, ◌^◌, ℕ, [], All, Err, IfErr, IfOk, length, vec_capacity, vec_len, zip};
ghost use Rattle.dbp_core.specs.Cores.{count_in, plan_in, state_in};
ghost use Rattle.dbp_replay.specs.NamedItems.{IsThere};
ghost use Rattle.dbp_replay.specs.Replays.{IsIllegal, IsReplay, IsReplayRefusal, first, transcript};
ghost use Rattle.dbp_replay.specs.declared.fail.ReplayFail.TheVariants as replay_fail;
ghost use Rattle.dbp_rules.specs.declared.step.Illegal.{Illegal as Refusal};

use crate::fail::ReplayFail;
use crate::printed::{push_heard, push_step};
use crate::walk::walk;
use dbp_core::{Core, Count, Heard, Step};
use dbp_plan::{Diagram, List, NoMemory, Plan};
use std::alloc::Global;

/// As `replay_owned`, on a copy of the plan.
pub fn replay(
    alloc: Global,
    plan: &Plan,
    count: Count,
    steps: &List<Step>,
) -> Result<Vec<u8>, ReplayFail>
    requires { All (IsThere plan.now.diagram) steps.now }
    // Each step is allowed, and the text says what the core's steps hear.
    ensures text { IfOk result (λ text. IsReplay plan.now count steps.now text.items) }
    // The first step that the core refuses, unless memory ran out.
    ensures illegal { IfErr result (λ fail. IsReplayRefusal plan.now count steps.now fail) }
{
    replay_owned(alloc, plan.copy()?, count, steps)
}

/// The text of the steps, taken in order from the start of the plan on, each with what it hears. Refused is the first
/// step that isn't allowed after those before it. Each step names only what the diagram has.
pub fn replay_owned(
    alloc: Global,
    plan: Plan,
    count: Count,
    steps: &List<Step>,
) -> Result<Vec<u8>, ReplayFail>
    requires { All (IsThere plan.diagram) steps.now }
    // Each step is allowed, and the text says what the core's steps hear.
    ensures text { IfOk result (λ text. IsReplay plan count steps.now text.items) }
    // The first step that the core refuses, unless memory ran out.
    ensures illegal { IfErr result (λ fail. IsReplayRefusal plan count steps.now fail) }
{
    let core = Core::new(alloc, plan, count)?;
    let steps = steps.items();
    let room = Vec::with_capacity(alloc, steps.len())?;
    replay_in(alloc, core, steps, room)
}

/// As `replay_owned`, from a core at its start, with room for what the steps hear.
pub fn replay_in(
    alloc: Global,
    core: Core,
    steps: &[Step],
    room: Vec<Heard>,
) -> Result<Vec<u8>, ReplayFail>
    requires there { All (IsThere (plan_in core).diagram) steps.now }
    requires few { length steps.now < 2 ^ 32 }
    requires start { state_in core ≡ first (plan_in core) (count_in core) }
    requires empty { room.items ≡ [] }
    requires none { vec_len room ≡ 0 }
    requires room { length steps.now ≤ vec_capacity room }
    ensures text { IfOk result
        (λ text. IsReplay (plan_in core) (count_in core) steps.now text.items) }
    ensures illegal { IfErr result
        (λ fail. IsReplayRefusal (plan_in core) (count_in core) steps.now fail) }
    // A step that isn't allowed is found before memory is taken, so it is never out of memory.
    ensures refused { (number : ℕ) (why : Refusal)
        → IsIllegal (plan_in core) (count_in core) steps.now number why
        → result ≡ Err (replay_fail.Illegal number why) }
{
    let mut core = core;
    replay_on(alloc, &mut core, steps, room)
}

// The same on the core of another.
fn replay_on(
    alloc: Global,
    core: &mut Core,
    steps: &[Step],
    room: Vec<Heard>,
) -> Result<Vec<u8>, ReplayFail>
    requires there { All (IsThere (plan_in core.old).diagram) steps.now }
    requires few { length steps.now < 2 ^ 32 }
    requires start { state_in core.old ≡ first (plan_in core.old) (count_in core.old) }
    requires empty { room.items ≡ [] }
    requires none { vec_len room ≡ 0 }
    requires room { length steps.now ≤ vec_capacity room }
    ensures text { IfOk result
        (λ text. IsReplay (plan_in core.old) (count_in core.old) steps.now text.items) }
    ensures illegal { IfErr result
        (λ fail. IsReplayRefusal (plan_in core.old) (count_in core.old) steps.now fail) }
    ensures refused { (number : ℕ) (why : Refusal)
        → IsIllegal (plan_in core.old) (count_in core.old) steps.now number why
        → result ≡ Err (replay_fail.Illegal number why) }
{
    let all_heard = walk(core, steps, room)?;
    Ok(transcript(alloc, &core.plan().diagram, steps, &all_heard)?)
}

// The lines of steps, each with what it heard.
fn transcript(
    alloc: Global,
    diagram: &Diagram,
    steps: &[Step],
    all_heard: &[Heard],
) -> Result<Vec<u8>, NoMemory>
    requires there { All (IsThere diagram.now) steps.now }
    requires size { length all_heard.now ≡ length steps.now }
    ensures { IfOk result
        (λ text. text.items ≡ transcript diagram.now (zip steps.now all_heard.now)) }
{
    let mut text = Vec::new(alloc);
    for (place, heard) in all_heard.iter().enumerate() {
        push_step(&mut text, diagram, steps[place])?;
        push_heard(&mut text, *heard)?;
        text.push(b'\n')?;
    }
    Ok(text)
}
