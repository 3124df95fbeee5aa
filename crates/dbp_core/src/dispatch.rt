// One step: why it isn't allowed, or what it makes of the state.

ghost use Rattle.std.specs.Prelude.{◌≡◌, ◌+◌, ◌<◌, ◌^◌, length};
ghost use Rattle.dbp_rules.specs.PartyRules.{task_refusal};
ghost use Rattle.dbp_rules.specs.Listing.{with_releases};
ghost use Rattle.dbp_rules.specs.Lookups.{task, wired_task};
ghost use Rattle.dbp_rules.specs.Rules as rule;
ghost use Rattle.dbp_rules.specs.Rules.{IsNamed, IsStep};
ghost use Rattle.dbp_rules.specs.Shapes.{IsShape, PlaceIn};
ghost use Rattle.dbp_core.specs.Unfinished.{HasUnfinished};

use crate::conditions::blocker_refusal;
use crate::look_up::{task_at, wired_at};
use crate::making::make;
use crate::rank_mask::RankMask;
use crate::steps::is_open;
use dbp_plan::Plan;
use dbp_rules::{Heard, Illegal, State, Step, Wiring};

// Why the task may not make the step, if that is so: its own part, or else a task that is ranked above it.
fn ranked_refusal(
    wiring: &Wiring,
    state: &State,
    unfinished: RankMask,
    number: u32,
    step: Step,
) -> Option<Illegal>
    requires wired { number < length wiring.now.tasks }
    requires tasks { length state.now.tasks ≡ length wiring.now.tasks }
    requires entries { length state.now.releaser.tasks ≡ length wiring.now.tasks }
    requires place { PlaceIn (wired_task wiring.now number) (task state.now number).part.place }
    requires ranks { HasUnfinished wiring.now state.now unfinished }
    ensures { result ≡ rule.ranked_refusal wiring.now state.now number step }
{
    if let Some(why) = not_next(wiring, state, number, step) {
        return Some(why);
    }
    blocker_refusal(wiring, state, unfinished, number)
}

// Why the step isn't the task's next one, if that is so.
fn not_next(wiring: &Wiring, state: &State, number: u32, step: Step) -> Option<Illegal>
    requires wired { number < length wiring.now.tasks }
    requires tasks { number < length state.now.tasks }
    requires place { PlaceIn (wired_task wiring.now number) (task state.now number).part.place }
    ensures { result ≡ task_refusal (wired_task wiring.now number) (task state.now number).part step }
{
    task_at(state, number)
        .part
        .refusal(wired_at(wiring, number), step)
}

// Why the start isn't allowed, if that is so. A start that finds its gate closed changes nothing, and no rank forbids it.
fn start_refusal(
    wiring: &Wiring,
    state: &State,
    unfinished: RankMask,
    number: u32,
) -> Option<Illegal>
    requires wired { number < length wiring.now.tasks }
    requires tasks { length state.now.tasks ≡ length wiring.now.tasks }
    requires entries { length state.now.releaser.tasks ≡ length wiring.now.tasks }
    requires place { PlaceIn (wired_task wiring.now number) (task state.now number).part.place }
    requires ended { (task state.now number).part.ended + 1 < 2 ^ 32 }
    requires ranks { HasUnfinished wiring.now state.now unfinished }
    ensures { result ≡ rule.refusal wiring.now state.now (Step.Start number) }
{
    if let Some(why) = not_next(wiring, state, number, Step::Start { task: number }) {
        return Some(why);
    }
    if !is_open(state, number) {
        return None;
    }
    blocker_refusal(wiring, state, unfinished, number)
}

// Why the step isn't allowed, if that is so.
fn refusal(
    plan: &Plan,
    wiring: &Wiring,
    state: &State,
    unfinished: RankMask,
    step: Step,
) -> Option<Illegal>
    requires named { IsNamed plan.now.diagram step }
    requires shape { IsShape plan.now wiring.now state.now }
    requires ranks { HasUnfinished wiring.now state.now unfinished }
    ensures { result ≡ rule.refusal wiring.now state.now step }
{
    match step {
        Step::Seen { .. } => None,
        Step::Aim { .. } => state.releaser.refusal(wiring, step),
        Step::Claim { .. } => state.releaser.refusal(wiring, step),
        Step::OpenGate { .. } => state.releaser.refusal(wiring, step),
        Step::Start { task } => start_refusal(wiring, state, unfinished, task),
        Step::Hear { task } => ranked_refusal(wiring, state, unfinished, task, step),
        Step::Look { task, .. } => ranked_refusal(wiring, state, unfinished, task, step),
        Step::Take { task, .. } => ranked_refusal(wiring, state, unfinished, task, step),
        Step::Shut { task } => ranked_refusal(wiring, state, unfinished, task, step),
        Step::Put { task, .. } => ranked_refusal(wiring, state, unfinished, task, step),
        Step::Done { task } => ranked_refusal(wiring, state, unfinished, task, step),
        Step::End { task } => ranked_refusal(wiring, state, unfinished, task, step),
    }
}

// One step: what is heard and the next state, or the first broken condition and the same state.
pub(crate) fn advance(
    plan: &Plan,
    wiring: &Wiring,
    state: &mut State,
    unfinished: RankMask,
    step: Step,
) -> Result<Heard, Illegal>
    requires named { IsNamed plan.now.diagram step }
    requires listed { with_releases plan.now wiring.now ≡ wiring.now }
    requires shape { IsShape plan.now wiring.now state.old }
    requires ranks { HasUnfinished wiring.now state.old unfinished }
    ensures { IsStep plan.now wiring.now state.old step result state.new }
{
    if let Some(why) = refusal(plan, wiring, state, unfinished, step) {
        return Err(why);
    }
    Ok(make(plan, wiring, state, step))
}
