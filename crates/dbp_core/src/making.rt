// A step that is known to be allowed: what it makes of the state, and what is heard. It is allowed by the releaser's actions
// of the plan, which aren't looked up: the wiring may have any list in their place.

ghost use Rattle.std.specs.Prelude.{◌≡◌, ◌<◌, None, Ok, length};
ghost use Rattle.dbp_rules.specs.Listing.{with_releases};
ghost use Rattle.dbp_rules.specs.Rules as rule;
ghost use Rattle.dbp_rules.specs.Rules.{IsNamed, IsStep};
ghost use Rattle.dbp_rules.specs.Shapes.{IsShape};

use crate::look_up::task_at;
use crate::releaser::{aim, claim, open, see};
use crate::steps::{end, finish, hear, is_open, look, put, read_value, shut, start, take};
use dbp_plan::Plan;
use dbp_rules::{Heard, Place, State, Step, Wiring};

fn make_open(plan: &Plan, wiring: &Wiring, state: &mut State, number: u32) -> Heard
    requires task { number < length wiring.now.tasks }
    requires shape { IsShape plan.now (with_releases plan.now wiring.now) state.old }
    requires allowed { rule.refusal (with_releases plan.now wiring.now) state.old (Step.OpenGate number) ≡ None }
    ensures { IsStep plan.now (with_releases plan.now wiring.now) state.old (Step.OpenGate number) (Ok result) state.new }
{
    open(state, number);
    Heard::Stored
}

fn make_aim(plan: &Plan, wiring: &Wiring, state: &mut State, number: u32, slot: u32) -> Heard
    requires task { number < length wiring.now.tasks }
    requires shape { IsShape plan.now (with_releases plan.now wiring.now) state.old }
    requires allowed { rule.refusal (with_releases plan.now wiring.now) state.old (Step.Aim number slot) ≡ None }
    ensures { IsStep plan.now (with_releases plan.now wiring.now) state.old (Step.Aim number slot) (Ok result) state.new }
{
    aim(state, number, slot);
    Heard::Stored
}

fn make_claim(plan: &Plan, wiring: &Wiring, state: &mut State, link_number: u32) -> Heard
    requires link { link_number < length wiring.now.links }
    requires shape { IsShape plan.now (with_releases plan.now wiring.now) state.old }
    requires allowed { rule.refusal (with_releases plan.now wiring.now) state.old (Step.Claim link_number) ≡ None }
    ensures { IsStep plan.now (with_releases plan.now wiring.now) state.old (Step.Claim link_number) (Ok result) state.new }
{
    claim(wiring, state, link_number);
    Heard::Stored
}

fn make_start(plan: &Plan, wiring: &Wiring, state: &mut State, number: u32) -> Heard
    requires task { number < length wiring.now.tasks }
    requires shape { IsShape plan.now (with_releases plan.now wiring.now) state.old }
    requires allowed { rule.refusal (with_releases plan.now wiring.now) state.old (Step.Start number) ≡ None }
    ensures { IsStep plan.now (with_releases plan.now wiring.now) state.old (Step.Start number) (Ok result) state.new }
{
    if is_open(state, number) {
        start(state, number);
        Heard::Started
    } else {
        Heard::Closed
    }
}

fn make_hear(plan: &Plan, wiring: &Wiring, state: &mut State, number: u32) -> Heard
    requires task { number < length wiring.now.tasks }
    requires shape { IsShape plan.now (with_releases plan.now wiring.now) state.old }
    requires allowed { rule.refusal (with_releases plan.now wiring.now) state.old (Step.Hear number) ≡ None }
    ensures { IsStep plan.now (with_releases plan.now wiring.now) state.old (Step.Hear number) (Ok result) state.new }
{
    let Place::Hear(turn) = task_at(state, number).part.place else {
        unreachable!()
    };
    let order = hear(wiring, state, number, turn);
    Heard::Order {
        slot: order.slot,
        number: order.number,
    }
}

fn make_look(plan: &Plan, wiring: &Wiring, state: &mut State, number: u32, read: u32) -> Heard
    requires task { number < length wiring.now.tasks }
    requires shape { IsShape plan.now (with_releases plan.now wiring.now) state.old }
    requires allowed { rule.refusal (with_releases plan.now wiring.now) state.old (Step.Look number read) ≡ None }
    ensures { IsStep plan.now (with_releases plan.now wiring.now) state.old (Step.Look number read) (Ok result) state.new }
{
    let Place::Look(turn) = task_at(state, number).part.place else {
        unreachable!()
    };
    if look(wiring, state, number, turn) {
        Heard::Ready
    } else {
        Heard::NotYet
    }
}

fn make_take(plan: &Plan, wiring: &Wiring, state: &mut State, number: u32, read: u32) -> Heard
    requires task { number < length wiring.now.tasks }
    requires shape { IsShape plan.now (with_releases plan.now wiring.now) state.old }
    requires allowed { rule.refusal (with_releases plan.now wiring.now) state.old (Step.Take number read) ≡ None }
    ensures { IsStep plan.now (with_releases plan.now wiring.now) state.old (Step.Take number read) (Ok result) state.new }
{
    let Place::Take(turn) = task_at(state, number).part.place else {
        unreachable!()
    };
    let word = read_value(wiring, state, number, turn);
    take(plan, wiring, state, number, turn, read, word);
    Heard::Word(word)
}

fn make_shut(plan: &Plan, wiring: &Wiring, state: &mut State, number: u32) -> Heard
    requires task { number < length wiring.now.tasks }
    requires shape { IsShape plan.now (with_releases plan.now wiring.now) state.old }
    requires allowed { rule.refusal (with_releases plan.now wiring.now) state.old (Step.Shut number) ≡ None }
    ensures { IsStep plan.now (with_releases plan.now wiring.now) state.old (Step.Shut number) (Ok result) state.new }
{
    shut(plan, wiring, state, number);
    Heard::Stored
}

fn make_put(plan: &Plan, wiring: &Wiring, state: &mut State, number: u32, port: u32) -> Heard
    requires task { number < length wiring.now.tasks }
    requires shape { IsShape plan.now (with_releases plan.now wiring.now) state.old }
    requires allowed { rule.refusal (with_releases plan.now wiring.now) state.old (Step.Put number port) ≡ None }
    ensures { IsStep plan.now (with_releases plan.now wiring.now) state.old (Step.Put number port) (Ok result) state.new }
{
    put(wiring, state, number, port);
    Heard::Stored
}

fn make_done(plan: &Plan, wiring: &Wiring, state: &mut State, number: u32) -> Heard
    requires task { number < length wiring.now.tasks }
    requires shape { IsShape plan.now (with_releases plan.now wiring.now) state.old }
    requires allowed { rule.refusal (with_releases plan.now wiring.now) state.old (Step.Done number) ≡ None }
    ensures { IsStep plan.now (with_releases plan.now wiring.now) state.old (Step.Done number) (Ok result) state.new }
{
    finish(state, number);
    Heard::Stored
}

fn make_end(plan: &Plan, wiring: &Wiring, state: &mut State, number: u32) -> Heard
    requires task { number < length wiring.now.tasks }
    requires shape { IsShape plan.now (with_releases plan.now wiring.now) state.old }
    requires allowed { rule.refusal (with_releases plan.now wiring.now) state.old (Step.End number) ≡ None }
    ensures { IsStep plan.now (with_releases plan.now wiring.now) state.old (Step.End number) (Ok result) state.new }
{
    end(state, number);
    Heard::Stored
}

// A step that is allowed: what is heard, and the next state.
#[inline(always)]
pub(crate) fn make(plan: &Plan, wiring: &Wiring, state: &mut State, step: Step) -> Heard
    requires named { IsNamed plan.now.diagram step }
    requires shape { IsShape plan.now (with_releases plan.now wiring.now) state.old }
    requires allowed { rule.refusal (with_releases plan.now wiring.now) state.old step ≡ None }
    ensures { IsStep plan.now (with_releases plan.now wiring.now) state.old step (Ok result) state.new }
{
    match step {
        Step::Seen { task } => Heard::Ended(see(state, task)),
        Step::Aim { task, slot } => make_aim(plan, wiring, state, task, slot),
        Step::Claim { link } => make_claim(plan, wiring, state, link),
        Step::OpenGate { task } => make_open(plan, wiring, state, task),
        Step::Start { task } => make_start(plan, wiring, state, task),
        Step::Hear { task } => make_hear(plan, wiring, state, task),
        Step::Look { task, read } => make_look(plan, wiring, state, task, read),
        Step::Take { task, read } => make_take(plan, wiring, state, task, read),
        Step::Shut { task } => make_shut(plan, wiring, state, task),
        Step::Put { task, port } => make_put(plan, wiring, state, task, port),
        Step::Done { task } => make_done(plan, wiring, state, task),
        Step::End { task } => make_end(plan, wiring, state, task),
    }
}
