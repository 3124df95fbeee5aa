// The first fault of a line of a declaration, a task or a body.

ghost use Rattle.std.specs.Prelude.{◌≡◌, ◌<◌, ◌↔◌, IsTrue, length, map, take, slice_index};
ghost use Rattle.std.specs.List.{flat_map, find, list_any};
ghost use Rattle.std.specs.Option.{option_copied};
ghost use Rattle.dia_check.specs.Faults.{is_repeated, is_unbound, has_unbound, is_unknown, is_self_link, is_past_cost, is_unknown_clock, is_unknown_when, decl_fault, task_fault, part_fault};
ghost use Rattle.dia_check.specs.Names.{input_name, event_name, decl_name, task_names, state_name, out_name, env_names, port_names, next_name, declared_name};
ghost use Rattle.dbp_plan.specs.NameLists.{is_among};
ghost use Rattle.dia_check.specs.Tests.{is_input, is_event, is_decl, is_task, is_state, is_out, is_next, binds, is_declared};

use crate::fail::LineFault;
use crate::ports::{port_index, task_index};
use dbp_plan::{Expr, Name, Node};
use dia_lines::{Decl, Part, RawClock};
use dia_read::{Body, RawTask};

// Whether the part is a state, a sense, a read or a let of the name.
fn binds(name: &Name, part: &Part) -> bool
    ensures { result ≡ binds name.now part.now }
{
    match part {
        Part::State(other, _) | Part::Sense(other, _) | Part::Let(other, _) => { other == name }
        Part::Read { name: other, .. } => other == name,
        Part::Next(_, _) | Part::Out(_, _, _) => false,
    }
}

// Whether the part declares the name.
fn is_declared(name: &Name, part: &Part) -> bool
    ensures { result ≡ is_declared name.now part.now }
{
    binds(name, part) || matches!(part, Part::Out(other, _, _) if other == name)
}

// Whether an input has the name.
fn has_input(decls: &[Decl], name: &Name) -> bool
    ensures { result ≡ list_any (is_input name.now) decls.now }
{
    decls.iter().any(|decl| matches!(decl, Decl::Input(other, _) if other == name))
}

fn has_event(decls: &[Decl], name: &Name) -> bool
    ensures { result ≡ list_any (is_event name.now) decls.now }
{
    decls
        .iter()
        .any(|decl| matches!(decl, Decl::Event(other) if other == name))
}

fn has_state(parts: &[Part], name: &Name) -> bool
    ensures { result ≡ list_any (is_state name.now) parts.now }
{
    parts.iter().any(|part| matches!(part, Part::State(other, _) if other == name))
}

fn has_next(parts: &[Part], name: &Name) -> bool
    ensures { result ≡ list_any (is_next name.now) parts.now }
{
    parts.iter().any(|part| matches!(part, Part::Next(other, _) if other == name))
}

fn is_bound(parts: &[Part], name: &Name) -> bool
    ensures { result ≡ list_any (binds name.now) parts.now }
{
    parts.iter().any(|part| binds(name, part))
}

fn has_declared(parts: &[Part], name: &Name) -> bool
    ensures { result ≡ list_any (is_declared name.now) parts.now }
{
    parts.iter().any(|part| is_declared(name, part))
}

// Whether a line before declares the part's name too, or gives the same state a next value.
#[tactic(auto, using(crate::proofs::NameTests::among_nexts, crate::proofs::NameTests::among_declared))]
fn is_repeated(before: &[Part], part: &Part) -> bool
    ensures { result ≡ is_repeated before.now part.now }
{
    match part {
        Part::State(name, _) => has_declared(before, name),
        Part::Sense(name, _) => has_declared(before, name),
        Part::Read { name, .. } => has_declared(before, name),
        Part::Let(name, _) => has_declared(before, name),
        Part::Next(name, _) => has_next(before, name),
        Part::Out(name, _, _) => has_declared(before, name),
    }
}

// Whether the node is a name of nothing in the task's environment.
#[tactic(auto, using(crate::proofs::NameTests::among_env))]
fn is_unbound(parts: &[Part], node: &Node<Name>) -> bool
    ensures { result ≡ is_unbound (env_names parts.now) node.now }
{
    match node {
        Node::Var(name) => !is_bound(parts, name),
        _ => false,
    }
}

fn has_unbound(parts: &[Part], expr: &Expr<Name>) -> bool
    ensures { result ≡ has_unbound (env_names parts.now) expr.now }
{
    expr.nodes
        .items()
        .iter()
        .any(|node| is_unbound(parts, node))
}

// Whether the part uses a name that nothing has.
#[tactic(auto, using(crate::proofs::NameTests::among_inputs, crate::proofs::NameTests::among_states))]
fn is_unknown(body: &Body, task: &RawTask, part: &Part) -> bool
    ensures { result ≡ is_unknown body.now task.now part.now }
{
    match part {
        Part::State(_, _) => false,
        Part::Sense(_, input) => !has_input(body.decls.items(), input),
        Part::Read { task, port, .. } => port_index(&body.tasks, task, port).is_none(),
        Part::Let(_, expr) | Part::Out(_, _, expr) => has_unbound(task.parts.items(), expr),
        Part::Next(state, expr) => {
            !has_state(task.parts.items(), state) || has_unbound(task.parts.items(), expr)
        }
    }
}

fn is_self_link(task: &RawTask, part: &Part) -> bool
    ensures { result ≡ is_self_link task.now part.now }
{
    matches!(part, Part::Read { task: writer, .. } if task.name == *writer)
}

fn is_past_cost(task: &RawTask, part: &Part) -> bool
    ensures { result ≡ is_past_cost task.now part.now }
{
    matches!(part, Part::Read { at, .. } if task.cost <= *at)
}

// The first fault of a line of the task's body, after those before it.
pub(crate) fn part_fault(
    body: &Body,
    task: &RawTask,
    before: &[Part],
    part: &Part,
) -> Option<LineFault>
    ensures { result ≡ part_fault body.now task.now before.now part.now }
{
    if is_repeated(before, part) {
        return Some(LineFault::Duplicate);
    }
    if is_unknown(body, task, part) {
        return Some(LineFault::Unknown);
    }
    if is_self_link(task, part) {
        return Some(LineFault::SelfLink);
    }
    if is_past_cost(task, part) {
        return Some(LineFault::ReadPastCost);
    }
    None
}

fn decl_name(decl: &Decl) -> &Name
    ensures { result.now ≡ decl_name decl.now }
{
    match decl {
        Decl::Input(name, _) => name,
        Decl::Event(name) => name,
    }
}

// Whether an input or an event has the name.
fn has_decl(decls: &[Decl], name: &Name) -> bool
    ensures { result ≡ list_any (is_decl name.now) decls.now }
{
    decls.iter().any(|decl| decl_name(decl) == name)
}

// Whether a task has the name.
#[tactic(auto, using(crate::proofs::PortLaws::some_index))]
fn has_task(tasks: &[RawTask], name: &Name) -> bool
    ensures { result ≡ list_any (is_task name.now) tasks.now }
{
    task_index(tasks, name).is_some()
}

// The fault of a declaration after those before it.
#[tactic(auto, using(crate::proofs::NameTests::among_decls))]
pub(crate) fn decl_fault(before: &[Decl], decl: &Decl) -> Option<LineFault>
    ensures { result ≡ decl_fault before.now decl.now }
{
    if has_decl(before, decl_name(decl)) {
        return Some(LineFault::Duplicate);
    }
    None
}

#[tactic(auto, using(crate::proofs::NameTests::among_events))]
fn is_unknown_clock(decls: &[Decl], clock: RawClock) -> bool
    ensures { result ≡ is_unknown_clock decls.now clock }
{
    match clock {
        RawClock::Every { .. } => false,
        RawClock::On(event) => !has_event(decls, &event),
    }
}

// Whether a `when` names no input.
#[tactic(auto, using(crate::proofs::NameTests::among_inputs))]
fn is_unknown_when(decls: &[Decl], when: Option<Name>) -> bool
    ensures { result ≡ is_unknown_when decls.now when }
{
    match when {
        Some(input) => !has_input(decls, &input),
        None => false,
    }
}

// The first fault of the line that begins a task, after the tasks before it.
#[tactic(auto, using(crate::proofs::NameTests::among_both))]
pub(crate) fn task_fault(body: &Body, before: &[RawTask], task: &RawTask) -> Option<LineFault>
    ensures { result ≡ task_fault body.now before.now task.now }
{
    if has_decl(body.decls.items(), &task.name) || has_task(before, &task.name) {
        return Some(LineFault::Duplicate);
    }
    let decls = body.decls.items();
    if is_unknown_clock(decls, task.clock) || is_unknown_when(decls, task.when) {
        return Some(LineFault::Unknown);
    }
    None
}
