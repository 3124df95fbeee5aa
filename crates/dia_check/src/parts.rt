// The parts of a task, each from the lines of its body.

ghost use Rattle.std.specs.Prelude.{◌≡◌, ◌<◌, ◌≤◌, ◌^◌, length, IfOk};
ghost use Rattle.std.specs.List.{flat_map};
ghost use Rattle.std.specs.Option.{option_to_list};
ghost use Rattle.dbp_plan.specs.declared.limits.TheConstants.{MAX_BODY};
ghost use Rattle.dia_check.specs.Diagrams.{state_of, sense_of, let_of, next_of, out_of};
ghost use Rattle.dia_check.specs.Names.{input_name};

use crate::names::index_of;
use crate::placing::placed;
use dbp_plan::{Let, List, Name, Next, NoMemory, Out, Sense, State};
use dia_lines::Part;
use std::alloc::Global;

pub(crate) fn states_of(alloc: Global, parts: &[Part]) -> Result<List<State>, NoMemory>
    requires few { length parts.now ≤ MAX_BODY }
    ensures { IfOk result (λ states. states ≡ flat_map state_of parts.now) }
{
    let mut states = List::new(alloc);
    for part in parts {
        if let Part::State(name, first) = part {
            states.push(State {
                name: *name,
                first: *first,
            })?;
        }
    }
    Ok(states)
}

pub(crate) fn senses_of(
    alloc: Global,
    inputs: &[Name],
    parts: &[Part],
) -> Result<List<Sense>, NoMemory>
    requires few { length parts.now ≤ MAX_BODY }
    requires inputs { length inputs.now < 2 ^ 32 }
    ensures { IfOk result (λ senses. senses ≡ flat_map (sense_of inputs.now) parts.now) }
{
    let mut senses = List::new(alloc);
    for part in parts {
        if let Part::Sense(name, input) = part {
            senses.push(Sense {
                name: *name,
                input: index_of(inputs, input),
            })?;
        }
    }
    Ok(senses)
}

fn let_of(alloc: Global, names: &[Name], part: &Part) -> Result<Option<Let>, NoMemory>
    requires names { length names.now < 2 ^ 32 }
    ensures { IfOk result (λ made. option_to_list made ≡ let_of names.now part.now) }
{
    match part {
        Part::Let(name, expr) => Ok(Some(Let {
            name: *name,
            expr: placed(alloc, names, expr)?,
        })),
        _ => Ok(None),
    }
}

pub(crate) fn lets_of(alloc: Global, names: &[Name], parts: &[Part]) -> Result<List<Let>, NoMemory>
    requires few { length parts.now ≤ MAX_BODY }
    requires names { length names.now < 2 ^ 32 }
    ensures { IfOk result (λ lets. lets ≡ flat_map (let_of names.now) parts.now) }
{
    let mut lets = List::new(alloc);
    for part in parts {
        if let Some(made) = let_of(alloc, names, part)? {
            lets.push(made)?;
        }
    }
    Ok(lets)
}

fn next_of(
    alloc: Global,
    states: &[Name],
    names: &[Name],
    part: &Part,
) -> Result<Option<Next>, NoMemory>
    requires states { length states.now < 2 ^ 32 }
    requires names { length names.now < 2 ^ 32 }
    ensures { IfOk result (λ made. option_to_list made ≡ next_of states.now names.now part.now) }
{
    match part {
        Part::Next(state, expr) => Ok(Some(Next {
            state: index_of(states, state),
            expr: placed(alloc, names, expr)?,
        })),
        _ => Ok(None),
    }
}

pub(crate) fn nexts_of(
    alloc: Global,
    states: &[Name],
    names: &[Name],
    parts: &[Part],
) -> Result<List<Next>, NoMemory>
    requires few { length parts.now ≤ MAX_BODY }
    requires states { length states.now < 2 ^ 32 }
    requires names { length names.now < 2 ^ 32 }
    ensures { IfOk result (λ nexts. nexts ≡ flat_map (next_of states.now names.now) parts.now) }
{
    let mut nexts = List::new(alloc);
    for part in parts {
        if let Some(next) = next_of(alloc, states, names, part)? {
            nexts.push(next)?;
        }
    }
    Ok(nexts)
}

fn out_of(alloc: Global, names: &[Name], part: &Part) -> Result<Option<Out>, NoMemory>
    requires names { length names.now < 2 ^ 32 }
    ensures { IfOk result (λ made. option_to_list made ≡ out_of names.now part.now) }
{
    match part {
        Part::Out(name, first, expr) => Ok(Some(Out {
            name: *name,
            first: *first,
            expr: placed(alloc, names, expr)?,
        })),
        _ => Ok(None),
    }
}

pub(crate) fn outs_of(alloc: Global, names: &[Name], parts: &[Part]) -> Result<List<Out>, NoMemory>
    requires few { length parts.now ≤ MAX_BODY }
    requires names { length names.now < 2 ^ 32 }
    ensures { IfOk result (λ outs. outs ≡ flat_map (out_of names.now) parts.now) }
{
    let mut outs = List::new(alloc);
    for part in parts {
        if let Some(out) = out_of(alloc, names, part)? {
            outs.push(out)?;
        }
    }
    Ok(outs)
}
