// Lists of names, and places in them.

ghost use Rattle.std.specs.Prelude.{◌≡◌, ◌+◌, ◌<◌, ◌≤◌, ◌^◌, ◌++◌, length, IfOk, OnOk};
ghost use Rattle.std.specs.List.{flat_map};
ghost use Rattle.std.specs.Option.{option_to_list};
ghost use Rattle.dia_check.specs.Kinds.{named};
ghost use Rattle.dia_check.specs.Names.{input_name, event_name, state_name, env_names};
ghost use Rattle.dbp_plan.specs.declared.limits.TheConstants.{MAX_BODY};
ghost use Rattle.dbp_plan.specs.NameLists.{index_of};

use dbp_plan::{List, Name, NoMemory};
use dia_lines::{Decl, Part};
use std::alloc::Global;

// The kinds of names of a task.
#[derive(Clone, Copy)]
pub(crate) enum Kind {
    State,
    Sense,
    Read,
    Let,
}

// The place of the name, the first of them; after all if it isn't among them.
pub(crate) fn index_of(names: &[Name], name: &Name) -> u32
    requires { length names.now < 2 ^ 32 }
    ensures { result ≡ index_of names.now name.now }
{
    names.iter().take_while(|other| *other != name).count() as u32
}

pub(crate) fn input_names(alloc: Global, decls: &[Decl]) -> Result<List<Name>, NoMemory>
    requires { length decls.now < 2 ^ 32 }
    ensures { IfOk result (λ names. names ≡ flat_map input_name decls.now) }
{
    let mut names = List::new(alloc);
    for decl in decls {
        if let Decl::Input(name, _) = decl {
            names.push(*name)?;
        }
    }
    Ok(names)
}

pub(crate) fn event_names(alloc: Global, decls: &[Decl]) -> Result<List<Name>, NoMemory>
    requires { length decls.now < 2 ^ 32 }
    ensures { IfOk result (λ names. names ≡ flat_map event_name decls.now) }
{
    let mut names = List::new(alloc);
    for decl in decls {
        if let Decl::Event(name) = decl {
            names.push(*name)?;
        }
    }
    Ok(names)
}

// The name that the part declares, if it is of the kind.
fn named(kind: Kind, part: &Part) -> Option<Name>
    ensures { option_to_list result ≡ named kind part.now }
{
    match (kind, part) {
        (Kind::State, Part::State(name, _)) => Some(*name),
        (Kind::Sense, Part::Sense(name, _)) => Some(*name),
        (Kind::Read, Part::Read { name, .. }) => Some(*name),
        (Kind::Let, Part::Let(name, _)) => Some(*name),
        _ => None,
    }
}

// Adds the names of the kind.
fn push_named(names: &mut List<Name>, kind: Kind, parts: &[Part]) -> Result<(), NoMemory>
    requires { length names.old + length parts.now < 2 ^ 32 }
    ensures added { OnOk result (names.new ≡ names.old ++ flat_map (named kind) parts.now) }
    ensures few { OnOk result (length names.new ≤ length names.old + length parts.now) }
{
    for part in parts {
        if let Some(name) = named(kind, part) {
            names.push(name)?;
        }
    }
    Ok(())
}

pub(crate) fn state_names(alloc: Global, parts: &[Part]) -> Result<List<Name>, NoMemory>
    requires { length parts.now ≤ MAX_BODY }
    ensures { IfOk result (λ names. names ≡ flat_map state_name parts.now) }
{
    let mut names = List::new(alloc);
    push_named(&mut names, Kind::State, parts)?;
    Ok(names)
}

// The names of the task's environment.
pub(crate) fn env_names(alloc: Global, parts: &[Part]) -> Result<List<Name>, NoMemory>
    requires { length parts.now ≤ MAX_BODY }
    ensures { IfOk result (λ names. names ≡ env_names parts.now) }
{
    let mut names = List::new(alloc);
    push_named(&mut names, Kind::State, parts)?;
    push_named(&mut names, Kind::Sense, parts)?;
    push_named(&mut names, Kind::Read, parts)?;
    push_named(&mut names, Kind::Let, parts)?;
    Ok(names)
}
