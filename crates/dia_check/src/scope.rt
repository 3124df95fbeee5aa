// What the names of a document mean in all of its tasks.

ghost use Rattle.std.specs.Prelude.{IfOk};
ghost use Rattle.dia_check.specs.Scopes.{IsScopeOf};

use crate::names::{event_names, input_names};
use dbp_plan::{List, Name, NoMemory};
use dia_read::Body;
use std::alloc::Global;

// The names that a document declares, each kind by number.
#[derive(Drop)]
pub(crate) struct Scope {
    pub(crate) inputs: List<Name>,
    pub(crate) events: List<Name>,
}

pub(crate) fn scope_of(alloc: Global, body: &Body) -> Result<Scope, NoMemory>
    ensures { IfOk result (λ scope. IsScopeOf body.now scope) }
{
    Ok(Scope {
        inputs: input_names(alloc, body.decls.items())?,
        events: event_names(alloc, body.decls.items())?,
    })
}
