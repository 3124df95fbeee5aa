// A plan that a simulation shares with its caller.

ghost use Rattle.std.specs.Prelude.{◌≡◌, IfOk};

use dbp_plan::{NoMemory, Plan};
use std::alloc::Global;
use std::rc::Rc;

/// A copy of the plan that can be shared.
pub fn shared_copy(alloc: Global, plan: &Plan) -> Result<Rc<Plan>, NoMemory>
    ensures { IfOk result (λ shared. shared.value ≡ plan.now) }
{
    Ok(Rc::new(alloc, plan.copy()?)?)
}
