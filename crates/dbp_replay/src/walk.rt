// Steps taken on the core of a plan, with what they hear.

ghost use Rattle.std.specs.Prelude.{◌≡◌, ◌<◌, ◌≤◌, ◌^◌, [], All, IfErr, IfOk, length, vec_capacity, vec_len, zip};
ghost use Rattle.dbp_core.specs.Cores.{count_in, plan_in, state_in};
ghost use Rattle.dbp_replay.specs.NamedItems.{IsThere};
ghost use Rattle.dbp_replay.specs.Replays.{AreTaken, IsIllegal, first};

use crate::fail::IllegalStep;
use dbp_core::{Core, Heard, Step};

// What the steps hear, taken in order by a core from its start on; else the first that isn't allowed after those before
// it. There is room for what all of them hear, so no memory is taken.
pub(crate) fn walk(
    core: &mut Core,
    steps: &[Step],
    room: Vec<Heard>,
) -> Result<Vec<Heard>, IllegalStep>
    requires there { All (IsThere (plan_in core.old).diagram) steps.now }
    requires few { length steps.now < 2 ^ 32 }
    requires start { state_in core.old ≡ first (plan_in core.old) (count_in core.old) }
    requires empty { room.items ≡ [] }
    requires none { vec_len room ≡ 0 }
    requires room { length steps.now ≤ vec_capacity room }
    ensures plan { plan_in core.new ≡ plan_in core.old }
    ensures taken { IfOk result
        (λ heard. AreTaken (plan_in core.old) (count_in core.old) steps.now
        (zip steps.now heard.items)) }
    ensures size { IfOk result (λ heard. length heard.items ≡ length steps.now) }
    ensures illegal { IfErr result
        (λ r. IsIllegal (plan_in core.old) (count_in core.old) steps.now r.step r.why) }
{
    let mut all_heard = room;
    for (place, step) in steps.iter().enumerate() {
        match core.step(*step) {
            Ok(heard) => all_heard.push(heard).unwrap(),
            Err(why) => {
                return Err(IllegalStep {
                    step: place as u32 + 1,
                    why,
                });
            }
        }
    }
    Ok(all_heard)
}
