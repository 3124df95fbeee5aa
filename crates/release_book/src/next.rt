// The releaser's next step, by its part.

ghost use Rattle.std.specs.Prelude.{◌≡◌, ◌↔◌, IsTrue, length, slice_get, Some};
ghost use Rattle.dbp_plan.specs.declared.plan.Plan.{Plan as Run};
ghost use Rattle.dbp_rules.specs.PartyShapes.{ReleaserShape};
ghost use Rattle.dbp_rules.specs.Wired.{wiring_of};
ghost use Rattle.dbp_rules.specs.declared.step.Count.TheVariants.{All};
ghost use Rattle.release_book.specs.NextStep.{IsNextAtAim, IsNextStep, end_step, first_unended};
ghost use Rattle.release_book.specs.declared.release_step.ReleaseStep.TheVariants.{Finished};
ghost use Rattle.release_list.specs.declared.release.Release.TheVariants.{Aim as AimOf};

use crate::release_step::ReleaseStep;
use dbp_plan::Plan;
use dbp_rules::{ReleaserPart, Wiring};
use release_list::Release;

// The step at the part's place in the list of actions.
pub(crate) fn next_step(plan: &Plan, wiring: &Wiring, part: &ReleaserPart) -> ReleaseStep
    requires wired { wiring.now ≡ wiring_of plan.now All }
    requires shape { ReleaserShape plan.now wiring.now part.now }
    ensures { IsNextStep wiring.now part.now result }
{
    match wiring.releases.get(part.place).copied() {
        Some(Release::Aim { task }) => at_aim(plan, wiring, part, u32::from(task)),
        Some(Release::Claim { link }) => ReleaseStep::Claim {
            link: u32::from(link),
        },
        Some(Release::OpenGate { task }) => ReleaseStep::OpenGate {
            task: u32::from(task),
        },
        None => at_end(wiring, part),
    }
}

/// Whether the releaser has finished: its part is past the list of actions, and knows of each occurrence of each task that
/// it has ended. This looks for no slot.
pub fn has_finished(wiring: &Wiring, part: &ReleaserPart) -> bool
    requires { length part.now.tasks ≡ length wiring.now.tasks }
    ensures { (p : Run) → wiring.now ≡ wiring_of p All → ReleaserShape p wiring.now part.now
        → IsTrue result ↔ IsNextStep wiring.now part.now Finished }
{
    wiring.releases.get(part.place).is_none() && first_unended(wiring, part).is_none()
}

// The step at the task's aim.
fn at_aim(plan: &Plan, wiring: &Wiring, part: &ReleaserPart, task: u32) -> ReleaseStep
    requires wired { wiring.now ≡ wiring_of plan.now All }
    requires shape { ReleaserShape plan.now wiring.now part.now }
    requires next { slice_get wiring.now.releases part.now.place ≡ Some (AimOf task) }
    ensures { IsNextAtAim wiring.now part.now task result }
{
    let entry = part.entry(task);
    if entry.known < entry.aimed {
        return ReleaseStep::Seen { task };
    }
    let slot = part.least_aim(wiring, task);
    ReleaseStep::Aim { task, slot }
}

// The step after the last action.
fn at_end(wiring: &Wiring, part: &ReleaserPart) -> ReleaseStep
    requires { length part.now.tasks ≡ length wiring.now.tasks }
    ensures { result ≡ end_step (first_unended wiring.now part.now) }
{
    match first_unended(wiring, part) {
        Some(task) => ReleaseStep::Seen { task },
        None => ReleaseStep::Finished,
    }
}

// The first task of which fewer instances are known to have ended than it has occurrences.
fn first_unended(wiring: &Wiring, part: &ReleaserPart) -> Option<u32>
    requires { length part.now.tasks ≡ length wiring.now.tasks }
    ensures { result ≡ first_unended wiring.now part.now }
{
    for task in 0..wiring.tasks.len() {
        if part.entry(task).known < wiring.task(task).times.len() {
            return Some(task);
        }
    }
    None
}
