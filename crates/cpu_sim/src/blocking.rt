// Which instances are blocked. A direct read that is due waits as long as its writer has ended fewer instances than the
// number that is claimed over its link, so the core is asked, and no other list of numbers is kept.

ghost use Rattle.std.specs.Prelude.{◌≡◌, ◌<◌, length, slice_index};
ghost use Rattle.dbp_plan.specs.Lookups.{link_at};
ghost use Rattle.cpu_sim.specs.Choices.{StandTogether, is_blocked_in, last_of, link_blocks};
ghost use Rattle.cpu_sim.specs.Processors.{served_on};
ghost use Rattle.cpu_sim.specs.Services.{services};

use dbp_core::Stepper;
use dbp_plan::Plan;
use virtual_time::Run;

// Whether a read over the link that is due now waits for its writer.
fn waits_for_writer(plan: &Plan, core: &Stepper, run: &Run, link: u32) -> bool
    requires together { StandTogether plan.now core.now run.now }
    requires link { link < length plan.now.diagram.links }
    requires some { 0 < slice_index run.now.rest.items (link_at plan.now.diagram.links link).reader }
    ensures { result ≡ link_blocks plan.now (served_on plan.now (services plan.now) run.now.time)
        (last_of plan.now run.now.released (link_at plan.now.diagram.links link).reader)
        (link_at plan.now.diagram.links link) }
{
    let wired = plan.diagram.links.items()[link as usize];
    let ended = run.ends.items()[wired.writer as usize].len();
    wired.delay == 0 && core.claimed_number(link) > ended
}

// Whether the task's last released instance, which hasn't ended, is blocked.
pub(crate) fn is_blocked(plan: &Plan, core: &Stepper, run: &Run, task: u32) -> bool
    requires together { StandTogether plan.now core.now run.now }
    requires task { task < length plan.now.diagram.tasks }
    requires some { 0 < slice_index run.now.rest.items task }
    ensures { result ≡ is_blocked_in plan.now run.now task }
{
    let body = &plan.diagram.tasks.items()[task as usize];
    let served = body.cost - run.rest[task as usize];
    for read in body.reads.items() {
        if read.at == served && waits_for_writer(plan, core, run, read.link) {
            return true;
        }
    }
    false
}
