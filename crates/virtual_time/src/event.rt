// The next event of an instance.

ghost use Rattle.std.specs.Prelude.{◌<◌};
ghost use Rattle.virtual_time.specs.Events.{IsNextEvent};

use dbp_plan::Task;

/// After how many ticks of its service the task's instance, which was served so many, makes its next reads or ends.
#[inline(always)]
pub fn ticks_to_event(task: &Task, served: u64) -> u64
    requires { served < task.now.cost }
    ensures { IsNextEvent task.now served result }
{
    let mut next = task.cost;
    for read in task.reads.items() {
        if served < read.at && read.at < next {
            next = read.at;
        }
    }
    next - served
}
