// What is looked up of a seat's task.

ghost use Rattle.std.specs.Prelude.{◌≡◌, ◌<◌, length};
ghost use Rattle.dbp_plan.specs.Lookups.{declared_task};
ghost use Rattle.dbp_rules.specs.Lookups.{read_at, wired_task};
ghost use Rattle.word_rule.specs.Seats.{TaskSits};

use dbp_plan::Task;
use dbp_rules::TaskWiring;
use word_rule::{SlotWords, TaskSeat};

// Its declaration.
pub(crate) fn declared_of<'a>(words: &'a SlotWords, seat: &TaskSeat) -> &'a Task
    requires { TaskSits words.now seat.now }
    ensures { result.now ≡ declared_task words.now.plan seat.now.task }
{
    &words.plan().diagram.tasks.items()[seat.task() as usize]
}

/// What the steps look up of the seat's task.
pub fn wired_of<'a>(words: &'a SlotWords, seat: &TaskSeat) -> &'a TaskWiring
    requires { TaskSits words.now seat.now }
    ensures { result.now ≡ wired_task words.now.wiring seat.now.task }
{
    words.wiring().task(seat.task())
}

// The number of the read whose turn this is.
pub(crate) fn read_number(wired: &TaskWiring, turn: u32) -> u32
    requires { turn < length wired.now.reads }
    ensures { result ≡ (read_at wired.now turn).read }
{
    wired.reads.items()[turn as usize].read
}
