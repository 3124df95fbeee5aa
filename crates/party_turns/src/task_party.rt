// The party of a task.

ghost use Rattle.std.specs.Prelude.{◌≡◌};
ghost use Rattle.party_turns.specs.Computed.{HasComputed, plan_of_task};

use dbp_plan::TaskRows;
use dbp_rules::Work;
use word_rule::TaskSeat;

/// The party of a task: its seat, what it computes with, and its rows. There is room for all rows from the start. By its
/// type it has computed what the meaning of the plan computes, as far as its seat's place says.
pub struct TaskParty {
    pub(crate) seat: TaskSeat,
    pub(crate) work: Work,
    pub(crate) rows: TaskRows,
    // how many turns a crew has counted of it, for the pace
    pub(crate) turns: u64,
    ghost computed: { HasComputed (plan_of_task seat) seat.task seat.part work rows },
}

// By hand, as the prover then takes one step where it is dropped, and not one for each part.
impl Drop for TaskParty {
    fn drop(self) {
        let TaskParty {
            seat: _,
            work: _,
            rows: _,
            turns: _,
        } = self;
    }
}

impl TaskParty {
    /// The seat of the party.
    pub fn seat(&self) -> &TaskSeat
        ensures { result.now ≡ self.now.seat }
    {
        &self.seat
    }
}
