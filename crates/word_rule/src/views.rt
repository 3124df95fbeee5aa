// What each seat of the table knows, and the rule of the table.

use atomic_table::{Split, TableRule};
use dbp_plan::Plan;
use dbp_rules::{ReleaserPart, TaskPart};

/// The party whose seat it is, with its part of the protocol.
pub enum Role {
    /// The releaser, and how many seats of tasks were split off its seat.
    Releaser(ReleaserPart, u64),
    /// The task with this number.
    Task(u32, TaskPart),
}

/// What a seat knows, for contracts alone: no value of it is made. A step of the table sees no more than the views of
/// its seat, so each has the plan too.
pub struct View {
    /// The plan of the table.
    pub plan: Plan,
    /// The seat's party.
    pub role: Role,
    /// How many atomic steps the seat has made.
    pub steps: u64,
}

/// The rule of the table: its words and views show a sound state of the protocol.
pub struct SoundWords;

impl TableRule<(), View, Plan> for SoundWords {
    ghost use Rattle.word_rule.specs.Showing.{Keeps, first_view};

    ghost holds = { Keeps };

    ghost first = { first_view };
}

// The seat of the next task is split off the releaser's.
pub(crate) struct NextTask;

impl Split<View> for NextTask {
    ghost use Rattle.word_rule.specs.Showing.{view_of_next_task, with_seat_split};

    ghost left = { with_seat_split };

    ghost right = { view_of_next_task };
}
