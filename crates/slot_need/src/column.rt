// The columns of a scenario's trace.

ghost use Rattle.std.specs.Prelude.{◌≡◌, ◌<◌, All, length};
ghost use Rattle.dbp_plan.specs.Ranked.{IsRanked};
ghost use Rattle.slot_need.specs.Scenarios.{fires_at, is_ever, scenario_columns};

use crate::firings::{firing_of_event, lower_readers};
use arrayvec::ArrayVec;
use dbp_plan::{Diagram, MAX_EVENTS};

// Columns of the trace, at most.
pub(crate) const MAX_COLUMNS: usize = MAX_EVENTS as usize;

const _: () = prove!(MAX_COLUMNS == 16);

// At which firings of the scenario's task another task fires, and its event occurs.
#[derive(Clone, Copy, Debug, Default, PartialEq, Eq)]
pub(crate) enum Firing {
    #[default]
    Never,
    // At each, as the scenario's task itself.
    Each,
    // At the firing with this number, from 0.
    Once { at: u32 },
}

// An event, and when it occurs.
#[derive(Clone, Copy, Default)]
pub(crate) struct Column {
    // Its number.
    pub(crate) event: u32,
    pub(crate) firing: Firing,
}

impl Firing {
    // Whether it is at some firing.
    fn is_ever(self) -> bool
        ensures { result ≡ is_ever self }
    {
        !matches!(self, Firing::Never)
    }

    // Whether it is at the firing with this number, from 0.
    pub(crate) fn is_at(self, firing: u32) -> bool
        ensures { result ≡ fires_at self firing }
    {
        match self {
            Firing::Never => false,
            Firing::Each => true,
            Firing::Once { at } => firing == at,
        }
    }
}

// The events that occur in the scenario of the task, in the order in which they are declared.
pub(crate) fn scenario_columns(diagram: &Diagram, task: u32) -> ArrayVec<Column, MAX_COLUMNS>
    requires ranked { IsRanked diagram.now }
    requires task { task < length diagram.now.tasks }
    ensures columns { result.items ≡ scenario_columns diagram.now task }
    ensures named { All (λ c. c.event < length diagram.now.events) result.items }
{
    let readers = lower_readers(diagram, task);
    let mut columns = ArrayVec::new();
    for event in 0..diagram.events.len() {
        let firing = firing_of_event(diagram, task, readers.as_slice(), event);
        if firing.is_ever() {
            columns.push(Column { event, firing });
        }
    }
    columns
}
