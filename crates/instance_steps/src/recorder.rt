// A core that is taken through steps, with the record of them.

ghost use Rattle.std.specs.Prelude.{◌≡◌, ◌+◌, ◌<◌, ◌^◌, IfOk, OnOk, length};

use dbp_core::{Count, Step, Stepper};
use dbp_plan::{List, NoMemory, Plan, Table};
use std::alloc::Global;
use std::rc::Rc;
use sync_meaning::first_table;

/// Which of its steps a recorder keeps.
#[derive(Clone, Copy, Debug, PartialEq, Eq)]
pub enum Keeping {
    /// All of them, in the order in which they are made.
    Steps,
    /// None.
    Nothing,
}

impl Keeping {
    ghost use Rattle.instance_steps.specs.Recorders.{first_record};

    // What is kept before the first step.
    fn first_record(self, alloc: Global) -> Option<List<Step>>
        ensures { result ≡ first_record self }
    {
        match self {
            Keeping::Steps => Some(List::new(alloc)),
            Keeping::Nothing => None,
        }
    }
}

/// A core, the steps that it was taken through, if they are kept, and the rows of the instances that have ended.
///
/// Its calls make the pieces of a recorded list. Each says which events its steps play, from which state to which, and
/// what else it changes. If memory runs out in a call, the recorder is of no further use: its core may be one step ahead
/// of its steps.
pub struct Recorder {
    pub(crate) core: Stepper,
    pub(crate) steps: Option<List<Step>>,
    pub(crate) table: Table,
}

// By hand, as the prover then takes one step where it is dropped, and not one for each part.
impl Drop for Recorder {
    fn drop(self) {
        let Recorder {
            core: _,
            steps: _,
            table: _,
        } = self;
    }
}

impl Recorder {
    ghost use Rattle.dbp_rules.specs.Start.{start_of};
    ghost use Rattle.dbp_rules.specs.Wired.{wiring_of};
    ghost use Rattle.instance_steps.specs.EndedRows.{HasEndedRows};
    ghost use Rattle.instance_steps.specs.Plays.{Moves};
    ghost use Rattle.instance_steps.specs.Recorders.{AddsStep, count_in, first_record, plan_in};
    ghost use Rattle.instance_steps.specs.Recorders.{record_in, state_in, steps_in, table_in};
    ghost use Rattle.instance_steps.specs.Recorders.{wiring_in};

    /// The recorder before the first step.
    pub fn new(
        alloc: Global,
        plan: Rc<Plan>,
        count: Count,
        keeping: Keeping,
    ) -> Result<Recorder, NoMemory>
        ensures plan { IfOk result (λ r. plan_in r ≡ plan.value) }
        ensures count { IfOk result (λ r. count_in r ≡ count) }
        ensures wiring { IfOk result (λ r. wiring_in r ≡ wiring_of plan.value count) }
        ensures start { IfOk result (λ r.
            state_in r ≡ start_of plan.value (wiring_of plan.value count)) }
        ensures steps { IfOk result (λ r. record_in r ≡ first_record keeping) }
        ensures rows { IfOk result (λ r. HasEndedRows plan.value (state_in r) (table_in r)) }
    {
        let table = first_table(alloc, plan.diagram.tasks.items())?;
        let core = Stepper::new(alloc, plan, count)?;
        Ok(Recorder {
            core,
            steps: keeping.first_record(alloc),
            table,
        })
    }

    /// The core as the steps so far have left it.
    pub fn core(&self) -> &Stepper
        ensures { result.now ≡ self.now.core }
    {
        &self.core
    }

    /// The steps, if they were kept, and the rows.
    pub fn finish(self) -> (Option<List<Step>>, Table)
        ensures steps { result.0 ≡ record_in self }
        ensures table { result.1 ≡ table_in self }
    {
        let Recorder {
            core: _,
            steps,
            table,
        } = self;
        (steps, table)
    }

    // Makes the step, and keeps it if steps are kept.
    #[inline(always)]
    pub(crate) fn make(&mut self, step: Step) -> Result<(), NoMemory>
        requires moves { Moves (plan_in self.old) (wiring_in self.old) (state_in self.old) step }
        requires room { length (steps_in self.old) + 1 < 2 ^ 32 }
        ensures step { OnOk result (AddsStep self.old self.new step) }
        ensures table { OnOk result (table_in self.new ≡ table_in self.old) }
    {
        self.core.make(step);
        match &mut self.steps {
            Some(steps) => steps.push(step),
            None => Ok(()),
        }
    }
}
