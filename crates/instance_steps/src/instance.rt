// The pieces of an instance: its begin, its reads, its end.

ghost use Rattle.std.specs.Prelude.{◌≡◌, ◌+◌, ◌*◌, ◌<◌, ◌^◌, OnOk, length};

use crate::recorder::Recorder;
use dbp_core::Step;
use dbp_plan::{NoMemory, Task};
use sync_meaning::push_row;

impl Recorder {
    ghost use Rattle.std.specs.Prelude.{replicate, slice_index_or};
    ghost use Rattle.dbp_plan.specs.Lookups.{declared_task, no_read};
    ghost use Rattle.dbp_rules.specs.Moves.{read_place};
    ghost use Rattle.dbp_rules.specs.Promises.{IsClaimFilled};
    ghost use Rattle.dbp_rules.specs.declared.step.Count.TheVariants.{All};
    ghost use Rattle.dbp_rules.specs.declared.parts.Place.TheVariants as place;
    ghost use Rattle.dbp_rules.specs.declared.step.Step.TheVariants.{Hear as HearOf};
    ghost use Rattle.instance_steps.specs.EndedRows.{HasEndedRows};
    ghost use Rattle.instance_steps.specs.Events.{begin_events, end_events, look_events, put_events};
    ghost use Rattle.instance_steps.specs.Events.{read_events, step_of};
    ghost use Rattle.instance_steps.specs.Recorders.{declared_in, gate_in, into_in, part_in, plan_in};
    ghost use Rattle.instance_steps.specs.Recorders.{state_in, steps_in, table_in, wiring_in};
    ghost use Rattle.instance_steps.specs.TaskPieces.{AddsPiece, HasRowsToRead, MayStep, place_after};
    ghost use Rattle.instance_steps.specs.TaskPieces.{turn_in};

    /// The begin of the task's next instance: it starts, and hears its orders. The task is idle, and its gate is open for
    /// this instance.
    pub fn begin_instance(&mut self, task: u32) -> Result<(), NoMemory>
        requires task { task < length (plan_in self.old).diagram.tasks }
        requires free { MayStep (wiring_in self.old) (state_in self.old) task }
        requires idle { (part_in self.old task).place ≡ place.Idle }
        requires gate { gate_in self.old task ≡ (part_in self.old task).ended + 1 }
        requires room { length (steps_in self.old) + length (into_in self.old task) + 2 < 2 ^ 32 }
        ensures piece { OnOk result (AddsPiece self.old self.new
            (begin_events (plan_in self.old) task) task (part_in self.old task).ended (place_after (plan_in self.old) task 0)) }
        ensures table { OnOk result (table_in self.new ≡ table_in self.old) }
    {
        self.make(Step::Start { task })?;
        self.hear_orders(task)
    }

    // The running instance hears its own order, and that of each link into its task.
    fn hear_orders(&mut self, task: u32) -> Result<(), NoMemory>
        requires task { task < length (plan_in self.old).diagram.tasks }
        requires free { MayStep (wiring_in self.old) (state_in self.old) task }
        requires place { (part_in self.old task).place ≡ place.Hear 0 }
        requires room { length (steps_in self.old) + length (into_in self.old task) + 1 < 2 ^ 32 }
        ensures piece { OnOk result (AddsPiece self.old self.new
            (replicate (1 + length (into_in self.old task)) (step_of (HearOf task))) task
            (part_in self.old task).ended (place_after (plan_in self.old) task 0)) }
        ensures table { OnOk result (table_in self.new ≡ table_in self.old) }
    {
        for _ in 0..self.core.task_wiring(task).links.len() + 1 {
            self.make(Step::Hear { task })?;
        }
        Ok(())
    }

    /// The reads of the task's running instance whose `at` is the number of ticks that it was served before, in order of
    /// declaration. It has made those of earlier ticks, and no others. Under `All` the writer has filled each row that is
    /// read; under `Ranked` this is so by itself.
    pub fn make_reads(&mut self, task: u32, served: u64) -> Result<(), NoMemory>
        requires task { task < length (plan_in self.old).diagram.tasks }
        requires free { MayStep (wiring_in self.old) (state_in self.old) task }
        requires place { (part_in self.old task).place
            ≡ place_after (plan_in self.old) task served }
        requires rows { HasRowsToRead (plan_in self.old) (wiring_in self.old) (state_in self.old)
            task served }
        requires room { length (steps_in self.old)
            + 2 * length (declared_in self.old task).reads < 2 ^ 32 }
        ensures piece { OnOk result (AddsPiece self.old self.new
            (read_events (plan_in self.old) task served) task (part_in self.old task).ended
            (place_after (plan_in self.old) task (served + 1))) }
        ensures table { OnOk result (table_in self.new ≡ table_in self.old) }
    {
        for read in 0..self.declared(task).reads.len() {
            if self.declared(task).reads.items()[read as usize].at == served {
                self.make_read(task, read)?;
            }
        }
        Ok(())
    }

    // One read: it looks, and takes.
    fn make_read(&mut self, task: u32, read: u32) -> Result<(), NoMemory>
        requires task { task < length (plan_in self.old).diagram.tasks }
        requires read { read < length (declared_in self.old task).reads }
        requires free { MayStep (wiring_in self.old) (state_in self.old) task }
        requires place { (part_in self.old task).place
            ≡ place.Look (turn_in (plan_in self.old) task read) }
        requires row { (wiring_in self.old).count ≡ All
            → IsClaimFilled (wiring_in self.old) (state_in self.old)
            (slice_index_or (declared_in self.old task).reads read no_read).link }
        requires room { length (steps_in self.old) + 2 < 2 ^ 32 }
        ensures piece { OnOk result (AddsPiece self.old self.new (look_events task read) task
            (part_in self.old task).ended
            (read_place (length (declared_in self.old task).reads)
            (turn_in (plan_in self.old) task read + 1))) }
        ensures table { OnOk result (table_in self.new ≡ table_in self.old) }
    {
        self.make(Step::Look { task, read })?;
        self.make(Step::Take { task, read })
    }

    /// The end of the task's running instance, which has made its reads: it shuts its slot, puts its outs, stamps the slot
    /// and ends. The table gains the row of the instance.
    pub fn end_instance(&mut self, task: u32) -> Result<(), NoMemory>
        requires task { task < length (plan_in self.old).diagram.tasks }
        requires free { MayStep (wiring_in self.old) (state_in self.old) task }
        requires place { (part_in self.old task).place ≡ place.Shut }
        requires rows { HasEndedRows (plan_in self.old) (state_in self.old) (table_in self.old) }
        requires room { length (steps_in self.old)
            + length (declared_in self.old task).outs + 3 < 2 ^ 32 }
        ensures piece { OnOk result (AddsPiece self.old self.new
            (end_events (plan_in self.old) task) task ((part_in self.old task).ended + 1) place.Idle) }
        ensures rows { OnOk result
            (HasEndedRows (plan_in self.new) (state_in self.new) (table_in self.new)) }
    {
        self.make_end(task)?;
        let rows = &mut self.table.tasks.items_mut()[task as usize];
        push_row(rows, self.core.row(task))
    }

    // The steps of the end.
    fn make_end(&mut self, task: u32) -> Result<(), NoMemory>
        requires task { task < length (plan_in self.old).diagram.tasks }
        requires free { MayStep (wiring_in self.old) (state_in self.old) task }
        requires place { (part_in self.old task).place ≡ place.Shut }
        requires room { length (steps_in self.old)
            + length (declared_in self.old task).outs + 3 < 2 ^ 32 }
        ensures piece { OnOk result (AddsPiece self.old self.new
            (end_events (plan_in self.old) task) task ((part_in self.old task).ended + 1) place.Idle) }
        ensures table { OnOk result (table_in self.new ≡ table_in self.old) }
    {
        self.make(Step::Shut { task })?;
        self.put_outs(task)?;
        self.make(Step::Done { task })?;
        self.make(Step::End { task })
    }

    // The puts of the end.
    fn put_outs(&mut self, task: u32) -> Result<(), NoMemory>
        requires task { task < length (plan_in self.old).diagram.tasks }
        requires free { MayStep (wiring_in self.old) (state_in self.old) task }
        requires place { (part_in self.old task).place ≡ place.Put 0 }
        requires room { length (steps_in self.old)
            + length (declared_in self.old task).outs < 2 ^ 32 }
        ensures piece { OnOk result (AddsPiece self.old self.new
            (put_events task (length (declared_in self.old task).outs)) task
            (part_in self.old task).ended place.Done) }
        ensures table { OnOk result (table_in self.new ≡ table_in self.old) }
    {
        for port in 0..self.declared(task).outs.len() {
            self.make(Step::Put { task, port })?;
        }
        Ok(())
    }

    // The task of the diagram.
    fn declared(&self, task: u32) -> &Task
        requires { task < length (plan_in self.now).diagram.tasks }
        ensures { result.now ≡ declared_task (plan_in self.now) task }
    {
        &self.core.plan().diagram.tasks.items()[task as usize]
    }
}
