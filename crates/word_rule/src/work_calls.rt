// The steps of a task at its instance: each is one atomic load or store of one word.

ghost use Rattle.std.specs.Prelude.{◌≡◌, ℕ, ◌+◌, ◌<◌, MatchBool, None, length, pos, slice_index_or};
ghost use Rattle.dbp_plan.specs.Lookups.{declared_task, no_read};
ghost use Rattle.sync_meaning.specs.SomeMeaning.{meaning_of};
ghost use Rattle.dbp_rules.specs.PartyRules.{a_number, a_value, is_stamp_of, no_word, read_order_in, task_after, task_refusal, turn_at};
ghost use Rattle.dbp_rules.specs.Lookups.{link, read_at, wired_task};
ghost use Rattle.dbp_rules.specs.Promises.{IsMeant};
ghost use Rattle.dbp_rules.specs.declared.step.Step.TheVariants as step;
ghost use Rattle.word_rule.specs.Roles.{meaning_row};
ghost use Rattle.word_rule.specs.Seats.{TaskSits, TaskSteps};
ghost use Rattle.word_rule.specs.declared.seats.Look.TheVariants.{NotYet, Ready};

use crate::plays::{DonePlay, EndPlay, LookPlay, PutPlay, ShutPlay, TakePlay};
use crate::seats::{Look, SlotWords, TaskSeat};
use dbp_rules::{Place, ReadWiring, TaskWiring, value_from_word, value_to_word};

// The read of the turn at the place.
fn read_in_turn(wired: &TaskWiring, place: Place) -> ReadWiring
    requires { turn_at place < length wired.now.reads }
    ensures { result ≡ read_at wired.now (turn_at place) }
{
    let turn = match place {
        Place::Look(n) | Place::Take(n) => n,
        _ => 0,
    };
    wired.reads.items()[turn as usize]
}

impl SlotWords {
    /// Loads the stamp of the slot that the task heard of for the read: it is ready if the slot holds the row that was
    /// ordered. Else it returns the stamp. A look over a delayed link is always ready.
    pub fn look(&self, seat: &mut TaskSeat, read: u32) -> Look
        requires here { TaskSits self.now seat.old }
        requires allowed { task_refusal (wired_task self.now.wiring seat.old.task) seat.old.part (step.Look seat.old.task read) ≡ None }
        ensures step { TaskSteps seat.old seat.new }
        ensures part { (stamp : ℕ) × (seat.new.part ≡ task_after (wired_task self.now.wiring seat.old.task) seat.old.part (step.Look seat.old.task read) (a_number stamp))
            × MatchBool (is_stamp_of (read_order_in (wired_task self.now.wiring seat.old.task) seat.old.part (turn_at seat.old.part.place)) stamp) (result ≡ Ready) (result ≡ NotYet stamp) }
        ensures delayed { 0 < (link self.now.wiring (slice_index_or (declared_task self.now.plan seat.old.task).reads read no_read).link).delay → result ≡ Ready }
    {
        let wired = self.wiring.task(seat.task);
        let from = read_in_turn(wired, seat.part.place);
        let order = seat.part.read_order(wired);
        let address = self.layout.stamp(from.writer, order.slot);
        let stamp = self
            .table
            .shared
            .load::<LookPlay>(&mut seat.seat, address as usize);
        if stamp == u64::from(order.number) + 1 {
            seat.part.look(wired, order.number + 1);
            Look::Ready
        } else {
            Look::NotYet { stamp }
        }
    }

    /// Loads the word of the read's port from the slot that the task heard of, and returns it. It is the word that the
    /// meaning of the plan gives this read in the running instance.
    pub fn take(&self, seat: &mut TaskSeat, read: u32) -> i64
        requires here { TaskSits self.now seat.old }
        requires allowed { task_refusal (wired_task self.now.wiring seat.old.task) seat.old.part (step.Take seat.old.task read) ≡ None }
        ensures step { TaskSteps seat.old seat.new }
        ensures part { seat.new.part ≡ task_after (wired_task self.now.wiring seat.old.task) seat.old.part (step.Take seat.old.task read) (a_value result) }
        ensures meant { IsMeant self.now.plan (meaning_of self.now.plan) seat.old.task (seat.old.part.ended + 1) read result }
    {
        let wired = self.wiring.task(seat.task);
        let from = read_in_turn(wired, seat.part.place);
        let order = seat.part.read_order(wired);
        let address = self.layout.word(from.writer, order.slot, from.port);
        let found = self
            .table
            .shared
            .load::<TakePlay>(&mut seat.seat, address as usize);
        seat.part.take(wired);
        value_from_word(found)
    }

    /// Stamps the slot that the task is to fill with 0.
    pub fn shut(&self, seat: &mut TaskSeat)
        requires here { TaskSits self.now seat.old }
        requires allowed { task_refusal (wired_task self.now.wiring seat.old.task) seat.old.part (step.Shut seat.old.task) ≡ None }
        ensures step { TaskSteps seat.old seat.new }
        ensures part { seat.new.part ≡ task_after (wired_task self.now.wiring seat.old.task) seat.old.part (step.Shut seat.old.task) no_word }
    {
        let slot = seat.part.own_slot();
        let address = self.layout.stamp(seat.task, slot);
        self.table
            .shared
            .store::<ShutPlay>(&mut seat.seat, address as usize, 0);
        seat.part.shut();
    }

    /// Stores the out of the port into that slot. The value is the meaning's word of the running instance and this port.
    pub fn put(&self, seat: &mut TaskSeat, port: u32, value: i64)
        requires here { TaskSits self.now seat.old }
        requires allowed { task_refusal (wired_task self.now.wiring seat.old.task) seat.old.part (step.Put seat.old.task port) ≡ None }
        requires meant { value ≡ slice_index_or (meaning_row self.now.plan seat.old.task (seat.old.part.ended + 1)) port (pos 0) }
        ensures step { TaskSteps seat.old seat.new }
        ensures part { seat.new.part ≡ task_after (wired_task self.now.wiring seat.old.task) seat.old.part (step.Put seat.old.task port) no_word }
    {
        let slot = seat.part.own_slot();
        let address = self.layout.word(seat.task, slot, port);
        let word = value_to_word(value);
        self.table
            .shared
            .store::<PutPlay>(&mut seat.seat, address as usize, word);
        seat.part.put(self.wiring.task(seat.task), port);
    }

    /// Stamps the slot with the task's instance: it then holds the instance's row.
    pub fn done(&self, seat: &mut TaskSeat)
        requires here { TaskSits self.now seat.old }
        requires allowed { task_refusal (wired_task self.now.wiring seat.old.task) seat.old.part (step.Done seat.old.task) ≡ None }
        ensures step { TaskSteps seat.old seat.new }
        ensures part { seat.new.part ≡ task_after (wired_task self.now.wiring seat.old.task) seat.old.part (step.Done seat.old.task) no_word }
    {
        let slot = seat.part.own_slot();
        let address = self.layout.stamp(seat.task, slot);
        let stamp = u64::from(seat.part.ended) + 2;
        self.table
            .shared
            .store::<DonePlay>(&mut seat.seat, address as usize, stamp);
        seat.part.finish();
    }

    /// Stores that the task's instance has ended.
    pub fn end(&self, seat: &mut TaskSeat)
        requires here { TaskSits self.now seat.old }
        requires allowed { task_refusal (wired_task self.now.wiring seat.old.task) seat.old.part (step.End seat.old.task) ≡ None }
        ensures step { TaskSteps seat.old seat.new }
        ensures part { seat.new.part ≡ task_after (wired_task self.now.wiring seat.old.task) seat.old.part (step.End seat.old.task) no_word }
    {
        let address = self.layout.ended(seat.task);
        let ended = u64::from(seat.part.ended) + 1;
        self.table
            .shared
            .store::<EndPlay>(&mut seat.seat, address as usize, ended);
        seat.part.end();
    }
}
