// The turns of a task that take words, compute, and store what it has computed.

ghost use Rattle.std.specs.Prelude.{◌≡◌, ◌≢◌, ◌+◌, ◌<◌, length};
ghost use Rattle.dbp_rules.specs.Moves.{at_place};
ghost use Rattle.dbp_rules.specs.Lookups.{wired_task};
ghost use Rattle.dbp_rules.specs.declared.parts.Place.TheVariants as place;
ghost use Rattle.word_rule.specs.Seats.{TaskSits};
ghost use Rattle.party_turns.specs.Computed.{HasComputed, plan_of_task};
ghost use Rattle.party_turns.specs.Turns.{TaskTurn};
ghost use Rattle.party_turns.specs.declared.turn.Turn.TheVariants.{Finished};

use crate::look_up::{declared_of, read_number, wired_of};
use crate::rows::write_row;
use crate::task_party::TaskParty;
use crate::turn::Turn;
use dbp_plan::TaskRows;
use dbp_rules::Work;
use word_rule::{SlotWords, TaskSeat};

// Computes the task's next instance, and writes its row.
fn compute(work: &mut Work, rows: &mut TaskRows, words: &SlotWords, seat: &TaskSeat)
    requires here { TaskSits words.now seat.now }
    requires place { seat.now.part.place ≡ place.Shut }
    requires before { HasComputed (plan_of_task seat.now) seat.now.task seat.now.part work.old rows.old }
    ensures { HasComputed (plan_of_task seat.now) seat.now.task (at_place seat.now.part (place.Put 0)) work.new rows.new }
{
    let task = declared_of(words, seat);
    let ended = seat.part().ended;
    let wired = wired_of(words, seat);
    work.sense(words.plan(), words.wiring(), task, wired, ended);
    work.compute(task);
    write_row(rows, ended + 1, work.row());
}

impl TaskParty {
    pub(crate) fn take(&mut self, words: &SlotWords, turn: u32) -> Turn
        requires here { TaskSits words.now self.old.seat }
        requires place { self.old.seat.part.place ≡ place.Take turn }
        ensures turn { TaskTurn words.now self.old self.new result }
        ensures unfinished { result ≢ Finished }
    {
        let task = declared_of(words, &self.seat);
        let read = read_number(wired_of(words, &self.seat), turn);
        let word = words.take(&mut self.seat, read);
        self.work.set_read(task, read, word);
        Turn::Stepped
    }

    // It computes before its slot is shut.
    pub(crate) fn shut(&mut self, words: &SlotWords) -> Turn
        requires here { TaskSits words.now self.old.seat }
        requires place { self.old.seat.part.place ≡ place.Shut }
        ensures turn { TaskTurn words.now self.old self.new result }
        ensures unfinished { result ≢ Finished }
    {
        compute(&mut self.work, &mut self.rows, words, &self.seat);
        words.shut(&mut self.seat);
        Turn::Stepped
    }

    pub(crate) fn put(&mut self, words: &SlotWords, port: u32) -> Turn
        requires here { TaskSits words.now self.old.seat }
        requires place { self.old.seat.part.place ≡ place.Put port }
        ensures turn { TaskTurn words.now self.old self.new result }
        ensures unfinished { result ≢ Finished }
    {
        let value = self.work.row().words()[port as usize];
        words.put(&mut self.seat, port, value);
        Turn::Stepped
    }

    pub(crate) fn done(&mut self, words: &SlotWords) -> Turn
        requires here { TaskSits words.now self.old.seat }
        requires place { self.old.seat.part.place ≡ place.Done }
        ensures turn { TaskTurn words.now self.old self.new result }
        ensures unfinished { result ≢ Finished }
    {
        words.done(&mut self.seat);
        Turn::Stepped
    }

    pub(crate) fn end(&mut self, words: &SlotWords) -> Turn
        requires here { TaskSits words.now self.old.seat }
        requires place { self.old.seat.part.place ≡ place.End }
        ensures turn { TaskTurn words.now self.old self.new result }
        ensures unfinished { result ≢ Finished }
    {
        words.end(&mut self.seat);
        self.work.advance();
        Turn::Stepped
    }
}
