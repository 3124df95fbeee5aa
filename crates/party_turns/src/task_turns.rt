// A turn of a task: the step at its place.

ghost use Rattle.std.specs.Prelude.{◌≡◌, ◌≢◌, ℕ, ◌↔◌, IsTrue};
ghost use Rattle.dbp_rules.specs.declared.parts.Place.TheVariants as place;
ghost use Rattle.word_rule.specs.Seats.{TaskSits};
ghost use Rattle.party_turns.specs.Turns.{IsTaskTurn, TaskHasFinished, TaskTurn};
ghost use Rattle.party_turns.specs.declared.turn.Turn.TheVariants.{Finished};

use crate::look_up::{read_number, wired_of};
use crate::task_party::TaskParty;
use crate::turn::{Cause, Turn};
use dbp_rules::Place;
use word_rule::{Look, Opened, SlotWords};

impl TaskParty {
    pub(crate) fn turn(&mut self, words: &SlotWords) -> Turn
        requires { TaskSits words.now self.old.seat }
        ensures finished { (result ≡ Finished) ↔ TaskHasFinished words.now self.old }
        ensures turn { IsTaskTurn words.now self.old self.new result }
    {
        if self.has_finished(words) {
            return Turn::Finished;
        }
        self.step(words)
    }

    // Its occurrences have all ended.
    pub(crate) fn has_finished(&self, words: &SlotWords) -> bool
        requires { TaskSits words.now self.now.seat }
        ensures { IsTrue result ↔ TaskHasFinished words.now self.now }
    {
        self.seat.part().ended == wired_of(words, &self.seat).times.len()
    }

    // The step at its place.
    fn step(&mut self, words: &SlotWords) -> Turn
        requires here { TaskSits words.now self.old.seat }
        ensures turn { TaskTurn words.now self.old self.new result }
        ensures unfinished { result ≢ Finished }
    {
        match self.seat.part().place {
            Place::Idle => self.start(words),
            Place::Hear(_) => self.hear(words),
            Place::Look(turn) => self.look(words, turn),
            Place::Take(turn) => self.take(words, turn),
            Place::Shut => self.shut(words),
            Place::Put(port) => self.put(words, port),
            Place::Done => self.done(words),
            Place::End => self.end(words),
        }
    }

    fn start(&mut self, words: &SlotWords) -> Turn
        requires here { TaskSits words.now self.old.seat }
        requires place { self.old.seat.part.place ≡ place.Idle }
        ensures turn { TaskTurn words.now self.old self.new result }
        ensures unfinished { result ≢ Finished }
    {
        match words.start(&mut self.seat) {
            Opened::Started => Turn::Stepped,
            Opened::Closed { .. } => Turn::Idle(Cause::NotOpened),
        }
    }

    fn hear(&mut self, words: &SlotWords) -> Turn
        requires here { TaskSits words.now self.old.seat }
        requires place { (n : ℕ) × (self.old.seat.part.place ≡ place.Hear n) }
        ensures turn { TaskTurn words.now self.old self.new result }
        ensures unfinished { result ≢ Finished }
    {
        words.hear(&mut self.seat);
        Turn::Stepped
    }

    fn look(&mut self, words: &SlotWords, turn: u32) -> Turn
        requires here { TaskSits words.now self.old.seat }
        requires place { self.old.seat.part.place ≡ place.Look turn }
        ensures turn { TaskTurn words.now self.old self.new result }
        ensures unfinished { result ≢ Finished }
    {
        let read = read_number(wired_of(words, &self.seat), turn);
        match words.look(&mut self.seat, read) {
            Look::Ready => Turn::Stepped,
            Look::NotYet { .. } => Turn::Idle(Cause::WriterNotDone),
        }
    }
}
