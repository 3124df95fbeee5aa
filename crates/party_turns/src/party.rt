// A party of a run.

ghost use Rattle.std.specs.Prelude.{◌≡◌, ◌↔◌, IsTrue};
ghost use Rattle.party_turns.specs.Counts.{IsCounted, turns_made};
ghost use Rattle.party_turns.specs.Parties.{Belongs, HasFinished, IsTurn};
ghost use Rattle.party_turns.specs.declared.turn.Turn.TheVariants.{Finished};

use crate::releaser_party::ReleaserParty;
use crate::task_party::TaskParty;
use crate::turn::Turn;
use word_rule::SlotWords;

/// The releaser or a task, with its seat at the shared words.
#[derive(Drop)]
pub enum Party {
    /// The releaser.
    Releaser(ReleaserParty),
    /// A task.
    Task(TaskParty),
}

impl Party {
    /// Makes the party's next step, one atomic step on the words, or none if the party has finished. It takes no memory.
    pub fn turn(&mut self, words: &SlotWords) -> Turn
        requires { Belongs words.now self.old }
        ensures finished { (result ≡ Finished) ↔ HasFinished words.now self.old }
        ensures turn { IsTurn words.now self.old self.new result }
    {
        match self {
            Party::Releaser(party) => party.turn(words),
            Party::Task(party) => party.turn(words),
        }
    }

    /// Whether the party has no more steps to make.
    pub fn has_finished(&self, words: &SlotWords) -> bool
        requires { Belongs words.now self.now }
        ensures { IsTrue result ↔ HasFinished words.now self.now }
    {
        match self {
            Party::Releaser(party) => party.has_finished(words),
            Party::Task(party) => party.has_finished(words),
        }
    }
    /// Counts one turn more of the party. The count stays at 2^64 - 1. No turn counts itself.
    pub fn count_turn(&mut self)
        ensures { IsCounted self.old self.new }
    {
        match self {
            Party::Releaser(party) => party.turns = party.turns.saturating_add(1),
            Party::Task(party) => party.turns = party.turns.saturating_add(1),
        }
    }

    /// How many turns were counted of the party: the number of its last turn, if each was counted before it was made.
    pub fn turn_number(&self) -> u64
        ensures { result ≡ turns_made self.now }
    {
        match self {
            Party::Releaser(party) => party.turns,
            Party::Task(party) => party.turns,
        }
    }
}
