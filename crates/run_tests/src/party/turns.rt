// Turns of the parties of one table, and whether all have finished.

ghost use Rattle.std.specs.Prelude.{IsTrue};
ghost use Rattle.party_turns.specs.Parties.{AreParties, HaveFinished};

use party_turns::{Party, Turn};
use std::test::Fail;
use word_rule::SlotWords;

// The party at this place makes a turn.
pub(crate) fn turn_of(words: &SlotWords, parties: &mut [Party], place: usize) -> Result<Turn, Fail>
    requires { AreParties words.now parties.old }
    ensures { AreParties words.now parties.new }
{
    if place < parties.len() {
        Ok(parties[place].turn(words))
    } else {
        Err(Fail::from("no such party"))
    }
}

// Whether no party has a step left.
pub(crate) fn have_finished(words: &SlotWords, parties: &[Party]) -> bool
    requires { AreParties words.now parties.now }
    ensures { IsTrue result → HaveFinished words.now parties.now }
{
    for party in parties {
        if !party.has_finished(words) {
            return false;
        }
    }
    true
}
