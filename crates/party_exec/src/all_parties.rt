// What a crew asks of all parties.

ghost use Rattle.std.specs.Prelude.{◌↔◌, All, IsTrue};
ghost use Rattle.party_turns.specs.Parties.{Belongs, HasFinished};

use party_turns::Party;
use word_rule::SlotWords;

// Whether none has a step left.
pub(crate) fn have_finished(words: &SlotWords, parties: &[Party]) -> bool
    requires { All (Belongs words.now) parties.now }
    ensures { IsTrue result ↔ All (HasFinished words.now) parties.now }
{
    for party in parties {
        if !party.has_finished(words) {
            return false;
        }
    }
    true
}
