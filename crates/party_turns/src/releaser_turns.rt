// A turn of the releaser: the step of its book.

ghost use Rattle.std.specs.Prelude.{◌≡◌, ◌≢◌, ℕ, ◌<◌, ◌↔◌, IsTrue, Some, None, length};
ghost use Rattle.dbp_rules.specs.PartyRules.{releaser_refusal};
ghost use Rattle.dbp_rules.specs.Rules.{IsNamed};
ghost use Rattle.dbp_rules.specs.declared.step.Step.{Step};
ghost use Rattle.release_book.specs.NextStep.{IsNextStep, MayHear, part_after, step_of};
ghost use Rattle.release_book.specs.declared.release_step.ReleaseStep.TheVariants as release;
ghost use Rattle.word_rule.specs.Seats.{ReleaserSits, ReleaserSteps};
ghost use Rattle.party_turns.specs.Turns.{IsReleaserTurn, ReleaserHasFinished, ReleaserTurn, releaser_answer};
ghost use Rattle.party_turns.specs.declared.turn.Turn.TheVariants.{Finished};

use crate::releaser_party::ReleaserParty;
use crate::turn::{Cause, Turn};
use dbp_rules::ReleaserPart;
use release_book::{ReleaseStep, has_finished};
use word_rule::{ReleaserSeat, SlotWords};

// Makes the step on the words, and returns the number that it heard; 0 if it hears none.
fn make_step(seat: &mut ReleaserSeat, words: &SlotWords, step: ReleaseStep) -> u32
    requires here { ReleaserSits words.now seat.old }
    requires some { step ≢ release.Finished }
    requires named { (e : Step) → step_of step ≡ Some e → IsNamed words.now.plan.diagram e }
    requires allowed { (e : Step) → step_of step ≡ Some e → releaser_refusal words.now.wiring seat.old.part e ≡ None }
    ensures step { ReleaserSteps seat.old seat.new }
    ensures may { MayHear seat.old.part step result }
    ensures part { seat.new.part ≡ part_after words.now.wiring seat.old.part step result }
{
    match step {
        ReleaseStep::Seen { task } => return words.seen(seat, task),
        ReleaseStep::Aim { task, slot } => words.aim(seat, task, slot),
        ReleaseStep::Claim { link } => words.claim(seat, link),
        ReleaseStep::OpenGate { task } => words.open_gate(seat, task),
        ReleaseStep::Finished => unreachable!(),
    }
    0
}

// What the releaser returns of a step, from its part after it.
fn answer_of(part: &ReleaserPart, step: ReleaseStep) -> Turn
    requires { (i : ℕ) → step ≡ release.Seen i → i < length part.now.tasks }
    ensures { result ≡ releaser_answer part.now step }
{
    match step {
        ReleaseStep::Seen { task } => {
            let entry = part.entry(task);
            if entry.known < entry.aimed {
                Turn::Idle(Cause::LastNotEnded)
            } else {
                Turn::Stepped
            }
        }
        _ => Turn::Stepped,
    }
}

impl ReleaserParty {
    pub(crate) fn turn(&mut self, words: &SlotWords) -> Turn
        requires { ReleaserSits words.now self.old.seat }
        ensures finished { (result ≡ Finished) ↔ ReleaserHasFinished words.now self.old }
        ensures turn { IsReleaserTurn words.now self.old self.new result }
    {
        let step = self.book.next(words.plan());
        if matches!(step, ReleaseStep::Finished) {
            return Turn::Finished;
        }
        let heard = make_step(&mut self.seat, words, step);
        self.book.made(words.plan(), step, heard);
        answer_of(self.seat.part(), step)
    }

    /// The step that its next turn makes; `Finished` if it makes none.
    pub fn next_step(&self, words: &SlotWords) -> ReleaseStep
        requires { ReleaserSits words.now self.now.seat }
        ensures { IsNextStep words.now.wiring self.now.seat.part result }
    {
        self.book.next(words.plan())
    }

    pub(crate) fn has_finished(&self, words: &SlotWords) -> bool
        requires { ReleaserSits words.now self.now.seat }
        ensures { IsTrue result ↔ ReleaserHasFinished words.now self.now }
    {
        has_finished(words.wiring(), self.seat.part())
    }
}
