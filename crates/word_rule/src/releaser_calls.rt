// The steps of the releaser: each is one atomic load or store of one word.

ghost use Rattle.std.specs.Prelude.{◌≡◌, ◌<◌, ◌≤◌, None, length};
ghost use Rattle.dbp_rules.specs.PartyRules.{a_number, no_word, releaser_after, releaser_refusal};
ghost use Rattle.dbp_rules.specs.Lookups.{entry_in};
ghost use Rattle.dbp_rules.specs.declared.step.Step.TheVariants.{Aim, Claim, OpenGate, Seen};
ghost use Rattle.word_rule.specs.Seats.{ReleaserSits, ReleaserSteps};

use crate::plays::{AimPlay, ClaimPlay, OpenPlay, SeenPlay};
use crate::seats::{ReleaserSeat, SlotWords};

impl SlotWords {
    /// Loads how many instances of the task have ended, and returns it. It is at least the number that the releaser
    /// knew, and at most that of the task's last aimed instance.
    pub fn seen(&self, seat: &mut ReleaserSeat, task: u32) -> u32
        requires here { ReleaserSits self.now seat.old }
        requires task { task < length self.now.plan.diagram.tasks }
        ensures step { ReleaserSteps seat.old seat.new }
        ensures part { seat.new.part ≡ releaser_after self.now.wiring seat.old.part (Seen task) (a_number result) }
        ensures known { (entry_in seat.old.part task).known ≤ result }
        ensures aimed { result ≤ (entry_in seat.old.part task).aimed }
    {
        let address = self.layout.ended(task);
        let ended = self
            .table
            .shared
            .load::<SeenPlay>(&mut seat.seat, address as usize) as u32;
        seat.part.see(task, ended);
        ended
    }

    /// Stores the order of the task's next instance: it is to fill this slot.
    pub fn aim(&self, seat: &mut ReleaserSeat, task: u32, slot: u32)
        requires here { ReleaserSits self.now seat.old }
        requires task { task < length self.now.plan.diagram.tasks }
        requires allowed { releaser_refusal self.now.wiring seat.old.part (Aim task slot) ≡ None }
        ensures step { ReleaserSteps seat.old seat.new }
        ensures part { seat.new.part ≡ releaser_after self.now.wiring seat.old.part (Aim task slot) no_word }
    {
        let address = self.layout.aim(task);
        let order = seat.part.aim(task, slot);
        self.table
            .shared
            .store::<AimPlay>(&mut seat.seat, address as usize, order.to_word());
    }

    /// Stores what the link's reader is to read in its last aimed instance.
    pub fn claim(&self, seat: &mut ReleaserSeat, link: u32)
        requires here { ReleaserSits self.now seat.old }
        requires link { link < length self.now.plan.diagram.links }
        requires allowed { releaser_refusal self.now.wiring seat.old.part (Claim link) ≡ None }
        ensures step { ReleaserSteps seat.old seat.new }
        ensures part { seat.new.part ≡ releaser_after self.now.wiring seat.old.part (Claim link) no_word }
    {
        let address = self.layout.claim(link);
        let order = seat.part.claim(&self.wiring, link);
        self.table
            .shared
            .store::<ClaimPlay>(&mut seat.seat, address as usize, order.to_word());
    }

    /// Stores the number of the task's last aimed instance into its gate.
    pub fn open_gate(&self, seat: &mut ReleaserSeat, task: u32)
        requires here { ReleaserSits self.now seat.old }
        requires task { task < length self.now.plan.diagram.tasks }
        requires allowed { releaser_refusal self.now.wiring seat.old.part (OpenGate task) ≡ None }
        ensures step { ReleaserSteps seat.old seat.new }
        ensures part { seat.new.part ≡ releaser_after self.now.wiring seat.old.part (OpenGate task) no_word }
    {
        let address = self.layout.gate(task);
        let gate = seat.part.open(task);
        self.table
            .shared
            .store::<OpenPlay>(&mut seat.seat, address as usize, u64::from(gate));
    }
}
