// The slot that the protocol aims a task at: the least one that no claim and no kept row needs.

ghost use Rattle.std.specs.Prelude.{◌≡◌, ◌<◌, ◌≤◌, ◌↔◌, ◌⊎◌, Contains, IsTrue, length, slice_get, Some};
ghost use Rattle.dbp_plan.specs.declared.limits.TheConstants.{MAX_READ_LINES};
ghost use Rattle.dbp_rules.specs.PartyRules.{claimed_in, kept_after_aim};
ghost use Rattle.dbp_rules.specs.PartyShapes.{LinksFit};
ghost use Rattle.dbp_rules.specs.Lookups.{entry_in, wired_task};
ghost use Rattle.dbp_rules.specs.Promises.{HasFreeSlotIn, IsLeastAimIn};
ghost use Rattle.dbp_slots.specs.FreeSlot.{IsLeastFree};
ghost use Rattle.release_list.specs.declared.release.Release.TheVariants.{Aim as AimOf};

use crate::parts::ReleaserPart;
use crate::releaser_steps::{claiming_link, has_claim, stays_kept};
use crate::wiring::Wiring;
use arrayvec::ArrayVec;
use dbp_plan::MAX_READ_LINES;
use dbp_slots::free_slot;

// Slots that can't be aimed at, at most: one for each link, and the current one.
const MAX_TAKEN: usize = MAX_READ_LINES as usize + 1;

const _: () = prove!(MAX_TAKEN == 129);

// If no more links than these leave a task, each slot is looked for among its claims, which is shorter than to list them.
const FEW_LINKS: u32 = 4;

// The slots that the claims of the task's links keep from it.
fn claimed_slots(wiring: &Wiring, part: &ReleaserPart, i: u32) -> ArrayVec<u32, MAX_TAKEN>
    requires task { i < length wiring.now.tasks }
    requires links { LinksFit wiring.now }
    requires few { length wiring.now.links ≤ MAX_READ_LINES }
    requires claims { length part.now.links ≡ length wiring.now.links }
    requires entries { length part.now.tasks ≡ length wiring.now.tasks }
    ensures slots { result.items ≡ claimed_in wiring.now part.now i }
    ensures few { length result.items ≤ MAX_READ_LINES }
{
    let mut claimed = ArrayVec::new();
    for k in wiring.task(i).leaving.items() {
        if has_claim(wiring, part, i, *k) {
            claimed.push(part.claim_over(*k).slot);
        }
    }
    claimed
}

// The least slot of the task that is neither claimed nor stays kept: of all slots, from a list of those that are.
fn least_of_many(wiring: &Wiring, part: &ReleaserPart, i: u32) -> u32
    requires task { i < length wiring.now.tasks }
    requires links { LinksFit wiring.now }
    requires few { length wiring.now.links ≤ MAX_READ_LINES }
    requires claims { length part.now.links ≡ length wiring.now.links }
    requires entries { length part.now.tasks ≡ length wiring.now.tasks }
    requires room { HasFreeSlotIn wiring.now part.now i }
    ensures { IsLeastFree (claimed_in wiring.now part.now i) (kept_after_aim (entry_in part.now i)) (wired_task wiring.now i).slots result }
{
    let mut taken = claimed_slots(wiring, part, i);
    let entry = part.entry(i);
    let slots = wiring.task(i).slots;
    match entry.kept.items() {
        [] => free_slot(taken.as_slice(), &[], slots),
        [staying @ .., _] => {
            taken.push(entry.current);
            free_slot(taken.as_slice(), staying, slots)
        }
    }
}

// Whether the slot of the task is claimed or stays kept.
fn is_taken(wiring: &Wiring, part: &ReleaserPart, i: u32, slot: u32) -> bool
    requires task { i < length wiring.now.tasks }
    requires links { LinksFit wiring.now }
    requires claims { length part.now.links ≡ length wiring.now.links }
    requires entries { length part.now.tasks ≡ length wiring.now.tasks }
    ensures { IsTrue result ↔ (Contains (claimed_in wiring.now part.now i) slot
        ⊎ Contains (kept_after_aim (entry_in part.now i)) slot) }
{
    stays_kept(part.entry(i), slot) || claiming_link(wiring, part, i, slot).is_some()
}

// The same slot: of each slot in turn it is found out whether it is taken.
fn least_of_few(wiring: &Wiring, part: &ReleaserPart, i: u32) -> u32
    requires task { i < length wiring.now.tasks }
    requires links { LinksFit wiring.now }
    requires claims { length part.now.links ≡ length wiring.now.links }
    requires entries { length part.now.tasks ≡ length wiring.now.tasks }
    requires room { HasFreeSlotIn wiring.now part.now i }
    ensures { IsLeastFree (claimed_in wiring.now part.now i) (kept_after_aim (entry_in part.now i)) (wired_task wiring.now i).slots result }
{
    for slot in 0..wiring.task(i).slots {
        if !is_taken(wiring, part, i, slot) {
            return slot;
        }
    }
    unreachable!()
}

impl ReleaserPart {
    /// The least slot that the task may be aimed at: the least that no counted claim needs and that doesn't stay kept.
    /// The task's aim is the next action, and its last instance is known to have ended. It takes no memory; its time grows
    /// with the number of the task's links and slots.
    pub fn least_aim(&self, wiring: &Wiring, task: u32) -> u32
        requires task { task < length wiring.now.tasks }
        requires links { LinksFit wiring.now }
        requires few { length wiring.now.links ≤ MAX_READ_LINES }
        requires claims { length self.now.links ≡ length wiring.now.links }
        requires entries { length self.now.tasks ≡ length wiring.now.tasks }
        requires room { HasFreeSlotIn wiring.now self.now task }
        requires next { slice_get wiring.now.releases self.now.place ≡ Some (AimOf task) }
        requires ended { (entry_in self.now task).aimed ≡ (entry_in self.now task).known }
        ensures { IsLeastAimIn wiring.now self.now task result }
    {
        self.least_free(wiring, task)
    }

    /// The least slot of the task that no counted claim needs and that doesn't stay kept after an aim, whatever the next
    /// action is. It takes no memory; its time grows with the number of the task's links and slots.
    pub fn least_free(&self, wiring: &Wiring, task: u32) -> u32
        requires task { task < length wiring.now.tasks }
        requires links { LinksFit wiring.now }
        requires few { length wiring.now.links ≤ MAX_READ_LINES }
        requires claims { length self.now.links ≡ length wiring.now.links }
        requires entries { length self.now.tasks ≡ length wiring.now.tasks }
        requires room { HasFreeSlotIn wiring.now self.now task }
        ensures { IsLeastFree (claimed_in wiring.now self.now task) (kept_after_aim (entry_in self.now task)) (wired_task wiring.now task).slots result }
    {
        if wiring.task(task).leaving.len() <= FEW_LINKS {
            least_of_few(wiring, self, task)
        } else {
            least_of_many(wiring, self, task)
        }
    }
}
