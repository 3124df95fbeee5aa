// The releaser's steps, on its part alone.

ghost use Rattle.std.specs.Prelude.{◌≡◌, ◌+◌, ◌<◌, ◌∷◌, ◌^◌, length, take};
ghost use Rattle.dbp_rules.specs.Moves as move;
ghost use Rattle.dbp_rules.specs.PartyRules as rule;
ghost use Rattle.dbp_rules.specs.PartyShapes.{IsNamedIn, LinksFit};
ghost use Rattle.dbp_rules.specs.StepKinds.{kind_number, kind_of, subject_of};
ghost use Rattle.dbp_rules.specs.Lookups.{claim_in, entry_in, is_counted, link as link_of};

use crate::next_steps::{next_release, not_next};
use crate::parts::{LinkEntry, Order, ReleaserPart, TaskEntry};
use crate::step::{Broken, Count, Illegal, Step};
use crate::wiring::Wiring;
use dbp_plan::{Link, List};

// Whether the slot is one of those that are kept after an aim of the task.
pub(crate) fn stays_kept(entry: &TaskEntry, slot: u32) -> bool
    ensures { result ≡ rule.stays_kept entry.now slot }
{
    match entry.kept.items() {
        [] => false,
        [staying @ .., _] => entry.current == slot || staying.contains(&slot),
    }
}

impl Wiring {
    /// Whether the link is counted: its claims keep its writer from a slot. Under `Ranked` those to readers that are
    /// ranked above their writers aren't.
    pub fn is_counted(&self, link: u32) -> bool
        requires link { link < length self.now.links }
        requires links { LinksFit self.now }
        ensures { result ≡ is_counted self.now link }
    {
        match self.count {
            Count::All => true,
            Count::Ranked => {
                let ends = self.links.items()[link as usize];
                self.task(ends.writer).rank < self.task(ends.reader).rank
            }
        }
    }
}

// Whether the link is a counted one from the task, with a claim whose instance isn't known to have ended.
pub(crate) fn has_claim(wiring: &Wiring, part: &ReleaserPart, i: u32, k: u32) -> bool
    requires link { k < length wiring.now.links }
    requires links { LinksFit wiring.now }
    requires claims { length part.now.links ≡ length wiring.now.links }
    requires entries { length part.now.tasks ≡ length wiring.now.tasks }
    ensures { result ≡ rule.has_claim_in wiring.now part.now i k }
{
    let link = wiring.links.items()[k as usize];
    link.writer == i
        && wiring.is_counted(k)
        && part.entry(link.reader).known < part.claim_over(k).instance
}

// Whether a counted link from the task claims the slot.
fn claims_slot(wiring: &Wiring, part: &ReleaserPart, i: u32, slot: u32, k: u32) -> bool
    requires link { k < length wiring.now.links }
    requires links { LinksFit wiring.now }
    requires claims { length part.now.links ≡ length wiring.now.links }
    requires entries { length part.now.tasks ≡ length wiring.now.tasks }
    ensures { result ≡ rule.claims_slot_in wiring.now part.now i slot k }
{
    has_claim(wiring, part, i, k) && part.claim_over(k).slot == slot
}

// The least link from the task that claims the slot: one of those that leave the task.
pub(crate) fn claiming_link(wiring: &Wiring, part: &ReleaserPart, i: u32, slot: u32) -> Option<u32>
    requires task { i < length wiring.now.tasks }
    requires links { LinksFit wiring.now }
    requires claims { length part.now.links ≡ length wiring.now.links }
    requires entries { length part.now.tasks ≡ length wiring.now.tasks }
    ensures { result ≡ rule.least (rule.claims_slot_in wiring.now part.now i slot) (length wiring.now.links) }
{
    for k in wiring.task(i).leaving.items() {
        if claims_slot(wiring, part, i, slot, *k) {
            return Some(*k);
        }
    }
    None
}

fn broken(broken: Broken, left: u32, right: u32) -> Illegal
    ensures { result ≡ record { broken = broken; left = left; right = right } }
{
    Illegal {
        broken,
        left: u64::from(left),
        right: u64::from(right),
    }
}

// Why the task can't be aimed at the slot, if its aim is the next action.
fn aim_refusal(wiring: &Wiring, part: &ReleaserPart, i: u32, slot: u32) -> Option<Illegal>
    requires task { i < length wiring.now.tasks }
    requires links { LinksFit wiring.now }
    requires claims { length part.now.links ≡ length wiring.now.links }
    requires entries { length part.now.tasks ≡ length wiring.now.tasks }
    ensures { result ≡ rule.aim_refusal wiring.now part.now i slot }
{
    let entry = part.entry(i);
    let slots = wiring.task(i).slots;
    if entry.aimed != entry.known {
        return Some(broken(Broken::LastNotEnded, entry.aimed, entry.known));
    }
    if slot >= slots {
        return Some(broken(Broken::SlotRange, slots, slot));
    }
    if stays_kept(entry, slot) {
        return Some(broken(Broken::SlotKept, slot, slot));
    }
    let link = claiming_link(wiring, part, i, slot)?;
    Some(broken(Broken::SlotClaimed, link, slot))
}

// Puts the slot before the kept ones, and drops the last of these.
fn keep(kept: &mut List<u32>, slot: u32)
    ensures { kept.new ≡ take (length kept.old) (slot ∷ kept.old) }
{
    let kept = kept.items_mut();
    if !kept.is_empty() {
        kept.rotate_right(1);
        kept[0] = slot;
    }
}

fn aim_entry(entry: &mut TaskEntry, slot: u32)
    requires { entry.old.aimed + 1 < 2 ^ 32 }
    ensures { entry.new ≡ move.after_aim entry.old slot }
{
    entry.aimed += 1;
    keep(&mut entry.kept, entry.current);
    entry.current = slot;
}

// The slot that a claim takes over a link of this delay.
fn claimed_slot(writer: &TaskEntry, delay: u32) -> u32
    requires { delay < length writer.now.kept + 1 }
    ensures { result ≡ move.claimed_slot delay writer.now.current writer.now.kept }
{
    if delay == 0 {
        writer.current
    } else {
        writer.kept.items()[delay as usize - 1]
    }
}

impl ReleaserPart {
    /// What it knows of the task.
    pub fn entry(&self, task: u32) -> &TaskEntry
        requires { task < length self.now.tasks }
        ensures { result.now ≡ entry_in self.now task }
    {
        &self.tasks.items()[task as usize]
    }

    /// Its last claim over the link.
    pub fn claim_over(&self, link: u32) -> LinkEntry
        requires { link < length self.now.links }
        ensures { result ≡ claim_in self.now link }
    {
        self.links.items()[link as usize]
    }

    /// The first broken condition of a step of the releaser, if there is one. A step of a task is never its next one.
    pub fn refusal(&self, wiring: &Wiring, step: Step) -> Option<Illegal>
        requires named { IsNamedIn wiring.now step }
        requires links { LinksFit wiring.now }
        requires entries { length self.now.tasks ≡ length wiring.now.tasks }
        requires claims { length self.now.links ≡ length wiring.now.links }
        ensures { result ≡ rule.releaser_refusal wiring.now self.now step }
    {
        match step {
            Step::Seen { .. } => None,
            Step::Aim { task, slot } => {
                if let Some(why) = self.not_next(wiring, step) {
                    return Some(why);
                }
                aim_refusal(wiring, self, task, slot)
            }
            _ => self.not_next(wiring, step),
        }
    }

    // Why the step isn't the next action, if that is so.
    fn not_next(&self, wiring: &Wiring, step: Step) -> Option<Illegal>
        ensures { result ≡ rule.releaser_next wiring.now self.now (kind_number (kind_of step)) (subject_of step) }
    {
        let next = next_release(wiring.releases.get(self.place).copied());
        not_next(Broken::Place, next, step)
    }

    /// It has loaded how many instances of the task have ended.
    pub fn see(&mut self, task: u32, ended: u32)
        requires { task < length self.old.tasks }
        ensures { self.new ≡ rule.with_entry_in self.old task (move.after_seen (entry_in self.old task) ended) }
    {
        self.tasks.items_mut()[task as usize].known = ended;
    }

    /// It aims the task's next instance at the slot. Returns the order that it stores.
    pub fn aim(&mut self, task: u32, slot: u32) -> Order
        requires task { task < length self.old.tasks }
        requires aimed { (entry_in self.old task).aimed + 1 < 2 ^ 32 }
        requires place { self.old.place + 1 < 2 ^ 32 }
        ensures order { result ≡ record { slot = slot; number = (entry_in self.old task).aimed + 1 } }
        ensures next { self.new ≡ rule.one_further (rule.with_entry_in self.old task (move.after_aim (entry_in self.old task) slot)) }
    {
        let entry = &mut self.tasks.items_mut()[task as usize];
        aim_entry(entry, slot);
        let number = entry.aimed;
        self.place += 1;
        Order { slot, number }
    }

    /// It claims over the link what the reader's last aimed instance is to read. Returns the order that it stores.
    pub fn claim(&mut self, wiring: &Wiring, link: u32) -> Order
        requires link { link < length wiring.now.links }
        requires claims { link < length self.old.links }
        requires writer { (link_of wiring.now link).writer < length self.old.tasks }
        requires reader { (link_of wiring.now link).reader < length self.old.tasks }
        requires kept { (link_of wiring.now link).delay < length (entry_in self.old (link_of wiring.now link).writer).kept + 1 }
        requires place { self.old.place + 1 < 2 ^ 32 }
        ensures order { result ≡ move.claim_order (rule.next_claim wiring.now self.old link) }
        ensures next { self.new ≡ rule.one_further (rule.with_claim_in self.old link (rule.next_claim wiring.now self.old link)) }
    {
        let Link {
            writer,
            reader,
            delay,
        } = wiring.links.items()[link as usize];
        let from = self.entry(writer);
        let claim = LinkEntry {
            slot: claimed_slot(from, delay),
            number: from.aimed.saturating_sub(delay),
            instance: self.entry(reader).aimed,
        };
        self.links.items_mut()[link as usize] = claim;
        self.place += 1;
        Order {
            slot: claim.slot,
            number: claim.number,
        }
    }

    /// It opens the gate of the task's last aimed instance. Returns the number that it stores.
    pub fn open(&mut self, task: u32) -> u32
        requires task { task < length self.old.tasks }
        requires place { self.old.place + 1 < 2 ^ 32 }
        ensures gate { result ≡ (entry_in self.old task).aimed }
        ensures next { self.new ≡ rule.one_further self.old }
    {
        self.place += 1;
        self.entry(task).aimed
    }
}
