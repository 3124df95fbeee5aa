// The steps of a task: each is one atomic load or store of one word.

ghost use Rattle.std.specs.Prelude.{◌≡◌, ℕ, ◌<◌, ◌≤◌, MatchBool, None, length};
ghost use Rattle.dbp_slots.specs.TableWords.{address_of, sizes_of};
ghost use Rattle.dbp_rules.specs.LoadedWords.{word_of_order};
ghost use Rattle.dbp_rules.specs.PartyRules.{a_number, an_order, hears_at, is_opened_by, task_after, task_refusal};
ghost use Rattle.dbp_rules.specs.Lookups.{wired_task};
ghost use Rattle.dbp_rules.specs.Shapes.{OrderFits, PlaceIn, slot_owner};
ghost use Rattle.dbp_rules.specs.declared.step.Step.TheVariants.{Hear, Start};
ghost use Rattle.word_rule.specs.Seats.{TaskSits, TaskSteps};
ghost use Rattle.word_rule.specs.declared.seats.Opened.TheVariants.{Closed, Started};

use crate::plays::{HearPlay, StartPlay};
use crate::seats::{Opened, SlotWords, TaskSeat};
use dbp_rules::{Order, Place};

impl SlotWords {
    /// Loads the task's gate, and begins the task's next instance if it is open for that. Else it returns the gate.
    pub fn start(&self, seat: &mut TaskSeat) -> Opened
        requires here { TaskSits self.now seat.old }
        requires allowed { task_refusal (wired_task self.now.wiring seat.old.task) seat.old.part (Start seat.old.task) ≡ None }
        ensures step { TaskSteps seat.old seat.new }
        ensures part { (gate : ℕ) × (seat.new.part ≡ task_after (wired_task self.now.wiring seat.old.task) seat.old.part (Start seat.old.task) (a_number gate))
            × MatchBool (is_opened_by seat.old.part gate) (result ≡ Started) (result ≡ Closed gate) }
    {
        let address = self.layout.gate(seat.task);
        let gate = self
            .table
            .shared
            .load::<StartPlay>(&mut seat.seat, address as usize) as u32;
        if seat.part.start(gate) {
            Opened::Started
        } else {
            Opened::Closed { gate }
        }
    }

    /// Loads the task's next order and returns it: first its own, then that of each link into it.
    pub fn hear(&self, seat: &mut TaskSeat) -> Order
        requires here { TaskSits self.now seat.old }
        requires allowed { task_refusal (wired_task self.now.wiring seat.old.task) seat.old.part (Hear seat.old.task) ≡ None }
        ensures step { TaskSteps seat.old seat.new }
        ensures part { seat.new.part ≡ task_after (wired_task self.now.wiring seat.old.task) seat.old.part (Hear seat.old.task) (an_order result) }
        ensures fits { OrderFits (wired_task self.now.wiring (slot_owner self.now.wiring seat.old.task (hears_at seat.old.part.place))) result }
    {
        let address = self.order_address(seat.task, seat.part.place);
        let found = self
            .table
            .shared
            .load::<HearPlay>(&mut seat.seat, address as usize);
        let order = Order::from_word(found);
        seat.part.hear(self.wiring.task(seat.task), order);
        order
    }

    // The address of the order that a task hears at the place.
    fn order_address(&self, task: u32, place: Place) -> u32
        requires task { task < length self.now.plan.diagram.tasks }
        requires place { PlaceIn (wired_task self.now.wiring task) place }
        ensures { result ≡ address_of (sizes_of self.now.plan.diagram) (word_of_order self.now.wiring task (hears_at place)) }
    {
        match place {
            Place::Hear(n) if n > 0 => {
                let links = &self.wiring.task(task).links;
                self.layout.claim(links.items()[n as usize - 1])
            }
            _ => self.layout.aim(task),
        }
    }
}
