// A task's steps, on its part alone.

ghost use Rattle.std.specs.Prelude.{◌≡◌, ◌+◌, ◌<◌, ◌^◌, length};
ghost use Rattle.dbp_rules.specs.Moves as move;
ghost use Rattle.dbp_rules.specs.PartyRules as rule;
ghost use Rattle.dbp_rules.specs.Lookups.{read_at};
ghost use Rattle.dbp_rules.specs.Shapes.{PlaceIn};
ghost use Rattle.dbp_rules.specs.declared.parts.TheConstants.{MAX_ORDERS};

use crate::next_steps::{not_next, step_at};
use crate::parts::{Order, Place, TaskPart};
use crate::step::{Broken, Illegal, Step};
use crate::wiring::TaskWiring;

// Where a task goes after so many of its reads.
fn read_place(reads: u32, n: u32) -> Place
    ensures { result ≡ move.read_place reads n }
{
    if n < reads {
        Place::Look(n)
    } else {
        Place::Shut
    }
}

// Where a task goes after so many of its orders.
fn hear_place(wiring: &TaskWiring, n: u32) -> Place
    requires { 1 + length wiring.now.links < 2 ^ 32 }
    ensures { result ≡ move.hear_place wiring.now n }
{
    if n < 1 + wiring.links.len() {
        Place::Hear(n)
    } else {
        read_place(wiring.reads.len(), 0)
    }
}

// Where a task goes after so many of its puts.
fn put_place(ports: u32, p: u32) -> Place
    ensures { result ≡ move.put_place ports p }
{
    if p < ports {
        Place::Put(p)
    } else {
        Place::Done
    }
}

impl Place {
    // The number of the order that the task hears there; 0 if it hears none.
    fn hear(self) -> u32
        ensures { result ≡ rule.hears_at self }
    {
        match self {
            Place::Hear(n) => n,
            _ => 0,
        }
    }

    // The turn of the read that the task looks for or takes there; 0 if there is none.
    fn turn(self) -> u32
        ensures { result ≡ rule.turn_at self }
    {
        match self {
            Place::Look(n) | Place::Take(n) => n,
            _ => 0,
        }
    }
}

impl TaskPart {
    /// Why a step of the task isn't its next one, if that is so. A step of the releaser never is.
    pub fn refusal(&self, wiring: &TaskWiring, step: Step) -> Option<Illegal>
        requires { PlaceIn wiring.now self.now.place }
        ensures { result ≡ rule.task_refusal wiring.now self.now step }
    {
        not_next(Broken::TaskPlace, step_at(wiring, self.place), step)
    }

    /// The slot that its instance is to fill, by the order that it has heard.
    pub fn own_slot(&self) -> u32
        requires { 0 < length self.now.heard.items }
        ensures { result ≡ move.own_slot self.now }
    {
        self.heard.as_slice()[0].slot
    }

    /// The order that it has heard for the read whose turn it is.
    pub fn read_order(&self, wiring: &TaskWiring) -> Order
        requires read { rule.turn_at self.now.place < length wiring.now.reads }
        requires heard { (read_at wiring.now (rule.turn_at self.now.place)).order < length self.now.heard.items }
        ensures { result ≡ rule.read_order_in wiring.now self.now (rule.turn_at self.now.place) }
    {
        let read = wiring.reads.items()[self.place.turn() as usize];
        self.heard.as_slice()[read.order as usize]
    }

    /// Whether the gate is open for its next instance.
    pub fn is_opened_by(&self, gate: u32) -> bool
        requires { self.now.ended + 1 < 2 ^ 32 }
        ensures { result ≡ rule.is_opened_by self.now gate }
    {
        gate == self.ended + 1
    }

    /// It has loaded its gate, and starts if that is open for its next instance. Returns whether it is.
    pub fn start(&mut self, gate: u32) -> bool
        requires { self.old.ended + 1 < 2 ^ 32 }
        ensures open { result ≡ rule.is_opened_by self.old gate }
        ensures next { self.new ≡ move.after_start self.old (rule.is_opened_by self.old gate) }
    {
        let is_open = self.is_opened_by(gate);
        if is_open {
            self.place = Place::Hear(0);
        }
        is_open
    }

    /// It hears the order.
    pub fn hear(&mut self, wiring: &TaskWiring, order: Order)
        requires room { length self.old.heard.items < MAX_ORDERS }
        requires links { 1 + length wiring.now.links < 2 ^ 32 }
        requires number { rule.hears_at self.old.place + 1 < 2 ^ 32 }
        ensures { self.new ≡ move.after_hear wiring.now self.old (rule.hears_at self.old.place) order }
    {
        let place = hear_place(wiring, self.place.hear() + 1);
        self.heard.push(order);
        self.place = place;
    }

    /// It has loaded the stamp of the slot that it heard for the read whose turn it is, and goes on to take if the slot
    /// holds the row that was ordered. Returns whether it does.
    pub fn look(&mut self, wiring: &TaskWiring, stamp: u32) -> bool
        requires read { rule.turn_at self.old.place < length wiring.now.reads }
        requires heard { (read_at wiring.now (rule.turn_at self.old.place)).order < length self.old.heard.items }
        requires number { (rule.read_order_in wiring.now self.old (rule.turn_at self.old.place)).number + 1 < 2 ^ 32 }
        ensures ready { result ≡ rule.is_stamp_of (rule.read_order_in wiring.now self.old (rule.turn_at self.old.place)) stamp }
        ensures next { self.new ≡ move.after_look self.old (rule.turn_at self.old.place) (rule.is_stamp_of (rule.read_order_in wiring.now self.old (rule.turn_at self.old.place)) stamp) }
    {
        let is_ready = stamp == self.read_order(wiring).number + 1;
        if is_ready {
            self.place = Place::Take(self.place.turn());
        }
        is_ready
    }

    /// It has taken the word of the read whose turn it is.
    pub fn take(&mut self, wiring: &TaskWiring)
        requires { rule.turn_at self.old.place + 1 < 2 ^ 32 }
        ensures { self.new ≡ move.after_take wiring.now self.old (rule.turn_at self.old.place) }
    {
        self.place = read_place(wiring.reads.len(), self.place.turn() + 1);
    }

    /// It has shut its slot and computed, and is to put its first out.
    pub fn shut(&mut self)
        ensures { self.new ≡ move.at_place self.old (Place.Put 0) }
    {
        self.place = Place::Put(0);
    }

    /// It has put the out of this port.
    pub fn put(&mut self, wiring: &TaskWiring, port: u32)
        requires { port + 1 < 2 ^ 32 }
        ensures { self.new ≡ move.at_place self.old (move.put_place wiring.now.ports (port + 1)) }
    {
        self.place = put_place(wiring.ports, port + 1);
    }

    /// It has stamped its slot.
    pub fn finish(&mut self)
        ensures { self.new ≡ move.at_place self.old Place.End }
    {
        self.place = Place::End;
    }

    /// Its instance has ended, and what it heard is dropped.
    pub fn end(&mut self)
        requires { self.old.ended + 1 < 2 ^ 32 }
        ensures { self.new ≡ move.after_end self.old }
    {
        self.ended += 1;
        self.place = Place::Idle;
        self.heard.clear();
    }
}
