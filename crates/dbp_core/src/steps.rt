// What the tasks' steps make of the state.

ghost use Rattle.std.specs.Prelude.{◌≡◌, ◌+◌, ◌-◌, ◌<◌, ◌≤◌, ◌^◌, ℕ, length, map, pos, slice_index, slice_index_or, if◌then◌else◌};
ghost use Rattle.dbp_plan.specs.Closed.{IsClosedTask, place_count};
ghost use Rattle.dbp_plan.specs.Samples.{input_value};
ghost use Rattle.dbp_plan.specs.Lookups.{declared_task};
ghost use Rattle.dbp_rules.specs.Moves as move;
ghost use Rattle.dbp_rules.specs.Lookups.{link, order, read_at, slot_at, task, time, wired_task};
ghost use Rattle.dbp_rules.specs.Rules as rule;
ghost use Rattle.dbp_rules.specs.Rules.{with_part, with_task};
ghost use Rattle.dbp_rules.specs.Shapes.{HasSamples};
ghost use Rattle.dbp_rules.specs.declared.parts.Place.TheVariants as place;
ghost use Rattle.dbp_rules.specs.declared.parts.TheConstants.{MAX_ORDERS};

use crate::look_up::{declared_at, task_at, wired_at};
use dbp_plan::Plan;
use dbp_rules::{Order, Slot, State, Wiring, Work};

pub(crate) fn is_open(state: &State, number: u32) -> bool
    requires task { number < length state.now.tasks }
    requires ended { (task state.now number).part.ended + 1 < 2 ^ 32 }
    ensures { result ≡ rule.is_open state.now number }
{
    let task = task_at(state, number);
    task.part.is_opened_by(task.words.gate)
}

pub(crate) fn start(state: &mut State, number: u32)
    requires task { number < length state.old.tasks }
    requires ended { (task state.old number).part.ended + 1 < 2 ^ 32 }
    ensures { state.new ≡ with_part state.old number (move.after_start (task state.old number).part (rule.is_open state.old number)) }
{
    let task = &mut state.tasks.items_mut()[number as usize];
    task.part.start(task.words.gate);
}

// The order that the task hears at this place.
pub(crate) fn order_word(wiring: &Wiring, state: &State, number: u32, turn: u32) -> Order
    requires wired { number < length wiring.now.tasks }
    requires task { number < length state.now.tasks }
    requires links { turn ≤ length (wired_task wiring.now number).links }
    requires orders { (j : ℕ) → j < length (wired_task wiring.now number).links → slice_index (wired_task wiring.now number).links j < length state.now.orders }
    ensures { result ≡ rule.order_word wiring.now state.now number turn }
{
    if turn == 0 {
        task_at(state, number).words.aim
    } else {
        let link = wired_at(wiring, number).links.items()[turn as usize - 1];
        state.orders.items()[link as usize]
    }
}

pub(crate) fn hear(wiring: &Wiring, state: &mut State, number: u32, turn: u32) -> Order
    requires wired { number < length wiring.now.tasks }
    requires task { number < length state.old.tasks }
    requires at { rule.hears_at (task state.old number).part.place ≡ turn }
    requires links { turn ≤ length (wired_task wiring.now number).links }
    requires orders { (j : ℕ) → j < length (wired_task wiring.now number).links → slice_index (wired_task wiring.now number).links j < length state.old.orders }
    requires room { length (task state.old number).part.heard.items < MAX_ORDERS }
    requires few { 1 + length (wired_task wiring.now number).links < 2 ^ 32 }
    requires small { turn + 1 < 2 ^ 32 }
    ensures order { result ≡ rule.order_word wiring.now state.old number turn }
    ensures next { state.new ≡ with_part state.old number (move.after_hear (wired_task wiring.now number) (task state.old number).part turn (rule.order_word wiring.now state.old number turn)) }
{
    let order = order_word(wiring, state, number, turn);
    let task = &mut state.tasks.items_mut()[number as usize];
    task.part.hear(wired_at(wiring, number), order);
    order
}

// The slot that the task heard for the read whose turn it is.
pub(crate) fn read_slot<'a>(wiring: &Wiring, state: &'a State, number: u32, turn: u32) -> &'a Slot
    requires wired { number < length wiring.now.tasks }
    requires task { number < length state.now.tasks }
    requires at { rule.turn_at (task state.now number).part.place ≡ turn }
    requires read { turn < length (wired_task wiring.now number).reads }
    requires heard { (read_at (wired_task wiring.now number) turn).order < length (task state.now number).part.heard.items }
    requires writer { (read_at (wired_task wiring.now number) turn).writer < length state.now.tasks }
    requires slot { (rule.read_order wiring.now state.now number turn).slot < length (task state.now (read_at (wired_task wiring.now number) turn).writer).words.slots }
    ensures { result.now ≡ rule.read_slot wiring.now state.now number turn }
{
    let read = wired_at(wiring, number).reads.items()[turn as usize];
    let order = task_at(state, number)
        .part
        .read_order(wired_at(wiring, number));
    &task_at(state, read.writer).words.slots.items()[order.slot as usize]
}

pub(crate) fn read_value(wiring: &Wiring, state: &State, number: u32, turn: u32) -> i64
    requires wired { number < length wiring.now.tasks }
    requires task { number < length state.now.tasks }
    requires at { rule.turn_at (task state.now number).part.place ≡ turn }
    requires read { turn < length (wired_task wiring.now number).reads }
    requires heard { (read_at (wired_task wiring.now number) turn).order < length (task state.now number).part.heard.items }
    requires writer { (read_at (wired_task wiring.now number) turn).writer < length state.now.tasks }
    requires slot { (rule.read_order wiring.now state.now number turn).slot < length (task state.now (read_at (wired_task wiring.now number) turn).writer).words.slots }
    requires port { (read_at (wired_task wiring.now number) turn).port < length (rule.read_slot wiring.now state.now number turn).words }
    ensures { result ≡ rule.read_value wiring.now state.now number turn }
{
    let port = wired_at(wiring, number).reads.items()[turn as usize].port;
    read_slot(wiring, state, number, turn).words.items()[port as usize]
}

// The task loads the stamp of the slot that it heard for the read. Returns whether the slot is ready.
pub(crate) fn look(wiring: &Wiring, state: &mut State, number: u32, turn: u32) -> bool
    requires wired { number < length wiring.now.tasks }
    requires task { number < length state.old.tasks }
    requires at { rule.turn_at (task state.old number).part.place ≡ turn }
    requires read { turn < length (wired_task wiring.now number).reads }
    requires heard { (read_at (wired_task wiring.now number) turn).order < length (task state.old number).part.heard.items }
    requires writer { (read_at (wired_task wiring.now number) turn).writer < length state.old.tasks }
    requires slot { (rule.read_order wiring.now state.old number turn).slot < length (task state.old (read_at (wired_task wiring.now number) turn).writer).words.slots }
    requires number { (rule.read_order wiring.now state.old number turn).number + 1 < 2 ^ 32 }
    ensures ready { result ≡ rule.is_ready wiring.now state.old number turn }
    ensures next { state.new ≡ with_part state.old number (move.after_look (task state.old number).part turn (rule.is_ready wiring.now state.old number turn)) }
{
    let stamp = read_slot(wiring, state, number, turn).stamp;
    let task = &mut state.tasks.items_mut()[number as usize];
    task.part.look(wired_at(wiring, number), stamp)
}

// The task takes the word for the read, whose turn it is.
pub(crate) fn take(
    plan: &Plan,
    wiring: &Wiring,
    state: &mut State,
    number: u32,
    turn: u32,
    read: u32,
    word: i64,
)
    requires wired { number < length wiring.now.tasks }
    requires task { number < length state.old.tasks }
    requires at { rule.turn_at (task state.old number).part.place ≡ turn }
    requires declared { number < length plan.now.diagram.tasks }
    requires place { length (declared_task plan.now number).states + length (declared_task plan.now number).senses + read < length (task state.old number).work.now }
    requires small { turn + 1 < 2 ^ 32 }
    ensures { state.new ≡ with_task state.old number (record { words = (task state.old number).words; part = move.after_take (wired_task wiring.now number) (task state.old number).part turn; work = move.with_read (declared_task plan.now number) (task state.old number).work read word }) }
{
    let task = &mut state.tasks.items_mut()[number as usize];
    task.work.set_read(declared_at(plan, number), read, word);
    task.part.take(wired_at(wiring, number));
}

pub(crate) fn put(wiring: &Wiring, state: &mut State, number: u32, port: u32)
    requires wired { number < length wiring.now.tasks }
    requires task { number < length state.old.tasks }
    requires heard { 0 < length (task state.old number).part.heard.items }
    requires slot { move.own_slot (task state.old number).part < length (task state.old number).words.slots }
    requires word { port < length (slot_at (task state.old number).words.slots (move.own_slot (task state.old number).part)).words }
    requires out { port < length (task state.old number).work.row }
    requires small { port + 1 < 2 ^ 32 }
    ensures { state.new ≡ with_task state.old number (record {
      words = move.with_word (task state.old number).words (move.own_slot (task state.old number).part) port (slice_index_or (task state.old number).work.row port (pos 0));
      part = move.at_place (task state.old number).part (move.put_place (wired_task wiring.now number).ports (port + 1));
      work = (task state.old number).work;
    }) }
{
    let task = &mut state.tasks.items_mut()[number as usize];
    let own = task.part.own_slot();
    let word = task.work.row().words()[port as usize];
    let slot = &mut task.words.slots.items_mut()[own as usize];
    slot.words.items_mut()[port as usize] = word;
    task.part.put(wired_at(wiring, number), port);
}

// The task's slot holds the outs of its running instance.
pub(crate) fn finish(state: &mut State, number: u32)
    requires task { number < length state.old.tasks }
    requires heard { 0 < length (task state.old number).part.heard.items }
    requires slot { move.own_slot (task state.old number).part < length (task state.old number).words.slots }
    requires ended { (task state.old number).part.ended + 2 < 2 ^ 32 }
    ensures { state.new ≡ with_task state.old number (record {
      words = move.with_stamp (task state.old number).words (move.own_slot (task state.old number).part) ((task state.old number).part.ended + 2);
      part = move.at_place (task state.old number).part place.End;
      work = (task state.old number).work;
    }) }
{
    let task = &mut state.tasks.items_mut()[number as usize];
    let own = task.part.own_slot();
    let slot = &mut task.words.slots.items_mut()[own as usize];
    slot.stamp = task.part.ended + 2;
    task.part.finish();
}

pub(crate) fn end(state: &mut State, number: u32)
    requires task { number < length state.old.tasks }
    requires ended { (task state.old number).part.ended + 1 < 2 ^ 32 }
    ensures { state.new ≡ with_task state.old number (record {
      words = move.with_ended (task state.old number).words ((task state.old number).part.ended + 1);
      part = move.after_end (task state.old number).part;
      work = move.after_advance (task state.old number).work;
    }) }
{
    let task = &mut state.tasks.items_mut()[number as usize];
    task.part.end();
    task.words.ended = task.part.ended;
    task.work.advance();
}

// The task computes from its states, its senses at the time and what it has read, and stamps its slot with 0.
pub(crate) fn shut(plan: &Plan, wiring: &Wiring, state: &mut State, number: u32)
    requires task { number < length state.old.tasks }
    requires wired { number < length wiring.now.tasks }
    requires declared { number < length plan.now.diagram.tasks }
    requires closed { IsClosedTask (length plan.now.diagram.inputs) (length plan.now.diagram.events) (length plan.now.diagram.links) (declared_task plan.now number) }
    requires samples { HasSamples plan.now wiring.now.samples }
    requires heard { 0 < length (task state.old number).part.heard.items }
    requires slot { move.own_slot (task state.old number).part < length (task state.old number).words.slots }
    requires now { length (task state.old number).work.now ≡ place_count (declared_task plan.now number) }
    requires later { length (task state.old number).work.later ≡ length (declared_task plan.now number).states }
    ensures { state.new ≡ with_task state.old number (record {
      words = move.with_stamp (task state.old number).words (move.own_slot (task state.old number).part) 0;
      part = move.at_place (task state.old number).part (place.Put 0);
      work = move.after_compute (declared_task plan.now number) (rule.sense_values plan.now wiring.now state.old number) (task state.old number).work;
    }) }
{
    let task = &mut state.tasks.items_mut()[number as usize];
    let own = task.part.own_slot();
    let slot = &mut task.words.slots.items_mut()[own as usize];
    slot.stamp = 0;
    work_on(plan, wiring, number, task.part.ended, &mut task.work);
    task.part.shut();
}

// The task's next instance after so many.
fn work_on(plan: &Plan, wiring: &Wiring, number: u32, ended: u32, work: &mut Work)
    requires wired { number < length wiring.now.tasks }
    requires declared { number < length plan.now.diagram.tasks }
    requires closed { IsClosedTask (length plan.now.diagram.inputs) (length plan.now.diagram.events) (length plan.now.diagram.links) (declared_task plan.now number) }
    requires samples { HasSamples plan.now wiring.now.samples }
    requires now { length work.old.now ≡ place_count (declared_task plan.now number) }
    requires later { length work.old.later ≡ length (declared_task plan.now number).states }
    ensures { work.new ≡ move.after_compute (declared_task plan.now number) (map (λ x. input_value plan.now.diagram.inputs plan.now.samples x.input (time (wired_task wiring.now number) (ended + 1))) (declared_task plan.now number).senses) work.old }
{
    let task = declared_at(plan, number);
    work.sense(plan, wiring, task, wired_at(wiring, number), ended);
    work.compute(task);
}
