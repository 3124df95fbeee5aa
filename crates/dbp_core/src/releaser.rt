// What the releaser's steps make of the state: its own part, and the word that they store.

ghost use Rattle.std.specs.Prelude.{◌≡◌, ◌+◌, ◌<◌, ◌^◌, length};
ghost use Rattle.dbp_rules.specs.Moves as move;
ghost use Rattle.dbp_rules.specs.Lookups.{link, task, task_entry};
ghost use Rattle.dbp_rules.specs.Rules.{further, with_claim, with_entry, with_task};

use crate::look_up::task_at;
use dbp_rules::{State, Wiring};

pub(crate) fn see(state: &mut State, number: u32) -> u32
    requires entries { number < length state.old.releaser.tasks }
    requires tasks { number < length state.old.tasks }
    ensures ended { result ≡ (task state.old number).words.ended }
    ensures next { state.new ≡ with_entry state.old number (move.after_seen (task_entry state.old number) (task state.old number).words.ended) }
{
    let ended = task_at(state, number).words.ended;
    state.releaser.see(number, ended);
    ended
}

pub(crate) fn open(state: &mut State, number: u32)
    requires entries { number < length state.old.releaser.tasks }
    requires tasks { number < length state.old.tasks }
    requires place { state.old.releaser.place + 1 < 2 ^ 32 }
    ensures { state.new ≡ further (with_task state.old number (record (task state.old number) { words = move.words_after_open (task state.old number).words (task_entry state.old number).aimed })) }
{
    let gate = state.releaser.open(number);
    let task = &mut state.tasks.items_mut()[number as usize];
    task.words.gate = gate;
}

pub(crate) fn aim(state: &mut State, number: u32, slot: u32)
    requires entries { number < length state.old.releaser.tasks }
    requires tasks { number < length state.old.tasks }
    requires aimed { (task_entry state.old number).aimed + 1 < 2 ^ 32 }
    requires place { state.old.releaser.place + 1 < 2 ^ 32 }
    ensures { state.new ≡ further (with_task (with_entry state.old number (move.after_aim (task_entry state.old number) slot)) number (record (task state.old number) { words = move.words_after_aim (task state.old number).words (move.after_aim (task_entry state.old number) slot) })) }
{
    let aim = state.releaser.aim(number, slot);
    let task = &mut state.tasks.items_mut()[number as usize];
    task.words.aim = aim;
}

pub(crate) fn claim(wiring: &Wiring, state: &mut State, link_number: u32)
    requires link { link_number < length wiring.now.links }
    requires claims { link_number < length state.old.releaser.links }
    requires orders { link_number < length state.old.orders }
    requires writer { (link wiring.now link_number).writer < length state.old.releaser.tasks }
    requires reader { (link wiring.now link_number).reader < length state.old.releaser.tasks }
    requires kept { (link wiring.now link_number).delay < length (task_entry state.old (link wiring.now link_number).writer).kept + 1 }
    requires place { state.old.releaser.place + 1 < 2 ^ 32 }
    ensures { state.new ≡ further (with_claim state.old link_number (move.claim_entry (link wiring.now link_number).delay (task_entry state.old (link wiring.now link_number).writer) (task_entry state.old (link wiring.now link_number).reader))) }
{
    let order = state.releaser.claim(wiring, link_number);
    state.orders.items_mut()[link_number as usize] = order;
}
