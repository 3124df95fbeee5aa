// The condition that a task's step is tried against besides its own part: the tasks that are ranked above.

ghost use Rattle.std.specs.Prelude.{◌≡◌, ◌<◌, length, IfSome};
ghost use Rattle.dbp_rules.specs.Rules as rule;
ghost use Rattle.dbp_core.specs.Unfinished.{HasUnfinished};

use crate::look_up::{entry_at, task_at, wired_at};
use crate::rank_mask::RankMask;
use dbp_rules::{Broken, Count, Illegal, State, Wiring};

// The time of the task's first instance that hasn't ended; 0 if all have.
fn own_time(wiring: &Wiring, state: &State, number: u32) -> u64
    requires wired { number < length wiring.now.tasks }
    requires task { number < length state.now.tasks }
    ensures { result ≡ rule.own_time wiring.now state.now number }
{
    wired_at(wiring, number).next_time(task_at(state, number).part.ended)
}

// Whether the other task is ranked above this one, and has an unfinished instance that was aimed no later than this one's.
fn blocks(wiring: &Wiring, state: &State, number: u32, other: u32) -> bool
    requires wired { number < length wiring.now.tasks }
    requires other { other < length wiring.now.tasks }
    requires tasks { length state.now.tasks ≡ length wiring.now.tasks }
    requires entries { length state.now.releaser.tasks ≡ length wiring.now.tasks }
    ensures { result ≡ rule.blocks wiring.now state.now number other }
{
    wired_at(wiring, other).rank < wired_at(wiring, number).rank
        && task_at(state, other).part.ended < entry_at(state, other).aimed
        && own_time(wiring, state, other) <= own_time(wiring, state, number)
}

// The higher-ranked of the task found so far and this one.
fn higher(wiring: &Wiring, found: Option<u32>, other: u32) -> u32
    requires task { other < length wiring.now.tasks }
    requires found { IfSome found (λ q. q < length wiring.now.tasks) }
    ensures higher { result ≡ rule.higher wiring.now found other }
    ensures within { result < length wiring.now.tasks }
{
    match found {
        Some(highest) if wired_at(wiring, highest).rank < wired_at(wiring, other).rank => highest,
        _ => other,
    }
}

// The highest-ranked task that blocks the task's step.
fn highest_blocking(wiring: &Wiring, state: &State, number: u32) -> Option<u32>
    requires wired { number < length wiring.now.tasks }
    requires tasks { length state.now.tasks ≡ length wiring.now.tasks }
    requires entries { length state.now.releaser.tasks ≡ length wiring.now.tasks }
    ensures { result ≡ rule.highest wiring.now (rule.blocks wiring.now state.now number) (length wiring.now.tasks) }
{
    let mut found = None;
    for other in 0..wiring.tasks.len() {
        if blocks(wiring, state, number, other) {
            found = Some(higher(wiring, found, other));
        }
    }
    found
}

// Why a higher rank keeps the task from its step. The tasks are looked over only if a higher rank is unfinished.
pub(crate) fn blocker_refusal(
    wiring: &Wiring,
    state: &State,
    unfinished: RankMask,
    number: u32,
) -> Option<Illegal>
    requires wired { number < length wiring.now.tasks }
    requires tasks { length state.now.tasks ≡ length wiring.now.tasks }
    requires entries { length state.now.releaser.tasks ≡ length wiring.now.tasks }
    requires ranks { HasUnfinished wiring.now state.now unfinished }
    ensures { result ≡ rule.blocker_refusal wiring.now.count wiring.now state.now number }
{
    match wiring.count {
        Count::All => None,
        Count::Ranked => {
            if !unfinished.has_above(wired_at(wiring, number).rank) {
                return None;
            }
            let highest = highest_blocking(wiring, state, number)?;
            Some(Illegal {
                broken: Broken::HigherUnfinished,
                left: u64::from(highest),
                right: u64::from(number),
            })
        }
    }
}
