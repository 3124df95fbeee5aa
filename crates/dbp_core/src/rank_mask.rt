// The ranks that have an unfinished instance, as bits of a number: by them a task's step finds out whether a higher
// rank is unfinished, without a look over all tasks.

ghost use Rattle.std.specs.Prelude.{◌≡◌, ◌<◌, length};
ghost use Rattle.dbp_core.specs.Unfinished.{is_unfinished, recounted_task};

use crate::look_up::{entry_at, task_at, wired_at};
use dbp_rules::{State, Step, Wiring};

// Ranks, as bits of a number.
#[derive(Clone, Copy)]
pub(crate) struct RankMask {
    bits: u32,
}

impl RankMask {
    ghost use Rattle.std.specs.Prelude.{◌≡◌, ◌≢◌, ◌<◌, ◌≤◌, ℕ, Some, true, false, length};
    ghost use Rattle.dbp_rules.specs.Lookups.{wired_task};
    ghost use Rattle.dbp_core.specs.Unfinished.{HasRanks, HasUnfinished, has_rank, is_unfinished, recounted_task};

    // No rank.
    pub(crate) fn empty() -> RankMask
        ensures { (other : ℕ) → has_rank result other ≡ false }
    {
        RankMask { bits: 0 }
    }

    // Whether it has a rank above this one.
    pub(crate) fn has_above(self, rank: u32) -> bool
        ensures none { result ≡ false → (other : ℕ) → other < rank → has_rank self other ≡ false }
        ensures some { rank ≤ 32 → result ≡ true → (other : ℕ) × (other < rank) × (has_rank self other ≡ true) }
    {
        let bits = self.bits;
        bits.trailing_zeros() < rank
    }

    // Puts the rank in, or takes it out.
    fn set(&mut self, rank: u32, is_in: bool)
        requires { rank < 32 }
        ensures same { has_rank self.new rank ≡ is_in }
        ensures others { (other : ℕ) → other < 32 → other ≢ rank → has_rank self.new other ≡ has_rank self.old other }
    {
        let bit = 1u32 << rank;
        if is_in {
            self.bits |= bit;
        } else {
            self.bits &= !bit;
        }
    }

    // After a step, however it was answered: counts the task anew that it aims or ends.
    #[inline(always)]
    pub(crate) fn recount(&mut self, wiring: &Wiring, state: &State, step: Step)
        requires ranks { HasRanks wiring.now }
        requires tasks { length state.now.tasks ≡ length wiring.now.tasks }
        requires entries { length state.now.releaser.tasks ≡ length wiring.now.tasks }
        requires named { (number : ℕ) → recounted_task step ≡ Some number → number < length wiring.now.tasks }
        requires others { (j : ℕ) → j < length wiring.now.tasks → recounted_task step ≢ Some j → has_rank self.old (wired_task wiring.now j).rank ≡ is_unfinished state.now j }
        ensures { HasUnfinished wiring.now state.now self.new }
    {
        if let Some(task) = recounted_task(step) {
            self.set(wired_at(wiring, task).rank, is_unfinished(state, task));
        }
    }
}

// The task that the step aims or ends.
fn recounted_task(step: Step) -> Option<u32>
    ensures { result ≡ recounted_task step }
{
    match step {
        Step::Aim { task, .. } => Some(task),
        Step::End { task } => Some(task),
        _ => None,
    }
}

// Whether the task has an aimed instance that hasn't ended.
fn is_unfinished(state: &State, number: u32) -> bool
    requires tasks { number < length state.now.tasks }
    requires entries { number < length state.now.releaser.tasks }
    ensures { result ≡ is_unfinished state.now number }
{
    task_at(state, number).part.ended < entry_at(state, number).aimed
}
