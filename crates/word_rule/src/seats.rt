// The shared words, and the seats of the parties.

ghost use Rattle.std.specs.Prelude.{◌≡◌};
ghost use Rattle.dbp_slots.specs.Layout.{sizes};
ghost use Rattle.dbp_slots.specs.TableWords.{sizes_of, word_count};
ghost use Rattle.dbp_rules.specs.Shapes.{IsWired};
ghost use Rattle.word_rule.specs.Plays.{IsReleaser, IsTask};
ghost use Rattle.word_rule.specs.Roles.{run_wiring};

use crate::views::{SoundWords, View};
use atomic_table::{Seat, Table};
use dbp_plan::Plan;
use dbp_rules::{ReleaserPart, TaskPart, Wiring};
use dbp_slots::Layout;
use std::alloc::Global;

/// The words that the parties of a run share. They have no lock: each call is one atomic step on one word.
pub struct SlotWords {
    pub(crate) table: Table<(), View, Plan, SoundWords, Global>,
    pub(crate) plan: Plan,
    pub(crate) wiring: Wiring,
    pub(crate) layout: Layout,
    ghost keyed: { table.shared.key ≡ plan },
    ghost sized: { table.shared.table_id.words ≡ word_count (sizes_of plan.diagram) },
    ghost wired: { wiring ≡ run_wiring plan },
    ghost laid: { sizes layout ≡ sizes_of plan.diagram },
}

// By hand, as the prover then takes one step where it is dropped, and not one for each part.
impl Drop for SlotWords {
    fn drop(self) {
        let SlotWords {
            table: _,
            plan: _,
            wiring: _,
            layout: _,
        } = self;
    }
}

/// The seat of the releaser, with its part of the protocol.
#[derive(Drop)]
pub struct ReleaserSeat {
    pub(crate) seat: Seat<(), View>,
    pub(crate) part: ReleaserPart,
    ghost same: { IsReleaser seat.me part },
}

/// The seat of a task, with its part of the protocol.
#[derive(Drop)]
pub struct TaskSeat {
    pub(crate) seat: Seat<(), View>,
    pub(crate) task: u32,
    pub(crate) part: TaskPart,
    ghost same: { IsTask seat.me task part },
}

/// What a `start` hears of the task's gate.
#[derive(Clone, Copy, Debug, PartialEq, Eq)]
pub enum Opened {
    /// It was open for the next instance.
    Started,
    /// It isn't open yet: this is the last instance that was opened.
    Closed {
        /// Its number.
        gate: u32,
    },
}

/// What a `look` hears of the slot that was claimed for its read.
#[derive(Clone, Copy, Debug, PartialEq, Eq)]
pub enum Look {
    /// It holds the row that was ordered.
    Ready,
    /// It doesn't hold that row yet: this is its stamp.
    NotYet {
        /// One more than the number of the row that it holds, or 0.
        stamp: u64,
    },
}
