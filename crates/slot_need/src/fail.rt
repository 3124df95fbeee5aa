// Why a task has no scenario.

use dbp_plan::NoMemory;

/// Why the scenario of a task isn't written.
#[derive(Clone, Copy, Debug, PartialEq, Eq)]
pub enum NeedFail {
    /// The diagram's policy serves by deadline.
    NotFixed,
    /// The task is periodic, or occurs only where an input isn't 0. It is the first such task, numbered from 0.
    NotOnEvents { task: u32 },
    /// The task is on the event of an earlier one. It is the first such task, numbered from 0.
    SharedEvent { task: u32 },
    /// The scenario would end at this tick, which is past the greatest time.
    TooLong { until: u64 },
    /// Memory ran out. That may be at any time after the other refusals.
    NoMemory,
}

impl From<NoMemory> for NeedFail {
    ghost use Rattle.std.specs.Prelude.{◌≡◌};
    ghost use Rattle.slot_need.specs.declared.fail.NeedFail.TheVariants as need_fail;

    ghost from_gives = { λ _ e. e ≡ need_fail.NoMemory };

    fn from(_: NoMemory) -> NeedFail {
        NeedFail::NoMemory
    }
}
