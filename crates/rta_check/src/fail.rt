// Why a diagram has no response times.

use dbp_plan::NoMemory;

/// Why the response times of a diagram's tasks aren't found.
#[derive(Clone, Copy, Debug, PartialEq, Eq)]
pub enum RtaFail {
    /// Its policy serves by deadline.
    NotFixed,
    /// The task is on an event, or occurs only where an input isn't 0. It is the first such task, numbered from 0.
    NotPeriodic { task: u32 },
    /// Memory ran out. That may be at any time.
    NoMemory,
}

impl From<NoMemory> for RtaFail {
    ghost use Rattle.std.specs.Prelude.{◌≡◌};
    ghost use Rattle.rta_check.specs.declared.fail.RtaFail.TheVariants as rta_fail;

    ghost from_gives = { λ _ e. e ≡ rta_fail.NoMemory };

    fn from(_: NoMemory) -> RtaFail {
        RtaFail::NoMemory
    }
}
