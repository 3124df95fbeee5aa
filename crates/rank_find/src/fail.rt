// Why a diagram's tasks have no order.

use dbp_plan::{List, Name, NoMemory};

/// Why the tasks of a diagram have no order by their direct links.
#[derive(Drop)]
pub enum RankFail {
    /// Direct links form a cycle. The names are those of the tasks of the first cycle: each writes directly to the next,
    /// and the last to the first.
    Cycle { names: List<Name> },
    /// Memory ran out. That may be at any time.
    NoMemory,
}

impl From<NoMemory> for RankFail {
    ghost use Rattle.std.specs.Prelude.{◌≡◌};
    ghost use Rattle.rank_find.specs.declared.fail.RankFail.TheVariants as rank_fail;

    ghost from_gives = { λ _ e. e ≡ rank_fail.NoMemory };

    fn from(_: NoMemory) -> RankFail {
        RankFail::NoMemory
    }
}
