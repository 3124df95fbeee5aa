// What the policy compares.
ghost use Rattle.std.specs.Prelude.{◌≡◌, ◌<◌, ◌≤◌, length, slice_index_or, unwrap_or};
ghost use Rattle.dbp_plan.specs.Lookups.{no_declared_task};
ghost use Rattle.dbp_plan.specs.Ranked.{IsRanked};
ghost use Rattle.dbp_plan.specs.declared.limits.TheConstants.{MAX_TIME};
ghost use Rattle.rank_order.specs.Order.{is_before, key_of};

use dbp_plan::{Diagram, ServedBy};

// Two numbers that a policy compares: the first one decides, and at a tie the second. The smaller goes first.
#[derive(Clone, Copy)]
pub(crate) struct Key {
    pub(crate) first: u32,
    pub(crate) second: u32,
}

// The key of an instance of the task that is released at this time.
pub(crate) fn key_of(diagram: &Diagram, task: u32, release: u64) -> Key
    requires ranked { IsRanked diagram.now }
    requires task { task < length diagram.now.tasks }
    requires release { release ≤ MAX_TIME }
    ensures { result ≡ key_of diagram.now task release }
{
    let rank = diagram.ranks.items()[task as usize];
    match diagram.policy.served_by() {
        ServedBy::Rank => Key {
            first: rank,
            second: release as u32,
        },
        ServedBy::Deadline => Key {
            first: (release + relative_deadline(diagram, task)) as u32,
            second: rank,
        },
    }
}

// The ticks from a release of the task to its deadline, 0 if it has none.
fn relative_deadline(diagram: &Diagram, task: u32) -> u64
    requires ranked { IsRanked diagram.now }
    requires task { task < length diagram.now.tasks }
    ensures is { result ≡ unwrap_or (slice_index_or diagram.now.tasks task no_declared_task).deadline 0 }
    ensures small { result ≤ MAX_TIME }
{
    diagram.tasks.items()[task as usize].deadline.unwrap_or(0)
}

// Whether the one key is smaller.
pub(crate) fn is_before(key: Key, other: Key) -> bool
    ensures { result ≡ is_before key other }
{
    key.first < other.first || (key.first == other.first && key.second < other.second)
}
