// Counts the slots that tasks need.
ghost use Rattle.std.specs.Prelude.{◌≡◌, ◌<◌, count_by, length};
ghost use Rattle.dbp_plan.specs.Ranked.{IsRanked};
ghost use Rattle.dbp_slots.specs.Slots.{counts_of, is_to_higher, is_to_lower, longest_delay};

use crate::Counts;
use dbp_plan::Diagram;

/// How many slots the task needs for its outs. It is numbered from 0 and one of the diagram's, which is ranked.
pub fn counts(diagram: &Diagram, task: u32) -> Counts
    requires task { task < length diagram.now.tasks }
    requires ranked { IsRanked diagram.now }
    ensures { result ≡ counts_of diagram.now task }
{
    let lower = lower_readers(diagram, task);
    let higher = higher_readers(diagram, task);
    let delayed = longest_delay(diagram, task);
    Counts {
        lower,
        higher,
        delayed,
        sim: lower + 1 + delayed,
        run: lower + higher + 1 + delayed,
    }
}

// Links from the task to readers that are ranked below it.
fn lower_readers(diagram: &Diagram, task: u32) -> u32
    requires task { task < length diagram.now.tasks }
    requires ranked { IsRanked diagram.now }
    ensures { result ≡ count_by (is_to_lower diagram.now.ranks task) diagram.now.links }
{
    let ranks = diagram.ranks.items();
    let mut count = 0;
    for link in diagram.links.items() {
        if link.writer == task && ranks[task as usize] < ranks[link.reader as usize] {
            count += 1;
        }
    }
    count
}

// Links from the task to readers that are ranked above it.
fn higher_readers(diagram: &Diagram, task: u32) -> u32
    requires task { task < length diagram.now.tasks }
    requires ranked { IsRanked diagram.now }
    ensures { result ≡ count_by (is_to_higher diagram.now.ranks task) diagram.now.links }
{
    let ranks = diagram.ranks.items();
    let mut count = 0;
    for link in diagram.links.items() {
        if link.writer == task && ranks[link.reader as usize] < ranks[task as usize] {
            count += 1;
        }
    }
    count
}

// The greatest delay of the links that leave the task, 0 if none leaves it.
fn longest_delay(diagram: &Diagram, task: u32) -> u32
    ensures { result ≡ longest_delay diagram.now.links task }
{
    diagram
        .links
        .items()
        .iter()
        .filter(|link| link.writer == task)
        .map(|link| link.delay)
        .max()
        .unwrap_or(0)
}
