// Lays out the table of a diagram.
ghost use Rattle.std.specs.Prelude.{◌≡◌};
ghost use Rattle.dbp_plan.specs.Ranked.{IsRanked};
ghost use Rattle.dbp_slots.specs.Layout.{sizes};
ghost use Rattle.dbp_slots.specs.TableWords.{sizes_of};

use super::{Block, Layout};
use crate::counting::counts;
use dbp_plan::{Diagram, MAX_TASKS};

/// The addresses of the words for a run of the diagram, which is ranked: each task has its slots of a run, and a slot a
/// word for each of the task's outs.
pub fn layout(diagram: &Diagram) -> Layout
    requires { IsRanked diagram.now }
    ensures { sizes result ≡ sizes_of diagram.now }
{
    let tasks = diagram.tasks.len();
    let links = diagram.links.len();
    let mut blocks = [Block {
        begin: 0,
        slots: 0,
        ports: 0,
    }; MAX_TASKS as usize];
    let mut end = 1 + 3 * tasks + links;
    for (i, task) in diagram.tasks.items().iter().enumerate() {
        let slots = counts(diagram, i as u32).run;
        let ports = task.outs.len();
        blocks[i] = Block {
            begin: end,
            slots,
            ports,
        };
        end += slots * (1 + ports);
    }
    Layout {
        tasks,
        links,
        blocks,
        end,
    }
}
