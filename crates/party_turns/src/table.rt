// The rows of the parties that have finished.

ghost use Rattle.std.specs.Prelude.{◌≡◌, IfOk};
ghost use Rattle.sync_meaning.specs.SomeMeaning.{meaning_of};
ghost use Rattle.party_turns.specs.Parties.{HaveFinished};

use crate::party::Party;
use crate::task_party::TaskParty;
use dbp_plan::{List, NoMemory, Table, TaskRows};
use std::alloc::Global;
use word_rule::SlotWords;

/// The rows of all parties, if they have finished: the meaning of the plan. They are those of one table: the releaser's
/// first, and then one of each task, in order.
pub fn table_of(alloc: Global, words: &SlotWords, parties: &List<Party>) -> Result<Table, NoMemory>
    requires { HaveFinished words.now parties.now }
    ensures { IfOk result (λ table. table ≡ meaning_of words.now.plan) }
{
    let mut tasks = List::new(alloc);
    for party in parties.items() {
        if let Party::Task(party) = party {
            let rows = copied_rows(party)?;
            tasks.push(rows)?;
        }
    }
    Ok(Table { tasks })
}

fn copied_rows(party: &TaskParty) -> Result<TaskRows, NoMemory>
    ensures { IfOk result (λ rows. rows ≡ party.now.rows) }
{
    Ok(TaskRows {
        ports: party.rows.ports,
        words: party.rows.words.copied()?,
    })
}
