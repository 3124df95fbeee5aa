// The parties of a plan before the first step.

ghost use Rattle.std.specs.Prelude.{◌≡◌, IfOk, OnOk};
ghost use Rattle.word_rule.specs.FirstSeats.{AreFirstTasks, IsFirstReleaser, IsFirstTask};
ghost use Rattle.party_turns.specs.Parties.{AreFresh, IsFreshTask, IsReleaserAlone};

use crate::look_up::{declared_of, wired_of};
use crate::party::Party;
use crate::releaser_party::ReleaserParty;
use crate::rows::room_for_rows;
use crate::task_party::TaskParty;
use dbp_plan::{List, NoMemory, Plan};
use dbp_rules::Work;
use release_book::Book;
use std::alloc::Global;
use word_rule::{ReleaserSeat, SlotWords, TaskSeat};

/// The shared words of the plan and their parties, before the first step: the releaser's first, and then one of each
/// task, in order.
pub fn parties(alloc: Global, plan: &Plan) -> Result<(SlotWords, List<Party>), NoMemory>
    ensures plan { IfOk result (λ made. made.0.plan ≡ plan.now) }
    ensures fresh { IfOk result (λ made. AreFresh made.0 made.1) }
{
    let (words, releaser, tasks) = SlotWords::new(alloc, plan.copy()?)?;
    let parties = parties_of(alloc, plan, &words, releaser, tasks)?;
    Ok((words, parties))
}

// The parties whose seats these are.
fn parties_of(
    alloc: Global,
    plan: &Plan,
    words: &SlotWords,
    releaser: ReleaserSeat,
    tasks: List<TaskSeat>,
) -> Result<List<Party>, NoMemory>
    requires plan { words.now.plan ≡ plan.now }
    requires releaser { IsFirstReleaser words.now releaser }
    requires tasks { AreFirstTasks words.now tasks }
    ensures { IfOk result (AreFresh words.now) }
{
    let mut parties = releaser_alone(alloc, plan, words, releaser)?;
    push_tasks(alloc, words, tasks, &mut parties)?;
    Ok(parties)
}

// The releaser's party.
fn releaser_alone(
    alloc: Global,
    plan: &Plan,
    words: &SlotWords,
    seat: ReleaserSeat,
) -> Result<List<Party>, NoMemory>
    requires plan { words.now.plan ≡ plan.now }
    requires first { IsFirstReleaser words.now seat }
    ensures { IfOk result (IsReleaserAlone words.now) }
{
    let book = Book::new(alloc, plan)?;
    let mut parties = List::new(alloc);
    parties.push(Party::Releaser(ReleaserParty {
        seat,
        book,
        turns: 0,
    }))?;
    Ok(parties)
}

// Adds the parties of the tasks after the releaser's.
fn push_tasks(
    alloc: Global,
    words: &SlotWords,
    seats: List<TaskSeat>,
    parties: &mut List<Party>,
) -> Result<(), NoMemory>
    requires seats { AreFirstTasks words.now seats }
    requires releaser { IsReleaserAlone words.now parties.old }
    ensures { OnOk result (AreFresh words.now parties.new) }
{
    for seat in seats.into_items() {
        let party = task_party(alloc, words, seat)?;
        parties.push(Party::Task(party))?;
    }
    Ok(())
}

// The party of the task whose seat it is.
fn task_party(alloc: Global, words: &SlotWords, seat: TaskSeat) -> Result<TaskParty, NoMemory>
    requires first { IsFirstTask words.now seat.task seat }
    ensures { IfOk result (λ party. IsFreshTask words.now seat.task party) }
{
    let task = declared_of(words, &seat);
    let occurrences = wired_of(words, &seat).times.len();
    let work = Work::start(alloc, task)?;
    let rows = room_for_rows(alloc, task, occurrences)?;
    Ok(TaskParty {
        seat,
        work,
        rows,
        turns: 0,
    })
}
