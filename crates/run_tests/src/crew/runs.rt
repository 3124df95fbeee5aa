// What the tests do with a crew at some pace and a plan, and whether rows are those of the meaning.

ghost use Rattle.std.specs.Prelude.{◌≡◌, Some};
ghost use Rattle.party_turns.specs.Parties.{AreFresh, HaveFinished};
ghost use Rattle.party_exec.specs.Crews.{thread_ready};

use dbp_plan::{List, Plan, Table};
use party_exec::{Pace, Party, ThreadCrew, parties, table_of};
use std::alloc::Global;
use std::sync::Wait;
use std::test::Fail;
use std::thread::Threads;
use sync_meaning::mean;
use word_rule::SlotWords;

// Whether threads at this pace make the meaning of the plan.
pub(crate) fn makes_meaning_at<R: Threads + Wait + Sync, P: Pace + Drop>(
    rt: &R,
    alloc: Global,
    pace: P,
    plan: &Plan,
) -> Result<bool, Fail> {
    let mut crew = ThreadCrew::new(alloc, pace);
    run_plan_paced(rt, alloc, &mut crew, plan)
}

// Whether this crew does.
fn run_plan_paced<R: Threads + Wait + Sync, P: Pace>(
    rt: &R,
    alloc: Global,
    crew: &mut ThreadCrew<P>,
    plan: &Plan,
) -> Result<bool, Fail> {
    crew.prepare_paced(plan)?;
    let (words, mut parties) = parties(alloc, plan)?;
    run_parties_paced(rt, alloc, crew, &words, &mut parties)
}

// Whether these parties do.
fn run_parties_paced<R: Threads + Wait + Sync, P: Pace>(
    rt: &R,
    alloc: Global,
    crew: &mut ThreadCrew<P>,
    words: &SlotWords,
    parties: &mut List<Party>,
) -> Result<bool, Fail>
    requires ready { thread_ready crew.old ≡ Some words.now.plan }
    requires fresh { AreFresh words.now parties.old }
{
    crew.run_paced(rt, words, parties.items_mut());
    have_meaning(alloc, words, parties)
}

// Whether the rows of the parties are the meaning of their plan.
pub(crate) fn have_meaning(
    alloc: Global,
    words: &SlotWords,
    parties: &List<Party>,
) -> Result<bool, Fail>
    requires { HaveFinished words.now parties.now }
{
    let table = table_of(alloc, words, parties)?;
    is_meaning(alloc, words.plan(), &table)
}

fn is_meaning(alloc: Global, plan: &Plan, table: &Table) -> Result<bool, Fail> {
    let meant = mean(alloc, plan)?;
    Ok(have_same_rows(table, &meant))
}

fn have_same_rows(left: &Table, right: &Table) -> bool {
    left.tasks.len() == right.tasks.len()
        && left.tasks.items().iter().zip(right.tasks.items()).all(|(ours, theirs)| ours.ports
            == theirs.ports
            && ours.words.items() == theirs.words.items())
}
