// The runs of a crew, and the entry that stands ready for the next one.

ghost use Rattle.std.specs.Prelude.{◌≡◌, [], ◌∷◌, ◌++◌, IfOk, None, OnErr, Some, length, vec_capacity, vec_len};
ghost use Rattle.dbp_plan.specs.Occurrences.{times_of};
ghost use Rattle.word_rule.specs.Seats.{TaskSits};
ghost use Rattle.party_turns.specs.Parties.{HaveFinished};
ghost use Rattle.party_exec.specs.Entries.{HasRoom, entry_of, plan_ready, task_ends};
ghost use Rattle.party_exec.specs.declared.crew_entry.CrewEntry.{CrewEntry};

use crate::crew_entry::{CrewEntry, TaskEnd};
use dbp_plan::{List, NoMemory, Plan};
use party_turns::{Party, TaskParty, wired_of};
use std::alloc::Global;
use word_rule::SlotWords;

// The entries of the runs so far; and the next one, with room for it, once it is prepared.
#[derive(Drop)]
pub(crate) struct Runs {
    pub(crate) entries: Vec<CrewEntry>,
    next: Option<CrewEntry>,
    ghost room: { (e : CrewEntry) → next ≡ Some e → HasRoom e (vec_len entries) (vec_capacity entries) },
}

impl Runs {
    pub(crate) fn new(alloc: Global) -> Runs
        ensures none { result.entries.items ≡ [] }
        ensures ready { plan_ready result.next ≡ None }
    {
        Runs {
            entries: Vec::new(alloc),
            next: None,
        }
    }

    // Makes the entry of the next run, which will be one of the plan, and room for it. If memory runs out, the plan that was
    // ready before stays so.
    pub(crate) fn prepare(&mut self, plan: &Plan) -> Result<(), NoMemory>
        ensures entries { self.new.entries.items ≡ self.old.entries.items }
        ensures ready { IfOk result (λ _. plan_ready self.new.next ≡ Some plan.now) }
        ensures kept { OnErr result (plan_ready self.new.next ≡ plan_ready self.old.next) }
    {
        let entry = open_entry(*self.entries.allocator(), plan)?;
        self.entries.reserve(1)?;
        self.next = Some(entry);
        Ok(())
    }

    // Adds the entry of the run in which these parties have finished.
    pub(crate) fn close(&mut self, words: &SlotWords, parties: &[Party])
        requires ready { plan_ready self.old.next ≡ Some words.now.plan }
        requires finished { HaveFinished words.now parties.now }
        ensures entries { self.new.entries.items ≡ self.old.entries.items ++ entry_of words.now.plan ∷ [] }
        ensures ready { plan_ready self.new.next ≡ None }
    {
        if let Some(mut entry) = self.next.take() {
            note_ends(&mut entry.tasks, words, parties);
            self.entries.push_reserved(entry);
        }
    }
}

// The entry of a run that hasn't begun.
fn open_entry(alloc: Global, plan: &Plan) -> Result<CrewEntry, NoMemory>
    ensures plan { IfOk result (λ e. e.plan ≡ plan.now) }
    ensures tasks { IfOk result (λ e. length e.tasks ≡ length plan.now.diagram.tasks) }
{
    let mut tasks = List::new(alloc);
    for _ in 0..plan.diagram.tasks.len() {
        tasks.push(TaskEnd {
            ended: 0,
            occurrences: 0,
        })?;
    }
    Ok(CrewEntry {
        plan: plan.copy()?,
        tasks,
    })
}

// Writes how the tasks of the parties stand.
fn note_ends(ends: &mut List<TaskEnd>, words: &SlotWords, parties: &[Party])
    requires size { length ends.old ≡ length words.now.plan.diagram.tasks }
    requires finished { HaveFinished words.now parties.now }
    ensures { ends.new ≡ task_ends words.now.plan }
{
    let ends = ends.items_mut();
    for i in 0..ends.len() {
        match &parties[i + 1] {
            Party::Releaser(_) => unreachable!(),
            Party::Task(party) => ends[i] = end_of(words, party),
        }
    }
}

// How the party's task stands.
fn end_of(words: &SlotWords, party: &TaskParty) -> TaskEnd
    requires { TaskSits words.now party.now.seat }
    ensures ended { result.ended ≡ party.now.seat.part.ended }
    ensures occurrences { result.occurrences ≡ length (times_of words.now.plan.batches party.now.seat.task) }
{
    let seat = party.seat();
    TaskEnd {
        ended: seat.part().ended,
        occurrences: wired_of(words, seat).times.len(),
    }
}
