// For whose step a party waits, and who may wait for its steps.

ghost use Rattle.std.specs.Prelude.{◌≡◌, ◌<◌, ◌≤◌, length};
ghost use Rattle.dbp_plan.specs.declared.limits.TheConstants.{MAX_TASKS};
ghost use Rattle.dbp_rules.specs.declared.parts.Place.TheVariants as place;
ghost use Rattle.word_rule.specs.Seats.{TaskSits};
ghost use Rattle.party_turns.specs.Parties.{Belongs};
ghost use Rattle.party_exec.specs.Concerns.{IsConcernIn};

use crate::round::Round;
use dbp_rules::Place;
use party_turns::{Party, TaskParty, wired_of};
use release_book::ReleaseStep;
use release_list::Release;
use word_rule::SlotWords;

// The number of the releaser's party.
pub(crate) fn releaser_number(words: &SlotWords) -> u32
    ensures number { result ≡ length words.now.plan.diagram.tasks }
    ensures few { result ≤ MAX_TASKS }
{
    words.plan().diagram.tasks.len()
}

// For whose step the party waits if its turn was idle: at a gate for the releaser's, at a look for the writer's, and the
// releaser for that of the task that it sees. At any other place it waits for nobody.
pub(crate) fn awaited(words: &SlotWords, party: &Party) -> Option<u32>
    requires { Belongs words.now party.now }
{
    match party {
        Party::Releaser(party) => match party.next_step(words) {
            ReleaseStep::Seen { task } => Some(task),
            _ => None,
        },
        Party::Task(party) => match party.seat().part().place {
            Place::Idle => Some(releaser_number(words)),
            Place::Look(turn) => Some(writer_of_read(words, party, turn)),
            _ => None,
        },
    }
}

// The task whose out is read by the read whose turn this is.
fn writer_of_read(words: &SlotWords, party: &TaskParty, turn: u32) -> u32
    requires here { TaskSits words.now party.now.seat }
    requires place { party.now.seat.part.place ≡ place.Look turn }
{
    wired_of(words, party.seat()).reads.items()[turn as usize].writer
}

// Who may wait for a step.
#[derive(Clone, Copy)]
pub(crate) enum Concern {
    // Nobody.
    Nobody,
    // The party with this number.
    Party(u32),
    // The party of the task with this number, whose gate is opened.
    Opened(u32),
    // The parties of the tasks that read the outs of the one with this number.
    Readers(u32),
}

// Who may wait for the party's next step: for an open that task, for a done the readers of the task, and for an end the
// releaser.
pub(crate) fn concerned(words: &SlotWords, party: &Party) -> Concern
    requires { Belongs words.now party.now }
    ensures { IsConcernIn words.now result }
{
    match party {
        Party::Releaser(party) => opened_next(words, party.seat().part().place),
        Party::Task(party) => match party.seat().part().place {
            Place::Done => Concern::Readers(party.seat().task()),
            Place::End => Concern::Party(releaser_number(words)),
            _ => Concern::Nobody,
        },
    }
}

// How many instances of its task are done; 0 of the releaser.
pub(crate) fn instances_done(party: &Party) -> u64 {
    match party {
        Party::Releaser(_) => 0,
        Party::Task(party) => {
            let part = party.seat().part();
            let ended = u64::from(part.ended);
            if matches!(part.place, Place::End) {
                ended + 1
            } else {
                ended
            }
        }
    }
}

// The party whose gate is opened by the action at the place.
fn opened_next(words: &SlotWords, place: u32) -> Concern
    ensures { IsConcernIn words.now result }
{
    match words.wiring().releases.get(place) {
        Some(Release::OpenGate { task }) => Concern::Opened(u32::from(*task)),
        _ => Concern::Nobody,
    }
}

impl Round {
    // Rings for those who wait for the step that the party with this number has made.
    pub(crate) fn ring(&self, words: &SlotWords, number: u32, party: &Party, concern: Concern)
        requires number { number ≤ MAX_TASKS }
        requires concern { IsConcernIn words.now concern }
    {
        match concern {
            Concern::Nobody => {}
            Concern::Party(other) => self.bell(other).ring_after(number),
            Concern::Opened(task) => self.ring_opened(words, number, party, task),
            Concern::Readers(task) => {
                self.bell(number).say_done(instances_done(party));
                self.ring_readers(words, task);
            }
        }
    }

    // A task that waits at the gate that the releaser has opened wouldn't get past its look as long as a task that it reads
    // directly isn't done. If one isn't, it goes on to wait for that one, which rings once it is done.
    fn ring_opened(&self, words: &SlotWords, releaser: u32, party: &Party, task: u32)
        requires { task ≤ MAX_TASKS }
    {
        let bell = self.bell(task);
        if !bell.awaits(releaser) {
            return;
        }
        let Some((writer, instances)) = self.late_writer(words, party, task) else {
            bell.ring();
            return;
        };
        if bell.pass(releaser, writer) && self.has_done(writer, instances) {
            bell.ring();
        }
    }

    // The first task that isn't done with the instance that the task's opened one reads directly; and which instance.
    fn late_writer(&self, words: &SlotWords, party: &Party, task: u32) -> Option<(u32, u32)> {
        let Party::Releaser(party) = party else {
            return None;
        };
        let wiring = words.wiring();
        for number in wiring.tasks.get(task)?.links.items() {
            let link = wiring.links.get(*number)?;
            let claim = party.seat().part().links.get(*number)?;
            if link.delay == 0 && !self.has_done(link.writer, claim.number) {
                return Some((link.writer, claim.number));
            }
        }
        None
    }

    // Whether it was said that so many instances of the task with this number are done.
    fn has_done(&self, task: u32, instances: u32) -> bool {
        match self.bells.get(task as usize) {
            Some(bell) => bell.has_done(instances),
            None => true,
        }
    }

    // A look over a delayed link never waits.
    fn ring_readers(&self, words: &SlotWords, task: u32)
        requires { task < length words.now.plan.diagram.tasks }
    {
        let wiring = words.wiring();
        for link in wiring.task(task).leaving.items() {
            let link = wiring.links.items()[*link as usize];
            if link.delay == 0 {
                self.bell(link.reader).ring_after(task);
            }
        }
    }
}
