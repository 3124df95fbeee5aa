// Whether a step is its party's next one.

ghost use Rattle.std.specs.Prelude.{◌≡◌};
ghost use Rattle.dbp_rules.specs.PartyRules.{is_next, place_kind, release_kind};
ghost use Rattle.dbp_rules.specs.Shapes.{PlaceIn};
ghost use Rattle.dbp_rules.specs.StepKinds.{kind_number, kind_of, subject_of};

use crate::kind::StepKind;
use crate::parts::Place;
use crate::step::{Broken, Illegal, Step};
use crate::wiring::TaskWiring;
use release_list::Release;

// Stands for a step of the right kind that names another task, link, read or port.
const OTHER_SUBJECT: u32 = 13;

// A party's next step: the number of its kind, 0 if there is none, and the task, link, read or port that it names.
#[derive(Clone, Copy)]
pub(crate) struct NextStep {
    pub(crate) number: u32,
    pub(crate) subject: u32,
}

fn next_step(kind: StepKind, subject: u32) -> NextStep
    ensures number { result.number ≡ kind_number kind }
    ensures subject { result.subject ≡ subject }
{
    NextStep {
        number: kind.number(),
        subject,
    }
}

pub(crate) fn next_release(release: Option<Release>) -> NextStep
    ensures { (result.number, result.subject) ≡ release_kind release }
{
    match release {
        None => NextStep {
            number: 0,
            subject: 0,
        },
        Some(Release::Aim { task }) => next_step(StepKind::Aim, u32::from(task)),
        Some(Release::Claim { link }) => next_step(StepKind::Claim, u32::from(link)),
        Some(Release::OpenGate { task }) => next_step(StepKind::OpenGate, u32::from(task)),
    }
}

pub(crate) fn step_at(wiring: &TaskWiring, place: Place) -> NextStep
    requires { PlaceIn wiring.now place }
    ensures { (result.number, result.subject) ≡ place_kind wiring.now place }
{
    match place {
        Place::Idle => next_step(StepKind::Start, 0),
        Place::Hear(_) => next_step(StepKind::Hear, 0),
        Place::Look(n) => next_step(StepKind::Look, wiring.reads.items()[n as usize].read),
        Place::Take(n) => next_step(StepKind::Take, wiring.reads.items()[n as usize].read),
        Place::Shut => next_step(StepKind::Shut, 0),
        Place::Put(port) => next_step(StepKind::Put, port),
        Place::Done => next_step(StepKind::Done, 0),
        Place::End => next_step(StepKind::End, 0),
    }
}

// Why the step isn't the next one, if that is so.
pub(crate) fn not_next(broken: Broken, next: NextStep, step: Step) -> Option<Illegal>
    ensures { result ≡ is_next broken (next.number, next.subject) (kind_number (kind_of step)) (subject_of step) }
{
    let number = step.kind().number();
    let right = if next.number != number {
        number
    } else if next.subject != step.subject() {
        OTHER_SUBJECT
    } else {
        return None;
    };
    Some(Illegal {
        broken,
        left: u64::from(next.number),
        right: u64::from(right),
    })
}
