// What the threads of a run share beside the words, for the rounds that they make.

ghost use Rattle.std.specs.Prelude.{◌<◌, ◌≤◌};
ghost use Rattle.dbp_plan.specs.declared.limits.TheConstants.{MAX_TASKS};

use crate::bell::Bell;
use crate::meeting::Meeting;
use crate::waiting::Waiting;
use dbp_plan::MAX_TASKS;
use std::array;
use std::sync::Wait;
use std::sync::atomic::{AtomicBool, Ordering};

// The parties of a run, at most.
const MOST_PARTIES: usize = MAX_TASKS as usize + 1;

const _: () = prove!(MOST_PARTIES == 33);

// So many loads are shared among the pairs of threads: the more there are, the sooner another one needs the processor.
const LOADS: usize = 16384;

// Their meeting, if they hold one, a bell for each party, by the party's number, and whether a thread has made its last job
// before its party has finished.
#[derive(Drop)]
pub(crate) struct Round {
    meeting: Option<Meeting>,
    pub(crate) bells: [Bell; MOST_PARTIES],
    is_ending: AtomicBool,
    // how often a job that waits loads the count of its bell before it sleeps
    pub(crate) loads: usize,
}

impl Round {
    pub(crate) fn new(threads: usize, is_met: bool) -> Round
        requires { 0 < threads }
    {
        Round {
            meeting: if is_met {
                Some(Meeting::new(threads))
            } else {
                None
            },
            bells: array::from_fn(|_: usize| Bell::new()),
            is_ending: AtomicBool::new(false),
            loads: LOADS / threads / threads,
        }
    }

    // Waits for the others to begin with them. A job doesn't wait where there may be fewer threads than parties: these run one
    // after another, and one that sleeps would keep those after it from ever running.
    pub(crate) fn begin<R: Wait>(&self, rt: &R) -> Waiting {
        match &self.meeting {
            Some(meeting) if meeting.attend(rt) => Waiting::No,
            _ => Waiting::Never,
        }
    }

    // Whether they were to meet and haven't.
    pub(crate) fn was_given_up(&self) -> bool {
        match &self.meeting {
            Some(meeting) => !meeting.have_come(),
            None => false,
        }
    }

    // The bell of the party with this number.
    pub(crate) fn bell(&self, party: u32) -> &Bell
        requires { party ≤ MAX_TASKS }
    {
        &self.bells[party as usize]
    }

    // Whether a thread has made its last job before its party has finished.
    pub(crate) fn is_ending(&self) -> bool {
        self.is_ending.load(Ordering::SeqCst)
    }

    // A thread has made its last job before its party has finished: the others may wait for its steps, so none may sleep from
    // now on.
    pub(crate) fn end(&self) {
        if self.is_ending.swap(true, Ordering::SeqCst) {
            return;
        }
        for bell in &self.bells {
            bell.ring();
        }
    }
}
