// How the threads of a run begin together.

use std::sync::Wait;
use std::sync::atomic::{AtomicU64, Ordering};
use std::time::Duration;

// So often a thread sleeps while no other comes, for at most so many milliseconds each time. Then all begin without those that
// haven't come: there may be fewer threads than parties.
const MOST_SLEEPS: u32 = 4;

const MILLISECONDS: u64 = 50;

// The count of a meeting that is given up. It is more than there are parties.
const GIVEN_UP: u64 = 1 << 31;

// How many are to begin, and how many have come so far.
#[derive(Drop)]
pub(crate) struct Meeting {
    parties: u64,
    come: AtomicU64,
}

impl Meeting {
    pub(crate) fn new(parties: usize) -> Meeting {
        Meeting {
            parties: parties as u64,
            come: AtomicU64::new(0),
        }
    }

    // Waits until all have come, or until none has come for so long as is said above, and returns whether all have: it returns
    // the same to each. If so each party has a thread of its own, since none has ended before. A job that began alone would
    // soon have nothing but idle turns, and end before the others' threads are there. The last one wakes the others.
    pub(crate) fn attend<R: Wait>(&self, rt: &R) -> bool {
        let before = self.come.fetch_add(1, Ordering::SeqCst);
        if before.saturating_add(1) == self.parties {
            self.come.wake_all();
            return true;
        }
        let mut come = 0;
        for _ in 0..self.parties {
            come = self.await_more_than(rt, come);
            if come >= self.parties {
                break;
            }
        }
        come < GIVEN_UP
    }

    // Whether all have come.
    pub(crate) fn have_come(&self) -> bool {
        self.come.load(Ordering::SeqCst) == self.parties
    }

    // Returns how many have come, once it is more than so many.
    fn await_more_than<R: Wait>(&self, rt: &R, before: u64) -> u64 {
        for _ in 0..MOST_SLEEPS {
            let come = self.come.load(Ordering::SeqCst);
            if come > before {
                return come;
            }
            self.come.park_timeout(
                rt,
                (before & 0xffff_ffff) as u32,
                Duration::from_millis(MILLISECONDS),
            );
        }
        self.give_up(before)
    }

    // Gives up if still so many have come, and returns how many have. The count tells both apart in one atomic step: all
    // can't come after it was given up, nor be given up after all have come.
    fn give_up(&self, before: u64) -> u64 {
        let change = self
            .come
            .compare_exchange(before, GIVEN_UP, Ordering::SeqCst, Ordering::SeqCst);
        match change {
            Ok(_) => {
                self.come.wake_all();
                GIVEN_UP
            }
            Err(come) => come,
        }
    }
}
