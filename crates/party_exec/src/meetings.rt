// When the threads of a run meet.

// After the first meeting that is given up threads are made so many times without one, and after each further one so many
// times as often.
const TIMES_WITHOUT: u64 = 16;

// How many times threads are made next without a meeting, and how many times after the next one that is given up.
#[derive(Clone, Copy)]
pub(crate) struct Meetings {
    without: u64,
    next: u64,
}

impl Meetings {
    pub(crate) fn new() -> Meetings {
        Meetings {
            without: 0,
            next: TIMES_WITHOUT,
        }
    }

    // Whether the threads that are made next meet.
    pub(crate) fn is_held(self) -> bool {
        self.without == 0
    }

    // After these threads.
    pub(crate) fn after(self, is_given_up: bool) -> Meetings {
        if is_given_up {
            Meetings {
                without: self.next,
                next: self.next.saturating_mul(TIMES_WITHOUT),
            }
        } else {
            Meetings {
                without: self.without.saturating_sub(1),
                next: self.next,
            }
        }
    }
}
