// The bell of a party, which ends the sleep of the party's job.

use std::sync::Wait;
use std::sync::atomic::{AtomicBool, AtomicU64, Ordering};

// The number of no party.
const NOBODY: u64 = u64::MAX;

// How often it was rung, the party for whose step its job waits, whether that job sleeps, and how many instances of its task
// are done. No value is passed: whoever is woken loads the shared word itself.
#[derive(Drop)]
pub(crate) struct Bell {
    rings: AtomicU64,
    awaited: AtomicU64,
    sleeps: AtomicBool,
    done: AtomicU64,
}

impl Bell {
    pub(crate) fn new() -> Bell {
        Bell {
            rings: AtomicU64::new(0),
            awaited: AtomicU64::new(NOBODY),
            sleeps: AtomicBool::new(false),
            done: AtomicU64::new(0),
        }
    }

    // How often it was rung so far.
    pub(crate) fn rings(&self) -> u64 {
        self.rings.load(Ordering::SeqCst)
    }

    // The job says that it waits for a step of the party with this number.
    pub(crate) fn say_awaited(&self, party: u32) {
        self.awaited.store(u64::from(party), Ordering::SeqCst);
    }

    // Whether the job waits for a step of the party with this number.
    pub(crate) fn awaits(&self, party: u32) -> bool {
        self.awaited.load(Ordering::SeqCst) == u64::from(party)
    }

    // A job that waits for a step of the first party waits for one of the second from now on. Returns whether it does.
    pub(crate) fn pass(&self, first: u32, second: u32) -> bool {
        self.awaited
            .compare_exchange(
                u64::from(first),
                u64::from(second),
                Ordering::SeqCst,
                Ordering::SeqCst,
            )
            .is_ok()
    }

    // Says how many instances of its task are done.
    pub(crate) fn say_done(&self, instances: u64) {
        self.done.store(instances, Ordering::SeqCst);
    }

    // Whether it was said that so many instances of its task are done.
    pub(crate) fn has_done(&self, instances: u32) -> bool {
        self.done.load(Ordering::SeqCst) >= u64::from(instances)
    }

    // The job says that it sleeps.
    pub(crate) fn say_asleep(&self) {
        self.sleeps.store(true, Ordering::SeqCst);
    }

    // The job says that it neither waits nor sleeps.
    pub(crate) fn say_awake(&self) {
        self.awaited.store(NOBODY, Ordering::SeqCst);
        self.sleeps.store(false, Ordering::SeqCst);
    }

    // Watches the count for so many loads, and returns whether it isn't this one any more.
    pub(crate) fn has_rung_since(&self, rings: u64, loads: usize) -> bool {
        for _ in 0..loads {
            if self.rings() != rings {
                return true;
            }
        }
        false
    }

    // Sleeps while the count is this one. The system compares 32 bits of it: between a count and its sleep a bell is rung at
    // most once for each occurrence, and once when the round ends.
    pub(crate) fn sleep<R: Wait>(&self, rt: &R, rings: u64) {
        for _ in rt.forever() {
            if self.rings() != rings {
                return;
            }
            self.rings.park(rt, (rings & 0xffff_ffff) as u32);
        }
    }

    // Rings after a step of the party with this number, if the job waits for one. Else this is a load.
    pub(crate) fn ring_after(&self, party: u32) {
        if self.awaits(party) {
            self.ring();
        }
    }

    // Counts one ring more, and wakes the job if it sleeps.
    pub(crate) fn ring(&self) {
        self.rings.fetch_add(1, Ordering::SeqCst);
        if self.sleeps.load(Ordering::SeqCst) {
            self.rings.wake_one();
        }
    }
}
