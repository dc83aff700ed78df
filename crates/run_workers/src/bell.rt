// A count beside the lock, of which no clause speaks: workers sleep until it changes.
use std::sync::{Condvar, Mutex, Wait};

/// Who sleeps here wakes once it was rung after the number that it had heard, if a ring is meant for it: who gets a job rings for one more,
/// who may find another; so a worker that has nothing to do costs a chain of tasks one wake a task, and not one for each worker.
#[derive(Drop)]
pub(crate) struct Bell {
    rings: Mutex<u64>,
    rung: Condvar,
}

impl Bell {
    /// One that nobody rang.
    pub(crate) fn new() -> Bell {
        Bell {
            rings: Mutex::new(0),
            rung: Condvar::new(),
        }
    }

    /// How often it was rung, modulo 2^64.
    pub(crate) fn heard<R: Wait>(&self, rt: &R) -> u64 {
        *self.rings.lock(rt)
    }

    /// Wakes one that sleeps, and keeps from sleep all that haven't heard this ring.
    pub(crate) fn ring<R: Wait>(&self, rt: &R) {
        self.count(rt);
        self.rung.notify_one();
    }

    /// Wakes all that sleep.
    pub(crate) fn ring_for_all<R: Wait>(&self, rt: &R) {
        self.count(rt);
        self.rung.notify_all();
    }

    fn count<R: Wait>(&self, rt: &R) {
        let mut rings = self.rings.lock(rt);
        *rings = rings.wrapping_add(1);
    }

    /// Sleeps until it was rung after that number.
    pub(crate) fn sleep<R: Wait>(&self, rt: &R, heard: u64) {
        let _rings = self
            .rung
            .wait_while(rt, self.rings.lock(rt), |rings| *rings == heard);
    }
}
